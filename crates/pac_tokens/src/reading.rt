// Reads a text as its tokens.
ghost use Rattle.std.specs.Prelude.{◌≡◌, List, IfOk, IsErrOf, Some, None};
ghost use Rattle.pac_base.specs.Refusals.{Only};
ghost use Rattle.pac_base.specs.declared.refusal.Refusal.TheVariants as error;
ghost use Rattle.pac_tokens.specs.Tokens.{IsLexed};
ghost use Rattle.pac_tokens.specs.declared.fault.Fault.{Fault as AFault};
ghost use Rattle.pac_tokens.specs.declared.token.Spanned.{Spanned as ASpanned};

use crate::fault::SyntaxError;
use crate::lexer::lex;
use crate::token::Tokens;
use pac_base::listed;
use std::alloc::Global;

/// The tokens of a text, with their offsets. Linear in the text.
///
/// # Errors
///
/// `Fault` only where the text isn't a list of tokens: its first fault of a token, with its offset. `NoMemory` may come for any
/// text.
pub fn tokens(alloc: Global, text: &[u8]) -> Result<Tokens, SyntaxError>
    ensures ok { IfOk result (λ found. IsLexed text.now found None) }
    ensures only { (ts : List ASpanned) → IsLexed text.now ts None → Only result ts }
    ensures fault { (fault : AFault) → IsErrOf result (error.Fault fault) → (ts : List ASpanned) × IsLexed text.now ts (Some fault) }
    ensures one { (fault other : AFault) → (ts : List ASpanned) → IsErrOf result (error.Fault fault) → IsLexed text.now ts (Some other) → other ≡ fault }
{
    let lexed = lex(alloc, text)?;
    match lexed.fault {
        None => Ok(listed(lexed.items)),
        Some(fault) => Err(SyntaxError::Fault(fault)),
    }
}
