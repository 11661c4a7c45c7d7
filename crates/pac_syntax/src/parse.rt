// Reads the text of a catalogue, by recursive descent over its tokens.
ghost use Rattle.std.specs.Prelude.{◌≡◌, ◌<◌, List, IfOk, IsErrOf, Some, None};
ghost use Rattle.pac_base.specs.Refusals.{Only};
ghost use Rattle.pac_base.specs.declared.refusal.Refusal.TheVariants as error;
ghost use Rattle.pac_syntax.specs.Reading.{Reads, IsTree, IsTextFault, reported_of};
ghost use Rattle.pac_syntax.specs.Limits.{IsWithinLimits};
ghost use Rattle.pac_tokens.specs.declared.fault.Fault.{Fault as AFault};
ghost use Rattle.pac_syntax.specs.declared.tree.Tree.{Tree as ATree};

mod catalogue;
mod expression;
mod parser;
mod statement;

use crate::limits::MAX_CATALOGUE;
use crate::tree::Tree;
use catalogue::parse_tokens;
use pac_tokens::{Fault, FaultKind, SyntaxError, lex};
use std::alloc::Global;

/// The tree of a catalogue's text, which has at most 65,536 bytes. Linear in the text.
///
/// # Errors
///
/// `Fault` only where the text is no catalogue in the grammar and within its limits: its first fault. `NoMemory` may come for
/// any text of at most 65,536 bytes.
pub fn parse_catalogue(alloc: Global, text: &[u8]) -> Result<Tree, SyntaxError>
    ensures reads { IfOk result (λ tree. Reads text.now tree) }
    ensures tree { IfOk result IsTree }
    ensures within { IfOk result IsWithinLimits }
    ensures only { (tree : ATree) → Reads text.now tree → Only result tree }
    ensures fault { (fault : AFault) → IsErrOf result (error.Fault fault) → IsTextFault text.now fault }
    ensures one { (fault other : AFault) → IsErrOf result (error.Fault fault) → IsTextFault text.now other → other ≡ fault }
{
    parse_text(alloc, text)
}

// The same, without the law of first faults.
fn parse_text(alloc: Global, text: &[u8]) -> Result<Tree, SyntaxError>
    ensures reads { IfOk result (λ tree. Reads text.now tree) }
    ensures tree { IfOk result IsTree }
    ensures within { IfOk result IsWithinLimits }
    ensures only { (tree : ATree) → Reads text.now tree → Only result tree }
    ensures fault { (fault : AFault) → IsErrOf result (error.Fault fault) → IsTextFault text.now fault }
{
    if text.len() > MAX_CATALOGUE {
        let at = MAX_CATALOGUE;
        let kind = FaultKind::TooLong;
        return Err(SyntaxError::Fault(Fault { at, kind }));
    }
    let lexed = lex(alloc, text)?;
    match lexed.fault {
        None => parse_tokens(alloc, &lexed.items, text.len()),
        Some(fault) => {
            let parsed = parse_tokens(alloc, &lexed.items, fault.at);
            Err(earlier(parsed, fault))
        }
    }
}

// The fault of the tokens, where it stands before that of a token.
fn earlier(parsed: Result<Tree, SyntaxError>, fault: Fault) -> SyntaxError
    ensures { result ≡ reported_of parsed fault }
{
    match parsed {
        Err(SyntaxError::Fault(first)) if first.at < fault.at => SyntaxError::Fault(first),
        Err(SyntaxError::NoMemory) => SyntaxError::NoMemory,
        _ => SyntaxError::Fault(fault),
    }
}
