// What single tokens are.
ghost use Rattle.std.specs.Prelude.{◌≡◌, ◌∷◌, [], MatchOption};
ghost use Rattle.pac_syntax.specs.Machine.{is_same_keyword_or_symbol, keyword_code, symbol_code};
ghost use Rattle.pac_syntax.specs.Views.{bool_in, name_part};

use pac_tokens::{Keyword, Spanned, Symbol, Token};
use pac_value::Name;

/// The first token, and those after it.
pub fn split_first(tokens: &[Spanned]) -> Option<(Spanned, &[Spanned])>
    ensures { MatchOption result (tokens.now ≡ []) (λ p. tokens.now ≡ p.0 ∷ p.1.now) }
{
    match tokens {
        [] => None,
        [first, rest @ ..] => Some((*first, rest)),
    }
}

/// The name that a token is.
pub fn name_of(token: Token) -> Option<Name>
    ensures { result ≡ name_part token }
{
    match token {
        Token::Name(name) => Some(name),
        _ => None,
    }
}

/// The truth value that a token is, where it is `true` or `false`.
pub fn bool_of(token: &Token) -> Option<bool>
    ensures { result ≡ bool_in token.now }
{
    let Token::Keyword(word) = token else {
        return None;
    };
    match word {
        Keyword::True => Some(true),
        Keyword::False => Some(false),
        _ => None,
    }
}

fn keyword_number(word: Keyword) -> u8
    ensures { result ≡ keyword_code word }
{
    word as u8
}

fn symbol_number(sign: Symbol) -> u8
    ensures { result ≡ symbol_code sign }
{
    sign as u8
}

/// Whether the two are one word or one symbol.
pub fn is_same_keyword_or_symbol(wanted: &Token, found: &Token) -> bool
    ensures { result ≡ is_same_keyword_or_symbol wanted.now found.now }
{
    match wanted {
        Token::Keyword(a) => match found {
            Token::Keyword(b) => keyword_number(*a) == keyword_number(*b),
            _ => false,
        },
        Token::Symbol(a) => match found {
            Token::Symbol(b) => symbol_number(*a) == symbol_number(*b),
            _ => false,
        },
        _ => false,
    }
}
