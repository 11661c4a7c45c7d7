// Reads the int or text that tokens begin with.
ghost use Rattle.std.specs.Prelude.{◌≡◌, ◌<◌, length, IfSome, MatchOption, Some, None};
ghost use Rattle.pac_tokens.specs.Literal.{int_after_minus, int_or_text_in};

use crate::token::{Spanned, Symbol, Token};
use pac_value::Value;

/// The int or text that the tokens begin with, and the tokens after it: an int, a `-` with an int, or a text. `None`: the
/// tokens begin with none.
pub fn int_or_text(tokens: &[Spanned]) -> Option<(Value, &[Spanned])>
    ensures within { IfSome result (λ p. length p.1.now < length tokens.now) }
    ensures prefix { MatchOption result (int_or_text_in tokens.now ≡ None) (λ p. int_or_text_in tokens.now ≡ Some (p.0, p.1.now)) }
{
    let [first, after @ ..] = tokens else {
        return None;
    };
    match first.token {
        Token::Int(number) => Some((Value::Int(number), after)),
        Token::Text(text) => Some((Value::Text(text), after)),
        Token::Symbol(Symbol::Minus) => int_after_minus(after),
        _ => None,
    }
}

// The int after the `-` of a literal, and the tokens after it.
fn int_after_minus(tokens: &[Spanned]) -> Option<(Value, &[Spanned])>
    ensures within { IfSome result (λ p. length p.1.now < length tokens.now) }
    ensures prefix { MatchOption result (int_after_minus tokens.now ≡ None) (λ p. int_after_minus tokens.now ≡ Some (p.0, p.1.now)) }
{
    let [first, after @ ..] = tokens else {
        return None;
    };
    match first.token {
        Token::Negative(number) => Some((Value::Int(number), after)),
        _ => None,
    }
}
