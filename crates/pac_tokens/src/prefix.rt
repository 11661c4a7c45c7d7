// Reads the first token of bytes, where it is of one kind.
ghost use Rattle.std.specs.Prelude.{◌≡◌, ◌≤◌, length, take, IfSome};
ghost use Rattle.pac_tokens.specs.declared.token.Token.TheVariants as token;
ghost use Rattle.pac_tokens.specs.declared.token.Token.TheVariants.{Text as AText};
ghost use Rattle.pac_tokens.specs.Tokens.{IsPlainNext};

use crate::int::plain_int;
use crate::lexer::{find_keyword, is_digit_byte, is_letter_byte, word_len};
use crate::text::text;
use crate::token::Token;
use pac_value::{Name, Text};

/// How many bytes the name at the start has. `None`: another token stands there, a name that is too long, or none.
pub fn leading_name(bytes: &[u8]) -> Option<usize>
    ensures name { IfSome result (λ len. IsPlainNext bytes.now (token.Name (take len bytes.now)) len) }
    ensures within { IfSome result (λ len. len ≤ length bytes.now) }
{
    let [first, ..] = bytes else {
        return None;
    };
    if !is_letter_byte(*first) {
        return None;
    }
    let len = word_len(bytes);
    if len > Name::MAX {
        return None;
    }
    match find_keyword(&bytes[..len]) {
        None => Some(len),
        Some(_) => None,
    }
}

/// The int at the start, and how many digits it has. `None`: another token stands there, an int above the greatest `i64`, or
/// none.
pub fn leading_int(bytes: &[u8]) -> Option<(i64, usize)>
    ensures int { IfSome result (λ p. IsPlainNext bytes.now (token.Int p.0) p.1) }
    ensures within { IfSome result (λ p. p.1 ≤ length bytes.now) }
{
    let [first, ..] = bytes else {
        return None;
    };
    if !is_digit_byte(*first) {
        return None;
    }
    let (number, len) = plain_int(bytes)?;
    Some((number, len))
}

// The text that a token is.
fn text_of(token: Token) -> Option<Text>
    ensures { IfSome result (λ text. token ≡ AText text) }
{
    match token {
        Token::Text(text) => Some(text),
        _ => None,
    }
}

/// The text at the start, and how many bytes it has with its quotes. `None`: another token stands there, a text that is too
/// long or not well formed, or none.
pub fn leading_text(bytes: &[u8]) -> Option<(Text, usize)>
    ensures text { IfSome result (λ p. IsPlainNext bytes.now (token.Text p.0) p.1) }
    ensures within { IfSome result (λ p. p.1 ≤ length bytes.now) }
{
    let [first, after @ ..] = bytes else {
        return None;
    };
    if *first != b'"' {
        return None;
    }
    let Ok((token, len)) = text(after) else {
        return None;
    };
    let text = text_of(token)?;
    Some((text, len))
}
