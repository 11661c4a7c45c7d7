// Reads ints, and the `-` before them.
ghost use Rattle.std.specs.Prelude.{◌≡◌, pos, neg_ℤ, ◌≤◌, ◌^◌, Some, None, Ok, IfSome, nat_le, if◌then◌else◌};
ghost use Rattle.std.specs.List.{take_while};
ghost use Rattle.pac_tokens.specs.Tokens.{is_digit, digits_value, next_digits};
ghost use Rattle.pac_tokens.specs.Lexing.{int_at, minus_at};
ghost use Rattle.pac_tokens.specs.declared.lexer.Before.TheVariants.{Other};
ghost use Rattle.pac_tokens.specs.declared.token.Token.TheVariants.{Int};

use crate::fault::FaultKind;
use crate::lexer::{Before, digits_len, gap_len};
use crate::token::{Symbol, Token};

// One more than the greatest int.
const LIMIT: u64 = 9_223_372_036_854_775_808;

// The value of decimal digits, if it is at most 2 ^ 63.
fn magnitude(digits: &[u8]) -> Option<u64>
    ensures { result ≡ (if nat_le (digits_value digits.now) (2 ^ 63) then Some (digits_value digits.now) else None) }
{
    let mut value: u64 = 0;
    for digit in digits {
        if value > LIMIT / 10 {
            return None;
        }
        value = value * 10 + u64::from(digit.saturating_sub(b'0'));
    }
    if value > LIMIT {
        return None;
    }
    Some(value)
}

// The int of digits.
pub(crate) fn int(before: Before, bytes: &[u8]) -> Result<(Token, usize), FaultKind>
    ensures { result ≡ int_at before (take_while is_digit bytes.now) }
{
    let digits = &bytes[..digits_len(bytes)];
    let Some(value) = magnitude(digits) else {
        return Err(FaultKind::TooLong);
    };
    match before {
        Before::LiteralMinus => Ok((Token::Negative(negated(value)), digits.len())),
        _ => match i64::try_from(value) {
            Ok(value) => Ok((Token::Int(value), digits.len())),
            Err(_) => Err(FaultKind::TooLong),
        },
    }
}

/// The int of the digits at the start, where no `-` of a literal stands before them, and how many they are. `None`: it is
/// above the greatest `i64`.
pub(crate) fn plain_int(bytes: &[u8]) -> Option<(i64, usize)>
    ensures { IfSome result (λ p. int_at Other (take_while is_digit bytes.now) ≡ Ok (Int p.0, p.1)) }
{
    let digits = &bytes[..digits_len(bytes)];
    let value = magnitude(digits)?;
    match i64::try_from(value) {
        Ok(value) => Some((value, digits.len())),
        Err(_) => None,
    }
}

// The int below zero of this magnitude.
fn negated(magnitude: u64) -> i64
    requires { magnitude ≤ 2 ^ 63 }
    ensures { result ≡ neg_ℤ (pos magnitude) }
{
    if magnitude == LIMIT {
        i64::MIN
    } else {
        -(magnitude as i64)
    }
}

// A `-`, and what stands after it.
pub(crate) fn minus(before: Before, after: &[u8]) -> Result<(Token, usize), FaultKind>
    ensures { result ≡ minus_at before after.now }
{
    let minus = Token::Symbol(Symbol::Minus);
    if before == Before::Value || fits_after_minus(after) {
        Ok((minus, 1))
    } else {
        Err(FaultKind::TooLong)
    }
}

// The digits that come next, if any, are no more than 2 ^ 63.
fn fits_after_minus(after: &[u8]) -> bool
    ensures { result ≡ nat_le (digits_value (next_digits after.now)) (2 ^ 63) }
{
    let rest = &after[gap_len(after)..];
    let digits = &rest[..digits_len(rest)];
    magnitude(digits).is_some()
}
