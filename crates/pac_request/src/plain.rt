// Reads a call from the bytes of a line, with no list of its tokens: most lines are calls.
ghost use Rattle.std.specs.Prelude.{◌≡◌, ◌≤◌, ◌<◌, ◌∷◌, [], length, drop, take, codes, nat_eq, IfOk, IfSome, IsTrue, MatchOption, Some};
ghost use Rattle.std.specs.Cmp.Lexicographic.{pointwise};
ghost use Rattle.pac_tokens.specs.Tokens.{gap, IsPlainNext};
ghost use Rattle.pac_tokens.specs.declared.token.Token.TheVariants as token;
ghost use Rattle.pac_value.specs.declared.limits.TheConstants.{MAX_PARAMS};
ghost use Rattle.pac_types.specs.WellFormed.{types};
ghost use Rattle.pac_request.specs.LineForms.{verb_word};
ghost use Rattle.pac_request.specs.declared.node.Verb.TheVariants as verb;
ghost use Rattle.pac_request.specs.declared.request.Request.TheVariants.{Call as ACall};
ghost use Rattle.pac_request.specs.RequestMeaning.{value_of};
ghost use Rattle.pac_request.specs.PlainCalls.{IsCalled, HasArguments, AsksPlainly, TakesLiteral, IsLiteralRead, IsEndRead};

use crate::meaning::proc_named;
use crate::node::Verb;
use pac_base::{NoMemory, push};
use pac_ops::{Args, Call};
use pac_tokens::{gap_len, leading_int, leading_name, leading_text};
use pac_types::{Catalogue, Column, Proc};
use pac_value::{Ty, Value};

// The bytes after white space and comments.
fn after_gap(bytes: &[u8]) -> &[u8]
    ensures { result.now ≡ drop (gap bytes.now) bytes.now }
{
    &bytes[gap_len(bytes)..]
}

// The bytes after this one.
fn after_byte(byte: u8, bytes: &[u8]) -> Option<&[u8]>
    ensures { IfSome result (λ rest. bytes.now ≡ byte ∷ rest.now) }
{
    match bytes {
        [first, rest @ ..] if *first == byte => Some(rest),
        _ => None,
    }
}

// Whether `call` and a space come first.
fn begins_call(bytes: &[u8]) -> bool
    ensures { result ≡ pointwise nat_eq (take 5 bytes.now) (codes "call ") }
{
    match bytes {
        [b'c', b'a', b'l', b'l', b' ', ..] => true,
        _ => false,
    }
}

// How many bytes the word `call` has, where it stands here. In most lines a space comes after it.
fn call_len(bytes: &[u8]) -> Option<usize>
    ensures call { IfSome result (λ len. IsPlainNext bytes.now (token.Name (verb_word verb.Call)) len) }
    ensures within { IfSome result (λ len. len ≤ length bytes.now) }
{
    if begins_call(bytes) {
        return Some(4);
    }
    let len = leading_name(bytes)?;
    if &bytes[..len] != Verb::Call.word() {
        return None;
    }
    Some(len)
}

// The procedure that is called, and the bytes after `call NAME (`. `None`: the line is no call, or none of a procedure
// of the catalogue.
fn called<'a, 'b>(catalogue: &'a Catalogue, line: &'b [u8]) -> Option<(u16, &'a Proc, &'b [u8])>
    ensures called { IfSome result (λ p. IsCalled catalogue.now line.now p.0 p.1.now p.2.now) }
    ensures few { IfSome result (λ p. length p.1.now.params ≤ MAX_PARAMS) }
{
    let word = after_gap(line);
    let len = call_len(word)?;
    let name = after_gap(&word[len..]);
    let len = leading_name(name)?;
    let (number, proc) = proc_named(catalogue, &name[..len])?;
    let after = after_byte(b'(', after_gap(&name[len..]))?;
    Some((number, proc, after))
}

// The bytes from which on an argument is read: the first one here, and each other after a comma.
fn to_argument(is_first: bool, bytes: &[u8]) -> Option<&[u8]>
    ensures { IfSome result (λ rest. TakesLiteral is_first bytes.now rest.now) }
{
    if is_first {
        Some(bytes)
    } else {
        after_byte(b',', after_gap(bytes))
    }
}

// An int or a text of this type, and the bytes after it.
fn argument(wanted: Ty, bytes: &[u8]) -> Option<(Value, &[u8])>
    ensures read { IfSome result (λ p. IsLiteralRead bytes.now p.0 p.1.now) }
    ensures value { IfSome result (λ p. value_of wanted p.0 ≡ Some p.0) }
{
    let literal = after_gap(bytes);
    match wanted {
        Ty::Int => {
            let (number, len) = leading_int(literal)?;
            Some((Value::Int(number), &literal[len..]))
        }
        Ty::Text => {
            let (text, len) = leading_text(literal)?;
            Some((Value::Text(text), &literal[len..]))
        }
        Ty::Bool => None,
    }
}

// Whether the arguments, and with them the line, end here.
fn ends(bytes: &[u8]) -> bool
    ensures { IsTrue result → IsEndRead bytes.now }
{
    match after_byte(b')', after_gap(bytes)) {
        None => false,
        Some(after) => gap_len(after) == after.len(),
    }
}

// The first column's type, and the columns after it.
fn split_column(columns: &[Column]) -> Option<(Ty, &[Column])>
    ensures types { MatchOption result (types columns.now ≡ []) (λ p. types columns.now ≡ p.0 ∷ types p.1.now) }
    ensures within { IfSome result (λ p. length p.1.now < length columns.now) }
{
    match columns {
        [] => None,
        [column, more @ ..] => Some((column.ty, more)),
    }
}

// An argument for each parameter, of its type, up to the end of the line, in the room of a list. `None`: something else is
// written there.
fn arguments(
    params: &[Column],
    bytes: &[u8],
    room: Vec<Value>,
) -> Result<Option<Vec<Value>>, NoMemory>
    ensures { IfOk result (λ found. IfSome found (λ values. HasArguments (types params.now) bytes.now values.items)) }
{
    let mut values = room;
    values.clear();
    values.reserve_exact(params.len())?;
    let mut params = params;
    let mut rest = bytes;
    let mut is_first = true;
    while let Some((wanted, more)) = split_column(params) {
        let Some(here) = to_argument(is_first, rest) else {
            return Ok(None);
        };
        let Some((value, after)) = argument(wanted, here) else {
            return Ok(None);
        };
        push(&mut values, value)?;
        params = more;
        rest = after;
        is_first = false;
    }
    if ends(rest) {
        Ok(Some(values))
    } else {
        Ok(None)
    }
}

/// The call that a line is, where it is one of a procedure of the catalogue, and each argument is an int that isn't below
/// zero or a text, of its parameter's type. `None`: the line asks something else, or is refused; its tokens say. The arguments
/// take the room of a list, whose values are gone.
///
/// # Errors
///
/// `NoMemory` alone.
pub(crate) fn plain_call(
    catalogue: &Catalogue,
    line: &[u8],
    room: Vec<Value>,
) -> Result<Option<Call>, NoMemory>
    ensures { IfOk result (λ found. IfSome found (λ call. AsksPlainly catalogue.now line.now (ACall call))) }
{
    let Some((proc, called, after)) = called(catalogue, line) else {
        return Ok(None);
    };
    let Some(values) = arguments(called.params.as_slice(), after, room)? else {
        return Ok(None);
    };
    let args = Args::of(values);
    Ok(Some(Call { proc, args }))
}
