// Values as bytes.
ghost use Rattle.std.specs.Prelude.{◌≡◌, ◌≤◌, ◌+◌, ◌++◌, List, ℕ, drop, length, IsTrue, IfOk, OnOk, Ok};
ghost use Rattle.pac_value.specs.declared.values.Value.{Value as AValue};
ghost use Rattle.pac_value.specs.declared.values.Value.TheVariants.{Int as AnInt, Text as AText};
ghost use Rattle.pac_value.specs.Growth.{Grew};
ghost use Rattle.pac_value.specs.Values.{is_stored, type_of};
ghost use Rattle.pac_bytes.specs.declared.values.TheConstants.{MAX_VALUE_LEN};
ghost use Rattle.pac_bytes.specs.Reading.{from};
ghost use Rattle.pac_bytes.specs.Readers.{Answers, Finds, FindsSpelled};
ghost use Rattle.pac_bytes.specs.Values.{int_body, text_of_length, text_body, next_type, next_value, value_bytes, HasBytes};

use crate::{ValueFault, put_u8, u8_at, u64_at};
use pac_base::NoMemory;
use pac_value::{Text, Ty, Value};

// The tags of values.
const INT: u8 = 1;

const TEXT: u8 = 2;

// How many bytes an int has.
pub(crate) const INT_LEN: usize = 9;

/// The most bytes that a value has, those of the longest text.
pub const MAX_VALUE_LEN: usize = 2 + Text::MAX;

/// The type of the value at an offset, by its tag alone.
///
/// # Errors
///
/// [`ValueFault::Short`] where the bytes end before the offset or at it, [`ValueFault::Tag`] where its byte is no tag.
pub fn type_at(bytes: &[u8], at: usize) -> Result<Ty, ValueFault>
    ensures exact { result ≡ next_type (from bytes.now at) }
    // The tag is that of the value.
    ensures again { (v : AValue) (more : List ℕ) → HasBytes v → drop at bytes.now ≡ value_bytes v ++ more → result ≡ Ok (type_of v) }
{
    let (tag, _) = u8_at(bytes, at)?;
    match tag {
        INT => Ok(Ty::Int),
        TEXT => Ok(Ty::Text),
        _ => Err(ValueFault::Tag { at }),
    }
}

fn int_at(bytes: &[u8], at: usize) -> Result<(Value, usize), ValueFault>
    ensures exact { Answers bytes.now result (int_body (from bytes.now at)) }
    ensures inside { IfOk result (λ found. found.1 ≤ length bytes.now) }
{
    let (number, end) = u64_at(bytes, at)?;
    Ok((Value::Int(number.cast_signed()), end))
}

// The text of that many bytes at an offset, where its length stands at `field` and its tag at `tag`.
fn text_of_length_at(
    bytes: &[u8],
    at: usize,
    len: usize,
    field: usize,
    tag: usize,
) -> Result<(Value, usize), ValueFault>
    requires { at ≤ length bytes.now }
    ensures exact { Answers bytes.now result (text_of_length tag field len (from bytes.now at)) }
    ensures inside { IfOk result (λ found. found.1 ≤ length bytes.now) }
{
    if len > Text::MAX {
        return Err(ValueFault::Bad { at: tag });
    }
    let rest = &bytes[at..];
    if rest.len() < len {
        return Err(ValueFault::Short { at: field });
    }
    match Text::from_bytes(&rest[..len]) {
        Some(text) => Ok((Value::Text(text), at + len)),
        None => Err(ValueFault::Bad { at: tag }),
    }
}

// The text whose length stands at an offset, and its tag at `tag`.
fn text_at(bytes: &[u8], at: usize, tag: usize) -> Result<(Value, usize), ValueFault>
    ensures exact { Answers bytes.now result (text_body tag (from bytes.now at)) }
    ensures inside { IfOk result (λ found. found.1 ≤ length bytes.now) }
{
    let (len, after) = u8_at(bytes, at)?;
    text_of_length_at(bytes, after, usize::from(len), at, tag)
}

// The value at an offset, as reading gives it.
#[tactic(auto, unfolding(crate::specs::Values::next_value))]
fn read_value(bytes: &[u8], at: usize) -> Result<(Value, usize), ValueFault>
    ensures exact { Answers bytes.now result (next_value (from bytes.now at)) }
    ensures inside { IfOk result (λ found. found.1 ≤ length bytes.now) }
{
    let (tag, after) = u8_at(bytes, at)?;
    match tag {
        INT => int_at(bytes, after),
        TEXT => text_at(bytes, after, at),
        _ => Err(ValueFault::Tag { at }),
    }
}

/// The value at an offset, and the offset after it.
///
/// # Errors
///
/// The first fault from the left:
///
/// - [`ValueFault::Short`] where too few bytes are left for the tag, for the eight bytes of an int, or for the length and
///   the bytes of a text, which are one field. Its offset is that of the field.
/// - [`ValueFault::Tag`] at a byte that is no tag, whatever is left after it.
/// - [`ValueFault::Bad`] at the tag of a text whose length is above 64, whatever is left after it, and of one that is
///   whole and has a byte below 0x20 or above 0x7E.
pub fn value_at(bytes: &[u8], at: usize) -> Result<(Value, usize), ValueFault>
    // It is what reading gives, or the first fault.
    ensures exact { Answers bytes.now result (next_value (from bytes.now at)) }
    // What is found is written so.
    ensures found { Finds HasBytes value_bytes bytes.now at result }
    // What is written so is found, whatever follows.
    ensures again { FindsSpelled HasBytes value_bytes bytes.now at result }
    // The offset after it is no further than the end.
    ensures inside { IfOk result (λ found. found.1 ≤ length bytes.now) }
{
    read_value(bytes, at)
}

/// How many bytes a value has, which is no bool.
pub fn value_len(value: &Value) -> usize
    requires { IsTrue (is_stored value.now) }
    ensures exact { result ≡ length (value_bytes value.now) }
    ensures few { result ≤ MAX_VALUE_LEN }
{
    match value {
        Value::Int(_) => INT_LEN,
        Value::Text(text) => text_len(text),
        Value::Bool(_) => unreachable!(),
    }
}

pub(crate) fn text_len(text: &Text) -> usize
    ensures exact { result ≡ length (value_bytes (AText text.now)) }
    ensures few { result ≤ MAX_VALUE_LEN }
{
    2 + text.bytes().len()
}

/// Appends a value, which is no bool.
///
/// # Errors
///
/// `NoMemory` alone.
pub fn put_value(out: &mut Vec<u8>, value: &Value) -> Result<(), NoMemory>
    requires { IsTrue (is_stored value.now) }
    ensures bytes { OnOk result (Grew out.old.items out.new.items (value_bytes value.now)) }
    ensures form { HasBytes value.now }
{
    match value {
        Value::Int(number) => put_int(out, *number),
        Value::Text(text) => put_text(out, text),
        Value::Bool(_) => unreachable!(),
    }
}

pub(crate) fn put_int(out: &mut Vec<u8>, number: i64) -> Result<(), NoMemory>
    ensures { OnOk result (Grew out.old.items out.new.items (value_bytes (AnInt number))) }
{
    let [a, b, c, d, e, f, g, h] = number.cast_unsigned().to_le_bytes();
    Ok(out.extend_from_slice(&[INT, a, b, c, d, e, f, g, h])?)
}

pub(crate) fn put_text(out: &mut Vec<u8>, text: &Text) -> Result<(), NoMemory>
    ensures bytes { OnOk result (Grew out.old.items out.new.items (value_bytes (AText text.now))) }
    ensures form { HasBytes (AText text.now) }
{
    let bytes = text.bytes();
    put_u8(out, TEXT)?;
    put_u8(out, bytes.len() as u8)?;
    Ok(out.extend_from_slice(bytes)?)
}
