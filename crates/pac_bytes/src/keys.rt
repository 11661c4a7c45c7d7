// Keys as bytes: those of the values that they are.
ghost use Rattle.std.specs.Prelude.{◌≡◌, ◌≤◌, length, IfOk, OnOk};
ghost use Rattle.pac_value.specs.Growth.{Grew};
ghost use Rattle.pac_value.specs.Values.{key_value};
ghost use Rattle.pac_bytes.specs.declared.values.TheConstants.{MAX_VALUE_LEN};
ghost use Rattle.pac_bytes.specs.Reading.{from};
ghost use Rattle.pac_bytes.specs.Readers.{Answers, Finds, FindsSpelled};
ghost use Rattle.pac_bytes.specs.Values.{HasBytes};
ghost use Rattle.pac_bytes.specs.Typed.{key_bytes, next_key, KeyHasType};

use crate::values::{INT_LEN, put_int, put_text, text_len};
use crate::{TypedFault, typed_at};
use pac_base::NoMemory;
use pac_value::{Key, Ty, Value};

// The key at an offset, which has to be of this type, as reading gives it.
#[tactic(auto, unfolding(crate::specs::Typed::next_key))]
fn read_key(bytes: &[u8], at: usize, ty: Ty) -> Result<(Key, usize), TypedFault>
    ensures exact { Answers bytes.now result (next_key ty (from bytes.now at)) }
    ensures inside { IfOk result (λ found. found.1 ≤ length bytes.now) }
{
    let (value, end) = typed_at(bytes, at, ty)?;
    match value {
        Value::Int(number) => Ok((Key::Int(number), end)),
        Value::Text(text) => Ok((Key::Text(text), end)),
        Value::Bool(_) => unreachable!(),
    }
}

/// The key at an offset, which has to be of this type, and the offset after it.
///
/// # Errors
///
/// Those of [`typed_at`].
pub fn key_at(bytes: &[u8], at: usize, ty: Ty) -> Result<(Key, usize), TypedFault>
    // It is what reading gives, or the first fault.
    ensures exact { Answers bytes.now result (next_key ty (from bytes.now at)) }
    // What is found is written so, and has the type.
    ensures found { Finds (KeyHasType ty) key_bytes bytes.now at result }
    // What has the type and is written so is found, whatever follows.
    ensures again { FindsSpelled (KeyHasType ty) key_bytes bytes.now at result }
    // The offset after it is no further than the end.
    ensures inside { IfOk result (λ found. found.1 ≤ length bytes.now) }
{
    read_key(bytes, at, ty)
}

/// How many bytes a key has.
pub fn key_len(key: &Key) -> usize
    ensures exact { result ≡ length (key_bytes key.now) }
    ensures few { result ≤ MAX_VALUE_LEN }
{
    match key {
        Key::Int(_) => INT_LEN,
        Key::Text(text) => text_len(text),
    }
}

/// Appends a key.
///
/// # Errors
///
/// `NoMemory` alone.
pub fn put_key(out: &mut Vec<u8>, key: &Key) -> Result<(), NoMemory>
    ensures bytes { OnOk result (Grew out.old.items out.new.items (key_bytes key.now)) }
    ensures form { HasBytes (key_value key.now) }
{
    match key {
        Key::Int(number) => put_int(out, *number),
        Key::Text(text) => put_text(out, text),
    }
}
