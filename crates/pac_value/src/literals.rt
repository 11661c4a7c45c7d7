// Writes counts, values, keys and rows.
ghost use Rattle.std.specs.Prelude.{OnOk};
ghost use Rattle.std.specs.Fmt.{decimal, signed_decimal};
ghost use Rattle.pac_value.specs.Growth.{Grew};
ghost use Rattle.pac_value.specs.Literals.{escaped_byte, quoted, value_text, key_text, further_value_text, values_text};

use crate::{Key, Text, Value};
use itoa::Buffer;
use pac_base::NoMemory;

fn push_int(out: &mut Vec<u8>, number: i64) -> Result<(), NoMemory>
    ensures { OnOk result (Grew out.old.items out.new.items (signed_decimal number)) }
{
    let mut digits = Buffer::new();
    out.extend_from_slice(digits.format(number).as_bytes())?;
    Ok(())
}

fn push_escaped(out: &mut Vec<u8>, byte: u8) -> Result<(), NoMemory>
    ensures { OnOk result (Grew out.old.items out.new.items (escaped_byte byte)) }
{
    if byte == b'"' || byte == b'\\' {
        out.push(b'\\')?;
    }
    out.push(byte)?;
    Ok(())
}

fn push_quoted(out: &mut Vec<u8>, text: &Text) -> Result<(), NoMemory>
    ensures { OnOk result (Grew out.old.items out.new.items (quoted text.now)) }
{
    out.push(b'"')?;
    for byte in text.bytes() {
        push_escaped(out, *byte)?;
    }
    out.push(b'"')?;
    Ok(())
}

/// Appends a count in decimal.
///
/// # Errors
///
/// `NoMemory` alone, as for [`push_value`].
pub fn push_count(out: &mut Vec<u8>, count: u64) -> Result<(), NoMemory>
    ensures { OnOk result (Grew out.old.items out.new.items (decimal count)) }
{
    let mut digits = Buffer::new();
    out.extend_from_slice(digits.format(count).as_bytes())?;
    Ok(())
}

/// Appends a value as a literal: an int in decimal, a text between quotes with `\` before each `"` and `\`, or `true`
/// or `false`.
///
/// # Errors
///
/// `NoMemory` alone. Nothing is said of `out` then.
pub fn push_value(out: &mut Vec<u8>, value: &Value) -> Result<(), NoMemory>
    ensures { OnOk result (Grew out.old.items out.new.items (value_text value.now)) }
{
    match value {
        Value::Int(number) => push_int(out, *number),
        Value::Text(text) => push_quoted(out, text),
        Value::Bool(true) => Ok(out.extend_from_slice(b"true")?),
        Value::Bool(false) => Ok(out.extend_from_slice(b"false")?),
    }
}

/// Appends a key as a literal, as [`push_value`] does the value of its type.
///
/// # Errors
///
/// `NoMemory` alone, as for [`push_value`].
pub fn push_key(out: &mut Vec<u8>, key: &Key) -> Result<(), NoMemory>
    ensures { OnOk result (Grew out.old.items out.new.items (key_text key.now)) }
{
    match key {
        Key::Int(number) => push_int(out, *number),
        Key::Text(text) => push_quoted(out, text),
    }
}

fn push_further(out: &mut Vec<u8>, value: &Value) -> Result<(), NoMemory>
    ensures { OnOk result (Grew out.old.items out.new.items (further_value_text value.now)) }
{
    out.extend_from_slice(b", ")?;
    push_value(out, value)
}

/// Appends values as literals, with a comma and a space between them.
///
/// # Errors
///
/// `NoMemory` alone, as for [`push_value`].
pub fn push_values(out: &mut Vec<u8>, values: &[Value]) -> Result<(), NoMemory>
    ensures { OnOk result (Grew out.old.items out.new.items (values_text values.now)) }
{
    let Some((first, others)) = values.split_first() else {
        return Ok(());
    };
    push_value(out, first)?;
    for value in others {
        push_further(out, value)?;
    }
    Ok(())
}
