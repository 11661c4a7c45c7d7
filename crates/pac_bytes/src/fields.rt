// Numbers of a fixed width, the lowest byte first.
ghost use Rattle.std.specs.Prelude.{◌≡◌, ◌<◌, ◌≤◌, ◌+◌, ◌^◌, ◌++◌, ◌∷◌, [], List, ℕ, drop, length, IfOk, OnOk, Ok};
ghost use Rattle.std.specs.Int.{w16, w32, w64, to_le_bytes};
ghost use Rattle.pac_value.specs.Growth.{Grew};
ghost use Rattle.pac_bytes.specs.Reading.{from, next_byte, next_bytes, next_uint, short_at};
ghost use Rattle.pac_bytes.specs.Readers.{Answers, Finds, FindsSpelled};

use crate::Short;
use pac_base::NoMemory;

// The `N` bytes at an offset, and the offset after them.
fn bytes_at<const N: usize>(bytes: &[u8], at: usize) -> Result<([u8; N], usize), Short>
    requires { 1 ≤ N }
    ensures exact { Answers bytes.now result (next_bytes (short_at at) N (from bytes.now at)) }
    ensures inside { IfOk result (λ found. found.1 ≤ length bytes.now) }
{
    let Some(rest) = bytes.get(at..) else {
        return Err(Short { at });
    };
    match rest.split_first_chunk::<N>() {
        Some((field, _)) => Ok((*field, at + N)),
        None => Err(Short { at }),
    }
}

/// The byte at an offset, and the offset after it.
///
/// # Errors
///
/// [`Short`]: the bytes end before the offset or at it.
pub fn u8_at(bytes: &[u8], at: usize) -> Result<(u8, usize), Short>
    ensures exact { Answers bytes.now result (next_byte (from bytes.now at)) }
    ensures found { Finds (λ b. b < 256) (λ b. b ∷ []) bytes.now at result }
    ensures again { FindsSpelled (λ b. b < 256) (λ b. b ∷ []) bytes.now at result }
    ensures inside { IfOk result (λ found. found.1 ≤ length bytes.now) }
{
    match bytes.get(at) {
        Some(byte) => Ok((*byte, at + 1)),
        None => Err(Short { at }),
    }
}

/// The number whose two bytes stand at an offset, and the offset after them.
///
/// # Errors
///
/// [`Short`]: fewer than two bytes are left at the offset.
pub fn u16_at(bytes: &[u8], at: usize) -> Result<(u16, usize), Short>
    ensures exact { Answers bytes.now result (next_uint w16 (from bytes.now at)) }
    ensures found { Finds (λ n. n < 2 ^ 16) (to_le_bytes w16) bytes.now at result }
    ensures again { FindsSpelled (λ n. n < 2 ^ 16) (to_le_bytes w16) bytes.now at result }
    ensures inside { IfOk result (λ found. found.1 ≤ length bytes.now) }
{
    let (field, end) = bytes_at(bytes, at)?;
    Ok((u16::from_le_bytes(field), end))
}

/// The number whose four bytes stand at an offset, and the offset after them.
///
/// # Errors
///
/// [`Short`]: fewer than four bytes are left at the offset.
pub fn u32_at(bytes: &[u8], at: usize) -> Result<(u32, usize), Short>
    ensures exact { Answers bytes.now result (next_uint w32 (from bytes.now at)) }
    ensures found { Finds (λ n. n < 2 ^ 32) (to_le_bytes w32) bytes.now at result }
    ensures again { FindsSpelled (λ n. n < 2 ^ 32) (to_le_bytes w32) bytes.now at result }
    ensures inside { IfOk result (λ found. found.1 ≤ length bytes.now) }
{
    let (field, end) = bytes_at(bytes, at)?;
    Ok((u32::from_le_bytes(field), end))
}

/// The number whose eight bytes stand at an offset, and the offset after them.
///
/// # Errors
///
/// [`Short`]: fewer than eight bytes are left at the offset.
pub fn u64_at(bytes: &[u8], at: usize) -> Result<(u64, usize), Short>
    ensures exact { Answers bytes.now result (next_uint w64 (from bytes.now at)) }
    ensures found { Finds (λ n. n < 2 ^ 64) (to_le_bytes w64) bytes.now at result }
    ensures again { FindsSpelled (λ n. n < 2 ^ 64) (to_le_bytes w64) bytes.now at result }
    ensures inside { IfOk result (λ found. found.1 ≤ length bytes.now) }
{
    let (field, end) = bytes_at(bytes, at)?;
    Ok((u64::from_le_bytes(field), end))
}

/// Appends a byte.
///
/// # Errors
///
/// `NoMemory` alone.
pub fn put_u8(out: &mut Vec<u8>, number: u8) -> Result<(), NoMemory>
    ensures { OnOk result (Grew out.old.items out.new.items (number ∷ [])) }
{
    Ok(out.push(number)?)
}

/// Appends the two bytes of a number, the lowest first.
///
/// # Errors
///
/// `NoMemory` alone, as for [`put_u8`].
pub fn put_u16(out: &mut Vec<u8>, number: u16) -> Result<(), NoMemory>
    ensures { OnOk result (Grew out.old.items out.new.items (to_le_bytes w16 number)) }
{
    Ok(out.extend_from_slice(&number.to_le_bytes())?)
}

/// Appends the four bytes of a number, the lowest first.
///
/// # Errors
///
/// `NoMemory` alone, as for [`put_u8`].
pub fn put_u32(out: &mut Vec<u8>, number: u32) -> Result<(), NoMemory>
    ensures { OnOk result (Grew out.old.items out.new.items (to_le_bytes w32 number)) }
{
    Ok(out.extend_from_slice(&number.to_le_bytes())?)
}

/// Appends the eight bytes of a number, the lowest first.
///
/// # Errors
///
/// `NoMemory` alone, as for [`put_u8`].
pub fn put_u64(out: &mut Vec<u8>, number: u64) -> Result<(), NoMemory>
    ensures { OnOk result (Grew out.old.items out.new.items (to_le_bytes w64 number)) }
{
    Ok(out.extend_from_slice(&number.to_le_bytes())?)
}
