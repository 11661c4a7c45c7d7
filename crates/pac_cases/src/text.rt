// Converts between the text of a case file and the bytes that it stands for.
use std::alloc::{AllocError, Global};

/// The text before the first blank, and the text after it.
pub fn halves(text: &str) -> (&str, &str) {
    match text.split_once(' ') {
        Some(halves) => halves,
        None => (text, ""),
    }
}

/// A number in decimal digits.
pub fn number(text: &str) -> Option<u64> {
    text.parse::<u64>().ok()
}

/// How much of an escape has been read.
#[derive(Clone, Copy)]
enum Escape {
    No,
    Backslash,
    /// `\x`
    Hex,
    /// `\x` and its first digit.
    HexDigit(u8),
}

/// Appends the bytes of a text, in which `\n`, `\t`, `\r`, `\0`, `\\` and `\xHH` stand for one byte each.
pub fn push_text(bytes: &mut Vec<u8>, text: &str) -> Result<(), AllocError> {
    let mut escape = Escape::No;
    for byte in text.bytes() {
        escape = push_byte(bytes, escape, byte)?;
    }
    Ok(())
}

fn push_byte(bytes: &mut Vec<u8>, escape: Escape, byte: u8) -> Result<Escape, AllocError> {
    match escape {
        Escape::No if byte == b'\\' => return Ok(Escape::Backslash),
        Escape::No => bytes.push(byte)?,
        Escape::Backslash if byte == b'x' => return Ok(Escape::Hex),
        Escape::Backslash => push_escaped(bytes, byte)?,
        Escape::Hex => return Ok(Escape::HexDigit(digit(byte))),
        Escape::HexDigit(high) => bytes.push(high.wrapping_mul(16).wrapping_add(digit(byte)))?,
    }
    Ok(Escape::No)
}

// A backslash before any other byte stands for itself.
fn push_escaped(bytes: &mut Vec<u8>, byte: u8) -> Result<(), AllocError> {
    let meant = match byte {
        b'n' => b'\n',
        b't' => b'\t',
        b'r' => b'\r',
        b'0' => 0,
        b'\\' => b'\\',
        _ => return bytes.extend_from_slice(&[b'\\', byte]),
    };
    bytes.extend_from_slice(&[meant])
}

fn digit(byte: u8) -> u8 {
    match byte {
        b'0'..=b'9' => byte - b'0',
        b'a'..=b'f' => byte - b'a' + 10,
        b'A'..=b'F' => byte - b'A' + 10,
        _ => 0,
    }
}

/// Appends the bytes of a text and a line feed.
pub fn push_line(bytes: &mut Vec<u8>, line: &str) -> Result<(), AllocError> {
    push_text(bytes, line)?;
    bytes.extend_from_slice(b"\n")
}

/// Appends a number in decimal digits.
pub fn push_number(alloc: Global, bytes: &mut Vec<u8>, number: u64) -> Result<(), AllocError> {
    bytes.extend_from_slice(number.to_string(alloc)?.as_bytes())
}

/// Appends copies of a text, as asked for by `COUNT TEXT`, each followed by `end`. In each, `{i}` stands for its number from 1 on.
/// Returns whether there is a count.
pub fn push_copies(
    alloc: Global,
    bytes: &mut Vec<u8>,
    text: &str,
    end: &[u8],
) -> Result<bool, AllocError> {
    let (count, text) = halves(text);
    match number(count) {
        Some(count) => push_counted(alloc, bytes, count, text, end)?,
        None => return Ok(false),
    }
    Ok(true)
}

fn push_counted(
    alloc: Global,
    bytes: &mut Vec<u8>,
    count: u64,
    text: &str,
    end: &[u8],
) -> Result<(), AllocError> {
    match text.split_once("{i}") {
        Some((before, after)) => push_numbered(alloc, bytes, count, before, after, end),
        None => push_same(alloc, bytes, count, text, end),
    }
}

fn push_numbered(
    alloc: Global,
    bytes: &mut Vec<u8>,
    count: u64,
    before: &str,
    after: &str,
    end: &[u8],
) -> Result<(), AllocError> {
    for number in 0..count {
        push_text(bytes, before)?;
        push_number(alloc, bytes, number.wrapping_add(1))?;
        push_text(bytes, after)?;
        bytes.extend_from_slice(end)?;
    }
    Ok(())
}

fn push_same(
    alloc: Global,
    bytes: &mut Vec<u8>,
    count: u64,
    text: &str,
    end: &[u8],
) -> Result<(), AllocError> {
    let mut copy = Vec::new(alloc);
    push_text(&mut copy, text)?;
    push_often(bytes, count, &copy, end)
}

fn push_often(bytes: &mut Vec<u8>, count: u64, copy: &[u8], end: &[u8]) -> Result<(), AllocError> {
    for _ in 0..count {
        bytes.extend_from_slice(copy)?;
        bytes.extend_from_slice(end)?;
    }
    Ok(())
}

/// Appends bytes as they are written in a case file.
pub fn push_shown(shown: &mut Vec<u8>, bytes: &[u8]) -> Result<(), AllocError> {
    for byte in bytes {
        push_shown_byte(shown, *byte)?;
    }
    Ok(())
}

fn push_shown_byte(shown: &mut Vec<u8>, byte: u8) -> Result<(), AllocError> {
    match byte {
        b'\n' => shown.extend_from_slice(b"\\n"),
        b'\t' => shown.extend_from_slice(b"\\t"),
        b'\r' => shown.extend_from_slice(b"\\r"),
        0 => shown.extend_from_slice(b"\\0"),
        b'\\' => shown.extend_from_slice(b"\\\\"),
        b' '..=b'~' => shown.extend_from_slice(&[byte]),
        _ => shown.extend_from_slice(&[b'\\', b'x', hex(byte / 16), hex(byte % 16)]),
    }
}

fn hex(digit: u8) -> u8 {
    match digit {
        0..=9 => b'0' + digit,
        10..=15 => b'a' + (digit - 10),
        _ => b'?',
    }
}
