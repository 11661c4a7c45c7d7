// Reads texts between quotes.
ghost use Rattle.std.specs.Prelude.{◌≡◌, ◌<◌, length, IfSome, IsTrue, Some, None, false, not, ◌&&◌, nat_eq, nat_lt, if◌then◌else◌};
ghost use Rattle.std.specs.List.{list_all};
ghost use Rattle.pac_value.specs.Ascii.{backslash};
ghost use Rattle.pac_value.specs.Texts.{is_printable};
ghost use Rattle.pac_value.specs.declared.limits.TheConstants.{MAX_TEXT};
ghost use Rattle.pac_tokens.specs.Lexing.{closing_in, text_at, unescaped};

use crate::fault::FaultKind;
use crate::token::Token;
use pac_value::Text;

fn is_printable_byte(byte: u8) -> bool
    ensures { result ≡ is_printable byte }
{
    0x20 <= byte && byte <= 0x7E
}

// Where the closing quote of a text stands, whose opening quote stands before these bytes. `None`: it isn't well
// formed.
fn closing(bytes: &[u8]) -> Option<usize>
    ensures closing { result ≡ closing_in false bytes.now }
    ensures within { IfSome result (λ n. n < length bytes.now) }
{
    let mut escaped = false;
    for (i, byte) in bytes.iter().enumerate() {
        if escaped {
            if *byte != b'"' && *byte != b'\\' {
                return None;
            }
            escaped = false;
        } else if *byte == b'"' {
            return Some(i);
        } else if *byte == b'\\' {
            escaped = true;
        } else if !is_printable_byte(*byte) {
            return None;
        }
    }
    None
}

// Whether a byte, after a `\` or not, is the `\` of an escape.
fn begins_escape(escaped: bool, byte: u8) -> bool
    ensures { result ≡ (not escaped && nat_eq byte backslash) }
{
    !escaped && byte == b'\\'
}

// The text of these bytes without its escapes, if it has at most 64.
#[tactic(auto, using(crate::proofs::Quoted::without_escape))]
fn unescape(bytes: &[u8]) -> Option<Text>
    requires { IsTrue (list_all is_printable (unescaped false bytes.now)) }
    ensures { result ≡ (if nat_lt MAX_TEXT (length (unescaped false bytes.now)) then None else Some (unescaped false bytes.now)) }
{
    if !bytes.contains(&b'\\') {
        return Text::from_bytes(bytes);
    }
    let mut room = [0; Text::MAX];
    let mut len: usize = 0;
    let mut escaped = false;
    for byte in bytes {
        if begins_escape(escaped, *byte) {
            escaped = true;
            continue;
        }
        if len == Text::MAX {
            return None;
        }
        room[len] = *byte;
        len += 1;
        escaped = false;
    }
    Text::from_bytes(&room[..len])
}

// A text, after its opening quote.
pub(crate) fn text(after: &[u8]) -> Result<(Token, usize), FaultKind>
    ensures { result ≡ text_at after.now }
{
    let Some(closing) = closing(after) else {
        return Err(FaultKind::Token);
    };
    match unescape(&after[..closing]) {
        Some(text) => Ok((Token::Text(text), closing + 2)),
        None => Err(FaultKind::TooLong),
    }
}
