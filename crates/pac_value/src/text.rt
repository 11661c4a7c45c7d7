// Short texts.
ghost use Rattle.std.specs.Prelude.{◌≡◌, ◌↔◌, IsSome, IfSome};
ghost use Rattle.std.specs.List.{list_all};
ghost use Rattle.pac_value.specs.Texts.{IsText, is_printable};

use crate::MAX_TEXT;
use crate::padded::Padded;
use pac_base::{Exact, NoMemory, Same};
use std::alloc::Global;
use std::marker::Model;

/// A text of at most 64 printable ASCII bytes, which stand in the value itself. Texts are ordered by their bytes, a
/// proper prefix first.
#[derive(Clone, Copy, Debug, PartialEq, Eq, PartialOrd, Ord, Hash)]
pub struct Text {
    bytes: Padded<{ Text::MAX }>,
}

impl Model for Text {
    ghost use Rattle.std.specs.Prelude.{ℕ, List, IsTrue};
    ghost use Rattle.std.specs.List.{list_all};
    ghost use Rattle.pac_value.specs.Texts.{is_printable};

    ghost Value = { List ℕ };

    ghost view = { λ text. text.bytes };

    ghost invariant = { λ text. IsTrue (list_all is_printable text.bytes) };

    ghost inverse = { λ bytes. record { bytes = bytes } };
}

impl Text {
    /// The most bytes that a text may have.
    pub const MAX: usize = MAX_TEXT;

    /// The text with these bytes. `None`: there are more than 64, or one is below 0x20 or above 0x7E.
    pub fn from_bytes(bytes: &[u8]) -> Option<Text>
        ensures is_text { IsSome result ↔ IsText bytes.now }
        ensures value { IfSome result (λ text. text ≡ bytes.now) }
    {
        let padded = Padded::from_bytes(bytes)?;
        if !all_printable(bytes) {
            return None;
        }
        Some(Text { bytes: padded })
    }

    /// The bytes of the text, in order.
    pub fn bytes(&self) -> &[u8]
        ensures bytes { result.now ≡ self.now }
        ensures is_text { IsText self.now }
    {
        self.bytes.bytes()
    }
}

fn all_printable(bytes: &[u8]) -> bool
    ensures { result ≡ list_all is_printable bytes.now }
{
    bytes.iter().all(|byte| 0x20 <= *byte && *byte <= 0x7E)
}

impl Exact for Text {
    fn copy(&self, _: Global) -> Result<Text, NoMemory> {
        Ok(*self)
    }
}

impl Same for Text {
    fn same(&self, other: &Text) -> bool {
        *self == *other
    }
}
