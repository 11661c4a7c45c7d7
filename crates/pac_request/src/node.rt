// A request line as it is written: its names and literals with their offsets.
ghost use Rattle.std.specs.Prelude.{◌≡◌};
ghost use Rattle.pac_request.specs.LineForms.{verb_word};

use pac_base::Listed;
use pac_syntax::NameNode;
use pac_value::Value;

/// The word that a request line begins with.
#[derive(Clone, Copy, Debug, PartialEq, Eq)]
pub(crate) enum Verb {
    Call,
    AdHoc,
    Show,
    Flush,
    Save,
    Stop,
}

impl Verb {
    /// The bytes that spell it.
    pub fn word(self) -> &'static [u8]
        ensures { result.now ≡ verb_word self }
    {
        match self {
            Verb::Call => b"call",
            Verb::AdHoc => b"adhoc",
            Verb::Show => b"show",
            Verb::Flush => b"flush",
            Verb::Save => b"save",
            Verb::Stop => b"stop",
        }
    }
}

/// A literal and the offset of its first token.
#[derive(Clone, Copy, Debug)]
pub(crate) struct PlacedLiteral {
    pub at: usize,
    pub value: Value,
}

/// A record of an ad hoc transaction.
#[derive(Debug, Drop)]
pub(crate) enum RecordNode {
    /// `put TABLE[KEY] = (VALUES)`
    Put {
        table: NameNode,
        key: PlacedLiteral,
        values: Listed<PlacedLiteral>,
    },
    /// `delete TABLE[KEY]`
    Delete {
        table: NameNode,
        key: PlacedLiteral,
    },
}

/// A request line.
#[derive(Debug, Drop)]
pub(crate) enum LineNode {
    /// White space and comment alone.
    Empty,
    /// `call PROC(ARGS)`
    Call {
        proc: NameNode,
        args: Listed<PlacedLiteral>,
    },
    /// `adhoc RECORD; RECORD`
    AdHoc {
        records: Listed<RecordNode>,
    },
    /// `show TABLE[KEY]`
    Show {
        table: NameNode,
        key: PlacedLiteral,
    },
    /// `flush`
    Flush,
    /// `save`
    Save,
    /// `stop`
    Stop,
}
