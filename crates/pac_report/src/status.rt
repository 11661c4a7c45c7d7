// The lines of statuses.
ghost use Rattle.std.specs.Prelude.{◌≡◌, ◌++◌, codes, IfOk, IsTrue, MatchOption, OnOk};
ghost use Rattle.std.specs.Fmt.{decimal};
ghost use Rattle.pac_value.specs.Growth.{Grew};
ghost use Rattle.pac_report.specs.Status.{abort_words, damage_words, fault_text, fault_words, is_made, rows_words, script_words};

use crate::words::{push_number, push_word};
use pac_base::NoMemory;
use pac_value::push_count;
use std::alloc::Global;

/// What is reported for a status other than 0. Names of procedures and tables are their bytes, as a
/// [`Name`](pac_value::Name) lends them; a device is `log`, `a` or `b`; kinds and reasons are as they are printed.
#[derive(Clone, Copy, Debug)]
pub enum StatusLine<'a> {
    /// The arguments name no command.
    Usage,
    /// The first fault of a catalogue's text.
    Catalogue {
        at: u64,
        kind: &'a str,
    },
    /// The first procedure at which operations are too many, and how many.
    Operations {
        proc: &'a [u8],
        count: u32,
    },
    /// The first fault of the first line of a script that is refused.
    Script {
        line: u64,
        at: u64,
        kind: &'a str,
    },
    /// A device has that many bytes, and was to have none.
    NotEmpty {
        device: &'a str,
        length: u64,
    },
    /// The log's device holds no log.
    NoStore,
    /// The first damage of a device.
    Damaged {
        device: &'a str,
        at: u64,
        kind: &'a str,
    },
    /// An operation of a transaction aborts.
    Abort {
        txn: u64,
        op: u16,
        reason: &'a str,
    },
    /// A table has more rows than the limit.
    Rows {
        table: &'a [u8],
        rows: u64,
        limit: u64,
    },
    /// The input could not be read.
    InputFault,
    /// The output could not be written.
    OutputFault,
    /// A call of a device failed.
    DiskFault,
    /// An allocation was refused.
    NoMemory,
    /// The log would have that many bytes.
    LogFull {
        need: u64,
    },
    /// The input has too many bytes.
    InputTooLong,
    /// A checkpoint's slot would have that many bytes.
    TooLarge {
        bytes: u64,
    },
    /// The first fault of after-images.
    Image {
        at: u64,
        kind: &'a str,
    },
}

impl StatusLine<'_> {
    /// The line where it is one text, which takes no memory. `None`: it has numbers, and [`fault_text`] makes it.
    pub fn text(&self) -> Option<&'static [u8]>
        ensures { MatchOption result (IsTrue (is_made self.now)) (λ line. line.now ≡ fault_text self.now) }
    {
        match self {
            StatusLine::Usage => {
                Some(b"usage: pacman init, run, recover, explain, replay, stress or lay\n")
            }
            StatusLine::NoStore => Some(b"no store\n"),
            StatusLine::InputFault => Some(b"input fault\n"),
            StatusLine::OutputFault => Some(b"output fault\n"),
            StatusLine::DiskFault => Some(b"disk fault\n"),
            StatusLine::NoMemory => Some(b"no memory\n"),
            StatusLine::InputTooLong => Some(b"input too long\n"),
            StatusLine::Catalogue { .. }
            | StatusLine::Operations { .. }
            | StatusLine::Script { .. }
            | StatusLine::NotEmpty { .. }
            | StatusLine::Damaged { .. }
            | StatusLine::Abort { .. }
            | StatusLine::Rows { .. }
            | StatusLine::LogFull { .. }
            | StatusLine::TooLarge { .. }
            | StatusLine::Image { .. } => None,
        }
    }
}

/// The line that is reported for a status.
///
/// # Errors
///
/// [`NoMemory`] where the line finds no room.
pub fn fault_text(alloc: Global, line: &StatusLine<'_>) -> Result<Vec<u8>, NoMemory>
    ensures { IfOk result (λ text. text.items ≡ fault_text line.now) }
{
    let mut out = Vec::new(alloc);
    match line.text() {
        Some(text) => out.extend_from_slice(text)?,
        None => {
            push_status(&mut out, line)?;
            out.extend_from_slice(b"\n")?;
        }
    }
    Ok(out)
}

// The words of a line that has numbers.
fn push_status(out: &mut Vec<u8>, line: &StatusLine<'_>) -> Result<(), NoMemory>
    requires { IsTrue (is_made line.now) }
    ensures { OnOk result (Grew out.old.items out.new.items (fault_words line.now)) }
{
    match line {
        StatusLine::Catalogue { at, kind } => push_fault(out, b"catalogue", *at, kind),
        StatusLine::Operations { proc, count } => {
            push_named(out, b"operations", proc, u64::from(*count))
        }
        StatusLine::Script { line, at, kind } => push_script(out, *line, *at, kind),
        StatusLine::NotEmpty { device, length } => {
            push_named(out, b"not empty", device.as_bytes(), *length)
        }
        StatusLine::Damaged { device, at, kind } => push_damage(out, device, *at, kind),
        StatusLine::Abort { txn, op, reason } => push_abort(out, *txn, *op, reason),
        StatusLine::Rows { table, rows, limit } => push_rows(out, table, *rows, *limit),
        StatusLine::LogFull { need } => push_counted(out, b"log full", *need),
        StatusLine::TooLarge { bytes } => push_counted(out, b"checkpoint too large", *bytes),
        StatusLine::Image { at, kind } => push_fault(out, b"image", *at, kind),
        _ => unreachable!(),
    }
}

// Words, and a number.
fn push_counted(out: &mut Vec<u8>, words: &[u8], count: u64) -> Result<(), NoMemory>
    ensures { OnOk result (Grew out.old.items out.new.items (words.now ++ codes " " ++ decimal count)) }
{
    out.extend_from_slice(words)?;
    push_number(out, count)
}

// Words, an offset, and a kind.
fn push_fault(out: &mut Vec<u8>, words: &[u8], at: u64, kind: &str) -> Result<(), NoMemory>
    ensures { OnOk result (Grew out.old.items out.new.items (words.now ++ codes " " ++ decimal at ++ codes " " ++ kind.now)) }
{
    push_counted(out, words, at)?;
    push_word(out, kind.as_bytes())
}

// Words, a name, and a number.
fn push_named(out: &mut Vec<u8>, words: &[u8], name: &[u8], count: u64) -> Result<(), NoMemory>
    ensures { OnOk result (Grew out.old.items out.new.items (words.now ++ codes " " ++ name.now ++ codes " " ++ decimal count)) }
{
    out.extend_from_slice(words)?;
    push_word(out, name)?;
    push_number(out, count)
}

fn push_script(out: &mut Vec<u8>, line: u64, at: u64, kind: &str) -> Result<(), NoMemory>
    ensures { OnOk result (Grew out.old.items out.new.items (script_words line at kind.now)) }
{
    push_counted(out, b"script", line)?;
    push_number(out, at)?;
    push_word(out, kind.as_bytes())
}

fn push_damage(out: &mut Vec<u8>, device: &str, at: u64, kind: &str) -> Result<(), NoMemory>
    ensures { OnOk result (Grew out.old.items out.new.items (damage_words device.now at kind.now)) }
{
    push_named(out, b"damaged", device.as_bytes(), at)?;
    push_word(out, kind.as_bytes())
}

fn push_abort(out: &mut Vec<u8>, txn: u64, op: u16, reason: &str) -> Result<(), NoMemory>
    ensures { OnOk result (Grew out.old.items out.new.items (abort_words txn op reason.now)) }
{
    push_counted(out, b"abort", txn)?;
    push_number(out, u64::from(op))?;
    push_word(out, reason.as_bytes())
}

fn push_rows(out: &mut Vec<u8>, table: &[u8], rows: u64, limit: u64) -> Result<(), NoMemory>
    ensures { OnOk result (Grew out.old.items out.new.items (rows_words table.now rows limit)) }
{
    push_named(out, b"rows", table, rows)?;
    push_number(out, limit)
}
