// The head of a checkpoint.
ghost use Rattle.std.specs.Prelude.{◌≡◌, ◌≤◌, OnOk};
ghost use Rattle.std.specs.Int.{w64};
ghost use Rattle.pac_value.specs.Growth.{Grew};
ghost use Rattle.pac_bytes.specs.Reading.{from};
ghost use Rattle.pac_bytes.specs.Readers.{Answers};
ghost use Rattle.pac_check.specs.declared.head.TheConstants.{MAX_HEAD_LEN};
ghost use Rattle.pac_check.specs.Checkpoints.{IsHead, checkpoint_name, head_bytes, head_length, is_later, segment_bytes, segment_in};
ghost use Rattle.pac_check.specs.CheckpointReading.{next_count, next_form, next_front, next_head, next_name, slot_number};

use crate::damage::fault_at;
use crate::{SlotDamageKind, SlotFault};
use pac_base::NoMemory;
use pac_bytes::{put_u8, put_u16, put_u64, u8_at, u16_at, u64_at};
use pac_outside::LogName;

// What a checkpoint begins with: one that names no segment, and one that does.
const NAME: &[u8; 8] = b"PACMSLT1";

const LATER_NAME: &[u8; 8] = b"PACMSLT2";

/// The most bytes before the tables of a checkpoint.
pub(crate) const MAX_HEAD_LEN: u64 = 27;

/// The most bytes before the number of tables.
pub(crate) const FRONT_LEN: usize = 25;

/// Whether a checkpoint names a segment of the log.
#[derive(Clone, Copy, Debug, PartialEq, Eq)]
pub enum SlotForm {
    /// The first form: it names none, and is of the log on the first device.
    First,
    /// The later form: it names the device of its segment.
    Later { segment: LogName },
}

impl SlotForm {
    /// The device of the checkpoint's segment.
    pub fn segment(&self) -> LogName
        ensures { result ≡ segment_in self.now }
    {
        match self {
            SlotForm::First => LogName::Log,
            SlotForm::Later { segment } => *segment,
        }
    }

    /// How many bytes come before the tables of a checkpoint of this form.
    pub(crate) fn head_len(&self) -> u64
        ensures exact { result ≡ head_length self.now }
        ensures few { result ≤ MAX_HEAD_LEN }
    {
        match self {
            SlotForm::First => 26,
            SlotForm::Later { segment: _ } => 27,
        }
    }
}

/// What stands before the tables of a checkpoint.
#[derive(Clone, Copy, Debug, PartialEq, Eq)]
pub struct Head {
    /// How many transactions are in the tables.
    pub txns: u64,
    /// The offset of the gate after these in their segment, from 0.
    pub place: u64,
    pub form: SlotForm,
}

/// The head of a checkpoint of that many tables at an offset, and the offset after it.
///
/// # Errors
///
/// The first fault from the left: those of [`front_at`], `Short` at the number of tables where that is cut short, `Range` at
/// one that is another.
#[tactic(auto, unfolding(crate::specs::CheckpointReading::next_head))]
pub(crate) fn head_at(tables: usize, bytes: &[u8], at: usize) -> Result<(Head, usize), SlotFault>
    ensures { Answers bytes.now result (next_head tables (from bytes.now at)) }
{
    let (head, after) = front_at(bytes, at)?;
    let (_, end) = count_at(tables, bytes, after)?;
    Ok((head, end))
}

/// What stands before the number of tables, and the offset after it.
///
/// # Errors
///
/// The first fault from the left: `Magic` at the name, `Short` at a number that is cut short, `Range` at a segment that is none.
#[tactic(auto, unfolding(crate::specs::CheckpointReading::next_front))]
pub(crate) fn front_at(bytes: &[u8], at: usize) -> Result<(Head, usize), SlotFault>
    ensures { Answers bytes.now result (next_front (from bytes.now at)) }
{
    let (is_later, after) = name_at(bytes, at)?;
    let (txns, after) = number_at(bytes, after)?;
    let (place, after) = number_at(bytes, after)?;
    let (form, end) = form_at(is_later, bytes, after)?;
    Ok((Head { txns, place, form }, end))
}

// Whether the name at an offset is that of a checkpoint which names a segment, and the offset after it.
fn name_at(bytes: &[u8], at: usize) -> Result<(bool, usize), SlotFault>
    ensures { Answers bytes.now result (next_name (from bytes.now at)) }
{
    let Some(rest) = bytes.get(at..) else {
        return Err(fault_at(SlotDamageKind::Magic, at));
    };
    if let Some(_) = rest.strip_prefix(NAME) {
        return Ok((false, at + NAME.len()));
    }
    match rest.strip_prefix(LATER_NAME) {
        Some(_) => Ok((true, at + LATER_NAME.len())),
        None => Err(fault_at(SlotDamageKind::Magic, at)),
    }
}

// The form, after its name.
fn form_at(is_later: bool, bytes: &[u8], at: usize) -> Result<(SlotForm, usize), SlotFault>
    ensures { Answers bytes.now result (next_form is_later (from bytes.now at)) }
{
    if !is_later {
        return Ok((SlotForm::First, at));
    }
    let (byte, end) = u8_at(bytes, at)?;
    let segment = match byte {
        0 => LogName::Log,
        1 => LogName::LogB,
        _ => return Err(fault_at(SlotDamageKind::Range, at)),
    };
    Ok((SlotForm::Later { segment }, end))
}

/// The number at an offset, and the offset after it.
pub(crate) fn number_at(bytes: &[u8], at: usize) -> Result<(u64, usize), SlotFault>
    ensures { Answers bytes.now result (slot_number w64 (from bytes.now at)) }
{
    Ok(u64_at(bytes, at)?)
}

fn count_at(tables: usize, bytes: &[u8], at: usize) -> Result<(u16, usize), SlotFault>
    ensures { Answers bytes.now result (next_count tables (from bytes.now at)) }
{
    let (count, end) = u16_at(bytes, at)?;
    if usize::from(count) != tables {
        return Err(fault_at(SlotDamageKind::Range, at));
    }
    Ok((count, end))
}

/// Appends the head of a checkpoint of that many tables.
pub(crate) fn put_head(out: &mut Vec<u8>, head: Head, tables: u16) -> Result<(), NoMemory>
    ensures bytes { OnOk result (Grew out.old.items out.new.items (head_bytes tables head)) }
    ensures form { IsHead head }
{
    put_name(out, head.form)?;
    put_u64(out, head.txns)?;
    put_u64(out, head.place)?;
    put_segment(out, head.form)?;
    put_u16(out, tables)
}

fn put_name(out: &mut Vec<u8>, form: SlotForm) -> Result<(), NoMemory>
    ensures { OnOk result (Grew out.old.items out.new.items (checkpoint_name (is_later form))) }
{
    let name = match form {
        SlotForm::First => NAME,
        SlotForm::Later { segment: _ } => LATER_NAME,
    };
    Ok(out.extend_from_slice(name)?)
}

fn put_segment(out: &mut Vec<u8>, form: SlotForm) -> Result<(), NoMemory>
    ensures { OnOk result (Grew out.old.items out.new.items (segment_bytes form)) }
{
    match form {
        SlotForm::First => Ok(()),
        SlotForm::Later {
            segment: LogName::Log,
        } => put_u8(out, 0),
        SlotForm::Later {
            segment: LogName::LogB,
        } => put_u8(out, 1),
    }
}
