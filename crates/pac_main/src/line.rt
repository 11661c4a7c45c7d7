// The line that reports a stop.
ghost use Rattle.std.specs.Prelude.{◌≡◌, IsTrue};
ghost use Rattle.pac_report.specs.Status.{fault_text, is_made};
ghost use Rattle.pac_main.specs.Stop.{damaged_line, line_of, log_device, script_fault_line, slot_device, takes_memory, unaccepted_line};

use crate::stop::Stop;
use pac_check::SlotName;
use pac_flat::AcceptFault;
use pac_outside::LogName;
use pac_report::StatusLine;
use pac_restore::Damage;
use pac_script::ScriptFault;
use pac_store::DeviceName;

// The line of a text that isn't accepted as a catalogue.
fn unaccepted_status(fault: &AcceptFault) -> StatusLine<'_>
    ensures line { fault_text result ≡ unaccepted_line fault.now }
    ensures made { IsTrue (is_made result) }
{
    match fault {
        AcceptFault::Catalogue(fault) => StatusLine::Catalogue {
            at: fault.at() as u64,
            kind: fault.kind_name(),
        },
        AcceptFault::TooManyOps { proc, count } => StatusLine::Operations {
            proc: proc.bytes(),
            count: *count,
        },
    }
}

// The line of a refused script.
fn script_status(fault: &ScriptFault) -> StatusLine<'_>
    ensures line { fault_text result ≡ script_fault_line fault.now }
    ensures made { IsTrue (is_made result) }
{
    match fault {
        ScriptFault::Unaccepted(fault) => unaccepted_status(fault),
        ScriptFault::Line { line, fault } => StatusLine::Script {
            line: *line as u64,
            at: fault.at as u64,
            kind: fault.kind.name(),
        },
    }
}

// The device of a slot.
fn slot_device(slot: SlotName) -> DeviceName
    ensures { result ≡ slot_device slot }
{
    match slot {
        SlotName::A => DeviceName::SlotA,
        SlotName::B => DeviceName::SlotB,
    }
}

// The device of a segment of the log.
fn log_device(name: LogName) -> DeviceName
    ensures { result ≡ log_device name }
{
    match name {
        LogName::Log => DeviceName::Log,
        LogName::LogB => DeviceName::LogB,
    }
}

// The line of damage in a segment of the log, or in a slot.
fn damage_status(damage: Damage) -> StatusLine<'static>
    ensures line { fault_text result ≡ damaged_line damage }
    ensures made { IsTrue (is_made result) }
{
    match damage {
        Damage::Log { name, at, kind } => StatusLine::Damaged {
            device: log_device(name).name(),
            at,
            kind: kind.name(),
        },
        Damage::Slot { slot, at, kind } => StatusLine::Damaged {
            device: slot_device(slot).name(),
            at,
            kind: kind.name(),
        },
    }
}

/// The line that is reported for a stop.
pub(crate) fn status_line(stop: &Stop) -> StatusLine<'_>
    ensures line { fault_text result ≡ line_of stop.now }
    ensures made { is_made result ≡ takes_memory stop.now }
{
    match stop {
        Stop::Usage => StatusLine::Usage,
        Stop::Script(fault) => script_status(fault),
        Stop::NotEmpty { device, length } => StatusLine::NotEmpty {
            device: device.name(),
            length: *length,
        },
        Stop::NoStore => StatusLine::NoStore,
        Stop::Damaged(damage) => damage_status(*damage),
        Stop::Aborted(note) => StatusLine::Abort {
            txn: note.txn,
            op: note.op,
            reason: note.reason.name(),
        },
        Stop::RowsOver { name, rows, limit } => StatusLine::Rows {
            table: name.bytes(),
            rows: *rows,
            limit: *limit,
        },
        Stop::InputFault => StatusLine::InputFault,
        Stop::OutputFault => StatusLine::OutputFault,
        Stop::DiskFault => StatusLine::DiskFault,
        Stop::NoMemory => StatusLine::NoMemory,
        Stop::LogFull { need } => StatusLine::LogFull { need: *need },
        Stop::TooLong => StatusLine::InputTooLong,
        Stop::TooLarge { bytes } => StatusLine::TooLarge { bytes: *bytes },
        Stop::Image(fault) => StatusLine::Image {
            at: fault.at as u64,
            kind: fault.kind.name(),
        },
    }
}
