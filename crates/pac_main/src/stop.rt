// Why a command stops before its end.
ghost use Rattle.std.specs.Prelude.{◌≡◌};
ghost use Rattle.pac_main.specs.Stop.{status_of, takes_memory, stop_of_excess, stop_of_input, stop_of_load, stop_of_log, stop_of_make, stop_of_recover, stop_of_run, stop_of_serial};
ghost use Rattle.pac_main.specs.declared.stop.Stop.TheVariants.{OutputFault, NoMemory as OutOfMemory};

use crate::image_log::{ImageLogError, LogFault};
use crate::input::InputError;
use pac_base::{NoMemory, Refusal};
use pac_ops::Note;
use pac_outside::Failed;
use pac_restore::{Damage, LoadError, RecoverError, TooManyRows};
use pac_run::RunStop;
use pac_script::ScriptFault;
use pac_serial::AllError;
use pac_store::{DeviceName, MakeError};
use pac_tuple::ImageFault;
use pac_value::Name;

/// Why a command stops before its end.
#[derive(Clone, Copy, Debug, PartialEq, Eq)]
pub(crate) enum Stop {
    /// The arguments name no command that runs.
    Usage,
    /// The input is no script, or its catalogue isn't explained.
    Script(ScriptFault),
    /// This device of a store that is to be made has that many bytes already.
    NotEmpty { device: DeviceName, length: u64 },
    /// The log's device holds no log.
    NoStore,
    /// This is the first damage of a store.
    Damaged(Damage),
    /// This operation of this transaction aborts.
    Aborted(Note),
    /// This table is the first that has more rows than the limit.
    RowsOver { name: Name, rows: u64, limit: u64 },
    /// The input could not be read.
    InputFault,
    /// The output could not be written.
    OutputFault,
    /// A call of a device failed.
    DiskFault,
    /// An allocation was refused.
    NoMemory,
    /// The log would have that many bytes, and has no room for them.
    LogFull { need: u64 },
    /// The input has more bytes than it may.
    TooLong,
    /// A checkpoint's slot would have that many bytes, and has no room for them.
    TooLarge { bytes: u64 },
    /// What stands behind the catalogue is no log of after-images.
    Image(ImageFault),
}

impl From<NoMemory> for Stop {
    ghost from_gives = { λ _ stop. stop ≡ OutOfMemory };

    fn from(_: NoMemory) -> Self {
        Stop::NoMemory
    }
}

// The sink of a command's output failed.
impl From<Failed> for Stop {
    ghost from_gives = { λ _ stop. stop ≡ OutputFault };

    fn from(_: Failed) -> Self {
        Stop::OutputFault
    }
}

impl From<InputError> for Stop {
    ghost from_gives = { λ error stop. stop ≡ stop_of_input error };

    fn from(error: InputError) -> Self {
        match error {
            InputError::Failed => Stop::InputFault,
            InputError::TooLong => Stop::TooLong,
            InputError::Script(fault) => Stop::Script(fault),
            InputError::NoMemory => Stop::NoMemory,
        }
    }
}

impl From<AllError> for Stop {
    ghost from_gives = { λ error stop. stop ≡ stop_of_serial error };

    fn from(error: AllError) -> Self {
        match error {
            AllError::Abort(note) => Stop::Aborted(note),
            AllError::NoMemory => Stop::NoMemory,
        }
    }
}

impl From<ImageLogError> for Stop {
    ghost from_gives = { λ error stop. stop ≡ stop_of_log error };

    fn from(error: ImageLogError) -> Self {
        match error {
            Refusal::Fault(LogFault::Unaccepted(fault)) => {
                Stop::Script(ScriptFault::Unaccepted(fault))
            }
            Refusal::Fault(LogFault::Image(fault)) => Stop::Image(fault),
            Refusal::NoMemory => Stop::NoMemory,
        }
    }
}

impl From<MakeError> for Stop {
    ghost from_gives = { λ error stop. stop ≡ stop_of_make error };

    fn from(error: MakeError) -> Self {
        match error {
            MakeError::NotEmpty { device, length } => Stop::NotEmpty { device, length },
            MakeError::DiskFault => Stop::DiskFault,
            MakeError::NoMemory => Stop::NoMemory,
        }
    }
}

impl From<TooManyRows> for Stop {
    ghost from_gives = { λ excess stop. stop ≡ stop_of_excess excess };

    fn from(excess: TooManyRows) -> Self {
        let TooManyRows { table, rows, limit } = excess;
        Stop::RowsOver {
            name: table,
            rows,
            limit,
        }
    }
}

impl From<LoadError> for Stop {
    ghost from_gives = { λ cause stop. stop ≡ stop_of_load cause };

    fn from(cause: LoadError) -> Self {
        match cause {
            LoadError::NoStore => Stop::NoStore,
            LoadError::Damaged(damage) => Stop::Damaged(damage),
            LoadError::DiskFault => Stop::DiskFault,
            LoadError::NoMemory => Stop::NoMemory,
        }
    }
}

impl From<RecoverError> for Stop {
    ghost from_gives = { λ error stop. stop ≡ stop_of_recover error };

    fn from(error: RecoverError) -> Self {
        match error {
            RecoverError::Load(cause) => Stop::from(cause),
            RecoverError::AbortInLog(note) => Stop::Aborted(note),
            RecoverError::RowsOver { table, rows, limit } => Stop::RowsOver {
                name: table,
                rows,
                limit,
            },
        }
    }
}

impl From<RunStop> for Stop {
    ghost from_gives = { λ why stop. stop ≡ stop_of_run why };

    fn from(why: RunStop) -> Self {
        match why {
            RunStop::Opening(error) => Stop::from(error),
            RunStop::InputFault => Stop::InputFault,
            RunStop::OutputFault => Stop::OutputFault,
            RunStop::DiskFault => Stop::DiskFault,
            RunStop::NoMemory => Stop::NoMemory,
            RunStop::LogFull { need } => Stop::LogFull { need },
            RunStop::TooLong => Stop::TooLong,
            RunStop::TooLarge { bytes } => Stop::TooLarge { bytes },
        }
    }
}

impl Stop {
    /// The program's exit status.
    pub fn status(self) -> u8
        ensures { result ≡ status_of self }
    {
        match self {
            Stop::Usage => 1,
            Stop::Script(_) | Stop::Image(_) => 2,
            Stop::NotEmpty { .. } | Stop::NoStore | Stop::Damaged(_) => 3,
            Stop::Aborted(_) => 4,
            Stop::RowsOver { .. } => 5,
            Stop::InputFault => 6,
            Stop::OutputFault => 7,
            Stop::DiskFault => 8,
            Stop::NoMemory => 9,
            Stop::LogFull { .. } => 10,
            Stop::TooLong => 11,
            Stop::TooLarge { .. } => 12,
        }
    }

    /// Whether its line has names or numbers, and is made.
    pub fn takes_memory(self) -> bool
        ensures { result ≡ takes_memory self }
    {
        matches!(
            self,
            Stop::Script(_)
                | Stop::NotEmpty { .. }
                | Stop::Damaged(_)
                | Stop::Aborted(_)
                | Stop::RowsOver { .. }
                | Stop::LogFull { .. }
                | Stop::TooLarge { .. }
                | Stop::Image(_)
        )
    }
}
