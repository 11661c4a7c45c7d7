// What can be made, and why it may not be.
use crate::log::Load;
use crate::pieces::Depth;
use crate::rows::Held;
use pac_base::NoMemory;
use pac_check::{SaveError, SlotError};
use pac_entry::EntryError;
use pac_flat::FlatError;
use pac_log::{CreateError, LogError, PrepareError};
use pac_outside::{Failed, ReadError};
use pac_script::ScriptError;
use pac_serial::{AllError, ExecError};
use pac_types::CatalogueError;
use std::alloc::AllocFailed;
use thiserror::Error;

/// Where the operations of a catalogue stand.
#[derive(Clone, Copy, Debug, PartialEq, Eq)]
pub enum Shape {
    OneTable,
    ManyTables,
    Chain,
}

/// A part of the database that is made.
#[derive(Clone, Copy, Debug, PartialEq, Eq)]
pub enum Part {
    Write,
    Read,
    Copy,
    Graph(Shape),
    Commit(Load),
    Scan,
    Save,
    Execute(Held),
    Pieces(Depth),
    Queue { pieces: u16 },
    HandToOne,
    HandToFour,
    LockedByOne,
    LockedByFour,
    Replay,
}

impl Part {
    /// The part of this name.
    pub fn named(name: &str) -> Option<Part> {
        match name {
            "write" => Some(Part::Write),
            "read" => Some(Part::Read),
            "copy" => Some(Part::Copy),
            "table" => Some(Part::Graph(Shape::OneTable)),
            "tables" => Some(Part::Graph(Shape::ManyTables)),
            "chain" => Some(Part::Graph(Shape::Chain)),
            "commit" => Some(Part::Commit(Load {
                txns: 1,
                records: 1,
            })),
            "commits" => Some(Part::Commit(Load {
                txns: 64,
                records: 1,
            })),
            "fill" => Some(Part::Commit(Load {
                txns: 1024,
                records: 64,
            })),
            "scan" => Some(Part::Scan),
            "save" => Some(Part::Save),
            "few" => Some(Part::over(10, None)),
            "few_limited" => Some(Part::over(10, Some(1_000_000))),
            "many" => Some(Part::over(100_000, None)),
            "txns" => Some(Part::Pieces(Depth::Txns)),
            "sets" => Some(Part::Pieces(Depth::Sets)),
            "accesses" => Some(Part::Pieces(Depth::Accesses)),
            "pairs" => Some(Part::Pieces(Depth::Pairs)),
            "queue" => Some(Part::Queue { pieces: 1_024 }),
            "long_queue" => Some(Part::Queue { pieces: 2_048 }),
            "hand_one" => Some(Part::HandToOne),
            "hand_four" => Some(Part::HandToFour),
            "locked_one" => Some(Part::LockedByOne),
            "locked_four" => Some(Part::LockedByFour),
            "many_limited" => Some(Part::over(100_000, Some(1_000_000))),
            "replay" => Some(Part::Replay),
            _ => None,
        }
    }

    // Transactions over a table of that many rows, under this limit.
    fn over(rows: u32, limit: Option<u64>) -> Part {
        Part::Execute(Held { rows, limit })
    }

    /// What is counted.
    pub fn unit(self) -> &'static str {
        match self {
            Part::Write | Part::Read | Part::Copy | Part::Scan | Part::Replay => "bytes",
            Part::Graph(_) => "blocks",
            Part::Commit(_) | Part::Execute(_) | Part::Pieces(Depth::Txns) => "transactions",
            Part::Save => "rows",
            Part::Pieces(Depth::Sets)
            | Part::HandToOne
            | Part::HandToFour
            | Part::LockedByOne
            | Part::LockedByFour => "pieces",
            Part::Pieces(Depth::Accesses) => "accesses",
            Part::Pieces(Depth::Pairs) | Part::Queue { .. } => "pairs",
        }
    }
}

/// Why a part was not made to its end.
#[derive(Clone, Copy, Debug, PartialEq, Eq, Error)]
pub enum PartError {
    #[error("no memory")]
    NoMemory,
    #[error("what was written is refused")]
    Refused,
    #[error("the file has bytes already")]
    NotEmpty,
    #[error("the file failed")]
    Failed,
    #[error("log full {need}")]
    LogFull { need: u64 },
    #[error("checkpoint too large {bytes}")]
    TooLarge { bytes: u64 },
}

impl From<NoMemory> for PartError {
    fn from(_: NoMemory) -> PartError {
        PartError::NoMemory
    }
}

impl<T: Drop> From<AllocFailed<T>> for PartError {
    fn from(_: AllocFailed<T>) -> PartError {
        PartError::NoMemory
    }
}

impl From<EntryError> for PartError {
    fn from(_: EntryError) -> PartError {
        PartError::Refused
    }
}

impl From<CatalogueError> for PartError {
    fn from(_: CatalogueError) -> PartError {
        PartError::Refused
    }
}

impl From<FlatError> for PartError {
    fn from(_: FlatError) -> PartError {
        PartError::Refused
    }
}

impl From<Failed> for PartError {
    fn from(_: Failed) -> PartError {
        PartError::Failed
    }
}

impl From<ReadError> for PartError {
    fn from(error: ReadError) -> PartError {
        match error {
            ReadError::Failed => PartError::Failed,
            ReadError::NoMemory => PartError::NoMemory,
        }
    }
}

impl From<ScriptError> for PartError {
    fn from(_: ScriptError) -> PartError {
        PartError::Refused
    }
}

impl From<AllError> for PartError {
    fn from(error: AllError) -> PartError {
        match error {
            AllError::Abort(_) => PartError::Refused,
            AllError::NoMemory => PartError::NoMemory,
        }
    }
}

impl From<CreateError> for PartError {
    fn from(error: CreateError) -> PartError {
        match error {
            CreateError::NotEmpty { .. } => PartError::NotEmpty,
            CreateError::DiskFault => PartError::Failed,
            CreateError::NoMemory => PartError::NoMemory,
        }
    }
}

impl From<LogError> for PartError {
    fn from(error: LogError) -> PartError {
        match error {
            LogError::DiskFault => PartError::Failed,
            LogError::NoStore | LogError::Damaged { .. } => PartError::Refused,
            LogError::NoMemory => PartError::NoMemory,
        }
    }
}

impl From<PrepareError> for PartError {
    fn from(error: PrepareError) -> PartError {
        match error {
            PrepareError::LogFull { need } => PartError::LogFull { need },
            PrepareError::Failed => PartError::Failed,
            PrepareError::NoMemory => PartError::NoMemory,
        }
    }
}

impl From<SlotError> for PartError {
    fn from(error: SlotError) -> PartError {
        match error {
            SlotError::DiskFault => PartError::Failed,
            SlotError::Damaged { .. } => PartError::Refused,
            SlotError::NoMemory => PartError::NoMemory,
        }
    }
}

impl From<SaveError> for PartError {
    fn from(error: SaveError) -> PartError {
        match error {
            SaveError::TooLarge { bytes } => PartError::TooLarge { bytes },
            SaveError::DiskFault => PartError::Failed,
            SaveError::NoMemory => PartError::NoMemory,
        }
    }
}

impl From<ExecError> for PartError {
    fn from(error: ExecError) -> PartError {
        match error {
            ExecError::Abort { .. } | ExecError::Full { .. } => PartError::Refused,
            ExecError::NoMemory => PartError::NoMemory,
        }
    }
}
