// What the calls of a core answer.
use pac_ops::{Note, PieceId};
use pac_piece::{Done as WorkDone, Work};
use pac_tables::Rows;

/// What a take answers.
#[derive(Drop)]
pub enum Take {
    /// The piece that comes next is out: its work.
    Given(Work),
    /// The piece that comes next may touch any row of its block, and was run on the spot.
    Ran(PieceId),
    /// No piece is ready now.
    NotReady,
    /// No more batches come, and each piece is finished.
    Done,
}

/// What became of a result that was handed in.
#[derive(Drop)]
pub enum Finish {
    /// Its piece is finished.
    Kept,
    /// It is not the result of a piece that is out, as the replay has it.
    Foreign(WorkDone),
    /// It found no room. Nothing was changed.
    NoMemory(WorkDone),
}

/// How much a take may find ready.
#[derive(Clone, Copy, Debug, PartialEq, Eq)]
pub struct ReadyPieces {
    /// How many pieces.
    pub pieces: u64,
    /// What they weigh, added up.
    pub weight: u64,
}

/// What a replay leaves.
#[derive(Drop)]
pub struct Outcome<R: Rows> {
    pub tables: R,
    /// The first transaction that aborted, where one did: its tables don't count then.
    pub first_note: Option<Note>,
}
