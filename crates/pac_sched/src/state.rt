// How far a piece is, and what a take answers.
ghost use Rattle.std.specs.Prelude.{◌≡◌};
ghost use Rattle.pac_sched.specs.Schedules.{is_waiting, is_out, is_finished};

use pac_ops::PieceId;

/// How far an opened piece is.
#[derive(Clone, Copy, Debug, PartialEq, Eq)]
pub enum PieceState {
    /// Neither handed out nor finished.
    Waiting,
    /// Handed out, and neither given back nor finished since.
    Out,
    /// Finished, for good.
    Finished,
}

impl PieceState {
    // Neither handed out nor finished.
    pub(crate) fn is_waiting(self) -> bool
        ensures { result ≡ is_waiting self }
    {
        matches!(self, PieceState::Waiting)
    }

    // Handed out.
    pub(crate) fn is_out(self) -> bool
        ensures { result ≡ is_out self }
    {
        matches!(self, PieceState::Out)
    }

    // Finished.
    pub(crate) fn is_finished(self) -> bool
        ensures { result ≡ is_finished self }
    {
        matches!(self, PieceState::Finished)
    }
}

/// What [`crate::Sched::take`] answers.
#[derive(Clone, Copy, Debug, PartialEq, Eq)]
pub enum Pick {
    /// This piece was ready, and is out now.
    Piece(PieceId),
    /// No piece is ready, and some opened piece isn't finished.
    NotReady,
    /// All opened pieces are finished.
    Done,
}
