// A replay in order.
ghost use Rattle.std.specs.Prelude.{◌≡◌, ◌↔◌, ◌+◌, ◌<◌, ◌^◌, IfErr, IfOk, IsTrue, OnErr, OnOk, None, length};
ghost use Rattle.pac_ops.specs.Shapes.{RowsFit};
ghost use Rattle.pac_commute.specs.Loads.{next_in_job};
ghost use Rattle.pac_in_order.specs.Courses.{IsCourseOutcome, IsNextInOrder, IsRunInOrder, IsSoundCourse, MayFollow, RanOn, closed_course, course_pieces, course_present, course_with_batch, opening_course};

use crate::line::Line;
use crate::running::run_next;
use pac_base::NoMemory;
use pac_keys::PlanCode;
use pac_ops::{Batch, Gate, Note, PieceId};
use pac_piece::InPlace;
use pac_plan::{Shared, is_plan};
use pac_tables::Rows;
use pac_workers::GhostList;
use std::alloc::Global;
use std::collections::VecDeque;
use std::marker::Model;

/// A replay in order: transactions one after another, of each its pieces in the order of blocks, each in place in the tables.
/// Contracts see a `Course`.
#[derive(Drop)]
pub struct InOrder<R: Rows> {
    alloc: Global,
    line: Line,
    place: InPlace<R>,
    /// The tables as they were at the opening, for clauses alone.
    opening: GhostList<R>,
}

/// A run ended before all was finished: there was no memory.
#[derive(Clone, Copy, Debug, PartialEq, Eq)]
pub struct Stopped {
    /// How many pieces it had run.
    pub pieces: u64,
}

impl<R: Rows> Model for InOrder<R> {
    ghost use Rattle.pac_in_order.specs.Courses.{Course, course_code};
    ghost use Rattle.pac_in_order.specs.Lines.{KeepsLine, course_of, opening_tables};

    ghost Value = { Course };

    ghost coded = { course_code };

    ghost view = { λ replay. course_of replay.line (opening_tables R.held replay.opening.items) };

    ghost invariant = { λ replay. KeepsLine replay.line replay.place (opening_tables R.held replay.opening.items) };
}

impl<R: Rows> InOrder<R> {
    /// Nothing is loaded. Transactions begin with number `first`. Takes no memory.
    pub fn new(alloc: Global, plan: Shared<PlanCode>, first: u64, tables: R) -> InOrder<R>
        requires tables { R.tables tables ≡ length plan.tables }
        requires fit { RowsFit plan.tables (R.held tables) }
        ensures { result ≡ opening_course (record { parts = plan; first = first; tables = R.held tables }) }
    {
        is_plan(plan.get().plan());
        let opening = GhostList::new().with(&tables);
        let line = Line {
            plan,
            first,
            next: first,
            gone: GhostList::new(),
            batches: VecDeque::new(alloc),
            txn: 0,
            block: None,
            is_closed: false,
        };
        InOrder {
            alloc,
            line,
            place: InPlace::new(alloc, tables),
            opening,
        }
    }

    /// The number of the next transaction that may be loaded. Takes no memory.
    pub fn next_txn(&self) -> u64
        ensures { result ≡ next_in_job self.now.job self.now.batches }
    {
        self.line.next
    }

    /// Whether no more batches come. Takes no memory.
    pub fn is_closed(&self) -> bool
        ensures { result ≡ self.now.is_closed }
    {
        self.line.is_closed
    }

    /// What holds at every moment. The plan is one, the batches' numbers run on, and their transactions fit it; the finished
    /// pieces are the first ones in the order of transactions and blocks, each once; tables, values and note are those of the
    /// partial replay of these.
    ///
    /// States facts, and does nothing.
    pub fn keeps_invariant(&self)
        ensures { IsSoundCourse self.now }
    {
        let _line = &self.line;
    }

    /// No more batches come. Takes no memory.
    pub fn close(&mut self)
        ensures { self.new ≡ closed_course self.old }
    {
        self.line.is_closed = true;
    }

    /// Loads a batch. It takes time and memory for its place alone.
    ///
    /// # Errors
    ///
    /// [`NoMemory`] with the batch, where it finds no room. Nothing is changed.
    pub fn load(&mut self, batch: Batch) -> Result<(), (Batch, NoMemory)>
        requires may { MayFollow self.old batch }
        requires numbers { batch.first + length batch.txns < 2 ^ 64 }
        ensures ok { OnOk result (self.new ≡ course_with_batch self.old batch) }
        ensures err { OnErr result (self.new ≡ self.old) }
        ensures batch { IfErr result (λ refused. refused.0 ≡ batch) }
    {
        self.line.load(batch)
    }

    /// Runs the piece that comes next, by transaction and block, once it passed the gate as one of this worker. `None`: all that is
    /// loaded is finished.
    ///
    /// # Errors
    ///
    /// [`NoMemory`] where an allocation is refused. The piece is undone, and nothing else: the next call begins it again.
    pub fn run_next<G: Gate>(&mut self, gate: &G, worker: u32) -> Result<Option<PieceId>, NoMemory>
        ensures ok { IfOk result (λ next. IsRunInOrder self.old next self.new) }
        ensures err { OnErr result (self.new ≡ self.old) }
    {
        run_next(
            self.alloc,
            &mut self.line,
            &mut self.place,
            &self.opening,
            gate,
            worker,
        )
    }

    /// Runs all that is loaded, each piece once it passed the gate as one of this worker, and returns how many pieces that were.
    ///
    /// # Errors
    ///
    /// [`Stopped`] with the number of pieces that it ran, where an allocation is refused, or where there are more pieces than a
    /// count can hold. The piece that was in course is undone alone, and another run goes on with it.
    pub fn run<G: Gate>(&mut self, gate: &G, worker: u32) -> Result<u64, Stopped>
        ensures ran { IfOk result (λ pieces. RanOn self.old pieces self.new) }
        ensures finished { OnOk result (IsNextInOrder self.new None) }
        ensures stopped { IfErr result (λ stopped. RanOn self.old stopped.pieces self.new) }
    {
        let mut pieces = 0;
        while pieces < u64::MAX {
            match self.run_next(gate, worker) {
                Ok(Some(_)) => pieces += 1,
                Ok(None) => return Ok(pieces),
                Err(NoMemory) => return Err(Stopped { pieces }),
            }
        }
        Err(Stopped { pieces })
    }

    /// The tables, and the first transaction that aborted, where one did. Takes no memory.
    pub fn into_parts(self) -> (R, Option<Note>)
        ensures tables { R.held result.0 ≡ (course_present self).tables }
        ensures note { result.1 ≡ (course_present self).note }
        ensures outcome { IsNextInOrder self None → IsCourseOutcome self (R.held result.0) result.1 }
        ensures count { R.tables result.0 ≡ length self.job.parts.tables }
        ensures fit { RowsFit self.job.parts.tables (R.held result.0) }
    {
        let InOrder { place, .. } = self;
        place.into_parts()
    }
}
