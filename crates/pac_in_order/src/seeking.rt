// Looking for the next piece.
ghost use Rattle.std.specs.Prelude.{◌≡◌, ◌<◌, IfNone, IfOk, IfSome, OnErr, OnOk, None};
ghost use Rattle.std.specs.VecDeque.{deque_len};
ghost use Rattle.pac_plan.specs.Codes.{TxnFitsPlan};
ghost use Rattle.pac_in_order.specs.Lines.{IsAtPiece, IsFirstBlock, IsFrontFinished, OpensTxn, StandsNext, KeepsLine, course_of, from_block, left_to_seek, opening_tables};

use crate::blocks::first_block;
use crate::line::Line;
use pac_base::NoMemory;
use pac_keys::PlanCode;
use pac_ops::{PieceId, Txn};
use pac_piece::InPlace;
use pac_tables::Rows;
use pac_workers::GhostList;

impl Line {
    /// The piece that comes next: its transaction is begun, and the place is there. `None`: none is left. What is finished stays.
    ///
    /// # Errors
    ///
    /// [`NoMemory`] where the arguments of a transaction that begins find no room.
    pub(crate) fn seek<R: Rows>(
        &mut self,
        place: &mut InPlace<R>,
        opening: &GhostList<R>,
    ) -> Result<Option<PieceId>, NoMemory>
        requires { KeepsLine self.old place.old (opening_tables R.held opening.now.items) }
        ensures keeps { KeepsLine self.new place.new (opening_tables R.held opening.now.items) }
        ensures same { course_of self.new (opening_tables R.held opening.now.items) ≡ course_of self.old (opening_tables R.held opening.now.items) }
        ensures found { IfOk result (StandsNext self.new) }
    {
        while !self.batches.is_empty() {
            if let Some(piece) = self.look(place, opening)? {
                return Ok(Some(piece));
            }
        }
        Ok(None)
    }

    // The next piece, where the transaction at the place has one. `None`: the place moves on.
    fn look<R: Rows>(
        &mut self,
        place: &mut InPlace<R>,
        opening: &GhostList<R>,
    ) -> Result<Option<PieceId>, NoMemory>
        requires keeps { KeepsLine self.old place.old (opening_tables R.held opening.now.items) }
        requires some { 0 < deque_len self.old.batches }
        ensures keeps { KeepsLine self.new place.new (opening_tables R.held opening.now.items) }
        ensures same { course_of self.new (opening_tables R.held opening.now.items) ≡ course_of self.old (opening_tables R.held opening.now.items) }
        ensures found { IfOk result (λ next. IfSome next (IsAtPiece self.new)) }
        ensures moved { IfOk result (λ next. IfNone next (left_to_seek self.new < left_to_seek self.old)) }
    {
        let Some(batch) = self.batches.front() else {
            unreachable!()
        };
        let txns = batch.txns.items();
        if self.txn == txns.len() {
            self.let_go(place, opening);
            return Ok(None);
        }
        let number = batch.first + self.txn as u64;
        match next_block(self.plan.get(), &txns[self.txn], self.block, place)? {
            Some(block) => {
                self.block = Some(block);
                Ok(Some(PieceId { txn: number, block }))
            }
            None => {
                self.txn += 1;
                self.block = None;
                Ok(None)
            }
        }
    }

    // The first batch is finished, and is let go.
    fn let_go<R: Rows>(&mut self, place: &InPlace<R>, opening: &GhostList<R>)
        requires keeps { KeepsLine self.old place.now (opening_tables R.held opening.now.items) }
        requires finished { IsFrontFinished self.old }
        ensures keeps { KeepsLine self.new place.now (opening_tables R.held opening.now.items) }
        ensures same { course_of self.new (opening_tables R.held opening.now.items) ≡ course_of self.old (opening_tables R.held opening.now.items) }
        ensures moved { left_to_seek self.new < left_to_seek self.old }
    {
        let Some(batch) = self.batches.pop_front() else {
            unreachable!()
        };
        self.gone = self.gone.with(&batch);
        self.txn = 0;
    }
}

// The block of a transaction's next piece, from the block on from which it is looked for. One that isn't begun begins.
fn next_block<R: Rows>(
    plan: &PlanCode,
    txn: &Txn,
    block: Option<u16>,
    place: &mut InPlace<R>,
) -> Result<Option<u16>, NoMemory>
    requires { TxnFitsPlan plan.now txn.now }
    ensures begun { OnOk result (OpensTxn txn.now block place.old place.new) }
    ensures err { OnErr result ((block ≡ None) × (place.new ≡ record place.old { values = place.new.values })) }
    ensures first { IfOk result (IsFirstBlock plan.now txn.now (from_block block)) }
{
    let from = begin_at(txn, block, place)?;
    Ok(first_block(plan, txn, from))
}

// The block from which on a transaction's next piece is looked for. One that isn't begun begins.
fn begin_at<R: Rows>(txn: &Txn, block: Option<u16>, place: &mut InPlace<R>) -> Result<u16, NoMemory>
    ensures begun { OnOk result (OpensTxn txn.now block place.old place.new) }
    ensures err { OnErr result ((block ≡ None) × (place.new ≡ record place.old { values = place.new.values })) }
    ensures from { IfOk result (λ from. from ≡ from_block block) }
{
    match block {
        Some(block) => Ok(block),
        None => {
            place.begin(txn)?;
            Ok(0)
        }
    }
}
