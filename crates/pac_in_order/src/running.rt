// Running the piece that comes next.
ghost use Rattle.std.specs.Prelude.{◌≡◌, IfOk, OnErr, OnOk, Some};
ghost use Rattle.pac_plan.specs.Pieces.{apply};
ghost use Rattle.pac_piece.specs.InPlace.{place_in};
ghost use Rattle.pac_commute.specs.Loads.{world_of};
ghost use Rattle.pac_in_order.specs.Courses.{IsRunInOrder, course_present};
ghost use Rattle.pac_in_order.specs.Lines.{IsAtPiece, KeepsLine, course_of, line_batches, line_job, opening_tables};

use crate::blocks::run_piece;
use crate::line::Line;
use pac_base::NoMemory;
use pac_ops::{Gate, PieceId};
use pac_piece::InPlace;
use pac_tables::Rows;
use pac_workers::GhostList;
use std::alloc::Global;

/// Runs the piece that comes next, once it passed the gate. `None`: none is left.
///
/// # Errors
///
/// [`NoMemory`] where an allocation is refused. The piece is undone.
pub(crate) fn run_next<R: Rows, G: Gate>(
    alloc: Global,
    line: &mut Line,
    place: &mut InPlace<R>,
    opening: &GhostList<R>,
    gate: &G,
    worker: u32,
) -> Result<Option<PieceId>, NoMemory>
    requires { KeepsLine line.old place.old (opening_tables R.held opening.now.items) }
    ensures keeps { KeepsLine line.new place.new (opening_tables R.held opening.now.items) }
    ensures ok { IfOk result (λ next. IsRunInOrder (course_of line.old (opening_tables R.held opening.now.items)) next (course_of line.new (opening_tables R.held opening.now.items))) }
    ensures err { OnErr result (course_of line.new (opening_tables R.held opening.now.items) ≡ course_of line.old (opening_tables R.held opening.now.items)) }
{
    let Some(piece) = line.seek(place, opening)? else {
        return Ok(None);
    };
    gate.enter(worker, piece.txn, piece.block);
    run_found(alloc, line, place, opening, piece)?;
    Ok(Some(piece))
}

// Runs the piece at the place, and goes on behind it.
fn run_found<R: Rows>(
    alloc: Global,
    line: &mut Line,
    place: &mut InPlace<R>,
    opening: &GhostList<R>,
    piece: PieceId,
) -> Result<(), NoMemory>
    requires keeps { KeepsLine line.old place.old (opening_tables R.held opening.now.items) }
    requires at { IsAtPiece line.old piece }
    ensures keeps { KeepsLine line.new place.new (opening_tables R.held opening.now.items) }
    ensures ok { OnOk result (IsRunInOrder (course_of line.old (opening_tables R.held opening.now.items)) (Some piece) (course_of line.new (opening_tables R.held opening.now.items))) }
    ensures err { OnErr result (line.new ≡ line.old) }
{
    let _blocks = line.plan.get().plan().blocks(); // more than the number of the piece's
    run_at(alloc, line, place, opening, piece)?;
    line.block = Some(piece.block + 1);
    Ok(())
}

// Runs the piece at the place.
fn run_at<R: Rows>(
    alloc: Global,
    line: &Line,
    place: &mut InPlace<R>,
    opening: &GhostList<R>,
    piece: PieceId,
) -> Result<(), NoMemory>
    requires keeps { KeepsLine line.now place.old (opening_tables R.held opening.now.items) }
    requires at { IsAtPiece line.now piece }
    ensures ok { OnOk result (place.new ≡ place_in place.old.count piece.txn
        (apply (world_of (line_job line.now (opening_tables R.held opening.now.items)) (line_batches line.now)) piece (course_present (course_of line.now (opening_tables R.held opening.now.items))))) }
    ensures err { OnErr result (KeepsLine line.now place.new (opening_tables R.held opening.now.items)) }
{
    let Some(batch) = line.batches.front() else {
        unreachable!()
    };
    let txn = &batch.txns.items()[line.txn];
    run_piece(alloc, line.plan.get(), txn, piece, place)
}
