// Where pieces stand in a list.
ghost use Rattle.std.specs.Prelude.{◌≡◌, [], ◌<◌, ◌≤◌, true, Some, IfSome, position};
ghost use Rattle.pac_ops.specs.declared.piece.PieceId.{PieceId};
ghost use Rattle.pac_plan.specs.Pieces.{is_piece};
ghost use Rattle.pac_sched.specs.Orders.{piece_before, IsAscending};

use pac_ops::PieceId;
use std::alloc::Global;
use std::marker::Model;

/// Pieces in an order of their own. Where they ascend, a piece is found in time that grows with the logarithm of their number,
/// else with their number. Contracts see the list of pieces.
#[derive(Drop)]
pub(crate) struct Positions {
    pieces: Vec<PieceId>,
    ascending: bool,
}

impl Model for Positions {
    ghost use Rattle.std.specs.Prelude.{◌≡◌, List, true};
    ghost use Rattle.pac_ops.specs.declared.piece.PieceId.{PieceId};
    ghost use Rattle.pac_sched.specs.Orders.{IsAscending};

    ghost Value = { List PieceId };

    ghost view = { λ positions. positions.pieces.items };

    ghost invariant = { λ positions. positions.ascending ≡ true → IsAscending positions.pieces.items };
}

impl Positions {
    // No pieces. Takes no memory.
    pub(crate) fn empty(alloc: Global) -> Positions
        ensures { result ≡ [] }
    {
        Positions {
            pieces: Vec::new(alloc),
            ascending: true,
        }
    }

    // These pieces. Takes no memory.
    pub(crate) fn new(pieces: Vec<PieceId>) -> Positions
        ensures { result ≡ pieces.items }
    {
        let ascending = is_ascending(&pieces);
        Positions { pieces, ascending }
    }

    // The pieces.
    pub(crate) fn pieces(&self) -> &[PieceId]
        ensures { result.now ≡ self.now }
    {
        &self.pieces
    }

    // The position of a piece.
    pub(crate) fn find(&self, id: PieceId) -> Option<usize>
        ensures { result ≡ position (is_piece id) self.now }
    {
        if !self.ascending {
            return scan(&self.pieces, id);
        }
        match guess(&self.pieces, id) {
            Some(i) => Some(i),
            None => search(&self.pieces, id),
        }
    }
}

// Whether a piece comes before another, by transaction and block.
fn piece_before(one: PieceId, other: PieceId) -> bool
    ensures { result ≡ piece_before one other }
{
    one.txn < other.txn || (one.txn == other.txn && one.block < other.block)
}

// Whether the two are one piece.
fn is_piece(one: PieceId, other: PieceId) -> bool
    ensures { result ≡ is_piece one other }
{
    one.txn == other.txn && one.block == other.block
}

// Whether each piece comes before the next.
fn is_ascending(pieces: &[PieceId]) -> bool
    ensures { result ≡ true → IsAscending pieces.now }
{
    for i in 1..pieces.len() {
        if !piece_before(pieces[i - 1], pieces[i]) {
            return false;
        }
    }
    true
}

// The position of a piece in a list.
fn scan(pieces: &[PieceId], id: PieceId) -> Option<usize>
    ensures { result ≡ position (is_piece id) pieces.now }
{
    for i in 0..pieces.len() {
        if is_piece(id, pieces[i]) {
            return Some(i);
        }
    }
    None
}

// The position of a piece in an ascending list, if it is as far from the first as its transaction's number is.
fn guess(pieces: &[PieceId], id: PieceId) -> Option<usize>
    requires { IsAscending pieces.now }
    ensures { IfSome result (λ i. position (is_piece id) pieces.now ≡ Some i) }
{
    if pieces.is_empty() || id.txn < pieces[0].txn {
        return None;
    }
    let i = (id.txn - pieces[0].txn) as usize;
    if i < pieces.len() && is_piece(id, pieces[i]) {
        return Some(i);
    }
    None
}

// The position of a piece in an ascending list.
fn search(pieces: &[PieceId], id: PieceId) -> Option<usize>
    requires { IsAscending pieces.now }
    ensures { result ≡ position (is_piece id) pieces.now }
{
    let mut low = 0;
    let mut high = pieces.len();
    while low < high {
        let middle = low + (high - low) / 2;
        let piece = pieces[middle];
        if piece_before(piece, id) {
            low = middle + 1;
        } else if piece_before(id, piece) {
            high = middle;
        } else {
            return Some(middle);
        }
    }
    None
}
