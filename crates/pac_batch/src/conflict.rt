// Whether accesses conflict.
ghost use Rattle.std.specs.Prelude.{◌≡◌};
ghost use Rattle.std.specs.List.{list_any};
ghost use Rattle.std.specs.Ordering.{eq_by_cmp};
ghost use Rattle.pac_value.specs.State.{cell_cmp};
ghost use Rattle.pac_plan.specs.Pieces.{named_cell, conflicts};
ghost use Rattle.pac_batch.specs.Conflicts.{touches_conflict};

use pac_plan::{Access, Touch};
use std::cmp::Ordering;

/// Whether two accesses conflict. It compares each touch of the one with each of the other.
pub(crate) fn conflict(one: &Access, other: &Access) -> bool
    ensures { result ≡ conflicts one.now other.now }
{
    match (one, other) {
        (Access::Keys(one), Access::Keys(other)) => any_conflict(one.as_slice(), other.as_slice()),
        _ => true,
    }
}

// Whether a touch conflicts with another.
fn any_conflict(touches: &[Touch], others: &[Touch]) -> bool
    ensures { result ≡ list_any (λ touch. list_any (touches_conflict touch) others.now) touches.now }
{
    touches.iter().any(|touch| conflicts_any(touch, others))
}

// Whether a touch conflicts with one of others.
fn conflicts_any(touch: &Touch, others: &[Touch]) -> bool
    ensures { result ≡ list_any (touches_conflict touch.now) others.now }
{
    others.iter().any(|other| touches_conflict(touch, other))
}

// Whether two touches are of one row, which one of them modifies.
fn touches_conflict(one: &Touch, other: &Touch) -> bool
    ensures { result ≡ touches_conflict one.now other.now }
{
    is_same_cell(one, other) && (one.is_write || other.is_write)
}

// Whether two touches are of one row.
fn is_same_cell(one: &Touch, other: &Touch) -> bool
    ensures { result ≡ eq_by_cmp cell_cmp (named_cell one.now) (named_cell other.now) }
{
    order(one, other).is_eq()
}

// The order of two touches by their rows.
fn order(one: &Touch, other: &Touch) -> Ordering
    ensures { result ≡ cell_cmp (named_cell one.now) (named_cell other.now) }
{
    match one.table.cmp(&other.table) {
        Ordering::Equal => one.key.cmp(&other.key),
        unequal => unequal,
    }
}
