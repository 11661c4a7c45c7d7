// The rows of tables.
use crate::Value;
use pac_base::{Rule, Ruled};

/// The values of a row's columns: 1 to 8, none a bool.
pub type Row = Ruled<RowRule>;

/// What the values of a [`Row`] keep.
pub struct RowRule;

impl Rule for RowRule {
    type Item = Value;

    ghost use Rattle.pac_value.specs.Values.{IsRow};

    ghost holds = { IsRow };
}
