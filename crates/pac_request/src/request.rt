// Requests, and the replies to them.
use crate::fault::LineFault;
use pac_base::{Rule, Ruled};
use pac_ops::{Call, Reason, Records};
use pac_value::{Key, Row};

/// What a line asks.
#[derive(Drop)]
pub enum Request {
    /// The call of a procedure, by its number.
    Call(Call),
    /// Changes that no procedure makes.
    AdHoc { records: Records },
    /// To close the batch.
    Flush,
    /// The row of a table, by its number, with this key.
    Show { table: u16, key: Key },
    /// To close the batch and to save a checkpoint.
    Save,
    /// To close the batch and to end.
    Stop,
    /// A line that is refused: nothing but to report that.
    Refused(LineFault),
}

/// What a request is answered.
#[derive(Drop)]
pub enum Reply {
    /// The transaction with this number was committed.
    Committed {
        txn: u64,
    },
    /// The transaction was aborted at this operation.
    Aborted {
        op: u16,
        reason: Reason,
    },
    /// The transaction was aborted, since the table with this number would hold too many rows.
    AbortedFull {
        table: u16,
    },
    /// The row of a table with this key, if there is one.
    Shown {
        table: u16,
        key: Key,
        row: Option<Row>,
    },
    /// The line was refused.
    Refused(LineFault),
    /// A checkpoint of that many transactions was saved.
    Saved {
        txns: u64,
    },
}

/// Replies, in the order of their requests.
pub type Replies = Ruled<RepliesRule>;

/// What [`Replies`] keep: nothing.
pub struct RepliesRule;

impl Rule for RepliesRule {
    type Item = Reply;

    ghost holds = { λ replies. Unit {0} };
}
