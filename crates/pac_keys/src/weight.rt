// What pieces weigh.
use crate::PlanCode;
use crate::plan_ops::PlanOps;
use pac_ops::Txn;
use pac_plan::Code;

/// How many operations cost about as much as handing a piece out.
const HANDING_OUT: usize = 8;

/// What code weighs: how many operations or records it has beyond those that cost as much as handing it out. An estimate,
/// with no clause: nothing may rest on it.
pub fn weight_of(code: &Code) -> u64 {
    match code {
        Code::Ops(ops) => over(ops.len()),
        Code::Records(records) => over(records.len()),
    }
}

fn over(operations: usize) -> u64 {
    operations.saturating_sub(HANDING_OUT) as u64
}

/// Whether the records of one of the transactions weigh anything. An estimate, as [`weight_of`].
pub fn have_weight(txns: &[Txn]) -> bool {
    for txn in txns {
        if let Txn::AdHoc { records } = txn {
            if over(records.items().len()) > 0 {
                return true;
            }
        }
    }
    false
}

/// Whether a piece of some procedure weighs anything.
pub(crate) fn has_weight(code: &PlanOps) -> bool {
    for proc in 0..code.plan().procs() {
        for block in 0..code.plan().blocks() {
            if over(code.ops(proc, block).len()) > 0 {
                return true;
            }
        }
    }
    false
}

impl PlanCode {
    /// About what the piece of a transaction in a block weighs. All of an ad hoc transaction's records count. An estimate, as
    /// [`weight_of`].
    pub fn weight(&self, txn: &Txn, block: u16) -> u64 {
        match txn {
            Txn::Call(call) => {
                if call.proc < self.plan().procs() && block < self.plan().blocks() {
                    weight_of(self.code(call.proc, block).get())
                } else {
                    0
                }
            }
            Txn::AdHoc { records } => over(records.items().len()),
        }
    }
}
