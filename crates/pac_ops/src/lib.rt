//! Operations and transactions as data: what is executed, apart from its effect. The log, the plan and the interpreter
//! pass these on.
//!
//! - [`Txn`]: a transaction. It is the [`Call`] of a procedure with its [`Args`], or ad hoc [`Records`]: 1 to 64 of
//!   [`Change`], each of which puts or deletes one row. [`Batch`]: 1 to 1,024 transactions, [`Txns`], with consecutive
//!   numbers.
//! - [`Program`]: a procedure in flat form, one list of operations, [`Ops`], without names and branches. A [`FlatOp`]
//!   has an [`OpKind`], and [`Conds`]: the tests of the enclosing conditionals, under which it has an effect.
//! - [`PieceId`]: what one transaction does in one block. [`Numbers`], [`Pairs`]: numbers of operations, slices or
//!   blocks.
//! - [`Reason`]: why a transaction aborts. [`Note`]: which operation of which transaction aborts, and why.
//! - [`Gate`]: what a worker passes before each piece; [`OpenGate`] never blocks.
//! - [`all_hold`], [`key_of`]: what an operation finds before it does anything.
//! - [`TableTypes`]: the types of a table's rows. `specs/Shapes.antt` says which rows and records fit such tables.
//!
//! ```
//! use pac_ops::{Args, Batch, Call, Txn, Txns};
//! use pac_value::Value;
//!
//! let args = Args::of(vec![in alloc; Value::Int(1), Value::Int(5)]?);
//! let call = Txn::Call(Call { proc: 0, args });
//! let batch = Batch { first: 1, txns: Txns::of(vec![in alloc; call]?) };
//! ```
//!
//! Procedures, tables, columns, variables and blocks have numbers from 0, transactions from 1. `specs/Operations.antt`
//! says what an operation means: which cell it accesses and what it does there; every interpreter is held to it.
//! `specs/Uses.antt` and `specs/Dependencies.antt` say which variables it uses and defines, and what depends on what;
//! `specs/Programs.antt` which programs are well-formed. `specs/Flat.antt`, `specs/Notes.antt` and
//! `specs/Transactions.antt` say what flat operations mean in a replay, where an abort leaves a note and stops nothing,
//! and which note is the first. The order of notes is by transaction, operation and reason.
//!
//! `specs/Effects.antt` gives what a flat operation does in one form: its cell, the value of its variable, the change of its
//! row, and its reason. [`one_operation`], [`numbered_operations`] and [`stays_fit`] are laws: functions without code, whose
//! clauses say what holds of all operations.
#![tactic(auto)]

mod batch;
mod evaluate;
mod gate;
mod laws;
mod limits;
mod note;
mod numbers;
mod piece;
mod program;
mod reason;
mod shapes;
mod transaction;
mod uses;

pub use batch::{Batch, Batches, Txns, TxnsRule};
pub use evaluate::{all_hold, key_of};
pub use gate::{Gate, OpenGate};
pub use laws::{numbered_operations, one_operation, stays_fit};
pub use limits::{MAX_ALL_OPS, MAX_OPS, MAX_RECORDS, MAX_TXNS};
pub use note::Note;
pub use numbers::{Numbers, Pairs};
pub use piece::PieceId;
pub use program::{Conds, FlatOp, OpKind, Ops, Program, Programs};
pub use reason::Reason;
pub use shapes::{TableTypes, TableTypesList, Types};
pub use transaction::{Args, ArgsRule, Call, Change, Records, RecordsRule, Txn};
