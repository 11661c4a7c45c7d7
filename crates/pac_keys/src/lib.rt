//! What a plan knows of its pieces before any value is known, and which rows a piece may touch once its inputs are.
//!
//! - [`PlanCode`]: a plan, with the operations of each procedure in each block, and the variables that pass between them,
//!   collected once. Replays of one catalogue share it. Contracts see it as its plan.
//! - [`PlanCode::code`]: these operations, to be shared by the pieces of all calls. [`PlanCode::records`]: the code of a
//!   piece of an ad hoc transaction.
//! - [`PlanCode::has_piece`]: whether a transaction has a piece in a block.
//! - [`PlanCode::is_bounded`]: whether each key of these operations depends on parameters and on other blocks alone.
//! - [`PlanCode::access`]: the rows that a piece may touch, over the values of its inputs.
//! - [`PlanCode::interface`]: the inputs and the outputs of a procedure in a block, an [`Interface`]. By the law
//!   [`inputs_are_outputs`] what one block needs of another is an output there.
//! - [`weight_of`], [`PlanCode::weight`], [`PlanCode::has_weight`], [`have_weight`]: about what pieces cost beside handing them
//!   out. Nothing may rest on it.
//! - [`arguments`]: the values that a transaction begins with. In a block to which no edge leads these are the inputs, by the law
//!   [`has_arguments`].
//!
//! ```
//! let code = PlanCode::new(alloc, plan)?;
//! let access = code.access(alloc, &txn, 3, &env)?; // of the transaction in block 3
//! let inputs = code.interface(0, 2).inputs.as_slice(); // of procedure 0 in block 2
//! ```
//!
//! An operation of a piece may run where each of its conditions holds that is on a variable from elsewhere: a parameter, or
//! a variable that another block defines. A condition on a variable of the same block counts as true, and one on a variable
//! without a value doesn't hold. The access is `Whole` exactly where an operation may run whose key isn't bounded. Otherwise
//! it has a touch for each table operation that may run and whose key doesn't trap, in the order of the operations.
//! `specs/Pieces.antt` of `pac_plan` says this once more, as `access_of`; `specs/Interfaces.antt` says which variables pass, over
//! the operations of the plan alone.
#![tactic(auto)]

mod defines;
mod inputs;
mod interface;
mod interfaces;
mod laws;
mod piece_code;
mod plan_code;
mod plan_ops;
mod probe;
mod records;
mod touches;
mod uses;
mod weight;

pub use inputs::{arguments, has_arguments};
pub use interface::Interface;
pub use laws::inputs_are_outputs;
pub use plan_code::PlanCode;
pub use weight::{have_weight, weight_of};
