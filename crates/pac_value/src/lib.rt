//! The data of every layer: names, texts, values, keys and rows, expressions and their evaluation, and cells of tables.
//! Memory is taken only by copies of environments, expressions and rows, by [`Env::set`], and by calls that append to a text.
//!
//! - [`Name`]: the name of a table, a column, a procedure or a variable, at most 32 bytes. [`Text`]: at most 64
//!   printable bytes.
//! - [`Ty`], [`Value`]: an int, a text or a bool. [`Key`]: an int or a text; ints sort before texts. [`Row`]: 1 to 8
//!   values, none of them a bool.
//! - [`Env`]: the values of variables. [`Expr`], [`BinOp`]: an expression; [`eval`] returns its value, or the [`Trap`]
//!   that stops it, and [`eval_key`] the key that it is.
//! - [`push_value`], [`push_key`], [`push_values`]: append values as literals to a text (`specs/Literals.antt`).
//!   [`push_count`] appends a count.
//!
//! ```
//! use pac_base::Boxed;
//! use pac_value::{BinOp, Env, Expr, Value, eval};
//!
//! let mut env = Env::new(alloc);
//! env.set(0, &Value::Int(40))?;
//! let sum = Expr::Bin {
//!     op: BinOp::Add,
//!     left: Boxed::new(alloc, Expr::Var(0))?,
//!     right: Boxed::new(alloc, Expr::Lit(Value::Int(2)))?,
//! };
//! let value = eval(&sum, &env); // Ok(Value::Int(42))
//! ```
//!
//! [`eval`] requires a well-typed expression. `specs/Expressions.antt` defines its value over unbounded whole numbers:
//! a result outside 64 bits is the trap Overflow, a zero divisor the trap DivZero, `/` rounds toward zero, and `a % b`
//! is the remainder of that. `specs/State.antt` says what the tables of a database are: one finite map from cells (a
//! table's number and a key) to rows. [`Env::set`] changes nothing where it is out of memory; a call that appends to a text
//! may then have appended a part.
#![tactic(auto)]

mod env;
mod evaluation;
mod expr;
mod limits;
mod literals;
mod name;
mod padded;
mod row;
mod text;
mod values;

pub use env::Env;
pub use evaluation::{eval, eval_key};
pub use expr::{BinOp, Expr, Trap};
pub use limits::{MAX_COLUMNS, MAX_NAME, MAX_PARAMS, MAX_PROCS, MAX_TABLES, MAX_TEXT};
pub use literals::{push_count, push_key, push_value, push_values};
pub use name::Name;
pub use row::{Row, RowRule};
pub use text::Text;
pub use values::{Key, Ty, Value};
