//! What every crate uses: boxes and lists that contracts see as their contents, exact copies and comparisons, and the
//! error for out of memory.
//!
//! A declared type that holds a plain `Box` or `Vec` shows its addresses and capacities to the logic, so a copy of it
//! is never equal to it. A type that holds a [`Boxed`] or a [`Listed`] is plain data there: two values are equal
//! exactly where their contents are.
//!
//! - [`Boxed`]`<T>`: a box, seen as its `T`. [`Listed`]`<T>`: a vector, seen as the list of its items.
//! - [`ShortList`]`<T, N>`: a list with up to `N` items in the value itself, seen as the list of its items.
//! - [`Ruled`]`<R>`: a list whose items keep the rule `R`; its constructor requires it, and every reader knows it.
//! - [`Exact`]: a copy is equal to the original. [`Same`]: the test returns true exactly for equal values.
//! - [`NoMemory`]: the error of a call that fails only when it is out of memory. [`Refusal`]`<F>`: the error of a call
//!   that a fault `F` of its input can stop too. `specs/Refusals.antt` has the predicates that contracts use for such
//!   results.
//!
//! ```
//! use pac_base::{Exact, Same, listed};
//!
//! let mut numbers = Vec::new(alloc);
//! numbers.push(7_u64)?;
//! let list = listed(numbers);
//! let copy = list.copy(alloc)?;
//! let equal = list.same(&copy); // true
//! ```
#![tactic(auto)]

mod exact;
mod lists;
mod no_memory;
mod refusal;
mod ruled;
mod short_list;

pub use exact::{Exact, Same};
pub use lists::{Listed, are_same, copy_of, listed, push};
pub use no_memory::NoMemory;
pub use refusal::Refusal;
pub use ruled::{Rule, Ruled};
pub use short_list::ShortList;
pub use sqlite_items::Boxed;
