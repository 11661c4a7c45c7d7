//! Reading of a store: from what its devices hold, what is stored, or the tables that serial execution of it gives; or what is
//! wrong. The devices are only read. It stands below the workers: what executes is given by the caller.
//!
//! - [`load`]: what is stored, [`Loaded`]: the catalogue, the tables of the newest slot, the batches of the active segment after
//!   it, and the segment's reader at its end. Or the first [`Damage`], a [`LoadError`].
//! - [`restore`]: the tables after all stored transactions over any kind of tables, with the segment's reader and the slots,
//!   [`Restored`]. It reads the segment once, and an [`Executor`] that the caller gives executes what is read, which gives an
//!   [`Execution`]. Or a [`RecoverError`].
//! - [`scan`]: what is stored but for the transactions, [`Scanned`], with the segment's reader at its first gate.
//! - [`test_rows`]: the first table over a limit of rows, [`TooManyRows`].
//!
//! ```
//! use pac_restore::load;
//!
//! let store = load(alloc, devices)?;
//! let txns = store.reader.gate().txns(); // and store.catalogue, store.tables, store.batches
//! ```
//!
//! Who executes in a way of his own, as by workers, reads with [`open_store`], an [`Opened`], with [`seek_newest`], and with
//! [`forget_rest`] after a transaction that aborts. [`in_log`] and [`tables_of`] give the refusals.
//!
//! All three read alike: what both slots begin with, which says which segment is active; its header; the rest of the slots, and
//! the tables of the newest; and then the segment's batches, one after another. They differ in what takes these: `load` collects
//! those after the newest slot, `restore` executes them, and `scan` lets them go. So there is one order of refusals, which
//! `pac_store` defines (`specs/FirstRefusals.antt`).
//!
//! `specs/Loading.antt` says what a load returns, `specs/Restoring.antt` what is restored and scanned, `specs/Reads.antt` what is
//! read of a segment from gate to gate.
#![tactic(auto)]

mod active;
mod errors;
mod execution;
mod executor;
mod limit;
mod loading;
mod restoring;
mod scanning;
mod segment;
mod sink;
mod slots;
mod store;
mod walking;

pub use errors::{Damage, LoadError, RecoverError, in_log};
pub use execution::{Execution, tables_of};
pub use executor::Executor;
pub use limit::{TooManyRows, test_rows};
pub use loading::{Loaded, load};
pub use restoring::{Restored, restore};
pub use scanning::{Scanned, scan};
pub use store::{Opened, open_store};
pub use walking::{forget_rest, seek_newest};
