//! Recovery: from what the devices of a store hold, the tables that serial execution of the stored transactions gives,
//! or what is wrong, by any number of workers. The devices are only read.
//!
//! - [`recover`]: the tables after all stored transactions, [`Recovered`]; or the first transaction that aborts, or the first
//!   table over a limit of rows, or damage: a [`RecoverError`](pac_restore::RecoverError). It opens the store, and reads the active
//!   segment window by window, while workers execute each window over hashed tables. [`recover_by_windows`] does so with windows of
//!   another size.
//! - [`LogFeed`]: a feed of the batches of a log, for the workers of `pac_workers`, until a window of it is full. [`FeedEnd`]
//!   says why no more come.
//! - [`execute_by`]: what transactions give over tables, executed by workers, an [`Execution`](pac_restore::Execution).
//!
//! ```
//! use pac_outside::OpenGate;
//! use pac_recover::recover;
//!
//! let store = recover(rt, alloc, 4, 1_000_000, devices, &OpenGate)?; // four workers, tables of at most 1,000,000 rows
//! let txns = store.txns; // and store.catalogue, store.tables
//! ```
//!
//! `pac_restore` reads the store, and says what is restored of it and in which order it is refused. `pac_store` defines
//! what is stored and which history the devices stand for: where they stand for one, the tables are those of a prefix
//! of it with at least the transactions that are durable, and nothing is damaged or aborts (`stands`).
#![tactic(auto)]

mod log_feed;
mod recovery;
mod segment;
mod windows;
mod workers;

pub use log_feed::{FeedEnd, LogFeed};
pub use recovery::{Recovered, recover, recover_by_windows};
pub use workers::execute_by;
