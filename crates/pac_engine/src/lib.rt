//! The serial engine: it executes requests one after another, and returns the replies of a group once its transactions
//! are durable.
//!
//! - [`Engine`]: a session over a store's log and slots. [`Engine::step`] executes one request, and returns the replies
//!   of the groups that it closes.
//! - [`EngineFault`]: why a step fails, with the replies that became durable before. An engine whose step failed has
//!   ended.
//! - [`commit`]: appends the transactions of a group to a log.
//!
//! ```
//! use pac_engine::Engine;
//!
//! let mut engine = Engine::new(alloc, cat, rows, log, slots, 64, 1_000_000);
//! let replies = engine.step(request, devices)?; // none, until the group is closed
//! ```
//!
//! What the replies of a step acknowledge is durable (`kept`, `kept_before`). At each moment of a step a crash leaves
//! devices that stand for the history, with the request's transaction where that is committed (`keeps`). No device is
//! called after one failed. `specs/Standing.antt` says which history an engine stands for on its devices,
//! `specs/Closing.antt` which replies a step returns, over the groups of `pac_session`, and where it stops.
//! [`an_opened_engine_stands`] says where an engine begins; [`steps_are_the_session`] and [`steps_keep_the_history`]
//! join steps to a run of many requests.
#![tactic(auto)]

mod committing;
mod engine;
mod fault;
mod handling;
mod law;
mod parts;

pub use committing::commit;
pub use engine::Engine;
pub use fault::{EngineCause, EngineFault};
pub use law::{an_opened_engine_stands, steps_are_the_session, steps_keep_the_history};
pub use parts::EngineParts;
