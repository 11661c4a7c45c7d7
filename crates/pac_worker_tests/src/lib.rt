//! Tests of workers, of what no clause says: that threads run, wait, wake each other and end.
//!
//! Most replay a machine of chains, in which each piece waits for the one before it; the others execute batches over a plan of
//! one table, or hand out pieces over atomic words.
//!
//! [`gates`] has gates that tell who passed, for these tests and for others.
#![tactic(auto)]

#[cfg(test)]
mod chains;
#[cfg(test)]
mod executions;
#[cfg(test)]
mod feeds;
pub mod gates;
#[cfg(test)]
mod hand_outs;
#[cfg(test)]
mod workers;
