//! Tests of the replay, from scripts to the tables that it leaves: where batches are cut, what the pieces of procedures are
//! and touch, in which order they are handed out, that orders taken at random leave what serial execution does, and that workers count
//! each piece once. It has no calls of its own.
//!
//! It stands beside `pac_tests`, on the crates of the replay alone, so that it waits for no command. Most functions
//! own one thing that has memory and lend it on, which keeps their proofs short.
#![tactic(auto)]

#[cfg(test)]
mod batches;
#[cfg(test)]
mod copies;
#[cfg(test)]
mod cores;
#[cfg(test)]
mod ends;
#[cfg(test)]
mod fitting;
#[cfg(test)]
mod jobs;
#[cfg(test)]
mod many;
#[cfg(test)]
mod orders;
#[cfg(test)]
mod pieces;
#[cfg(test)]
mod plans;
#[cfg(test)]
mod queues;
#[cfg(test)]
mod rows;
#[cfg(test)]
mod schedules;
#[cfg(test)]
mod steps;
#[cfg(test)]
mod takes;
#[cfg(test)]
mod undone;
#[cfg(test)]
mod workers;
