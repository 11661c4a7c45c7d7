//! Tests that no case can be: files of the system, streams that give or take little at a time, the calls that no command
//! makes, devices that are too long to be held, and the largest sizes. It has no calls of its own.
//!
//! Most functions own one thing that has memory and lend it on, which keeps their proofs short.
#![tactic(auto)]

#[cfg(test)]
mod commands;
#[cfg(test)]
mod file_calls;
#[cfg(test)]
mod files;
#[cfg(test)]
mod lengths;
#[cfg(test)]
mod lines;
#[cfg(test)]
mod recorder;
#[cfg(test)]
mod recoveries;
#[cfg(test)]
mod replays;
#[cfg(test)]
mod sends;
#[cfg(test)]
mod sizes;
#[cfg(test)]
mod store_files;
#[cfg(test)]
mod streams;
#[cfg(test)]
mod tokens;
#[cfg(test)]
mod window_counts;
#[cfg(test)]
mod windows;
