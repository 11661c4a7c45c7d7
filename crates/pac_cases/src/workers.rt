// Steps that are repeated with several numbers of workers.
use std::alloc::{AllocError, Global};

// What stands after the arguments of such a step: `$ replay by 1, 4 and 16 workers`.
const BY_SEVERAL: &str = " by 1, 4 and 16 workers";

const SEVERAL: &[&str] = &[" --workers 1", " --workers 4", " --workers 16"];

const ONCE: &[&str] = &[""];

/// The arguments that all calls of a step have, and what is added to them for each call.
pub fn calls_of(arguments: &str) -> (&str, &'static [&'static str]) {
    match arguments.split_once(BY_SEVERAL) {
        Some((shared, _)) => (shared, SEVERAL),
        None => (arguments, ONCE),
    }
}

/// The arguments of one call.
pub fn arguments_of(alloc: Global, shared: &str, added: &str) -> Result<String, AllocError> {
    let mut arguments = String::from_str(alloc, shared)?;
    arguments.push_str(added)?;
    Ok(arguments)
}
