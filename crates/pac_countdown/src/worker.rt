// The pass of a worker, with the pieces that it was handed.
use crate::pass::Pass;

#[derive(Drop)]
pub(crate) struct Worker {
    pub(crate) pass: Pass,
    pub(crate) pieces: Vec<u32>,
}
