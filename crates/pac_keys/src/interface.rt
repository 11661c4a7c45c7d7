// What passes between a procedure's operations in a block and those in others.
use pac_base::Listed;

/// Of a procedure's operations in a block: the variables that they use and don't define, the inputs, and those that they
/// define and that its operations in other blocks use, the outputs.
#[derive(Drop)]
pub struct Interface {
    pub inputs: Listed<u16>,
    pub outputs: Listed<u16>,
}
