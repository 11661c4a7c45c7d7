// What holds of all interfaces. Each law is a function that does nothing.
ghost use Rattle.pac_keys.specs.Interfaces.{InputsAreOutputs};

/// An input of a procedure in one block that its operations in another define is an output there.
pub fn inputs_are_outputs()
    ensures { InputsAreOutputs }
{}
