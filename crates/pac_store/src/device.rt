// The names of a store's devices.
ghost use Rattle.pac_store.specs.Made.{device_name};
ghost use Rattle.std.specs.Prelude.{◌≡◌};

/// A device of a store.
#[derive(Clone, Copy, Debug, PartialEq, Eq)]
pub enum DeviceName {
    Log,
    LogB,
    SlotA,
    SlotB,
}

impl DeviceName {
    /// The name, as it is shown to a user. Takes no memory.
    pub fn name(&self) -> &'static str
        ensures { result.now ≡ device_name self.now }
    {
        match self {
            DeviceName::Log => "log",
            DeviceName::LogB => "log_b",
            DeviceName::SlotA => "a",
            DeviceName::SlotB => "b",
        }
    }
}
