// What a piece has done so far.
ghost use Rattle.std.specs.Prelude.{◌≡◌, ℕ, OnOk, Some};
ghost use Rattle.pac_value.specs.declared.values.Value.{Value};
ghost use Rattle.pac_ops.specs.Notes.{least};
ghost use Rattle.pac_piece.specs.Frames.{Given, HasOneMore};

use pac_base::NoMemory;
use pac_ops::Note;
use pac_tables::Write;
use pac_value::{Env, Value};

/// What is kept, apart, of the values that a piece gives.
pub(crate) trait Outs {
    // A variable was given one more value.
    ghost Adds: { Self → ℕ → Value → Self → Type 0 };

    /// A variable is given a value.
    fn add(&mut self, var: u16, value: &Value) -> Result<(), NoMemory>
        ensures { OnOk result (Adds self.old var value.now self.new) };
}

// Each of them.
impl Outs for Env {
    ghost Adds = { HasOneMore };

    fn add(&mut self, var: u16, value: &Value) -> Result<(), NoMemory> {
        self.set(var, value)
    }
}

/// Nothing is kept apart, for one who looks for them among all values at the end.
#[derive(Drop)]
pub(crate) struct NotKept {}

impl Outs for NotKept {
    ghost Adds = { λ _ _ _ _. Unit {0} };

    fn add(&mut self, _: u16, _: &Value) -> Result<(), NoMemory> {
        Ok(())
    }
}

/// What a piece has done so far: the values of its inputs and of the variables that it gave values, what is kept of the latter, the
/// rows that it wrote, and its least note.
#[derive(Drop)]
pub(crate) struct Frame<K> {
    pub(crate) env: Env,
    pub(crate) outs: K,
    pub(crate) writes: Vec<Write>,
    pub(crate) note: Option<Note>,
}

/// The variable gets the value.
pub(crate) fn give<K: Outs>(frame: &mut Frame<K>, var: u16, value: &Value) -> Result<(), NoMemory>
    ensures { OnOk result (Given K.Adds var value.now frame.old frame.new) }
{
    frame.env.set(var, value)?;
    frame.outs.add(var, value)
}

/// The lesser of a note and another.
pub(crate) fn lesser(old: Option<Note>, new: Note) -> Option<Note>
    ensures { result ≡ least old (Some new) }
{
    match old {
        Some(old) if !new.cmp(&old).is_lt() => Some(old),
        _ => Some(new),
    }
}
