// What a slot says, it says once.
ghost use Rattle.std.specs.Prelude.{◌≡◌, ℕ, List};
ghost use Rattle.pac_value.specs.State.{Tables};
ghost use Rattle.pac_types.specs.Fits.{FitTables};
ghost use Rattle.pac_check.specs.declared.head.Head.{Head as AHead};
ghost use Rattle.pac_check.specs.Checkpoints.{Checkpoint};
ghost use Rattle.pac_check.specs.SlotStates.{HoldsCheckpoint, HoldsRows};

use pac_types::Catalogue;

/// Says that the bytes of a slot hold one checkpoint of a catalogue and no other, and that this is of one state of the
/// tables. It does nothing.
pub fn slots_are_clear(cat: &Catalogue)
    ensures once { (image : List ℕ) (c d : Checkpoint) → HoldsCheckpoint cat.now.tables c image → HoldsCheckpoint cat.now.tables d image → c ≡ d }
    ensures one_state { (image : List ℕ) (c d : AHead) (s t : Tables) → FitTables cat.now.tables s → FitTables cat.now.tables t → HoldsRows cat.now.tables c s image → HoldsRows cat.now.tables d t image → (c ≡ d) × (s ≡ t) }
{
    let _tables = cat.tables(); // so few that their number fits its field
}
