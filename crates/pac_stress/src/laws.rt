// What holds of how the stress test ends. Each law is a function without code.
ghost use Rattle.std.specs.Prelude.{◌≡◌, ◌≤◌, ℕ, List};
ghost use Rattle.pac_ops.specs.declared.batch.Batch.{Batch as ABatch};
ghost use Rattle.pac_ops.specs.declared.note.Note.{Note as ANote};
ghost use Rattle.pac_types.specs.Typing.{CatalogueState};
ghost use Rattle.pac_stress.specs.Stressed.{AbortsStress, HavePieces, IsSummaryOf};

/// Over a catalogue, the transactions of batches have one number of pieces: a catalogue has one plan.
pub fn one_number_of_pieces()
    ensures { (catalogue : CatalogueState) (batches : List ABatch) (count other : ℕ) → HavePieces catalogue batches count → HavePieces catalogue batches other → count ≡ other }
{}

/// Up to 100,000, no transaction of the stress test aborts: from no rows on, no account comes near the limits of an int.
pub fn none_aborts()
    ensures { (count : ℕ) (note : ANote) → count ≤ 100000 → ¬ AbortsStress count note }
{}

/// The first transactions of the stress test, however many, have one summary, and where they have one none of them aborts.
pub fn one_summary()
    ensures one { (count : ℕ) (text other : List ℕ) → IsSummaryOf count (λ all. text ≡ all) → IsSummaryOf count (λ all. other ≡ all) → text ≡ other }
    ensures ends { (count : ℕ) (text : List ℕ) (note : ANote) → IsSummaryOf count (λ all. text ≡ all) → ¬ AbortsStress count note }
{}
