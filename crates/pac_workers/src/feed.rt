// What gives batches to a replay.
ghost use Rattle.std.specs.Prelude.{◌≡◌, ◌+◌, ◌<◌, ◌^◌, ◌++◌, ◌∷◌, [], ℕ, Bool, List, true, length, IfSome, IfNone};
ghost use Rattle.std.specs.List.{AllByRecursion};
ghost use Rattle.pac_value.specs.declared.values.Ty.{Ty as ATy};
ghost use Rattle.pac_ops.specs.declared.batch.Batch.{Batch as ABatch};
ghost use Rattle.pac_ops.specs.declared.shapes.TableTypes.{TableTypes as ATableTypes};
ghost use Rattle.pac_ops.specs.Shapes.{TxnFitsTypes};

use pac_ops::Batch;

/// Gives batches, one after another, whose numbers run on.
///
/// What it gave so far is a list of which it need keep nothing: it may be a [`GhostList`](crate::GhostList). What else is known of it
/// between two of its states is a relation, of which its type says what it tells.
pub trait Feed {
    // the batches that it gave so far, in order
    ghost so_far: { Self → List ABatch };

    // what is known between two of its states, from one to the other of which it gave these batches
    ghost gives: { Self → List ABatch → Self → Type 0 };

    // whether its last answer was that no more come
    ghost is_over: { Self → Bool };

    // falls with each batch
    ghost room: { Self → ℕ };

    // the number of the first transaction of its next batch
    ghost next_txn: { Self → ℕ };

    // the types of the parameters of its procedures, and those of its tables
    ghost params: { Self → List (List ATy) };

    ghost tables: { Self → List ATableTypes };

    /// The next batch. `None`: none come, or none can be given.
    fn next(&mut self) -> Option<Batch>
        ensures adds { IfSome result (λ batch. so_far self.new ≡ so_far self.old ++ batch ∷ []) }
        ensures adds_none { IfNone result (so_far self.new ≡ so_far self.old) }
        ensures given { IfSome result (λ batch. (from : Self) (batches : List ABatch) → gives from batches self.old → gives from (batches ++ batch ∷ []) self.new) }
        ensures none { IfNone result ((from : Self) (batches : List ABatch) → gives from batches self.old → gives from batches self.new) }
        ensures over { IfNone result (is_over self.new ≡ true) }
        ensures room { IfSome result (λ batch. room self.new < room self.old) }
        ensures first { IfSome result (λ batch. batch.first ≡ next_txn self.old) }
        ensures next { IfSome result (λ batch. next_txn self.new ≡ batch.first + length batch.txns) }
        ensures numbers { IfSome result (λ batch. batch.first + length batch.txns < 2 ^ 64) }
        ensures fits { IfSome result (λ batch. AllByRecursion (TxnFitsTypes (params self.old) (tables self.old)) batch.txns) }
        ensures types { (params self.new ≡ params self.old) × (tables self.new ≡ tables self.old) };

    /// A law: as long as it wasn't asked it gave nothing. It does nothing.
    fn gives_none(&self)
        ensures { gives self.now [] self.now };
}
