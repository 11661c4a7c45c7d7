// What holds of after-images. A law is a function without code.
ghost use Rattle.std.specs.Prelude.{◌≡◌, ℕ, List, Ok};
ghost use Rattle.pac_value.specs.State.{Tables};
ghost use Rattle.pac_ops.specs.declared.transaction.Txn.{Txn};
ghost use Rattle.pac_types.specs.declared.procedure.Proc.{Proc};
ghost use Rattle.pac_types.specs.Execution.{serial};
ghost use Rattle.pac_tuple.specs.AfterImages.{all_after_images};
ghost use Rattle.pac_tuple.specs.Laying.{tables_laid};

/// Laying the after-images of transactions gives the tables that their serial execution ends with.
pub fn after_images_laid_are_serial_execution()
    ensures { (procs : List Proc) (txns : List Txn) (first : ℕ) (before after : Tables) → serial procs first txns before ≡ Ok after → tables_laid before (all_after_images procs txns before) ≡ after }
{}
