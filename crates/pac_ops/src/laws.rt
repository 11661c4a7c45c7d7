// What holds of operations. Each law is a function that does nothing.
ghost use Rattle.pac_ops.specs.Defaults.{DefaultsByKind};
ghost use Rattle.pac_ops.specs.OperationLaws.{ChangesOnlyItsOwn, EffectByUses, HasForm, NotesInAnyOrder, RecordsAreOps, ValueByUses, WholeProgram};
ghost use Rattle.pac_ops.specs.StaysFit.{StaysFit, TypedOverValues};

/// What an operation does depends on the variables that it uses and the row at its cell alone, and changes its own row and
/// variable alone.
pub fn one_operation()
    ensures value { ValueByUses }
    ensures form { HasForm }
    ensures effect { EffectByUses }
    ensures own { ChangesOnlyItsOwn }
{}

/// Operations with numbers: a whole program is a case of them, and so are ad hoc records. The least of notes doesn't depend
/// on their order, and the default of an operation that aborts is plain from its kind.
pub fn numbered_operations()
    ensures whole { WholeProgram }
    ensures records { RecordsAreOps }
    ensures notes { NotesInAnyOrder }
    ensures defaults { DefaultsByKind }
{}

/// From arguments of a well-formed program's types and rows that fit, rows fit before each operation, each variable has a
/// value of its type or none, and an operation whose conditions hold finds all that it uses.
pub fn stays_fit()
    ensures program { StaysFit }
    ensures expressions { TypedOverValues }
{}
