// What holds of the steps of procedures. A law is a function without code.
ghost use Rattle.std.specs.Prelude.{◌≡◌, List};
ghost use Rattle.pac_types.specs.AsWritten.{HasNoLoop, as_written};
ghost use Rattle.pac_types.specs.Typing.{IsProc};
ghost use Rattle.pac_types.specs.Unrolled.{unrolled};
ghost use Rattle.pac_types.specs.declared.procedure.Proc.{Proc};
ghost use Rattle.pac_types.specs.declared.table.Table.{Table};

/// A procedure without loops is its statements as they are written: its operations and variables have the numbers of the text.
pub fn procedures_without_loops_are_as_written()
    ensures { (tables : List Table) (proc : Proc) → IsProc tables proc → HasNoLoop proc.body → unrolled proc ≡ as_written proc.body }
{}
