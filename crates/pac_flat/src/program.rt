// The program of a procedure.
ghost use Rattle.std.specs.Prelude.{◌≡◌, ◌+◌, ◌<◌, ◌^◌, length, IfOk};
ghost use Rattle.pac_types.specs.Meaning.{operations};
ghost use Rattle.pac_types.specs.WellFormed.{types};
ghost use Rattle.pac_flat.specs.FlatForm.{program_of};

use crate::block::flat_operations;
use crate::point::Point;
use crate::variables::variable_types;
use pac_base::{NoMemory, listed};
use pac_ops::Program;
use pac_types::{Column, Proc};
use pac_value::Ty;
use std::alloc::Global;

/// A procedure in flat form. Linear in its operations and their conditions, and in the turns of its loops.
pub(crate) fn flat_program(alloc: Global, proc: &Proc) -> Result<Program, NoMemory>
    requires { length proc.now.params + operations proc.now.body < 2 ^ 16 }
    ensures { IfOk result (λ program. program ≡ program_of proc.now) }
{
    let params = types(alloc, proc.params.as_slice())?;
    let point = Point {
        names: Vec::new(alloc),
        next: proc.params.as_slice().len() as u16,
    };
    let ops = flat_operations(alloc, proc.body.as_slice(), point)?;
    let vars = variable_types(alloc, params.as_slice(), ops.as_slice())?;
    Ok(Program {
        ops: listed(ops),
        params: listed(params),
        vars: listed(vars),
    })
}

// The types of columns.
fn types(alloc: Global, columns: &[Column]) -> Result<Vec<Ty>, NoMemory>
    ensures { IfOk result (λ tys. tys.items ≡ types columns.now) }
{
    let mut tys = Vec::with_capacity(alloc, columns.len())?;
    for column in columns {
        tys.push(column.ty)?;
    }
    Ok(tys)
}
