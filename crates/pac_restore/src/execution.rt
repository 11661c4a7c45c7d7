// What executed transactions give.
ghost use Rattle.std.specs.Prelude.{◌≡◌, IfOk, IsErrOf};
ghost use Rattle.pac_ops.specs.declared.note.Note.{Note as ANote};
ghost use Rattle.pac_restore.specs.declared.errors.RecoverError.{RecoverError as ARecoverError};

use crate::RecoverError;
use pac_ops::Note;
use pac_tables::{JoinedRows, TableRows};

/// What stored transactions give that were executed.
#[derive(Drop)]
pub enum Execution<T: TableRows> {
    /// The tables after all of them.
    Tables(JoinedRows<T>),
    /// The first that aborts.
    Aborted(Note),
}

/// The tables with which the execution ends.
///
/// # Errors
///
/// [`RecoverError::AbortInLog`] where a transaction aborts.
pub fn tables_of<T: TableRows>(executed: Execution<T>) -> Result<JoinedRows<T>, RecoverError>
    ensures ok { IfOk result (λ tables. executed ≡ Execution.Tables tables) }
    ensures aborted { (error : ARecoverError) → IsErrOf result error → (note : ANote) × (error ≡ RecoverError.AbortInLog note) × (executed ≡ Execution.Aborted note) }
{
    match executed {
        Execution::Tables(tables) => Ok(tables),
        Execution::Aborted(note) => Err(RecoverError::AbortInLog(note)),
    }
}
