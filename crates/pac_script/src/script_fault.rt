// Why a text is no script.
use pac_base::Refusal;
use pac_flat::AcceptFault;
use pac_request::LineFault;
use thiserror::Error;

/// Why a text is no script.
#[derive(Clone, Copy, Debug, PartialEq, Eq, Error)]
pub enum ScriptFault {
    /// Its catalogue's text isn't accepted.
    #[error("{0}")]
    Unaccepted(AcceptFault),
    /// The first line that is refused, by its number after the mark, from 1 on, and its fault.
    #[error("line {line}: {fault}")]
    Line { line: usize, fault: LineFault },
}

/// Why a text isn't read as a script.
pub type ScriptError = Refusal<ScriptFault>;
