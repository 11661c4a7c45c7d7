// What a line of a script is to the batches.
ghost use Rattle.std.specs.Prelude.{◌≡◌};
ghost use Rattle.pac_script.specs.Batches.{step_of};

use pac_ops::Txn;
use pac_request::Request;

/// A transaction, or the end of the batch that is open.
#[derive(Drop)]
pub(crate) enum ScriptStep {
    Add(Txn),
    Flush,
}

/// What a request is to the batches, if it is anything to them.
pub(crate) fn step_of(request: Request) -> Option<ScriptStep>
    ensures { result ≡ step_of request }
{
    match request {
        Request::Call(call) => Some(ScriptStep::Add(Txn::Call(call))),
        Request::AdHoc { records } => Some(ScriptStep::Add(Txn::AdHoc { records })),
        Request::Flush => Some(ScriptStep::Flush),
        Request::Show { .. } | Request::Save | Request::Stop | Request::Refused(_) => None,
    }
}
