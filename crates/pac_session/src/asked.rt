// Which transaction a request asks for.
ghost use Rattle.std.specs.Prelude.{◌≡◌, Some, None, IfOk, IfErr};
ghost use Rattle.pac_session.specs.Session.{txn_of};

use pac_ops::Txn;
use pac_request::Request;

/// The transaction that a request asks for.
///
/// # Errors
///
/// The request itself, where it asks for none.
pub fn transaction_of(request: Request) -> Result<Txn, Request>
    ensures transaction { IfOk result (λ txn. txn_of request ≡ Some txn) }
    ensures other { IfErr result (λ same. (same ≡ request) × (txn_of request ≡ None)) }
{
    match request {
        Request::Call(call) => Ok(Txn::Call(call)),
        Request::AdHoc { records } => Ok(Txn::AdHoc { records }),
        other => Err(other),
    }
}
