//! Answers to a connect.

ghost use Rattle.std.specs.Prelude.{◌≡◌};
ghost use Rattle.zk_service.specs.Answers.{answered_read_only};

use zk_model::ConnectRequest;

/// The field `readOnly` of an answer to a connect: there exactly where the request has it, and then false.
pub fn answered_read_only(request: &ConnectRequest) -> Option<bool>
    ensures { result ≡ answered_read_only request.now }
{
    match request.read_only {
        Some(_) => Some(false),
        None => None,
    }
}
