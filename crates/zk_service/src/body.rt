//! Bodies of replies.

ghost use Rattle.std.specs.Prelude.{◌≡◌};
ghost use Rattle.zk_service.specs.States.{body_with_stat, response_of};

use zk_model::{Body, PartResult, Stat};

/// The body of the reply to an update, by what came of it as the part of a multi. The reply to a delete, and to a check, is empty.
pub fn response_of(outcome: PartResult) -> Body
    ensures { result ≡ response_of outcome }
{
    match outcome {
        PartResult::Created(path) => Body::Path(path),
        PartResult::Set(stat) => Body::Stat(stat),
        PartResult::Deleted | PartResult::Checked | PartResult::Code(_) => Body::Empty,
    }
}

/// A create's body as a create2 has it: the path with the Stat. Any other body stays.
pub fn body_with_stat(body: Body, stat: Stat) -> Body
    ensures { result ≡ body_with_stat stat body }
{
    match body {
        Body::Path(path) => Body::PathStat(path, stat),
        Body::Empty => Body::Empty,
        Body::Stat(other) => Body::Stat(other),
        Body::Content(content, other) => Body::Content(content, other),
        Body::Names(names) => Body::Names(names),
        Body::NamesStat(names, other) => Body::NamesStat(names, other),
        Body::OpenAcl(other) => Body::OpenAcl(other),
        Body::Parts(results) => Body::Parts(results),
        Body::PathStat(path, other) => Body::PathStat(path, other),
    }
}
