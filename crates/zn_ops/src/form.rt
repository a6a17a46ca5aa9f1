//! What is answered by the form of a request alone.

ghost use Rattle.std.specs.Prelude.{◌≡◌, ◌&&◌, false, not, IfOk};
ghost use Rattle.zx_base.specs.Maps.{Bytes as ByteList, same};
ghost use Rattle.zk_model.specs.declared.request.Part.TheVariants as part;
ghost use Rattle.zk_model.specs.Paths.{is_path, root};
ghost use Rattle.zk_model.specs.Single.{form_refusal, path_refusal};
ghost use Rattle.zk_model.specs.Watches.{Watches, no_watches};
ghost use Rattle.zk_service.specs.Answers.{has_valid_form, only, plain_request, told_of_path, told_of_watcher, told_refusal};
ghost use Rattle.zn_ops.specs.Forms.{told_by};

use std::alloc::Global;
use zk_model::code::{AUTH_FAILED, BAD_ARGUMENTS, NO_WATCHER};
use zk_model::limit::MAX_PARTS;
use zk_model::{Acl, Body, Reply, Request, read_path};
use zk_service::has_valid_form;
use zn_updates::{Form, create_form, inner_path};
use zx_base::Memory;

fn path_refusal(alloc: Global, text: &[u8]) -> Result<Option<i32>, Memory>
    ensures { IfOk result (λ code. code ≡ path_refusal (is_path text.now)) }
{
    match read_path(alloc, text, false)? {
        Some(_path) => Ok(None),
        None => Ok(Some(BAD_ARGUMENTS)),
    }
}

fn create_refusal(
    alloc: Global,
    text: &[u8],
    acl: &[Acl],
    flags: i32,
) -> Result<Option<i32>, Memory>
    ensures { IfOk result (λ code. (content : ByteList) → code ≡ form_refusal (part.Create text.now content acl.now flags)) }
{
    match create_form(alloc, text, acl, flags)? {
        Form::Valid(_path) => Ok(None),
        Form::Refused(code) => Ok(Some(code)),
    }
}

/// The root is never deleted.
fn delete_refusal(alloc: Global, text: &[u8]) -> Result<Option<i32>, Memory>
    ensures { IfOk result (λ code. code ≡ path_refusal (is_path text.now && not (same text.now root))) }
{
    match inner_path(alloc, text)? {
        Some(_path) => Ok(None),
        None => Ok(Some(BAD_ARGUMENTS)),
    }
}

fn refusal(code: Option<i32>) -> Option<Reply>
    ensures { told_by result ≡ told_refusal no_watches code }
{
    match code {
        Some(code) => Some(Reply::Refused(code)),
        None => None,
    }
}

fn refusal_of_path(alloc: Global, text: &[u8]) -> Result<Option<Reply>, Memory>
    ensures { IfOk result (λ reply. told_by reply ≡ told_of_path no_watches text.now) }
{
    Ok(refusal(path_refusal(alloc, text)?))
}

/// The answer to a checkWatches or removeWatches where nothing is armed.
fn unwatched(alloc: Global, text: &[u8], kind: i32) -> Result<Reply, Memory>
    ensures { IfOk result (λ r. (rest : Watches) → only no_watches r ≡ told_of_watcher no_watches rest (has_valid_form text.now kind) false) }
{
    if has_valid_form(alloc, text, kind)? {
        Ok(Reply::Refused(NO_WATCHER))
    } else {
        Ok(Reply::Refused(BAD_ARGUMENTS))
    }
}

/// The answer to a request that its form decides: a ping, an `auth`, or a request that is refused for its form (an invalid path,
/// flags or access list, a delete of the root, or a multi of more than `MAX_PARTS` parts). To a checkWatches or removeWatches it is
/// the answer where nothing is armed: a connection that has watches armed answers these by them. `None` where the session and the tree
/// decide.
#[tactic(auto, unfolding(zk_service::specs::Answers::plain_request, zk_model::specs::Single::form_refusal))]
pub fn plain_reply(alloc: Global, request: &Request) -> Result<Option<Reply>, Memory>
    ensures { IfOk result (λ reply. told_by reply ≡ plain_request no_watches request.now) }
{
    match request {
        Request::Ping => Ok(Some(Reply::Good(Body::Empty))),
        Request::Auth { scheme, .. } if scheme.is(b"digest") => Ok(Some(Reply::Good(Body::Empty))),
        Request::Auth { .. } => Ok(Some(Reply::Refused(AUTH_FAILED))),
        Request::Multi { parts } if MAX_PARTS < parts.len() => Ok(refusal(Some(BAD_ARGUMENTS))),
        Request::Create {
            path,
            acl,
            flags,
            ..
        } => Ok(refusal(create_refusal(alloc, path.as_slice(), acl.as_slice(), *flags)?)),
        Request::Create2 {
            path,
            acl,
            flags,
            ..
        } => Ok(refusal(create_refusal(alloc, path.as_slice(), acl.as_slice(), *flags)?)),
        Request::Delete { path, .. } => Ok(refusal(delete_refusal(alloc, path.as_slice())?)),
        Request::SetData { path, .. }
        | Request::Check { path, .. }
        | Request::Exists { path, .. }
        | Request::GetData { path, .. }
        | Request::GetAcl { path }
        | Request::GetChildren { path, .. }
        | Request::GetChildren2 { path, .. }
        | Request::Sync { path } => Ok(refusal_of_path(alloc, path.as_slice())?),
        Request::CheckWatches { path, kind } => {
            Ok(Some(unwatched(alloc, path.as_slice(), *kind)?))
        }
        Request::RemoveWatches { path, kind } => {
            Ok(Some(unwatched(alloc, path.as_slice(), *kind)?))
        }
        Request::Multi { .. } | Request::SetWatches { .. } | Request::Close => Ok(None),
    }
}
