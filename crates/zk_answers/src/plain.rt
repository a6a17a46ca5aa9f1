//! Answers that need no tree.

ghost use Rattle.std.specs.Prelude.{◌≡◌, Some, option_map, IfOk};
ghost use Rattle.zk_model.specs.declared.reply.Body.TheVariants as body;
ghost use Rattle.zk_model.specs.declared.reply.Reply.TheVariants as reply;
ghost use Rattle.zk_service.specs.Answers.{has_valid_form, plain_request, told, told_of_path, told_of_watches, told_refusal};
ghost use Rattle.zk_model.specs.Paths.{is_path};
ghost use Rattle.zk_model.specs.Single.{path_refusal};
ghost use Rattle.zk_answers.specs.Forms.{create_refusal, delete_refusal};
ghost use Rattle.zk_answers.specs.Outcomes.{told_of};

use crate::told::{Told, good, refused};
use crate::watches::Watches;
use std::alloc::Global;
use zk_model::access::is_open_acl;
use zk_model::code::{AUTH_FAILED, BAD_ARGUMENTS, INVALID_ACL, NO_WATCHER};
use zk_model::flags::{is_create_mode, is_sequential};
use zk_model::limit::MAX_PARTS;
use zk_model::{Acl, Body, Request, read_path};
use zk_service::has_valid_form;
use zx_base::Memory;

fn path_refusal(alloc: Global, text: &[u8]) -> Result<Option<i32>, Memory>
    ensures { IfOk result (λ o. o ≡ path_refusal (is_path text.now)) }
{
    match read_path(alloc, text, false)? {
        Some(_) => Ok(None),
        None => Ok(Some(BAD_ARGUMENTS)),
    }
}

fn create_refusal(
    alloc: Global,
    text: &[u8],
    acl: &[Acl],
    flags: i32,
) -> Result<Option<i32>, Memory>
    ensures { IfOk result (λ o. o ≡ create_refusal text.now acl.now flags) }
{
    if read_path(alloc, text, is_sequential(flags))?.is_none() {
        return Ok(Some(BAD_ARGUMENTS));
    }
    if !is_create_mode(flags) {
        return Ok(Some(BAD_ARGUMENTS));
    }
    if !is_open_acl(acl) {
        return Ok(Some(INVALID_ACL));
    }
    Ok(None)
}

fn delete_refusal(alloc: Global, text: &[u8]) -> Result<Option<i32>, Memory>
    ensures { IfOk result (λ o. o ≡ delete_refusal text.now) }
{
    match read_path(alloc, text, false)? {
        Some(path) if path.bytes() != b"/".as_slice() => Ok(None),
        _ => Ok(Some(BAD_ARGUMENTS)),
    }
}

fn told_refusal(alloc: Global, watches: &Watches, code: Option<i32>) -> Result<Option<Told>, Memory>
    ensures { IfOk result (λ o. option_map told_of o ≡ told_refusal watches.now code) }
{
    match code {
        Some(code) => Ok(Some(refused(alloc, watches.copy()?, code))),
        None => Ok(None),
    }
}

fn told_of_path(alloc: Global, watches: &Watches, text: &[u8]) -> Result<Option<Told>, Memory>
    ensures { IfOk result (λ o. option_map told_of o ≡ told_of_path watches.now text.now) }
{
    let code = path_refusal(alloc, text)?;
    Ok(told_refusal(alloc, watches, code)?)
}

/// The answer to a create, with or without Stat, where its form is not valid.
fn told_of_create(
    alloc: Global,
    watches: &Watches,
    text: &[u8],
    acl: &[Acl],
    flags: i32,
) -> Result<Option<Told>, Memory>
    ensures { IfOk result (λ o. option_map told_of o ≡ told_refusal watches.now (create_refusal text.now acl.now flags)) }
{
    let code = create_refusal(alloc, text, acl, flags)?;
    Ok(told_refusal(alloc, watches, code)?)
}

/// The answer to a delete where its form is not valid.
fn told_of_delete(alloc: Global, watches: &Watches, text: &[u8]) -> Result<Option<Told>, Memory>
    ensures { IfOk result (λ o. option_map told_of o ≡ told_refusal watches.now (delete_refusal text.now)) }
{
    let code = delete_refusal(alloc, text)?;
    Ok(told_refusal(alloc, watches, code)?)
}

fn told_done(alloc: Global, watches: &Watches) -> Result<Option<Told>, Memory>
    ensures { IfOk result (λ o. option_map told_of o ≡ told watches.now (reply.Good body.Empty)) }
{
    Ok(Some(good(alloc, watches.copy()?, Body::Empty)))
}

/// The answer to a checkWatches, or where `removes` to a removeWatches, after which those watches are no longer armed.
pub fn watcher_answer(
    alloc: Global,
    watches: Watches,
    text: &[u8],
    kind: i32,
    removes: bool,
) -> Result<Told, Memory>
    ensures { IfOk result (λ t. told_of t ≡ told_of_watches watches text.now kind removes) }
{
    if !has_valid_form(alloc, text, kind)? {
        return Ok(refused(alloc, watches, BAD_ARGUMENTS));
    }
    if !watches.has(text, kind) {
        return Ok(refused(alloc, watches, NO_WATCHER));
    }
    if removes {
        Ok(good(alloc, watches.without(text, kind), Body::Empty))
    } else {
        Ok(good(alloc, watches, Body::Empty))
    }
}

fn told_of_watches(
    alloc: Global,
    watches: &Watches,
    text: &[u8],
    kind: i32,
    removes: bool,
) -> Result<Option<Told>, Memory>
    ensures { IfOk result (λ o. option_map told_of o ≡ Some (told_of_watches watches.now text.now kind removes)) }
{
    let watches = watches.copy()?;
    Ok(Some(watcher_answer(alloc, watches, text, kind, removes)?))
}

/// The answer to a request where the tree does not decide it: to a ping, to an auth, to a request about watches, and
/// to a request whose form is not valid.
#[tactic(auto, unfolding(zk_service::specs::Answers::plain_request, zk_model::specs::Single::form_refusal))]
pub fn plain_request(
    alloc: Global,
    watches: &Watches,
    request: &Request,
) -> Result<Option<Told>, Memory>
    ensures { IfOk result (λ o. option_map told_of o ≡ plain_request watches.now request.now) }
{
    match request {
        Request::Ping => Ok(told_done(alloc, watches)?),
        Request::Auth { scheme, .. } if scheme.is(b"digest") => Ok(told_done(alloc, watches)?),
        Request::Auth { .. } => Ok(told_refusal(alloc, watches, Some(AUTH_FAILED))?),
        Request::Multi { parts } if MAX_PARTS < parts.len() => {
            told_refusal(alloc, watches, Some(BAD_ARGUMENTS))
        }
        Request::Create {
            path,
            acl,
            flags,
            ..
        }
        | Request::Create2 {
            path,
            acl,
            flags,
            ..
        } => told_of_create(alloc, watches, path.as_slice(), acl.as_slice(), *flags),
        Request::Delete { path, .. } => told_of_delete(alloc, watches, path.as_slice()),
        Request::SetData { path, .. }
        | Request::Check { path, .. }
        | Request::Exists { path, .. }
        | Request::GetData { path, .. }
        | Request::GetAcl { path }
        | Request::GetChildren { path, .. }
        | Request::GetChildren2 { path, .. }
        | Request::Sync { path } => Ok(told_of_path(alloc, watches, path.as_slice())?),
        Request::CheckWatches { path, kind } => {
            told_of_watches(alloc, watches, path.as_slice(), *kind, false)
        }
        Request::RemoveWatches { path, kind } => {
            told_of_watches(alloc, watches, path.as_slice(), *kind, true)
        }
        Request::Multi { .. } | Request::SetWatches { .. } | Request::Close => Ok(None),
    }
}
