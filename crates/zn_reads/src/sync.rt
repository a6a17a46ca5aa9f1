//! Sync (ZooKeeper API, `sync`): the path is given back. There is nothing to wait for, since a view is never older than its
//! request.

ghost use Rattle.std.specs.Prelude.{◌≡◌, None, IfOk};
ghost use Rattle.zk_model.specs.declared.request.Request.TheVariants as req;
ghost use Rattle.zn_reads.specs.Deciding.{IsReadDecision};
ghost use Rattle.zk_model.specs.declared.reply.Body.TheVariants as bodies;
ghost use Rattle.zk_model.specs.declared.reply.Reply.TheVariants as replies;
ghost use Rattle.zn_view.specs.declared.plan.Decision.TheVariants as decisions;
ghost use Rattle.zn_view.specs.Seen.{View as SomeView};

use crate::answer::bad_path;
use std::alloc::Global;
use zk_model::{Body, Path, Reply};
use zn_layout::valid_path;
use zn_view::Decision;
use zx_base::{Memory, Seq};

fn path_back(alloc: Global, path: &Path) -> Result<Decision, Memory>
    ensures { IfOk result (λ d. d ≡ decisions.Answered (replies.Good (bodies.Path path.now)) None) }
{
    Ok(Decision::Answered {
        reply: Reply::Good(Body::Path(Seq::copy_of(alloc, path.bytes())?)),
        arm: None,
    })
}

pub(crate) fn sync(alloc: Global, text: &[u8]) -> Result<Decision, Memory>
    ensures { IfOk result (λ d. (v : SomeView) → IsReadDecision (req.Sync text.now) v d) }
{
    match valid_path(alloc, text)? {
        Some(path) => path_back(alloc, &path),
        None => Ok(bad_path()),
    }
}
