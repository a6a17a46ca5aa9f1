//! Answers, and the watches that they arm.

ghost use Rattle.std.specs.Prelude.{◌≡◌, ◌&&◌, None, IfOk};
ghost use Rattle.zn_reads.specs.Replies.{is_good, watch_if};
ghost use Rattle.zn_view.specs.declared.plan.Decision.TheVariants as decisions;
ghost use Rattle.zk_model.specs.declared.reply.Reply.TheVariants as replies;
ghost use Rattle.zk_model.specs.Codes.{bad_arguments};

use std::alloc::Global;
use zk_model::code::BAD_ARGUMENTS;
use zk_model::{Path, Reply};
use zn_view::{Arm, Decision};
use zx_base::Memory;

fn is_good(reply: &Reply) -> bool
    ensures { result ≡ is_good reply.now }
{
    matches!(reply, Reply::Good(_))
}

/// A watch on a path, where one is asked for: a child watch, or else a data watch.
pub(crate) fn watch_if(
    alloc: Global,
    is_asked: bool,
    child: bool,
    path: &Path,
) -> Result<Option<Arm>, Memory>
    ensures { IfOk result (λ arm. arm ≡ watch_if is_asked child path.now) }
{
    if is_asked {
        Ok(Some(Arm {
            path: path.copy(alloc)?,
            child,
        }))
    } else {
        Ok(None)
    }
}

/// A watch on a path, where one is asked for and the reply is no refusal.
pub(crate) fn watch_if_good(
    alloc: Global,
    reply: &Reply,
    is_asked: bool,
    child: bool,
    path: &Path,
) -> Result<Option<Arm>, Memory>
    ensures { IfOk result (λ arm. arm ≡ watch_if (is_good reply.now && is_asked) child path.now) }
{
    watch_if(alloc, is_good(reply) && is_asked, child, path)
}

/// The answer to a request whose path is not valid.
pub(crate) fn bad_path() -> Decision
    ensures { result ≡ decisions.Answered (replies.Refused bad_arguments) None }
{
    Decision::Answered {
        reply: Reply::Refused(BAD_ARGUMENTS),
        arm: None,
    }
}
