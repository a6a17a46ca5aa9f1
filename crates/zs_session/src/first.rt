//! What a look at the head and at the life of a session leads to.

ghost use Rattle.std.specs.Prelude.{IfOk};
ghost use Rattle.zs_session.specs.Connecting.{ConnectLooksFirst, Resumes};
ghost use Rattle.zs_session.specs.declared.connect.Phase.TheVariants as phases;

use crate::connect::{Connect, ConnectStep};
use crate::looks::mine;
use crate::moves::{Move, attach, end, grant, keep};
use std::alloc::Global;
use zn_view::View;
use zx_base::Memory;

/// A resume is refused, or its lease is kept alive.
fn kept(alloc: Global, connect: &Connect, view: &View) -> Result<Move, Memory>
    ensures { IfOk result (λ m. Resumes connect.now view.now phases.Keeping m.phase m.step) }
{
    match mine(alloc, &connect.request, view)? {
        None => Ok(end(ConnectStep::Unknown)),
        Some((seen, life)) => Ok(keep(connect, seen, life)),
    }
}

/// A resume is refused, or its session is attached.
pub(crate) fn attached_by_view(
    alloc: Global,
    connect: &Connect,
    view: &View,
) -> Result<Move, Memory>
    ensures { IfOk result (λ m. Resumes connect.now view.now phases.Attaching m.phase m.step) }
{
    match mine(alloc, &connect.request, view)? {
        None => Ok(end(ConnectStep::Unknown)),
        Some((seen, life)) => attach(alloc, connect, seen, life),
    }
}

/// The first look: a client that is ahead is sent away, a new session gets its lease, and any other is resumed.
pub(crate) fn begun(alloc: Global, connect: &Connect, view: &View) -> Result<Move, Memory>
    ensures { IfOk result (λ m. ConnectLooksFirst connect.now view.now m.phase m.step) }
{
    let head = view.zxid();
    let client = connect.request.last_zxid;
    if head < client {
        return Ok(end(ConnectStep::Ahead { client, head }));
    }
    if connect.request.session == 0 {
        return Ok(grant(connect));
    }
    kept(alloc, connect, view)
}
