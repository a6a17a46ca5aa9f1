//! Replies: each is sent once the entries up to its number have been told, or at once where nothing is armed.

ghost use Rattle.std.specs.Prelude.{◌≡◌, IfOk, OnOk};
ghost use Rattle.zn_view.specs.Views.{armed_by};
ghost use Rattle.zp_step.specs.Replies.{Is, is_due, replied, waits};
ghost use Rattle.zp_step.specs.Stages.{seen_by};
ghost use Rattle.zp_core.specs.Meanings.{Leads, change_of, pending_of, ready};

use crate::client::Client;
use crate::moves::{Move, end_after, rest};
use crate::packets::{send_notices, send_reply};
use crate::stage::{Pending, Stage, WatchChange};
use std::alloc::Global;
use zk_model::Notice;
use zn_view::Arm;
use zw_watch::Armed;
use zx_base::Memory;

fn arm(watches: &mut Armed, arm: Option<Arm>) -> Result<(), Memory>
    ensures { OnOk result (watches.new ≡ armed_by arm watches.old) }
{
    match arm {
        None => Ok(()),
        Some(arm) => watches.arm(&arm.path, arm.child),
    }
}

/// Changes the watches as a reply does, and gives the notices that stand before it.
fn see(alloc: Global, watches: &mut Armed, change: WatchChange) -> Result<Vec<Notice>, Memory>
    ensures { IfOk result (λ notices. record { watches = watches.new; notices = notices.items } ≡ seen_by (change_of change) watches.old) }
{
    match change {
        WatchChange::Adds(added) => {
            arm(watches, added)?;
            Ok(Vec::new(alloc))
        }
        WatchChange::Sets { since, seen } => watches.rearm(seen.as_slice(), since),
    }
}

/// Whether the entries up to a reply's number were taken, or nothing is armed that they could fire.
fn is_due(client: &Client, pending: &Pending) -> bool
    ensures { result ≡ is_due (ready client.now) (pending_of pending.now) }
{
    client.watches.is_empty() || client.cursor == pending.number
}

fn reply(alloc: Global, client: &mut Client, pending: Pending) -> Result<Move, Memory>
    ensures { IfOk result (Leads (Is (replied (ready client.old) (pending_of pending))) client.new) }
{
    let notices = see(alloc, &mut client.watches, pending.change)?;
    let mut actions = send_notices(alloc, notices.as_slice())?;
    actions.push(send_reply(alloc, pending.xid, pending.zxid, &pending.answer)?)?;
    client.zxid = pending.zxid;
    client.cursor = pending.number;
    client.next = client.next.saturating_add(1);
    end_after(actions, pending.ends)
}

/// Sends a reply if it is due; otherwise it waits.
pub(crate) fn reply_in_turn(
    alloc: Global,
    client: &mut Client,
    pending: Pending,
) -> Result<Move, Memory>
    ensures { IfOk result (Leads (Is (waits (ready client.old) (pending_of pending))) client.new) }
{
    if is_due(client, &pending) {
        return reply(alloc, client, pending);
    }
    let waiting = Stage::Waiting(Box::new(alloc, pending)?);
    Ok(rest(alloc, waiting))
}
