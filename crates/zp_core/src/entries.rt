//! How an update is told: it fires what is armed, and then a reply that waited for it is sent.

ghost use Rattle.std.specs.Prelude.{◌≡◌, ◌++◌, IfOk, OnOk};
ghost use Rattle.std.specs.Option.{option_to_list};
ghost use Rattle.zk_model.specs.Watches.{fire_all};
ghost use Rattle.zp_step.specs.Entries.{entered, told_entry};
ghost use Rattle.zp_step.specs.Replies.{Is};
ghost use Rattle.zp_core.specs.Meanings.{Leads, core_of, ready, stage_of};

use crate::client::Client;
use crate::moves::{Move, with_first};
use crate::packets::send_notices;
use crate::replies::reply_in_turn;
use crate::stage::Stage;
use std::alloc::Global;
use zk_model::{Notice, Trigger};
use zn_layout::Entry;
use zp_step::Action;
use zw_watch::Armed;
use zx_base::{Memory, Seq};

/// Adds a notice at the end, if there is one.
fn tell_of(notices: &mut Seq<Notice>, notice: Option<Notice>) -> Result<(), Memory>
    ensures { OnOk result (notices.new ≡ notices.old ++ option_to_list notice) }
{
    match notice {
        Some(notice) => notices.push(notice),
        None => Ok(()),
    }
}

fn fire_all(alloc: Global, watches: &mut Armed, triggers: &[Trigger]) -> Result<Seq<Notice>, Memory>
    ensures { IfOk result (λ notices. (watches.new, notices) ≡ fire_all watches.old triggers.now) }
{
    let mut notices = Seq::new(alloc);
    for trigger in triggers {
        let notice = watches.fire(trigger)?;
        tell_of(&mut notices, notice)?;
    }
    Ok(notices)
}

fn enter(alloc: Global, client: &mut Client, entry: &Entry) -> Result<Seq<Action>, Memory>
    ensures { IfOk result (λ actions. (ready client.new, actions) ≡ entered (ready client.old) entry.now) }
{
    let notices = fire_all(alloc, &mut client.watches, entry.triggers.as_slice())?;
    client.zxid = entry.zxid;
    client.cursor = entry.number;
    send_notices(alloc, notices.as_slice())
}

/// Tells the client of an update, and then sends a reply that waits, if it is due.
pub(crate) fn tell(
    alloc: Global,
    client: &mut Client,
    stage: Stage,
    entry: &Entry,
) -> Result<Move, Memory>
    ensures { IfOk result (Leads (Is (told_entry (core_of client.old (stage_of stage)) entry.now)) client.new) }
{
    let actions = enter(alloc, client, entry)?;
    match stage {
        Stage::Waiting(pending) => {
            let then = reply_in_turn(alloc, client, Box::into_inner(pending))?;
            with_first(actions, then)
        }
        stage => Ok(Move { stage, actions }),
    }
}
