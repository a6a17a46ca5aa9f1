//! Packets for the client. One whose length does not fit an int counts as out of memory.

ghost use Rattle.std.specs.Prelude.{◌≡◌, IfOk};
ghost use Rattle.zk_jute.specs.Packets.{connect_packet, notice_packet, reply_packet};
ghost use Rattle.zp_step.specs.declared.action.Action.TheVariants as action;
ghost use Rattle.zp_step.specs.Replies.{send_notices};

use std::alloc::Global;
use zk_model::{ConnectResponse, Notice, Reply};
use zk_wire::{notice_can_be_sent, reply_can_be_sent, write_connect, write_notice, write_reply};
use zp_step::Action;
use zx_base::{Bytes, Memory, Seq};

pub(crate) fn send_reply(
    alloc: Global,
    xid: i32,
    zxid: i64,
    reply: &Reply,
) -> Result<Action, Memory>
    ensures { IfOk result (λ sent. sent ≡ action.Send (reply_packet xid zxid reply.now)) }
{
    if !reply_can_be_sent(reply) {
        return Err(Memory);
    }
    let packet = write_reply(alloc, xid, zxid, reply)?;
    Ok(Action::Send(Bytes::from_vec(packet)))
}

fn send_notice(alloc: Global, notice: &Notice) -> Result<Action, Memory>
    ensures { IfOk result (λ sent. sent ≡ action.Send (notice_packet notice.now)) }
{
    if !notice_can_be_sent(notice) {
        return Err(Memory);
    }
    let packet = write_notice(alloc, notice)?;
    Ok(Action::Send(Bytes::from_vec(packet)))
}

pub(crate) fn send_notices(alloc: Global, notices: &[Notice]) -> Result<Seq<Action>, Memory>
    ensures { IfOk result (λ sent. sent ≡ send_notices notices.now) }
{
    let mut sent = Seq::new(alloc);
    for notice in notices {
        sent.push(send_notice(alloc, notice)?)?;
    }
    Ok(sent)
}

pub(crate) fn send_connect(alloc: Global, response: &ConnectResponse) -> Result<Action, Memory>
    ensures { IfOk result (λ sent. sent ≡ action.Send (connect_packet response.now)) }
{
    let packet = write_connect(alloc, response)?;
    Ok(Action::Send(Bytes::from_vec(packet)))
}
