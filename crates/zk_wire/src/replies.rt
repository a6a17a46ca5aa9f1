//! Reading replies.
#![tactic(auto, unfolding(zk_jute::specs::JuteReading::values_at), using(zk_jute::proofs::Stats::stat_back))]

ghost use Rattle.std.specs.Prelude.{Some};
ghost use Rattle.zk_jute.specs.JuteReading.{values_at};
ghost use Rattle.zk_jute.specs.Records.{stat_fields, stat_values};
ghost use Rattle.zk_jute.specs.ReplyReading.{reply_body_at, reply_at, read_reply as read_as};
ghost use Rattle.zk_jute.specs.Results.{good_at, result_at};
ghost use Rattle.zk_jute.proofs.Items.{result_shorter};
ghost use Rattle.zk_wire.specs.Giving.{Gives};
ghost use Rattle.zk_wire.specs.Outcomes.{IsReplyReadAs};

use crate::fault::{Fault, WireFault};
use crate::reader::{Listed, Reader, first_int, first_long};
use std::alloc::Global;
use zk_jute::{Opcode, PartKind};
use zk_model::{Body, PartResult, Reply, Stat};

/// The bytes of a reply's header: its xid, its zxid and its error, an int, a long and an int.
const HEADER: usize = 16;

/// The reply of a frame to a request of the type `kind`, with its xid and zxid: the frame itself does not tell which kind of
/// request it answers. Copies each text and buffer once.
pub fn read_reply(alloc: Global, frame: &[u8], kind: i32) -> Result<(i32, i64, Reply), WireFault>
    ensures { IsReplyReadAs result (read_as frame.now kind) }
{
    if frame.len() < HEADER {
        return Err(WireFault::NoHeader);
    }
    let xid = first_int(frame);
    let Some(code) = Opcode::from_number(kind) else {
        return Err(WireFault::Unknown { xid, kind });
    };
    let zxid = first_long(&frame[4..]);
    let err = first_int(&frame[12..]);
    let mut reader = Reader::new(alloc, &frame[HEADER..]);
    match reply(&mut reader, code, err) {
        Ok(reply) => Ok((xid, zxid, reply)),
        Err(Fault::Unreadable(left)) => Err(WireFault::Unreadable {
            xid,
            place: frame.len().saturating_sub(left) as u64,
        }),
        Err(Fault::Memory) => Err(WireFault::Memory),
    }
}

/// What comes after the header, to the frame's end.
fn reply(reader: &mut Reader, code: Opcode, err: i32) -> Result<Reply, Fault>
    ensures { Gives (λ x. x) result reader.new (reply_at code err reader.old) }
{
    if err != 0 {
        return reader.ended(Reply::Refused(err));
    }
    let body = body(reader, code)?;
    reader.ended(Reply::Good(body))
}

/// The body that answers this kind.
fn body(reader: &mut Reader, code: Opcode) -> Result<Body, Fault>
    ensures { Gives (λ x. x) result reader.new (reply_body_at code reader.old) }
{
    match code {
        Opcode::Create | Opcode::Sync => Ok(Body::Path(reader.ustring()?)),
        Opcode::Exists | Opcode::SetData => Ok(Body::Stat(stat(reader)?)),
        Opcode::GetData => {
            let content = reader.buffer()?;
            Ok(Body::Content(content, stat(reader)?))
        }
        Opcode::GetAcl => {
            reader.open_acl()?;
            Ok(Body::OpenAcl(stat(reader)?))
        }
        Opcode::GetChildren => Ok(Body::Names(reader.vector()?)),
        Opcode::GetChildren2 => {
            let names = reader.vector()?;
            Ok(Body::NamesStat(names, stat(reader)?))
        }
        Opcode::Create2 => {
            let path = reader.ustring()?;
            Ok(Body::PathStat(path, stat(reader)?))
        }
        Opcode::Multi => Ok(Body::Parts(reader.until_last()?)),
        Opcode::Delete
        | Opcode::Ping
        | Opcode::Check
        | Opcode::Auth
        | Opcode::SetWatches
        | Opcode::Close
        | Opcode::CheckWatches
        | Opcode::RemoveWatches => Ok(Body::Empty),
    }
}

#[tactic(auto, unfolding(zk_jute::specs::JuteReading::values_at, zk_jute::specs::Records::stat_fields, zk_jute::specs::Records::stat_values))]
fn stat(reader: &mut Reader) -> Result<Stat, Fault>
    ensures { Gives stat_values result reader.new (values_at stat_fields reader.old) }
{
    Ok(Stat {
        czxid: reader.long()?,
        mzxid: reader.long()?,
        ctime: reader.long()?,
        mtime: reader.long()?,
        version: reader.int()?,
        cversion: reader.int()?,
        aversion: reader.int()?,
        ephemeral_owner: reader.long()?,
        data_length: reader.int()?,
        num_children: reader.int()?,
        pzxid: reader.long()?,
    })
}

impl Listed for PartResult {
    ghost next_at = { result_at };

    ghost shortens = { result_shorter };

    fn next(reader: &mut Reader) -> Result<Option<PartResult>, Fault> {
        let fault = Fault::Unreadable(reader.left());
        let kind = reader.int()?;
        let last = reader.boolean()?;
        let err = reader.int()?;
        if last {
            return if kind == -1 && err == -1 {
                Ok(None)
            } else {
                Err(fault)
            };
        }
        if kind == -1 {
            let code = reader.int()?;
            return if code == err {
                Ok(Some(PartResult::Code(code)))
            } else {
                Err(fault)
            };
        }
        if err != 0 {
            return Err(fault);
        }
        match PartKind::from_number(kind) {
            Some(kind) => Ok(Some(good(reader, kind)?)),
            None => Err(fault),
        }
    }
}

/// What a part of this kind gave.
fn good(reader: &mut Reader, kind: PartKind) -> Result<PartResult, Fault>
    ensures { Gives Some result reader.new (good_at kind reader.old) }
{
    match kind {
        PartKind::Create => Ok(PartResult::Created(reader.ustring()?)),
        PartKind::Delete => Ok(PartResult::Deleted),
        PartKind::SetData => Ok(PartResult::Set(stat(reader)?)),
        PartKind::Check => Ok(PartResult::Checked),
    }
}
