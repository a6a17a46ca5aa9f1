//! Reading requests.
#![tactic(auto, unfolding(zk_jute::specs::JuteReading::values_at))]

ghost use Rattle.std.specs.Prelude.{◌≤◌, length, All, IfOk, Some};
ghost use Rattle.zk_jute.specs.Records.{contents_of};
ghost use Rattle.zk_jute.specs.Requests.{header_at, part_after, part_at, plain_at, body_at, whole_at, read_request as read_as};
ghost use Rattle.zk_jute.specs.declared.opcode.Opcode.TheVariants as opcodes;
ghost use Rattle.zk_jute.proofs.Items.{part_shorter};
ghost use Rattle.zk_wire.specs.Giving.{Gives};
ghost use Rattle.zk_wire.specs.Outcomes.{IsReadAs};

use crate::fault::{Fault, WireFault};
use crate::reader::{Listed, Reader, first_int};
use std::alloc::Global;
use zk_jute::{Opcode, PartKind};
use zk_model::{Part, Request};

/// The bytes of a request's header: its xid and its type, two ints.
const HEADER: usize = 8;

fn create(reader: &mut Reader) -> Result<Request, Fault>
    ensures { Gives (λ x. x) result reader.new (plain_at opcodes.Create reader.old) }
{
    let path = reader.ustring()?;
    let content = reader.buffer()?;
    let acl = reader.vector()?;
    let flags = reader.int()?;
    Ok(Request::Create {
        path,
        content,
        acl,
        flags,
    })
}

fn create2(reader: &mut Reader) -> Result<Request, Fault>
    ensures { Gives (λ x. x) result reader.new (plain_at opcodes.Create2 reader.old) }
{
    let path = reader.ustring()?;
    let content = reader.buffer()?;
    let acl = reader.vector()?;
    let flags = reader.int()?;
    Ok(Request::Create2 {
        path,
        content,
        acl,
        flags,
    })
}

fn delete(reader: &mut Reader) -> Result<Request, Fault>
    ensures { Gives (λ x. x) result reader.new (plain_at opcodes.Delete reader.old) }
{
    let path = reader.ustring()?;
    let version = reader.int()?;
    Ok(Request::Delete { path, version })
}

fn exists(reader: &mut Reader) -> Result<Request, Fault>
    ensures { Gives (λ x. x) result reader.new (plain_at opcodes.Exists reader.old) }
{
    let path = reader.ustring()?;
    let watch = reader.boolean()?;
    Ok(Request::Exists { path, watch })
}

fn get_data(reader: &mut Reader) -> Result<Request, Fault>
    ensures { Gives (λ x. x) result reader.new (plain_at opcodes.GetData reader.old) }
{
    let path = reader.ustring()?;
    let watch = reader.boolean()?;
    Ok(Request::GetData { path, watch })
}

fn set_data(reader: &mut Reader) -> Result<Request, Fault>
    ensures { Gives (λ x. x) result reader.new (plain_at opcodes.SetData reader.old) }
{
    let path = reader.ustring()?;
    let content = reader.buffer()?;
    let version = reader.int()?;
    Ok(Request::SetData {
        path,
        content,
        version,
    })
}

fn get_acl(reader: &mut Reader) -> Result<Request, Fault>
    ensures { Gives (λ x. x) result reader.new (plain_at opcodes.GetAcl reader.old) }
{
    let path = reader.ustring()?;
    Ok(Request::GetAcl { path })
}

fn get_children(reader: &mut Reader) -> Result<Request, Fault>
    ensures { Gives (λ x. x) result reader.new (plain_at opcodes.GetChildren reader.old) }
{
    let path = reader.ustring()?;
    let watch = reader.boolean()?;
    Ok(Request::GetChildren { path, watch })
}

fn get_children2(reader: &mut Reader) -> Result<Request, Fault>
    ensures { Gives (λ x. x) result reader.new (plain_at opcodes.GetChildren2 reader.old) }
{
    let path = reader.ustring()?;
    let watch = reader.boolean()?;
    Ok(Request::GetChildren2 { path, watch })
}

fn sync(reader: &mut Reader) -> Result<Request, Fault>
    ensures { Gives (λ x. x) result reader.new (plain_at opcodes.Sync reader.old) }
{
    let path = reader.ustring()?;
    Ok(Request::Sync { path })
}

fn check(reader: &mut Reader) -> Result<Request, Fault>
    ensures { Gives (λ x. x) result reader.new (plain_at opcodes.Check reader.old) }
{
    let path = reader.ustring()?;
    let version = reader.int()?;
    Ok(Request::Check { path, version })
}

fn auth(reader: &mut Reader) -> Result<Request, Fault>
    ensures { Gives (λ x. x) result reader.new (plain_at opcodes.Auth reader.old) }
{
    let kind = reader.int()?;
    let scheme = reader.ustring()?;
    let auth = reader.buffer()?;
    Ok(Request::Auth { kind, scheme, auth })
}

fn set_watches(reader: &mut Reader) -> Result<Request, Fault>
    ensures { Gives (λ x. x) result reader.new (plain_at opcodes.SetWatches reader.old) }
{
    let relative = reader.long()?;
    let datas = reader.vector()?;
    let exists = reader.vector()?;
    let children = reader.vector()?;
    Ok(Request::SetWatches {
        relative,
        exists,
        datas,
        children,
    })
}

fn check_watches(reader: &mut Reader) -> Result<Request, Fault>
    ensures { Gives (λ x. x) result reader.new (plain_at opcodes.CheckWatches reader.old) }
{
    let path = reader.ustring()?;
    let kind = reader.int()?;
    Ok(Request::CheckWatches { path, kind })
}

fn remove_watches(reader: &mut Reader) -> Result<Request, Fault>
    ensures { Gives (λ x. x) result reader.new (plain_at opcodes.RemoveWatches reader.old) }
{
    let path = reader.ustring()?;
    let kind = reader.int()?;
    Ok(Request::RemoveWatches { path, kind })
}

/// A body of this kind.
fn body(reader: &mut Reader, code: Opcode) -> Result<Request, Fault>
    ensures { Gives (λ x. x) result reader.new (body_at code reader.old) }
{
    match code {
        Opcode::Create => create(reader),
        Opcode::Delete => delete(reader),
        Opcode::Exists => exists(reader),
        Opcode::GetData => get_data(reader),
        Opcode::SetData => set_data(reader),
        Opcode::GetAcl => get_acl(reader),
        Opcode::GetChildren => get_children(reader),
        Opcode::Sync => sync(reader),
        Opcode::Ping => Ok(Request::Ping),
        Opcode::GetChildren2 => get_children2(reader),
        Opcode::Check => check(reader),
        Opcode::Multi => Ok(Request::Multi {
            parts: reader.until_last()?,
        }),
        Opcode::Auth => auth(reader),
        Opcode::SetWatches => set_watches(reader),
        Opcode::Close => Ok(Request::Close),
        Opcode::Create2 => create2(reader),
        Opcode::CheckWatches => check_watches(reader),
        Opcode::RemoveWatches => remove_watches(reader),
    }
}

/// A body of this kind, and nothing after it.
fn whole(reader: &mut Reader, code: Opcode) -> Result<Request, Fault>
    ensures { Gives (λ x. x) result reader.new (whole_at code reader.old) }
{
    let request = body(reader, code)?;
    reader.ended(request)
}

/// The request of a frame after the first, with its xid (zookeeper.jute, `RequestHeader`). Copies each text and buffer once.
pub fn read_request(alloc: Global, frame: &[u8]) -> Result<(i32, Request), WireFault>
    ensures exact { IsReadAs result (read_as frame.now) }
    // The data of a request is no longer than its frame.
    ensures short { IfOk result (λ x. All (λ content. length content ≤ length frame.now) (contents_of x.1)) }
{
    if frame.len() < HEADER {
        return Err(WireFault::NoHeader);
    }
    let xid = first_int(frame);
    let kind = first_int(&frame[4..]);
    let Some(code) = Opcode::from_number(kind) else {
        return Err(WireFault::Unknown { xid, kind });
    };
    let mut reader = Reader::new(alloc, &frame[HEADER..]);
    match whole(&mut reader, code) {
        Ok(request) => Ok((xid, request)),
        Err(Fault::Unreadable(left)) => Err(WireFault::Unreadable {
            xid,
            place: frame.len().saturating_sub(left) as u64,
        }),
        Err(Fault::Memory) => Err(WireFault::Memory),
    }
}

impl Listed for Part {
    ghost next_at = { part_at };

    ghost shortens = { part_shorter };

    fn next(reader: &mut Reader) -> Result<Option<Part>, Fault> {
        match header(reader)? {
            Some(kind) => Ok(Some(part(reader, kind)?)),
            None => Ok(None),
        }
    }
}

/// Which part a header begins, and none at the last header.
fn header(reader: &mut Reader) -> Result<Option<PartKind>, Fault>
    ensures { Gives (λ x. x) result reader.new (header_at reader.old) }
{
    let left = reader.left();
    let number = reader.int()?;
    if reader.boolean()? {
        reader.int()?;
        return Ok(None);
    }
    let Some(kind) = PartKind::from_number(number) else {
        return Err(Fault::Unreadable(left));
    };
    reader.int()?;
    Ok(Some(kind))
}

fn part(reader: &mut Reader, kind: PartKind) -> Result<Part, Fault>
    ensures { Gives Some result reader.new (part_after (Some kind) reader.old) }
{
    match kind {
        PartKind::Create => {
            let path = reader.ustring()?;
            let content = reader.buffer()?;
            let acl = reader.vector()?;
            let flags = reader.int()?;
            Ok(Part::Create {
                path,
                content,
                acl,
                flags,
            })
        }
        PartKind::Delete => {
            let path = reader.ustring()?;
            let version = reader.int()?;
            Ok(Part::Delete { path, version })
        }
        PartKind::SetData => {
            let path = reader.ustring()?;
            let content = reader.buffer()?;
            let version = reader.int()?;
            Ok(Part::SetData {
                path,
                content,
                version,
            })
        }
        PartKind::Check => {
            let path = reader.ustring()?;
            let version = reader.int()?;
            Ok(Part::Check { path, version })
        }
    }
}
