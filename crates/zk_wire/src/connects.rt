//! Reading the first frame of a connection.

ghost use Rattle.zk_jute.specs.Connects.{connect_at, read_only_at, read_connect as read_as};
ghost use Rattle.zk_wire.specs.Giving.{Gives};
ghost use Rattle.zk_wire.specs.Outcomes.{IsConnectReadAs};

use crate::fault::{Fault, WireFault};
use crate::reader::Reader;
use std::alloc::Global;
use zk_model::ConnectRequest;

/// The connect of a connection's first frame (`ConnectRequest`), or `NoHeader` where it is none. Copies the password once.
#[tactic(auto, unfolding(zk_jute::specs::Connects::read_connect))]
pub fn read_connect(alloc: Global, frame: &[u8]) -> Result<ConnectRequest, WireFault>
    ensures { IsConnectReadAs result (read_as frame.now) }
{
    let mut reader = Reader::new(alloc, frame);
    match connect(&mut reader) {
        Ok(request) => Ok(request),
        Err(Fault::Unreadable(_)) => Err(WireFault::NoHeader),
        Err(Fault::Memory) => Err(WireFault::Memory),
    }
}

#[tactic(auto, unfolding(zk_jute::specs::JuteReading::values_at))]
fn connect(reader: &mut Reader) -> Result<ConnectRequest, Fault>
    ensures { Gives (λ x. x) result reader.new (connect_at reader.old) }
{
    let protocol = reader.int()?;
    let last_zxid = reader.long()?;
    let timeout = reader.int()?;
    let session = reader.long()?;
    let passwd = reader.buffer()?;
    let read_only = read_only(reader)?;
    Ok(ConnectRequest {
        protocol,
        last_zxid,
        timeout,
        session,
        passwd,
        read_only,
    })
}

/// The read-only byte, which older clients do not send, and nothing after it.
fn read_only(reader: &mut Reader) -> Result<Option<bool>, Fault>
    ensures { Gives (λ x. x) result reader.new (read_only_at reader.old) }
{
    if reader.left() == 0 {
        return Ok(None);
    }
    let flag = reader.boolean()?;
    reader.ended(Some(flag))
}
