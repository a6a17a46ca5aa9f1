//! Answers and the lines of watches as they are written, each member a line.

ghost use Rattle.std.specs.Prelude.{◌≡◌, ◌++◌, IfOk};
ghost use Rattle.ev_fields.specs.Members.{given, none, object_of, number_if, bytes};
ghost use Rattle.ev_json.specs.Messages.{kv_data, header_data, found_data, deleted_data, part_data, txn_answer_data, range_answer_data, granted_data, alive_data, answer_data};
ghost use Rattle.ev_fields.specs.Open.{IsOpen, data_tokens};
ghost use Rattle.ev_fields.specs.declared.field.Field.TheVariants.{Result, CreateRevision, Key, Lease};

use crate::message::{Message, list_if, submessage};
use crate::room::{about_bytes, about_list};
use ev_fields::field::Field;
use ev_fields::text::Text;
use ev_types::{ActAns, Answer, Kv, RangeAns};
use std::alloc::AllocError;

/// Opens the object of a key with its value, and writes its first members.
fn begin_kv(out: Text, kv: &Kv) -> Result<Text, AllocError>
    ensures { IfOk result (λ t. IsOpen out (none ++ number_if CreateRevision kv.now.create_revision ++ bytes Key kv.now.key ++ number_if Lease kv.now.lease) t) }
{
    let out = out
        .begin()?
        .number_if(Field::CreateRevision, kv.create_revision)?
        .bytes(Field::Key, kv.key.as_slice())?
        .number_if(Field::Lease, kv.lease)?;
    Ok(out)
}

impl Message for Kv {
    ghost shape = { kv_data };

    fn room(&self) -> usize {
        about_bytes(about_bytes(180, self.key.as_slice()), self.value.as_slice())
    }

    #[tactic(auto, unfolding(crate::specs::Messages::kv_data))]
    fn write(&self, out: Text) -> Result<Text, AllocError> {
        let out = begin_kv(out, self)?
            .number_if(Field::ModRevision, self.mod_revision)?
            .bytes_if(Field::Value, self.value.as_slice())?
            .number_if(Field::Version, self.version)?
            .end()?;
        Ok(out)
    }
}

/// The header of an answer, or of a watch's line.
#[derive(Drop)]
pub struct Header {
    pub revision: i64,
}

impl Message for Header {
    ghost shape = { λ h. header_data h.revision };

    fn room(&self) -> usize {
        40
    }

    #[tactic(auto, unfolding(crate::specs::Messages::header_data))]
    fn write(&self, out: Text) -> Result<Text, AllocError> {
        let out = out.begin()?.number(Field::Revision, self.revision)?.end()?;
        Ok(out)
    }
}

impl Message for RangeAns {
    ghost shape = { found_data };

    fn room(&self) -> usize {
        about_list(80, self.kvs.as_slice())
    }

    #[tactic(auto, unfolding(crate::specs::Messages::found_data))]
    fn write(&self, out: Text) -> Result<Text, AllocError> {
        let out = out.begin()?.number_if(Field::Count, self.count)?;
        let out = list_if(out, Field::Kvs, self.kvs.as_slice())?
            .true_if(Field::More, self.more)?
            .end()?;
        Ok(out)
    }
}

/// What a put answers: nothing.
#[derive(Drop)]
struct PutDone;

impl Message for PutDone {
    ghost shape = { λ _. object_of none };

    fn room(&self) -> usize {
        2
    }

    fn write(&self, out: Text) -> Result<Text, AllocError> {
        let out = out.begin()?.end()?;
        Ok(out)
    }
}

/// What a delete answers: how many keys were deleted.
#[derive(Drop)]
struct Deleted {
    keys: i64,
}

impl Message for Deleted {
    ghost shape = { λ d. deleted_data d.keys };

    fn room(&self) -> usize {
        40
    }

    #[tactic(auto, unfolding(crate::specs::Messages::deleted_data))]
    fn write(&self, out: Text) -> Result<Text, AllocError> {
        let out = out.begin()?.number_if(Field::Deleted, self.keys)?.end()?;
        Ok(out)
    }
}

impl Message for ActAns {
    ghost shape = { part_data };

    fn room(&self) -> usize {
        match self {
            ActAns::Put => 20,
            ActAns::Deleted(_) => 70,
            ActAns::Range(found) => found.room().saturating_add(22),
        }
    }

    #[tactic(auto, unfolding(crate::specs::Messages::part_data))]
    fn write(&self, out: Text) -> Result<Text, AllocError> {
        let out = out.begin()?;
        match self {
            ActAns::Put => {
                let out = submessage(out, Field::ResponsePut, &PutDone)?.end()?;
                Ok(out)
            }
            ActAns::Deleted(keys) => {
                let deleted = Deleted { keys: *keys };
                let out = submessage(out, Field::ResponseDeleteRange, &deleted)?.end()?;
                Ok(out)
            }
            ActAns::Range(found) => {
                let out = submessage(out, Field::ResponseRange, found)?.end()?;
                Ok(out)
            }
        }
    }
}

#[tactic(auto, unfolding(crate::specs::Messages::txn_answer_data))]
fn write_txn(
    out: Text,
    revision: i64,
    parts: &[ActAns],
    succeeded: bool,
) -> Result<Text, AllocError>
    ensures { IfOk result (λ t. t ≡ out ++ data_tokens (txn_answer_data revision parts.now succeeded)) }
{
    let out = submessage(out.begin()?, Field::Header, &Header { revision })?;
    let out = list_if(out, Field::Responses, parts)?
        .true_if(Field::Succeeded, succeeded)?
        .end()?;
    Ok(out)
}

#[tactic(auto, unfolding(crate::specs::Messages::range_answer_data))]
fn write_found(out: Text, revision: i64, found: &RangeAns) -> Result<Text, AllocError>
    ensures { IfOk result (λ t. t ≡ out ++ data_tokens (range_answer_data revision found.now)) }
{
    let out = out.begin()?.number_if(Field::Count, found.count)?;
    let out = submessage(out, Field::Header, &Header { revision })?;
    let out = list_if(out, Field::Kvs, found.kvs.as_slice())?
        .true_if(Field::More, found.more)?
        .end()?;
    Ok(out)
}

#[tactic(auto, unfolding(crate::specs::Messages::granted_data))]
fn write_granted(out: Text, revision: i64, id: i64, ttl: i64) -> Result<Text, AllocError>
    ensures { IfOk result (λ t. t ≡ out ++ data_tokens (granted_data revision id ttl)) }
{
    let out = out.begin()?.number(Field::Id, id)?.number(Field::Ttl, ttl)?;
    let out = submessage(out, Field::Header, &Header { revision })?.end()?;
    Ok(out)
}

/// A lease that was kept alive.
#[derive(Drop)]
struct Alive {
    revision: i64,
    id: i64,
    ttl: i64,
}

impl Message for Alive {
    ghost shape = { λ a. alive_data a.revision a.id a.ttl };

    fn room(&self) -> usize {
        110
    }

    #[tactic(auto, unfolding(crate::specs::Messages::alive_data))]
    fn write(&self, out: Text) -> Result<Text, AllocError> {
        let header = Header {
            revision: self.revision,
        };
        let out = out
            .begin()?
            .number(Field::Id, self.id)?
            .number_if(Field::Ttl, self.ttl)?;
        let out = submessage(out, Field::Header, &header)?.end()?;
        Ok(out)
    }
}

fn write_alive(out: Text, alive: &Alive) -> Result<Text, AllocError>
    ensures { IfOk result (λ t. t ≡ out ++ data_tokens (object_of (none ++ given Result (alive_data alive.now.revision alive.now.id alive.now.ttl)))) }
{
    let out = submessage(out.begin()?, Field::Result, alive)?.end()?;
    Ok(out)
}

impl Message for Answer {
    ghost shape = { answer_data };

    fn room(&self) -> usize {
        match self {
            Answer::Txn { parts, .. } => about_list(90, parts.as_slice()),
            Answer::Range { found, .. } => found.room().saturating_add(50),
            Answer::Granted { .. } => 110,
            Answer::Alive { .. } => 120,
        }
    }

    #[tactic(auto, unfolding(crate::specs::Messages::answer_data))]
    fn write(&self, out: Text) -> Result<Text, AllocError> {
        match self {
            Answer::Txn {
                revision,
                succeeded,
                parts,
            } => write_txn(out, *revision, parts.as_slice(), *succeeded),
            Answer::Range { revision, found } => write_found(out, *revision, found),
            Answer::Granted { revision, id, ttl } => write_granted(out, *revision, *id, *ttl),
            Answer::Alive { revision, id, ttl } => {
                let alive = Alive {
                    revision: *revision,
                    id: *id,
                    ttl: *ttl,
                };
                write_alive(out, &alive)
            }
        }
    }
}
