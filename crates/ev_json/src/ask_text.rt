//! Asks as they are written, each member a line.

ghost use Rattle.ev_json.specs.Messages.{guard_data, range_data, put_data, delete_data, act_data, txn_data, ask_data, create_data, watch_data};

use crate::message::{Message, list_if, submessage};
use crate::room::{about_bytes, about_list};
use ev_fields::field::Field;
use ev_fields::text::Text;
use ev_types::{Act, Ask, Guard, RangeReq, TxnReq};
use std::alloc::AllocError;

impl Message for Guard {
    ghost shape = { guard_data };

    fn room(&self) -> usize {
        about_bytes(100, self.key.as_slice())
    }

    #[tactic(auto, unfolding(crate::specs::Messages::guard_data))]
    fn write(&self, out: Text) -> Result<Text, AllocError> {
        let out = out
            .begin()?
            .bytes(Field::Key, self.key.as_slice())?
            .number(Field::ModRevision, self.mod_revision)?
            .text(Field::Result, "EQUAL")?
            .text(Field::Target, "MOD")?
            .end()?;
        Ok(out)
    }
}

impl Message for RangeReq {
    ghost shape = { range_data };

    fn room(&self) -> usize {
        about_bytes(about_bytes(140, self.key.as_slice()), self.end.as_slice())
    }

    #[tactic(auto, unfolding(crate::specs::Messages::range_data))]
    fn write(&self, out: Text) -> Result<Text, AllocError> {
        let out = out
            .begin()?
            .bytes(Field::Key, self.key.as_slice())?
            .true_if(Field::KeysOnly, self.keys_only)?
            .number_if(Field::Limit, self.limit)?
            .bytes_if(Field::RangeEnd, self.end.as_slice())?
            .number_if(Field::Revision, self.revision)?
            .end()?;
        Ok(out)
    }
}

/// The `request_put` of an operation.
#[derive(Drop)]
struct Put<'a> {
    key: &'a [u8],
    value: &'a [u8],
    lease: i64,
}

impl Message for Put<'_> {
    ghost shape = { λ p. put_data p.key.now p.value.now p.lease };

    fn room(&self) -> usize {
        about_bytes(about_bytes(60, self.key), self.value)
    }

    #[tactic(auto, unfolding(crate::specs::Messages::put_data))]
    fn write(&self, out: Text) -> Result<Text, AllocError> {
        let out = out
            .begin()?
            .bytes(Field::Key, self.key)?
            .number_if(Field::Lease, self.lease)?
            .bytes(Field::Value, self.value)?
            .end()?;
        Ok(out)
    }
}

/// The `request_delete_range` of an operation, which names one key.
#[derive(Drop)]
struct Delete<'a> {
    key: &'a [u8],
}

impl Message for Delete<'_> {
    ghost shape = { λ d. delete_data d.key.now };

    fn room(&self) -> usize {
        about_bytes(10, self.key)
    }

    #[tactic(auto, unfolding(crate::specs::Messages::delete_data))]
    fn write(&self, out: Text) -> Result<Text, AllocError> {
        let out = out.begin()?.bytes(Field::Key, self.key)?.end()?;
        Ok(out)
    }
}

impl Message for Act {
    ghost shape = { act_data };

    fn room(&self) -> usize {
        match self {
            Act::Put { key, value, .. } => {
                about_bytes(about_bytes(80, key.as_slice()), value.as_slice())
            }
            Act::Delete { key } => about_bytes(40, key.as_slice()),
            Act::Range(range) => range.room().saturating_add(20),
        }
    }

    #[tactic(auto, unfolding(crate::specs::Messages::act_data))]
    fn write(&self, out: Text) -> Result<Text, AllocError> {
        let out = out.begin()?;
        match self {
            Act::Put { key, value, lease } => {
                let put = Put {
                    key: key.as_slice(),
                    value: value.as_slice(),
                    lease: *lease,
                };
                let out = submessage(out, Field::RequestPut, &put)?.end()?;
                Ok(out)
            }
            Act::Delete { key } => {
                let delete = Delete {
                    key: key.as_slice(),
                };
                let out = submessage(out, Field::RequestDeleteRange, &delete)?.end()?;
                Ok(out)
            }
            Act::Range(range) => {
                let out = submessage(out, Field::RequestRange, range)?.end()?;
                Ok(out)
            }
        }
    }
}

impl Message for TxnReq {
    ghost shape = { txn_data };

    fn room(&self) -> usize {
        let guards = about_list(50, self.guards.as_slice());
        let failure = about_list(guards, self.failure.as_slice());
        about_list(failure, self.success.as_slice())
    }

    #[tactic(auto, unfolding(crate::specs::Messages::txn_data))]
    fn write(&self, out: Text) -> Result<Text, AllocError> {
        let out = list_if(out.begin()?, Field::Compare, self.guards.as_slice())?;
        let out = list_if(out, Field::Failure, self.failure.as_slice())?;
        let out = list_if(out, Field::Success, self.success.as_slice())?.end()?;
        Ok(out)
    }
}

impl Message for Ask {
    ghost shape = { ask_data };

    fn room(&self) -> usize {
        match self {
            Ask::Txn(txn) => txn.room(),
            Ask::Range(range) => range.room(),
            Ask::Grant { .. } => 60,
            Ask::Alive { .. } => 30,
        }
    }

    #[tactic(auto, unfolding(crate::specs::Messages::ask_data))]
    fn write(&self, out: Text) -> Result<Text, AllocError> {
        match self {
            Ask::Txn(txn) => txn.write(out),
            Ask::Range(range) => range.write(out),
            Ask::Grant { id, ttl } => {
                let out = out
                    .begin()?
                    .number(Field::Id, *id)?
                    .number(Field::Ttl, *ttl)?
                    .end()?;
                Ok(out)
            }
            Ask::Alive { id } => {
                let out = out.begin()?.number(Field::Id, *id)?.end()?;
                Ok(out)
            }
        }
    }
}

/// The `create_request` of a request to watch.
#[derive(Drop)]
struct Create<'a> {
    from: i64,
    key: &'a [u8],
}

impl Message for Create<'_> {
    ghost shape = { λ c. create_data c.from c.key.now };

    fn room(&self) -> usize {
        about_bytes(100, self.key)
    }

    #[tactic(auto, unfolding(crate::specs::Messages::create_data))]
    fn write(&self, out: Text) -> Result<Text, AllocError> {
        let out = out
            .begin()?
            .true_if(Field::Fragment, true)?
            .bytes(Field::Key, self.key)?
            .true_if(Field::ProgressNotify, true)?
            .number(Field::StartRevision, self.from)?
            .end()?;
        Ok(out)
    }
}

/// A request to watch one key from the revision `from` on.
#[derive(Drop)]
pub struct Watch<'a> {
    pub from: i64,
    pub key: &'a [u8],
}

impl Message for Watch<'_> {
    ghost shape = { λ w. watch_data w.from w.key.now };

    fn room(&self) -> usize {
        about_bytes(120, self.key)
    }

    #[tactic(auto, unfolding(crate::specs::Messages::watch_data))]
    fn write(&self, out: Text) -> Result<Text, AllocError> {
        let create = Create {
            from: self.from,
            key: self.key,
        };
        let out = submessage(out.begin()?, Field::CreateRequest, &create)?.end()?;
        Ok(out)
    }
}
