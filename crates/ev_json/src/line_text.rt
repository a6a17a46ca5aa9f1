//! The lines of a watch as they are written.

ghost use Rattle.std.specs.Prelude.{◌≡◌, ◌++◌, map, IfOk};
ghost use Rattle.std.specs.List.{flat_map};
ghost use Rattle.serde_json.specs.Data.{array};
ghost use Rattle.serde_json.specs.View.{items_of};
ghost use Rattle.ev_fields.specs.Members.{given, list_if};
ghost use Rattle.ev_json.specs.Messages.{event_data, change_data, line_data, cancel_data, canceled_data};
ghost use Rattle.ev_fields.specs.Open.{Adds, data_tokens};
ghost use Rattle.ev_fields.specs.declared.field.Field.TheVariants.{Events};

use crate::answer_text::Header;
use crate::message::{Message, kv, submessage};
use crate::room::about_list;
use ev_fields::field::Field;
use ev_fields::text::Text;
use ev_types::Kv;
use std::alloc::AllocError;

#[tactic(auto, unfolding(crate::specs::Messages::event_data))]
fn write_event(out: Text, put: &Kv) -> Result<Text, AllocError>
    ensures { IfOk result (λ t. t ≡ out ++ data_tokens (event_data put.now)) }
{
    let out = kv(out.begin()?, put)?.end()?;
    Ok(out)
}

fn write_events(out: Text, kvs: &[Kv]) -> Result<Text, AllocError>
    ensures { IfOk result (λ t. t ≡ out ++ flat_map data_tokens (map event_data kvs.now)) }
{
    let mut text = out;
    for kv in kvs {
        text = write_event(text, kv)?;
    }
    Ok(text)
}

#[tactic(auto, using(ev_fields::proofs::Tokens::nested))]
fn events(out: Text, kvs: &[Kv]) -> Result<Text, AllocError>
    ensures { IfOk result (λ t. Adds (given Events (array (items_of (map event_data kvs.now)))) out t) }
{
    let text = out.begin_list(Field::Events)?;
    let text = write_events(text, kvs)?;
    let text = text.end_list()?;
    Ok(text)
}

fn events_if(out: Text, kvs: &[Kv]) -> Result<Text, AllocError>
    ensures { IfOk result (λ t. Adds (list_if Events (map event_data kvs.now)) out t) }
{
    if kvs.is_empty() {
        return Ok(out);
    }
    events(out, kvs)
}

/// The `result` of a line: these puts, or that the watch was created where there are none.
#[derive(Drop)]
struct Change<'a> {
    kvs: &'a [Kv],
    revision: i64,
}

impl Message for Change<'_> {
    ghost shape = { λ c. change_data c.kvs.now c.revision };

    fn room(&self) -> usize {
        about_list(80, self.kvs).saturating_add(self.kvs.len().saturating_mul(8))
    }

    #[tactic(auto, unfolding(crate::specs::Messages::change_data))]
    fn write(&self, out: Text) -> Result<Text, AllocError> {
        let header = Header {
            revision: self.revision,
        };
        let out = out.begin()?.true_if(Field::Created, self.kvs.is_empty())?;
        let out = events_if(out, self.kvs)?;
        let out = submessage(out, Field::Header, &header)?.end()?;
        Ok(out)
    }
}

/// One line of a watch: these puts, or that the watch was created where there are none.
#[derive(Drop)]
pub struct LineOf<'a> {
    pub kvs: &'a [Kv],
    pub revision: i64,
}

impl Message for LineOf<'_> {
    ghost shape = { λ l. line_data l.kvs.now l.revision };

    fn room(&self) -> usize {
        about_list(100, self.kvs).saturating_add(self.kvs.len().saturating_mul(8))
    }

    #[tactic(auto, unfolding(crate::specs::Messages::line_data))]
    fn write(&self, out: Text) -> Result<Text, AllocError> {
        let change = Change {
            kvs: self.kvs,
            revision: self.revision,
        };
        let out = submessage(out.begin()?, Field::Result, &change)?.end()?;
        Ok(out)
    }
}

/// The `result` of a line that cancels a watch.
#[derive(Drop)]
struct Cancel {
    compacted: i64,
    revision: i64,
}

impl Message for Cancel {
    ghost shape = { λ c. cancel_data c.compacted c.revision };

    fn room(&self) -> usize {
        100
    }

    #[tactic(auto, unfolding(crate::specs::Messages::cancel_data))]
    fn write(&self, out: Text) -> Result<Text, AllocError> {
        let header = Header {
            revision: self.revision,
        };
        let out = out.begin()?.true_if(Field::Canceled, true)?;
        let out = out.number(Field::CompactRevision, self.compacted)?;
        let out = submessage(out, Field::Header, &header)?.end()?;
        Ok(out)
    }
}

/// The line that cancels a watch.
#[derive(Drop)]
pub struct Canceled {
    pub compacted: i64,
    pub revision: i64,
}

impl Message for Canceled {
    ghost shape = { λ l. canceled_data l.compacted l.revision };

    fn room(&self) -> usize {
        120
    }

    #[tactic(auto, unfolding(crate::specs::Messages::canceled_data))]
    fn write(&self, out: Text) -> Result<Text, AllocError> {
        let cancel = Cancel {
            compacted: self.compacted,
            revision: self.revision,
        };
        let out = submessage(out.begin()?, Field::Result, &cancel)?.end()?;
        Ok(out)
    }
}
