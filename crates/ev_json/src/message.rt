//! Messages that are written, alone and as members of others.

ghost use Rattle.std.specs.Prelude.{◌≡◌, ◌++◌, map, IfOk};
ghost use Rattle.std.specs.List.{flat_map};
ghost use Rattle.serde_json.specs.Data.{Data, array};
ghost use Rattle.serde_json.specs.View.{items_of};
ghost use Rattle.ev_fields.specs.Members.{given, kv_member, list_if};
ghost use Rattle.ev_fields.specs.Open.{Adds, data_tokens};

use ev_fields::field::Field;
use ev_fields::text::Text;
use std::alloc::AllocError;

/// A message that can be written.
pub trait Message {
    ghost shape: { Self → Data };

    /// About how many bytes its text has, at most.
    fn room(&self) -> usize;

    /// Writes the message at the end of the text.
    fn write(&self, out: Text) -> Result<Text, AllocError>
        ensures { IfOk result (λ t. t ≡ out ++ data_tokens (shape self.now)) };
}

/// A member whose value is a message of its own.
#[tactic(auto, using(ev_fields::proofs::Tokens::nested))]
pub fn submessage<M: Message>(out: Text, name: Field, value: &M) -> Result<Text, AllocError>
    ensures { IfOk result (λ t. Adds (given name (M.shape value.now)) out t) }
{
    let text = out.name(name)?;
    let text = value.write(text)?;
    Ok(text)
}

/// The member `kv` of an event.
#[tactic(auto, using(ev_fields::proofs::Tokens::nested))]
pub fn kv<M: Message>(out: Text, value: &M) -> Result<Text, AllocError>
    ensures { IfOk result (λ t. Adds (kv_member (M.shape value.now)) out t) }
{
    let text = out.kv_name()?;
    let text = value.write(text)?;
    Ok(text)
}

fn all_of<M: Message>(out: Text, items: &[M]) -> Result<Text, AllocError>
    ensures { IfOk result (λ t. t ≡ out ++ flat_map data_tokens (map M.shape items.now)) }
{
    let mut text = out;
    for item in items {
        text = item.write(text)?;
    }
    Ok(text)
}

/// A member that is a list of messages.
#[tactic(auto, using(ev_fields::proofs::Tokens::nested))]
fn list<M: Message>(out: Text, name: Field, items: &[M]) -> Result<Text, AllocError>
    ensures { IfOk result (λ t. Adds (given name (array (items_of (map M.shape items.now)))) out t) }
{
    let text = out.begin_list(name)?;
    let text = all_of(text, items)?;
    let text = text.end_list()?;
    Ok(text)
}

/// A member that is a list of messages; nothing where there are none.
pub fn list_if<M: Message>(out: Text, name: Field, items: &[M]) -> Result<Text, AllocError>
    ensures { IfOk result (λ t. Adds (list_if name (map M.shape items.now)) out t) }
{
    if items.is_empty() {
        return Ok(out);
    }
    list(out, name, items)
}
