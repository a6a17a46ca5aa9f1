//! Lists of messages that are read.

ghost use Rattle.std.specs.Prelude.{Result};
ghost use Rattle.serde_json.specs.Data.{Data};
ghost use Rattle.ev_fields.specs.Places.{data_at, items_at};
ghost use Rattle.ev_fields.specs.Gives.{Gives, GivesAs};
ghost use Rattle.ev_fields.specs.Kinds.{each, list_in};
ghost use Rattle.ev_fields.specs.declared.field.Field.{Field};

use ev_fields::fault::JsonFault;
use ev_fields::field::Field;
use ev_fields::members::items;
use ev_fields::place::{Place, Places};
use std::alloc::Global;
use zx_base::Seq;

/// A message that can be read.
pub trait Read: Sized + Drop {
    ghost reading: { Data → Result Self Field };

    fn read(alloc: Global, value: &Place<'_, '_>) -> Result<Self, JsonFault>
        ensures { Gives result (reading (data_at value.now)) };
}

/// Reads each item of a list, up to the first fault.
fn each<T: Read>(alloc: Global, mut values: Places<'_, '_>) -> Result<Vec<T>, JsonFault>
    ensures { GivesAs (λ v. v.items) result (each T.reading (items_at values.entry)) }
{
    let mut list = Vec::new(alloc);
    while let Some(value) = values.next() {
        list.push(T::read(alloc, &value)?)?;
    }
    Ok(list)
}

/// Reads a list of messages; none where it is absent.
#[tactic(auto, unfolding(ev_fields::specs::Kinds::list_in))]
pub fn list<T: Read>(alloc: Global, value: &Place<'_, '_>, name: Field) -> Result<Seq<T>, JsonFault>
    ensures { Gives result (list_in T.reading name (data_at value.now)) }
{
    let values = items(value, name)?;
    let list = each(alloc, values)?;
    Ok(Seq::from_vec(list))
}
