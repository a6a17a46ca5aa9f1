//! Reads members of a JSON object, by their kinds. Each fault names the member, unless it is out of memory.

ghost use Rattle.std.specs.Prelude.{◌≡◌, ◌≤◌, ◌^◌, Option, Some, None, option_map};
ghost use Rattle.std.specs.List.{list_all};
ghost use Rattle.std.specs.Char.{is_ascii_digit};
ghost use Rattle.ev_fields.specs.Places.{data_at, items_at};
ghost use Rattle.ev_fields.specs.Gives.{Gives, GivesAs};
ghost use Rattle.ev_fields.specs.Kinds.{known, has, digits64, number_of, count_of, lease_of, from_one, bytes_of, word_of, member_of, message_in, count_in, lease_in, flag_in, bytes_in, needed_bytes, needed_count, positive_count, positive_lease, key_in, word_in, word_or_none, without, items_in};

use crate::fault::JsonFault;
use crate::field::Field;
use crate::place::{Place, Places};
use base64::DecodeAllocError;
use base64::engine::general_purpose::STANDARD;
use std::alloc::Global;
use zx_base::Bytes;

/// The fault that names this member.
pub fn broken(field: Field) -> JsonFault
    ensures { result ≡ JsonFault.Unreadable field }
{
    JsonFault::Unreadable { field }
}

/// The member under its snake case name, otherwise the one under its camel case name.
#[tactic(auto, unfolding(crate::specs::Kinds::member_of))]
pub fn member<'t, 'a>(value: &Place<'t, 'a>, name: Field) -> Option<Place<'t, 'a>>
    ensures { option_map data_at result ≡ member_of name (data_at value.now) }
{
    match value.get(name.snake()) {
        Some(found) => Some(found),
        None => value.get(name.camel()),
    }
}

/// Whether the member is there, under either name.
pub fn has(value: &Place<'_, '_>, name: Field) -> bool
    ensures { result ≡ has name (data_at value.now) }
{
    member(value, name).is_some()
}

/// A fault where this member is there; otherwise true.
#[tactic(auto, unfolding(crate::specs::Kinds::without))]
pub fn without(value: &Place<'_, '_>, name: Field) -> Result<bool, JsonFault>
    ensures { Gives result (without name (data_at value.now)) }
{
    if has(value, name) {
        return Err(broken(name));
    }
    Ok(true)
}

/// A flag; false where the member is absent.
#[tactic(auto, unfolding(crate::specs::Kinds::flag_in))]
pub fn flag(value: &Place<'_, '_>, name: Field) -> Result<bool, JsonFault>
    ensures { Gives result (flag_in name (data_at value.now)) }
{
    let Some(found) = member(value, name) else {
        return Ok(false);
    };
    match found.as_bool() {
        Some(flag) => Ok(flag),
        None => Err(broken(name)),
    }
}

/// The bytes that a string of base64 stands for, copied once.
#[tactic(auto, unfolding(crate::specs::Kinds::bytes_of))]
fn bytes_of(alloc: Global, value: &Place<'_, '_>, name: Field) -> Result<Bytes, JsonFault>
    ensures { Gives result (known name (bytes_of (data_at value.now))) }
{
    let Some(text) = value.as_str() else {
        return Err(broken(name));
    };
    match STANDARD.decode(alloc, text.as_bytes()) {
        Ok(bytes) => Ok(Bytes::from_vec(bytes)),
        Err(DecodeAllocError::OutOfMemory) => Err(JsonFault::Memory),
        Err(_) => Err(broken(name)),
    }
}

/// Bytes, in base64 with padding; none where the member is absent.
#[tactic(auto, unfolding(crate::specs::Kinds::bytes_in))]
pub fn bytes(alloc: Global, value: &Place<'_, '_>, name: Field) -> Result<Bytes, JsonFault>
    ensures { Gives result (bytes_in name (data_at value.now)) }
{
    match member(value, name) {
        Some(found) => bytes_of(alloc, &found, name),
        None => Ok(Bytes::new(alloc)),
    }
}

/// Bytes, in base64 with padding, of a member that must be there. They may be none.
#[tactic(auto, unfolding(crate::specs::Kinds::needed_bytes))]
pub fn needed_bytes(alloc: Global, value: &Place<'_, '_>, name: Field) -> Result<Bytes, JsonFault>
    ensures { Gives result (needed_bytes name (data_at value.now)) }
{
    match member(value, name) {
        Some(found) => bytes_of(alloc, &found, name),
        None => Err(broken(name)),
    }
}

fn are_digits(text: &[u8]) -> bool
    ensures { result ≡ list_all is_ascii_digit text.now }
{
    text.iter().all(|b| b.is_ascii_digit())
}

/// The number that a text of digits gives; `None` for any other text, and for a number of 2^64 or above.
#[tactic(auto, using(crate::proofs::Digits::read_digits))]
pub(crate) fn digits_of(text: &str) -> Option<u64>
    ensures { result ≡ digits64 text.now }
{
    if text.is_empty() {
        return None;
    }
    if !are_digits(text.as_bytes()) {
        return None;
    }
    match text.parse::<u64>() {
        Ok(number) => Some(number),
        Err(_) => None,
    }
}

/// A number from 0 to below `top`: digits in a string, or a JSON integer.
#[tactic(auto, unfolding(crate::specs::Kinds::number_of))]
fn number_of(top: u64, value: &Place<'_, '_>) -> Option<i64>
    requires { top ≤ 2 ^ 63 }
    ensures { result ≡ number_of top (data_at value.now) }
{
    let number = match value.as_str() {
        Some(text) => digits_of(text),
        None => value.as_u64(),
    };
    match number {
        Some(n) if n < top => Some(n as i64),
        _ => None,
    }
}

/// Revisions, versions, counts and seconds are below 2^62.
pub(crate) const MAX_COUNTS: u64 = 0x4000_0000_0000_0000;
/// The numbers of leases are below 2^63.
pub(crate) const MAX_LEASES: u64 = 0x8000_0000_0000_0000;

#[tactic(auto, unfolding(crate::specs::Kinds::count_of))]
fn count_of(value: &Place<'_, '_>) -> Option<i64>
    ensures { result ≡ count_of (data_at value.now) }
{
    number_of(MAX_COUNTS, value)
}

#[tactic(auto, unfolding(crate::specs::Kinds::lease_of))]
fn lease_of(value: &Place<'_, '_>) -> Option<i64>
    ensures { result ≡ lease_of (data_at value.now) }
{
    number_of(MAX_LEASES, value)
}

/// A revision, a version, a count, a limit or seconds, from 0 to below 2^62; 0 where the member is absent.
#[tactic(auto, unfolding(crate::specs::Kinds::count_in))]
pub fn count(value: &Place<'_, '_>, name: Field) -> Result<i64, JsonFault>
    ensures { Gives result (count_in name (data_at value.now)) }
{
    let Some(found) = member(value, name) else {
        return Ok(0);
    };
    match count_of(&found) {
        Some(count) => Ok(count),
        None => Err(broken(name)),
    }
}

/// A number from 0 to below 2^62 that must be there.
#[tactic(auto, unfolding(crate::specs::Kinds::needed_count))]
pub fn needed_count(value: &Place<'_, '_>, name: Field) -> Result<i64, JsonFault>
    ensures { Gives result (needed_count name (data_at value.now)) }
{
    let Some(found) = member(value, name) else {
        return Err(broken(name));
    };
    match count_of(&found) {
        Some(count) => Ok(count),
        None => Err(broken(name)),
    }
}

fn from_one(number: Option<i64>) -> Option<i64>
    ensures { result ≡ from_one number }
{
    match number {
        Some(n) if n > 0 => Some(n),
        _ => None,
    }
}

/// A number from 1 to below 2^62 that must be there.
#[tactic(auto, unfolding(crate::specs::Kinds::positive_count))]
pub fn positive_count(value: &Place<'_, '_>, name: Field) -> Result<i64, JsonFault>
    ensures { Gives result (positive_count name (data_at value.now)) }
{
    let Some(found) = member(value, name) else {
        return Err(broken(name));
    };
    match from_one(count_of(&found)) {
        Some(count) => Ok(count),
        None => Err(broken(name)),
    }
}

/// A lease's number, from 1 to below 2^63, that must be there.
#[tactic(auto, unfolding(crate::specs::Kinds::positive_lease))]
pub fn positive_lease(value: &Place<'_, '_>, name: Field) -> Result<i64, JsonFault>
    ensures { Gives result (positive_lease name (data_at value.now)) }
{
    let Some(found) = member(value, name) else {
        return Err(broken(name));
    };
    match from_one(lease_of(&found)) {
        Some(lease) => Ok(lease),
        None => Err(broken(name)),
    }
}

/// The key of an ask, which must be there and have at least one byte.
#[tactic(auto, unfolding(crate::specs::Kinds::key_in))]
pub fn key(alloc: Global, value: &Place<'_, '_>) -> Result<Bytes, JsonFault>
    ensures { Gives result (key_in (data_at value.now)) }
{
    let Some(found) = member(value, Field::Key) else {
        return Err(broken(Field::Key));
    };
    let key = bytes_of(alloc, &found, Field::Key)?;
    if key.len() == 0 {
        return Err(broken(Field::Key));
    }
    Ok(key)
}

#[tactic(auto, unfolding(crate::specs::Kinds::word_of))]
fn word_of(value: &Place<'_, '_>, word: &str) -> Option<bool>
    ensures { result ≡ word_of word.now (data_at value.now) }
{
    let text = value.as_str()?;
    if text == word {
        return Some(true);
    }
    None
}

/// True where the member is this text; otherwise a fault, also where it is absent.
#[tactic(auto, unfolding(crate::specs::Kinds::word_in))]
pub fn word(value: &Place<'_, '_>, name: Field, word: &str) -> Result<bool, JsonFault>
    ensures { Gives result (word_in name word.now (data_at value.now)) }
{
    let Some(found) = member(value, name) else {
        return Err(broken(name));
    };
    match word_of(&found, word) {
        Some(same) => Ok(same),
        None => Err(broken(name)),
    }
}

/// True where the member is this text or is absent; otherwise a fault.
#[tactic(auto, unfolding(crate::specs::Kinds::word_or_none))]
pub fn word_or_none(value: &Place<'_, '_>, name: Field, word: &str) -> Result<bool, JsonFault>
    ensures { Gives result (word_or_none name word.now (data_at value.now)) }
{
    let Some(found) = member(value, name) else {
        return Ok(true);
    };
    match word_of(&found, word) {
        Some(same) => Ok(same),
        None => Err(broken(name)),
    }
}

/// A lease's number, from 0 to below 2^63; 0 where the member is absent.
#[tactic(auto, unfolding(crate::specs::Kinds::lease_in))]
pub fn lease(value: &Place<'_, '_>, name: Field) -> Result<i64, JsonFault>
    ensures { Gives result (lease_in name (data_at value.now)) }
{
    let Some(found) = member(value, name) else {
        return Ok(0);
    };
    match lease_of(&found) {
        Some(lease) => Ok(lease),
        None => Err(broken(name)),
    }
}

/// The object that is the value of a member, which must be there.
#[tactic(auto, unfolding(crate::specs::Kinds::message_in))]
pub fn message<'t, 'a>(value: &Place<'t, 'a>, name: Field) -> Result<Place<'t, 'a>, JsonFault>
    ensures { GivesAs data_at result (message_in name (data_at value.now)) }
{
    let Some(found) = member(value, name) else {
        return Err(broken(name));
    };
    if !found.is_object() {
        return Err(broken(name));
    }
    Ok(found)
}

/// The items of a list; none where the member is absent.
#[tactic(auto, unfolding(crate::specs::Kinds::items_in))]
pub fn items<'t, 'a>(value: &Place<'t, 'a>, name: Field) -> Result<Places<'t, 'a>, JsonFault>
    ensures { GivesAs items_at result (items_in name (data_at value.now)) }
{
    let Some(found) = member(value, name) else {
        return Ok(Places::none());
    };
    match found.items() {
        Some(places) => Ok(places),
        None => Err(broken(name)),
    }
}
