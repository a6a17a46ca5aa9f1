//! Places in a parsed text: each stands for the JSON value that begins there. No value is built.

ghost use Rattle.std.specs.Prelude.{◌≡◌, ◌<◌, length, is_some, option_map, option_and_then, MatchOption, OnSome};
ghost use Rattle.serde_json.specs.Data.{item, no_items};
ghost use Rattle.serde_json.specs.Find.{get, as_str, as_bool, as_number, as_u64, as_object, as_array};
ghost use Rattle.ev_fields.specs.Places.{IsHeld, data_at, items_at};

use crate::number::unsigned;
use json::{Element, Items};
use std::marker::Model;

/// A JSON value, by where it begins in a parsed text. A clause sees the tokens from there on, and `data_at` is the value.
#[derive(Drop)]
pub struct Place<'t, 'a> {
    element: Element<'t, 'a>,
}

impl<'t, 'a> Model for Place<'t, 'a> {
    ghost use Rattle.std.specs.Prelude.{List};
    ghost use Rattle.json.specs.Token.{Token, tokens_code};

    ghost Value = { List Token };

    ghost coded = { tokens_code };

    ghost use Rattle.ev_fields.specs.Places.{IsHeld};

    ghost view = { λ a. a.element };

    ghost invariant = { λ a. IsHeld a.element };
}

impl<'t, 'a> Place<'t, 'a> {
    /// The value that begins at this element.
    #[inline(always)]
    pub(crate) fn new(element: Element<'t, 'a>) -> Place<'t, 'a>
        requires { IsHeld element }
        ensures { result ≡ element.entry }
    {
        Place { element }
    }

    /// The last member of this name, where the value is an object.
    pub fn get(&self, name: &str) -> Option<Place<'t, 'a>>
        ensures { option_map data_at result ≡ get name.now (data_at self.now) }
    {
        match self.element.get(name) {
            Some(element) => Some(Place { element }),
            None => None,
        }
    }

    /// The text, where the value is one.
    pub fn as_str(&self) -> Option<&'a str>
        ensures { option_map (λ s. s.now) result ≡ as_str (data_at self.now) }
    {
        self.element.as_str()
    }

    /// The flag, where the value is one.
    pub fn as_bool(&self) -> Option<bool>
        ensures { result ≡ as_bool (data_at self.now) }
    {
        self.element.as_bool()
    }

    /// The number, where the value is an integer from 0 to below 2^64.
    pub fn as_u64(&self) -> Option<u64>
        ensures { result ≡ option_and_then as_u64 (as_number (data_at self.now)) }
    {
        match self.element.as_number() {
            Some(text) => unsigned(text),
            None => None,
        }
    }

    /// Whether the value is an object.
    pub fn is_object(&self) -> bool
        ensures { result ≡ is_some (as_object (data_at self.now)) }
    {
        self.element.members().is_some()
    }

    /// The items, where the value is an array.
    pub fn items(&self) -> Option<Places<'t, 'a>>
        ensures { option_map items_at result ≡ as_array (data_at self.now) }
    {
        match self.element.items() {
            Some(items) => Some(Places { rest: Some(items) }),
            None => None,
        }
    }
}

/// The items of an array that are still to come. A clause sees the tokens from there on, and `items_at` are the items.
#[derive(Drop)]
pub struct Places<'t, 'a> {
    rest: Option<Items<'t, 'a>>,
}

impl<'t, 'a> Model for Places<'t, 'a> {
    ghost use Rattle.std.specs.Prelude.{List};
    ghost use Rattle.json.specs.Token.{Token, tokens_code};

    ghost Value = { List Token };

    ghost coded = { tokens_code };

    ghost use Rattle.ev_fields.specs.Places.{AreHeld, or_closed};

    ghost view = { λ a. or_closed a.rest };

    ghost invariant = { λ a. AreHeld (or_closed a.rest) };
}

impl<'t, 'a> Places<'t, 'a> {
    /// No items.
    pub fn none() -> Places<'t, 'a>
        ensures { items_at result ≡ no_items }
    {
        Places { rest: None }
    }

    /// The next item.
    pub fn next(&mut self) -> Option<Place<'t, 'a>>
        ensures value { MatchOption result (items_at self.old ≡ no_items)
            (λ place. items_at self.old ≡ item (data_at place) (items_at self.new)) }
        ensures shorter { OnSome result (length self.new < length self.old) }
    {
        let mut items = self.rest.take()?;
        let element = items.next()?;
        self.rest = Some(items);
        Some(Place { element })
    }
}
