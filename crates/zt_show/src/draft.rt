//! Lines in the making, which take the fields of a record as words.

ghost use Rattle.std.specs.Prelude.{◌≡◌, ◌++◌, ◌∷◌, [], decimal, OnOk};
ghost use Rattle.zt_show.specs.FieldWords.{spaced_word, signed_word, hex_word, acl_words, value_words};

use std::alloc::Global;
use std::marker::Model;
use zk_model::Acl;
use zk_wire::FieldSink;
use zt_text::{push_hex, push_number, push_signed};
use zx_base::{Memory, Text};

/// Lines in the making, which contracts see as their bytes. If memory was refused, part of a line may stand at their end;
/// nobody reads them then, since every later call on their stream fails.
#[derive(Drop)]
pub(crate) struct Draft {
    text: Vec<u8>,
}

impl Model for Draft {
    ghost use Rattle.std.specs.Prelude.{ℕ, List};

    ghost Value = { List ℕ };

    ghost view = { λ draft. draft.text.items };
}

impl Draft {
    /// No lines. Takes no memory.
    pub(crate) fn new(alloc: Global) -> Draft
        ensures { result ≡ [] }
    {
        Draft {
            text: Vec::new(alloc),
        }
    }

    /// The bytes of the lines.
    pub(crate) fn as_slice(&self) -> &[u8]
        ensures { result.now ≡ self.now }
    {
        self.text.as_slice()
    }

    /// Removes the lines, and keeps the memory.
    pub(crate) fn clear(&mut self)
        ensures { self.new ≡ [] }
    {
        self.text.clear();
    }

    pub(crate) fn bytes(&mut self, bytes: &[u8]) -> Result<(), Memory>
        ensures { OnOk result (self.new ≡ self.old ++ bytes.now) }
    {
        self.text.extend_from_slice(bytes)?;
        Ok(())
    }

    fn blank(&mut self) -> Result<(), Memory>
        ensures { OnOk result (self.new ≡ self.old ++ 32 ∷ []) }
    {
        self.text.push(b' ')?;
        Ok(())
    }

    pub(crate) fn end_line(&mut self) -> Result<(), Memory>
        ensures { OnOk result (self.new ≡ self.old ++ 10 ∷ []) }
    {
        self.text.push(b'\n')?;
        Ok(())
    }

    /// Adds a number that begins a line.
    pub(crate) fn number(&mut self, n: u64) -> Result<(), Memory>
        ensures { OnOk result (self.new ≡ self.old ++ decimal n) }
    {
        push_number(&mut self.text, n)
    }

    /// Adds a blank and a name.
    pub(crate) fn word(&mut self, name: &[u8]) -> Result<(), Memory>
        ensures { OnOk result (self.new ≡ self.old ++ spaced_word name.now) }
    {
        self.blank()?;
        self.bytes(name)
    }

    /// Adds a blank and a place or a count.
    pub(crate) fn count(&mut self, n: u64) -> Result<(), Memory>
        ensures { OnOk result (self.new ≡ self.old ++ spaced_word (decimal n)) }
    {
        self.blank()?;
        push_number(&mut self.text, n)
    }

    /// Adds a blank and a number, with its sign where it is below 0.
    pub(crate) fn signed(&mut self, n: i64) -> Result<(), Memory>
        ensures { OnOk result (self.new ≡ self.old ++ signed_word n) }
    {
        self.blank()?;
        push_signed(&mut self.text, n)
    }

    /// Adds a blank and bytes as hex, `-` for none.
    fn hex(&mut self, bytes: &[u8]) -> Result<(), Memory>
        ensures { OnOk result (self.new ≡ self.old ++ hex_word bytes.now) }
    {
        self.blank()?;
        push_hex(&mut self.text, bytes)
    }

    fn acl(&mut self, entry: &Acl) -> Result<(), Memory>
        ensures { OnOk result (self.new ≡ self.old ++ acl_words entry.now) }
    {
        self.signed(i64::from(entry.perms))?;
        self.hex(entry.scheme.as_slice())?;
        self.hex(entry.id.as_slice())
    }
}

impl FieldSink for Draft {
    type Fault = Memory;

    ghost can_put = { λ v. Unit {0} };

    ghost put = { λ text v. text ++ value_words v };

    fn int(&mut self, number: i32) -> Result<(), Memory> {
        self.signed(i64::from(number))
    }

    fn long(&mut self, number: i64) -> Result<(), Memory> {
        self.signed(number)
    }

    fn boolean(&mut self, flag: bool) -> Result<(), Memory> {
        if flag {
            self.bytes(b" 1")
        } else {
            self.bytes(b" 0")
        }
    }

    fn buffer(&mut self, bytes: &[u8]) -> Result<(), Memory> {
        self.hex(bytes)
    }

    fn ustring(&mut self, text: &[u8]) -> Result<(), Memory> {
        self.hex(text)
    }

    fn ustrings(&mut self, texts: &[Text]) -> Result<(), Memory> {
        self.count(texts.len() as u64)?;
        for text in texts {
            self.hex(text.as_slice())?;
        }
        Ok(())
    }

    fn acls(&mut self, entries: &[Acl]) -> Result<(), Memory> {
        self.count(entries.len() as u64)?;
        for entry in entries {
            self.acl(entry)?;
        }
        Ok(())
    }

    fn open_acl(&mut self) -> Result<(), Memory> {
        self.count(1)?;
        self.signed(31)?;
        self.hex(b"world")?;
        self.hex(b"anyone")
    }
}
