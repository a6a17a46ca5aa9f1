//! Where the fields of a record go, in order: one walk over a record serves its size and its bytes.
#![tactic(auto, using(zk_jute::proofs::Lengths::lengths))]

ghost use Rattle.std.specs.Prelude.{◌≡◌, ◌+◌, length, OnOk};
ghost use Rattle.zk_jute.specs.JuteValues.{Value, int as int_value, long as long_value, boolean as boolean_value, buffer as buffer_value, ustring as ustring_value, ustrings as ustrings_value, acls as acls_value, open_acl as open_acl_value};
ghost use Rattle.zk_jute.specs.JuteWriting.{string_bytes, acl_bytes, canonical};
ghost use Rattle.zk_jute.specs.Records.{stat_values};
ghost use Rattle.zk_wire.specs.Putting.{counted, put_all};

use std::convert::Infallible;
use std::marker::Model;
use zk_model::{Acl, Stat};
use zx_base::Text;

/// What takes the values of a record, one after the other: bytes on the wire, their count, or words of a line.
pub trait FieldSink {
    /// Why it cannot take a value. What it holds after a fault is not known.
    type Fault: Drop;

    // Which values it takes.
    ghost can_put: { Value → Type 0 };

    // What it is with one more.
    ghost put: { Self → Value → Self };

    /// A signed number of 32 bits.
    fn int(&mut self, number: i32) -> Result<(), Self::Fault>
        ensures { OnOk result (self.new ≡ put self.old (int_value number)) };

    /// A signed number of 64 bits.
    fn long(&mut self, number: i64) -> Result<(), Self::Fault>
        ensures { OnOk result (self.new ≡ put self.old (long_value number)) };

    /// One byte on the wire, 0 or 1.
    fn boolean(&mut self, flag: bool) -> Result<(), Self::Fault>
        ensures { OnOk result (self.new ≡ put self.old (boolean_value flag)) };

    /// Bytes of any kind, with their length.
    fn buffer(&mut self, bytes: &[u8]) -> Result<(), Self::Fault>
        requires { can_put (buffer_value bytes.now) }
        ensures { OnOk result (self.new ≡ put self.old (buffer_value bytes.now)) };

    /// A text, with its length in bytes. That it is UTF-8 is not tested here.
    fn ustring(&mut self, text: &[u8]) -> Result<(), Self::Fault>
        requires { can_put (ustring_value text.now) }
        ensures { OnOk result (self.new ≡ put self.old (ustring_value text.now)) };

    /// A vector of texts, with its count.
    fn ustrings(&mut self, texts: &[Text]) -> Result<(), Self::Fault>
        requires { can_put (ustrings_value texts.now) }
        ensures { OnOk result (self.new ≡ put self.old (ustrings_value texts.now)) };

    /// A vector of entries of an access list, with its count.
    fn acls(&mut self, entries: &[Acl]) -> Result<(), Self::Fault>
        requires { can_put (acls_value entries.now) }
        ensures { OnOk result (self.new ≡ put self.old (acls_value entries.now)) };

    /// The vector of the one entry (31, `world`, `anyone`).
    fn open_acl(&mut self) -> Result<(), Self::Fault>
        ensures { OnOk result (self.new ≡ put self.old open_acl_value) };

    /// The numbers of a Stat, in the order of zookeeper.jute.
    #[tactic(auto, unfolding(zk_jute::specs::Records::stat_values))]
    fn stat(&mut self, stat: &Stat) -> Result<(), Self::Fault>
        ensures { OnOk result (self.new ≡ put_all put self.old (stat_values stat.now)) }
    {
        self.long(stat.czxid)?;
        self.long(stat.mzxid)?;
        self.long(stat.ctime)?;
        self.long(stat.mtime)?;
        self.int(stat.version)?;
        self.int(stat.cversion)?;
        self.int(stat.aversion)?;
        self.long(stat.ephemeral_owner)?;
        self.int(stat.data_length)?;
        self.int(stat.num_children)?;
        self.long(stat.pzxid)
    }
}

/// How many bytes the values take on the wire. The count stops at 2^64 - 1.
#[derive(Drop)]
pub struct Size {
    bytes: u64,
}

impl Model for Size {
    ghost use Rattle.std.specs.Prelude.{ℕ};

    ghost Value = { ℕ };

    ghost view = { λ s. s.bytes };
}

/// The bytes of an int, and of a length or a count.
const INT: u64 = 4;

/// The bytes of a long.
const LONG: u64 = 8;

/// The bytes of a boolean.
const BOOLEAN: u64 = 1;

/// The bytes of the open access list: a count, and an entry of a number and two texts of 5 and 6 bytes.
const OPEN_ACL: u64 = 4 * INT + 11;

impl Size {
    /// The size of no values.
    pub fn new() -> Size
        ensures { result ≡ 0 }
    {
        Size { bytes: 0 }
    }

    /// The bytes of the values that were put.
    pub fn bytes(&self) -> u64
        ensures { result ≡ self.now }
    {
        self.bytes
    }

    fn add(&mut self, bytes: u64)
        ensures { self.new ≡ counted (self.old + bytes) }
    {
        self.bytes = self.bytes.saturating_add(bytes);
    }

    /// Adds the bytes of a buffer or of a text, with their length.
    fn add_string(&mut self, bytes: &[u8])
        ensures { self.new ≡ counted (self.old + length (string_bytes bytes.now)) }
    {
        self.add(INT);
        self.add(bytes.len() as u64);
    }

    fn add_acl(&mut self, entry: &Acl)
        ensures { self.new ≡ counted (self.old + length (acl_bytes entry.now)) }
    {
        self.add(INT);
        self.add_string(entry.scheme.as_slice());
        self.add_string(entry.id.as_slice());
    }
}

impl FieldSink for Size {
    type Fault = Infallible;

    ghost can_put = { λ v. Unit {0} };

    ghost put = { λ size v. counted (size + length (canonical v)) };

    fn int(&mut self, _number: i32) -> Result<(), Infallible> {
        self.add(INT);
        Ok(())
    }

    fn long(&mut self, _number: i64) -> Result<(), Infallible> {
        self.add(LONG);
        Ok(())
    }

    fn boolean(&mut self, _flag: bool) -> Result<(), Infallible> {
        self.add(BOOLEAN);
        Ok(())
    }

    fn buffer(&mut self, bytes: &[u8]) -> Result<(), Infallible> {
        self.add_string(bytes);
        Ok(())
    }

    fn ustring(&mut self, text: &[u8]) -> Result<(), Infallible> {
        self.add_string(text);
        Ok(())
    }

    fn ustrings(&mut self, texts: &[Text]) -> Result<(), Infallible> {
        self.add(INT);
        for text in texts {
            self.add_string(text.as_slice());
        }
        Ok(())
    }

    fn acls(&mut self, entries: &[Acl]) -> Result<(), Infallible> {
        self.add(INT);
        for entry in entries {
            self.add_acl(entry);
        }
        Ok(())
    }

    fn open_acl(&mut self) -> Result<(), Infallible> {
        self.add(OPEN_ACL);
        Ok(())
    }
}
