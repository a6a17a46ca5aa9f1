//! Reading Jute's values from the front of a frame.

ghost use Rattle.std.specs.Prelude.{◌≡◌, ℕ, ◌*◌, ◌<◌, ◌≤◌, List, [], Option, Some, Ok, IfOk, length, vec_capacity};
ghost use Rattle.std.specs.Str.{is_utf8};
ghost use Rattle.zk_jute.specs.JuteReading.{Read, front_int, front_long, int_at, long_at, boolean_at, buffer_at, ustring_at, acl_at, count_at, items_at, vector_at, value_at, all_until_last, ended as whole_of};
ghost use Rattle.zk_jute.specs.JuteValues.{open_acl, the_open_acl};
ghost use Rattle.zk_wire.specs.Giving.{Gives};
ghost use Rattle.zk_model.specs.Access.{is_open_acl};

use crate::fault::Fault;
use byteorder::{BigEndian, ByteOrder};
use std::alloc::{AllocError, Global};
use std::marker::Model;
use zk_model::Acl;
use zx_base::{Bytes, Seq, Text};

/// The fewest bytes of an item of a vector: a text has a length.
const MIN_ITEM: usize = 4;

/// The bytes of a frame that are still to be read.
#[derive(Drop)]
pub struct Reader<'a> {
    alloc: Global,
    rest: &'a [u8],
}

impl<'a> Model for Reader<'a> {
    ghost Value = { List ℕ };

    ghost view = { λ r. r.rest.now };
}

impl<'a> Reader<'a> {
    /// A reader from the first of these bytes on.
    pub fn new(alloc: Global, bytes: &'a [u8]) -> Self
        ensures { result ≡ bytes.now }
    {
        Reader { alloc, rest: bytes }
    }

    /// How many bytes are still to be read.
    pub fn left(&self) -> usize
        ensures { result ≡ length self.now }
    {
        self.rest.len()
    }

    /// What was read, where no byte is left; else a fault at the first byte that is.
    pub fn ended<T: Drop>(&self, value: T) -> Result<T, Fault>
        ensures { Gives (λ x. x) result self.now (whole_of (value, self.now)) }
    {
        match self.rest.len() {
            0 => Ok(value),
            left => Err(Fault::Unreadable(left)),
        }
    }

    /// A signed number of four bytes, the high one first.
    pub fn int(&mut self) -> Result<i32, Fault>
        ensures { Gives (λ x. x) result self.new (int_at self.old) }
    {
        if self.rest.len() < 4 {
            return Err(Fault::Unreadable(self.rest.len()));
        }
        let number = first_int(self.rest);
        self.rest = &self.rest[4..];
        Ok(number)
    }

    /// A signed number of eight bytes, the high one first.
    pub fn long(&mut self) -> Result<i64, Fault>
        ensures { Gives (λ x. x) result self.new (long_at self.old) }
    {
        if self.rest.len() < 8 {
            return Err(Fault::Unreadable(self.rest.len()));
        }
        let number = first_long(self.rest);
        self.rest = &self.rest[8..];
        Ok(number)
    }

    /// One byte: any but 0 is true.
    pub fn boolean(&mut self) -> Result<bool, Fault>
        ensures { Gives (λ x. x) result self.new (boolean_at self.old) }
    {
        match self.rest {
            [] => Err(Fault::Unreadable(0)),
            [byte, rest @ ..] => {
                self.rest = rest;
                Ok(*byte != 0)
            }
        }
    }

    /// A length or a count, where -1 stands for 0.
    fn count(&mut self) -> Result<usize, Fault>
        ensures { Gives (λ x. x) result self.new (count_at self.old) }
    {
        let left = self.rest.len();
        match self.int()? {
            -1 => Ok(0),
            number => match usize::try_from(number) {
                Ok(count) => Ok(count),
                Err(_) => Err(Fault::Unreadable(left)),
            },
        }
    }

    /// A length and so many bytes; the length -1 is read as 0. Copies the bytes once.
    pub fn buffer(&mut self) -> Result<Bytes, Fault>
        ensures { Gives (λ x. x) result self.new (buffer_at self.old) }
    {
        let left = self.rest.len();
        let length = self.count()?;
        if self.rest.len() < length {
            return Err(Fault::Unreadable(left));
        }
        let (content, rest) = self.rest.split_at(length);
        self.rest = rest;
        Ok(Bytes::from_vec(Vec::from_slice(self.alloc, content)?))
    }

    /// A length and so many bytes of UTF-8; no length below 0 is read. Copies the bytes once.
    pub fn ustring(&mut self) -> Result<Text, Fault>
        ensures { Gives (λ x. x) result self.new (ustring_at self.old) }
    {
        let left = self.rest.len();
        let number = self.int()?;
        let Ok(length) = usize::try_from(number) else {
            return Err(Fault::Unreadable(left));
        };
        if self.rest.len() < length {
            return Err(Fault::Unreadable(left));
        }
        let (text, rest) = self.rest.split_at(length);
        if !is_text(text) {
            return Err(Fault::Unreadable(left));
        }
        self.rest = rest;
        Ok(Text::from_vec(Vec::from_slice(self.alloc, text)?))
    }

    /// A count and so many items of one kind; the count -1 is read as 0.
    pub fn vector<T: Item>(&mut self) -> Result<Seq<T>, Fault>
        ensures { Gives (λ x. x) result self.new (vector_at T.item_at self.old) }
    {
        let count = self.count()?;
        let items = self.items(count)?;
        Ok(Seq::from_vec(items))
    }

    fn items<T: Item>(&mut self, count: usize) -> Result<Vec<T>, Fault>
        ensures { Gives (λ x. x.items) result self.new (items_at T.item_at count self.old) }
    {
        let mut items = self.list_for(count)?;
        for _ in 0..count {
            let item = T::read(self)?;
            items.push(item)?;
        }
        Ok(items)
    }

    /// An empty list with room for this count of items, but for no more than one for each four bytes left, so that the room
    /// does not grow with a count that is only claimed.
    fn list_for<T: Item>(&self, count: usize) -> Result<Vec<T>, AllocError>
        ensures empty { IfOk result (λ list. list.items ≡ []) }
        ensures by_count { IfOk result (λ list. vec_capacity list ≤ count) }
        ensures by_bytes { IfOk result (λ list. 4 * vec_capacity list ≤ length self.now) }
    {
        Vec::with_capacity(self.alloc, count.min(self.rest.len() / MIN_ITEM))
    }

    /// The access list that allows everything to everyone; any other is a fault at its count.
    pub fn open_acl(&mut self) -> Result<(), Fault>
        ensures { Gives (λ x. open_acl) result self.new (value_at the_open_acl self.old) }
    {
        let left = self.rest.len();
        let entries: Seq<Acl> = self.vector()?;
        if is_open_list(entries.as_slice()) {
            Ok(())
        } else {
            Err(Fault::Unreadable(left))
        }
    }

    /// The items of a multi, up to its last header.
    pub fn until_last<T: Listed>(&mut self) -> Result<Seq<T>, Fault>
        ensures { Gives (λ x. x) result self.new (all_until_last T.next_at self.old) }
    {
        let mut items = Vec::new(self.alloc);
        while let Some(item) = T::next(self)? {
            items.push(item)?;
        }
        Ok(Seq::from_vec(items))
    }
}

/// The signed number that the first four bytes are, the high one first.
pub fn first_int(bytes: &[u8]) -> i32
    requires { 4 ≤ length bytes.now }
    ensures { result ≡ front_int bytes.now }
{
    BigEndian::read_i32(bytes)
}

/// The signed number that the first eight bytes are, the high one first.
pub fn first_long(bytes: &[u8]) -> i64
    requires { 8 ≤ length bytes.now }
    ensures { result ≡ front_long bytes.now }
{
    BigEndian::read_i64(bytes)
}

fn is_open_list(entries: &[Acl]) -> bool
    ensures { result ≡ is_open_acl entries.now }
{
    match entries {
        [entry] => {
            entry.perms == 31
                && entry.scheme.as_slice() == b"world".as_slice()
                && entry.id.as_slice() == b"anyone".as_slice()
        }
        _ => false,
    }
}

fn is_text(bytes: &[u8]) -> bool
    ensures { result ≡ is_utf8 bytes.now }
{
    match str::from_utf8(bytes) {
        Ok(_) => true,
        Err(_) => false,
    }
}

/// What a vector may hold.
pub trait Item: Sized + Drop {
    ghost item_at: { List ℕ → Read Self };

    /// The next item.
    fn read(reader: &mut Reader) -> Result<Self, Fault>
        ensures { Gives (λ x. x) result reader.new (item_at reader.old) };
}

impl Item for Text {
    ghost item_at = { ustring_at };

    fn read(reader: &mut Reader) -> Result<Text, Fault> {
        reader.ustring()
    }
}

impl Item for Acl {
    ghost item_at = { acl_at };

    fn read(reader: &mut Reader) -> Result<Acl, Fault> {
        let perms = reader.int()?;
        let scheme = reader.ustring()?;
        let id = reader.ustring()?;
        Ok(Acl { perms, scheme, id })
    }
}

/// What a multi may list.
pub trait Listed: Sized + Drop {
    ghost next_at: { List ℕ → Read (Option Self) };

    /// The next item, with its header; `None` at the last header.
    fn next(reader: &mut Reader) -> Result<Option<Self>, Fault>
        ensures { Gives (λ x. x) result reader.new (next_at reader.old) };

    // An item takes at least one byte.
    ghost shortens: { (bytes : List ℕ) (item : Self) (rest : List ℕ) → next_at bytes ≡ Ok (Some item, rest) → length rest < length bytes };
}
