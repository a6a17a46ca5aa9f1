//! The requests of the clients.

ghost use Rattle.std.specs.Prelude.{◌≡◌, ◌<◌, ◌++◌, ◌∷◌, [], codes, pos, true, IfOk};
ghost use Rattle.zk_model.specs.Access.{open_entry};
ghost use Rattle.zp_clients.specs.Wishes.{is_ping, last_after, next_xid, packet_of, path_of, request_of, wish_of, xid_of};

use std::alloc::Global;
use zk_model::{Acl, Request};
use zk_wire::write_request;
use zx_base::{Bytes, Memory, Seq, Text};

/// What a client sends, by the kind of its step.
#[derive(Clone, Copy)]
pub enum Wish {
    /// A persistent node.
    Create,
    /// An ephemeral sequence node beside it.
    CreateSequence,
    /// Whatever its version is.
    Delete,
    /// Whatever its version is.
    SetData,
    GetData,
    Exists,
    /// The children of the root.
    GetChildren,
    /// The next update is told where that is possible; otherwise a ping.
    Ping,
    /// If nothing was set since the node was created.
    SetFirst,
}

/// The wish of a step of this kind, below 10.
pub fn wish_of(kind: u32) -> Wish
    ensures { result ≡ wish_of kind }
{
    match kind {
        0 | 1 => Wish::Create,
        2 => Wish::CreateSequence,
        3 => Wish::Delete,
        4 => Wish::SetData,
        5 => Wish::GetData,
        6 => Wish::Exists,
        7 => Wish::GetChildren,
        8 => Wish::Ping,
        _ => Wish::SetFirst,
    }
}

impl Wish {
    /// Whether a ping is sent, where nothing is to be told.
    pub fn is_ping(self) -> bool
        ensures { result ≡ is_ping self }
    {
        match self {
            Wish::Ping => true,
            _ => false,
        }
    }
}

/// The greatest xid.
const MAX_XID: u32 = 2_147_483_647;

/// The xid of a ping.
const PING_XID: i32 = -2;

/// The xid after this one; no run gets past the greatest.
fn next_xid(last: u32) -> u32
    ensures is { result ≡ next_xid last }
    ensures most { result < 2147483648 }
{
    if last < MAX_XID { last + 1 } else { MAX_XID }
}

/// The xid of a connection's last request after this one. Pings are not counted.
pub fn last_after(wish: Wish, last: u32) -> u32
    ensures { result ≡ last_after wish last }
{
    match wish {
        Wish::Ping => last,
        _ => next_xid(last),
    }
}

/// The xid that a client sends, where its last request had this one.
fn xid_of(wish: Wish, last: u32) -> i32
    ensures { result ≡ xid_of wish last }
{
    match wish {
        Wish::Ping => PING_XID,
        _ => next_xid(last) as i32,
    }
}

/// The path of a number below 20: `/k` and two digits.
fn path_of(alloc: Global, number: u32) -> Result<Text, Memory>
    requires { number < 20 }
    ensures { IfOk result (λ p. p ≡ path_of number) }
{
    let digits = [
        b'/',
        b'k',
        b'0' + (number / 10) as u8,
        b'0' + (number % 10) as u8,
    ];
    Text::copy_of(alloc, &digits)
}

/// Everybody may do everything.
fn open_list(alloc: Global) -> Result<Seq<Acl>, Memory>
    ensures { IfOk result (λ acl. acl ≡ open_entry ∷ []) }
{
    let scheme = Text::copy_of(alloc, b"world")?;
    let id = Text::copy_of(alloc, b"anyone")?;
    let mut acl = Seq::new(alloc);
    acl.push(Acl {
        perms: 31,
        scheme,
        id,
    })?;
    Ok(acl)
}

/// A create with one byte of data.
fn created(alloc: Global, path: Text, flags: i32) -> Result<Request, Memory>
    ensures { IfOk result (λ r. r ≡ Request.Create path (codes "s") (open_entry ∷ []) flags) }
{
    let content = Bytes::copy_of(alloc, b"s")?;
    let acl = open_list(alloc)?;
    Ok(Request::Create {
        path,
        content,
        acl,
        flags,
    })
}

/// A create of an ephemeral sequence node, whose path begins with this one and `-`.
fn sequenced(alloc: Global, path: Text) -> Result<Request, Memory>
    ensures { IfOk result (λ r. r ≡ Request.Create (path ++ codes "-") (codes "s") (open_entry ∷ []) (pos 3)) }
{
    let mut path = path;
    path.push(b'-')?;
    created(alloc, path, 3)
}

/// A setData of one byte.
fn set(alloc: Global, path: Text, content: u8, version: i32) -> Result<Request, Memory>
    ensures { IfOk result (λ r. r ≡ Request.SetData path (content ∷ []) version) }
{
    let content = Bytes::copy_of(alloc, &[content])?;
    Ok(Request::SetData {
        path,
        content,
        version,
    })
}

/// A getChildren of the root that leaves a watch.
fn root_listed(alloc: Global) -> Result<Request, Memory>
    ensures { IfOk result (λ r. r ≡ Request.GetChildren (codes "/") true) }
{
    let path = Text::copy_of(alloc, b"/")?;
    Ok(Request::GetChildren { path, watch: true })
}

/// The request of a wish, at the path of a number below 20.
fn request_of(alloc: Global, wish: Wish, number: u32) -> Result<Request, Memory>
    requires { number < 20 }
    ensures { IfOk result (λ r. r ≡ request_of wish number) }
{
    let path = path_of(alloc, number)?;
    match wish {
        Wish::Create => created(alloc, path, 0),
        Wish::CreateSequence => sequenced(alloc, path),
        Wish::Delete => Ok(Request::Delete { path, version: -1 }),
        Wish::SetData => set(alloc, path, b't', -1),
        Wish::GetData => Ok(Request::GetData { path, watch: true }),
        Wish::Exists => Ok(Request::Exists { path, watch: true }),
        Wish::GetChildren => root_listed(alloc),
        Wish::Ping => Ok(Request::Ping),
        Wish::SetFirst => set(alloc, path, b'u', 0),
    }
}

/// The packet that a client sends, where its last request had this xid.
pub fn packet_of(alloc: Global, wish: Wish, number: u32, last: u32) -> Result<Bytes, Memory>
    requires { number < 20 }
    ensures { IfOk result (λ b. b ≡ packet_of wish number last) }
{
    let request = request_of(alloc, wish, number)?;
    let packet = write_request(alloc, xid_of(wish, last), &request)?;
    Ok(Bytes::from_vec(packet))
}
