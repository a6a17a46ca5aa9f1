//! The keys under which the service keeps its nodes, its sessions and its last update.

ghost use Rattle.std.specs.Prelude.{◌≡◌, ◌+◌, ◌%◌, ◌^◌, ◌<◌, ◌≤◌, pos, nat_abs, ◌≤ℤ◌, [], length, IfOk};
ghost use Rattle.zk_model.specs.Paths.{depth as path_depth};
ghost use Rattle.zn_layout.specs.Keys.{HeadKey, DataKey, CountsKey, SessionKey, LeaseKey, key_bytes, node_key as bytes_of_node, session_key as bytes_of_session, digit as decimal_digit, hex_digits, hex_digit as digit_of};
ghost use Rattle.zk_model.specs.Limits.{max_path};

use std::alloc::Global;
use zx_base::{Bytes, Memory};

/// What all keys of the service begin with.
pub const FRONT: &[u8; 3] = b"zk/";

/// The key of the last update.
pub const HEAD_NAME: &[u8; 7] = b"zk/head";

/// What the keys of nodes' data begin with.
pub const DATA_FRONT: &[u8; 5] = b"zk/d/";

/// What the keys of the counts of nodes' children begin with.
pub const COUNTS_FRONT: &[u8; 5] = b"zk/c/";

/// What the keys of sessions' nodes begin with.
pub const SESSION_FRONT: &[u8; 5] = b"zk/s/";

/// What the keys of sessions' lives begin with.
pub const LEASE_FRONT: &[u8; 5] = b"zk/l/";

const SLASH: u8 = b'/';

const ROOT: &[u8] = b"/";

/// The key of the last update, `zk/head`.
#[tactic(auto, unfolding(crate::specs::Keys::key_bytes))]
pub fn head_key(alloc: Global) -> Result<Bytes, Memory>
    ensures { IfOk result (λ k. k ≡ key_bytes HeadKey) }
{
    Bytes::copy_of(alloc, HEAD_NAME.as_slice())
}

/// The key of a node's data: `zk/d/`, the path's depth as four digits, the path. The path has at most 1,024 bytes.
#[tactic(auto, unfolding(crate::specs::Keys::key_bytes))]
pub fn data_key(alloc: Global, path: &[u8]) -> Result<Bytes, Memory>
    requires { length path.now ≤ max_path }
    ensures { IfOk result (λ k. k ≡ key_bytes (DataKey path.now)) }
{
    node_key(alloc, DATA_FRONT, path)
}

/// The key of the counts of a node's children: `zk/c/`, the path's depth as four digits, the path. The path has at most
/// 1,024 bytes.
#[tactic(auto, unfolding(crate::specs::Keys::key_bytes))]
pub fn counts_key(alloc: Global, path: &[u8]) -> Result<Bytes, Memory>
    requires { length path.now ≤ max_path }
    ensures { IfOk result (λ k. k ≡ key_bytes (CountsKey path.now)) }
{
    node_key(alloc, COUNTS_FRONT, path)
}

/// The key of the nodes of a session: `zk/s/` and its number, at least 1, as 16 hex digits.
#[tactic(auto, unfolding(crate::specs::Keys::key_bytes))]
pub fn session_key(alloc: Global, id: i64) -> Result<Bytes, Memory>
    requires { pos 1 ≤ℤ id }
    ensures { IfOk result (λ k. k ≡ key_bytes (SessionKey (nat_abs id))) }
{
    numbered_key(alloc, SESSION_FRONT, id.unsigned_abs())
}

/// The key of the life of a session: `zk/l/` and its number, at least 1, as 16 hex digits.
#[tactic(auto, unfolding(crate::specs::Keys::key_bytes))]
pub fn lease_key(alloc: Global, id: i64) -> Result<Bytes, Memory>
    requires { pos 1 ≤ℤ id }
    ensures { IfOk result (λ k. k ≡ key_bytes (LeaseKey (nat_abs id))) }
{
    numbered_key(alloc, LEASE_FRONT, id.unsigned_abs())
}

fn node_key(alloc: Global, kind: &[u8; 5], path: &[u8]) -> Result<Bytes, Memory>
    requires { length path.now ≤ max_path }
    ensures { IfOk result (λ k. k ≡ bytes_of_node kind.now path.now) }
{
    let n = depth(path);
    let digits = [digit(n / 1000), digit(n / 100), digit(n / 10), digit(n)];
    let mut key = Vec::with_capacity(alloc, kind.len() + digits.len() + path.len())?;
    key.extend_from_slice(kind)?;
    key.extend_from_slice(&digits)?;
    key.extend_from_slice(path)?;
    Ok(Bytes::from_vec(key))
}

/// The last decimal digit of a number.
fn digit(n: usize) -> u8
    ensures { result ≡ decimal_digit n }
{
    b'0' + (n % 10) as u8
}

/// How many names a path has.
fn depth(path: &[u8]) -> usize
    ensures is { result ≡ path_depth path.now }
    ensures small { result ≤ length path.now }
{
    if path == ROOT {
        0
    } else {
        path.iter().filter(|byte| **byte == SLASH).count()
    }
}

fn numbered_key(alloc: Global, kind: &[u8; 5], n: u64) -> Result<Bytes, Memory>
    requires { n < 2 ^ 63 }
    ensures { IfOk result (λ k. k ≡ bytes_of_session kind.now n) }
{
    let digits = digits_of(n);
    let mut key = Vec::with_capacity(alloc, kind.len() + digits.len())?;
    key.extend_from_slice(kind)?;
    key.extend_from_slice(&digits)?;
    Ok(Bytes::from_vec(key))
}

/// A number as 16 lower-case hex digits.
fn digits_of(n: u64) -> [u8; 16]
    requires { n < 2 ^ 63 }
    ensures { result ≡ hex_digits 15 n [] }
{
    let mut digits = [b'0'; 16];
    let mut rest = n;
    for i in 0..15 {
        digits[15 - i] = hex_digit(rest % 16);
        rest /= 16;
    }
    digits[0] = hex_digit(rest);
    digits
}

fn hex_digit(n: u64) -> u8
    requires { n < 16 }
    ensures { result ≡ digit_of n }
{
    let n = n as u8;
    if n < 10 { b'0' + n } else { b'a' + (n - 10) }
}
