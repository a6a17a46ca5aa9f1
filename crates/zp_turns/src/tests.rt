//! Where frames of the public protocol contend, and turns of two in one thread.

use crate::contention::contended;
use crate::{InTurn, NoTurns, Queues, Turns};
use std::alloc::{AllocError, Global};
use std::sync::{Arc, Wait};
use std::test::Fail;
use std::time::Clock as SystemClock;
use zx_base::Memory;

/// A frame with the xid 7, of this type, whose request is these bytes.
fn frame(alloc: Global, kind: i32, request: &[u8]) -> Result<Vec<u8>, AllocError> {
    let mut bytes = Vec::from_slice(alloc, b"\0\0\0\x07")?;
    bytes.extend_from_slice(&kind.to_be_bytes())?;
    bytes.extend_from_slice(request)?;
    Ok(bytes)
}

/// Whether a frame of this type contends at this path.
fn is_at(alloc: Global, kind: i32, request: &[u8], path: &[u8]) -> Result<bool, AllocError> {
    let frame = frame(alloc, kind, request)?;
    Ok(match contended(frame.as_slice()) {
        Some(found) => found == path,
        None => false,
    })
}

/// Whether a frame of this type contends nowhere.
fn is_nowhere(alloc: Global, kind: i32, request: &[u8]) -> Result<bool, AllocError> {
    let frame = frame(alloc, kind, request)?;
    Ok(contended(frame.as_slice()).is_none())
}

/// A create of this node with two bytes of data, the open access list and flags.
const CREATE_LOCK: &[u8] =
    b"\0\0\0\x0f/app/locks/lock\0\0\0\x02ab\0\0\0\x01\0\0\0\x1f\0\0\0\x05world\0\0\0\x06anyone\0\0\0\x03";

/// The same of a node below the root.
const CREATE_A: &[u8] =
    b"\0\0\0\x02/a\0\0\0\x02ab\0\0\0\x01\0\0\0\x1f\0\0\0\x05world\0\0\0\x06anyone\0\0\0\x03";

#[test]
fn creates_and_deletes_contend_at_the_parent(rt: HostRuntime) -> Result<(), Fail> {
    let alloc = rt.alloc();
    assert!(rt; is_at(alloc, 1, CREATE_LOCK, b"/app/locks")?);
    assert!(rt; is_at(alloc, 15, CREATE_LOCK, b"/app/locks")?);
    assert!(rt;
        is_at(
            alloc,
            2,
            b"\0\0\0\x0f/app/locks/lock\0\0\0\x04",
            b"/app/locks"
        )?
    );
    assert!(rt; is_at(alloc, 1, CREATE_A, b"/")?);
    assert!(rt; is_nowhere(alloc, 4, b"\0\0\0\x0f/app/locks/lock\x01")?);
    assert!(rt; is_nowhere(alloc, -11, b"")?);
    Ok(())
}

#[test]
fn writes_of_any_version_contend_at_the_node(rt: HostRuntime) -> Result<(), Fail> {
    let alloc = rt.alloc();
    assert!(rt; is_at(alloc, 5, b"\0\0\0\x02/a\0\0\0\x02ab\xff\xff\xff\xff", b"/a")?);
    assert!(rt;
        is_at(
            alloc,
            5,
            b"\0\0\0\x02/a\xff\xff\xff\xff\xff\xff\xff\xff",
            b"/a"
        )?
    );
    assert!(rt; is_nowhere(alloc, 5, b"\0\0\0\x02/a\0\0\0\x02ab\0\0\0\x04")?);
    Ok(())
}

/// A setData of any version, without data, of a path of 1,024 bytes and so many more.
fn long_write(alloc: Global, more: u8) -> Result<Vec<u8>, AllocError> {
    let mut request = Vec::from_slice(alloc, b"\0\0\x04")?;
    request.push(more)?;
    for _ in 0..1024u32 + u32::from(more) {
        request.push(b'a')?;
    }
    request.extend_from_slice(b"\xff\xff\xff\xff\xff\xff\xff\xff")?;
    Ok(request)
}

#[test]
fn a_path_that_no_node_has_contends_nowhere(rt: HostRuntime) -> Result<(), Fail> {
    let alloc = rt.alloc();
    let longest = long_write(alloc, 0)?;
    let longer = long_write(alloc, 1)?;
    assert!(rt; !is_nowhere(alloc, 5, longest.as_slice())?);
    assert!(rt; is_nowhere(alloc, 5, longer.as_slice())?);
    Ok(())
}

#[test]
fn a_multi_contends_where_its_first_part_does(rt: HostRuntime) -> Result<(), Fail> {
    let alloc = rt.alloc();
    let create = b"\0\0\0\x01\0\xff\xff\xff\xff\0\0\0\x04/a/b\0\0\0\x02ab".as_slice();
    let set = b"\0\0\0\x05\0\xff\xff\xff\xff\0\0\0\x04/a/b\0\0\0\x02ab\xff\xff\xff\xff".as_slice();
    let check = b"\0\0\0\x0d\0\xff\xff\xff\xff\0\0\0\x04/a/b\xff\xff\xff\xff".as_slice();
    assert!(rt; is_at(alloc, 14, create, b"/a")?);
    assert!(rt; is_at(alloc, 14, set, b"/a/b")?);
    assert!(rt; is_nowhere(alloc, 14, check)?);
    assert!(rt; is_nowhere(alloc, 14, b"\xff\xff\xff\xff\x01\xff\xff\xff\xff")?);
    assert!(rt; is_nowhere(alloc, 14, b"")?);
    Ok(())
}

#[test]
fn frames_that_end_too_soon_contend_nowhere(rt: HostRuntime) -> Result<(), Fail> {
    let alloc = rt.alloc();
    assert!(rt; contended(b"") == None);
    assert!(rt; contended(b"\0\0\0\x07\0\0\0").is_none());
    assert!(rt; is_nowhere(alloc, 1, b"\0\0\0\x05/a/b")?);
    assert!(rt; is_nowhere(alloc, 1, b"\x7f\xff\xff\xff/a/b")?);
    assert!(rt; is_nowhere(alloc, 5, b"\0\0\0\x04/a/b\0\0\0\0\xff\xff\xff")?);
    Ok(())
}

/// Whether nobody waits where each turn was ended before the next at its path, by frames and without.
fn take_turns<R: Wait + SystemClock + Copy + Drop>(rt: R, alloc: Global) -> Result<bool, Memory> {
    let queues = Arc::new(alloc, Queues::with_room(alloc, 2)?)?;
    let mut one = InTurn::new(rt, alloc, Arc::try_clone(&queues)?)?;
    let mut other = InTurn::new(rt, alloc, queues)?;
    let delete = frame(alloc, 2, b"\0\0\0\x04/a/b\0\0\0\0")?;
    let close = frame(alloc, -11, b"")?;
    let read = frame(alloc, 4, b"\0\0\0\x04/a/b\0")?;
    one.wait(delete.as_slice());
    other.wait(close.as_slice());
    other.wait_at(b"/b");
    other.wait(read.as_slice());
    one.wait(close.as_slice());
    Turns::end(&mut one);
    other.wait(delete.as_slice());
    Turns::end(&mut other);
    Ok(
        one.is_next(read.as_slice())
            && !one.is_next(delete.as_slice())
            && !one.is_next(close.as_slice())
            && NoTurns.is_next(delete.as_slice()),
    )
}

#[test]
fn turns_that_were_ended_hold_up_nobody(rt: HostRuntime) {
    let Ok(took) = take_turns(rt, rt.alloc()) else {
        panic!(rt; "memory was refused");
    };
    assert!(rt; took);
}
