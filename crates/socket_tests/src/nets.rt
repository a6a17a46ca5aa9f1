//! Dials, descriptors, faults and the forms in memory.

use crate::common::{comes, drained, ends_of_a_stream, free_address, next_byte, turn};
use libc::net as c;
use std::fs;
use std::net::{TcpListener, TcpStream};
use std::os::fd::AsRawFd;
use std::sync::Arc;
use std::sync::atomic::{AtomicU64, Ordering};
use std::test::Fail;
use std::time::{Duration, Instant};
use zx_net::{InlineSpawner, MemNet, Net, NetFault, Spawner, Wakes};
use zx_outside::{Got, Sink, Took};
use zx_random::{HangsUp, LetsGo};
use zx_sockets::{StdNet, connect, prepare};

#[test]
fn a_worker_waits_between_its_dials(rt: HostRuntime) -> Result<(), Fail> {
    let address = free_address(&rt)?;
    let net = StdNet::new(rt, rt.alloc());
    let mut worker = net.another();
    let since = Instant::now(&rt)?;
    assert!(rt; worker.dial(address.as_str()).is_err());
    assert!(rt; worker.dial(address.as_str()).is_err());
    assert!(rt; since.elapsed(&rt)? >= Duration::from_millis(100));
    Ok(())
}

/// How many descriptors this program holds, that of the look among them.
fn held(rt: &HostRuntime) -> Result<u32, Fail> {
    let mut count = 0u32;
    for entry in fs::read_dir(rt, "/proc/self/fd")? {
        let _entry = entry?;
        count = count.saturating_add(1);
    }
    Ok(count)
}

#[test]
fn what_was_served_gives_its_descriptors_back(rt: HostRuntime) -> Result<(), Fail> {
    let before = held(&rt)?;
    let ((mut near, mut to_far), (mut far, mut to_near)) = ends_of_a_stream(rt)?;
    let bell = far.bell();
    assert!(rt; bell.is_some());
    drop(bell);
    // A descriptor for each end of the stream, and two for the bell.
    assert!(rt; held(&rt)? == before.saturating_add(4));
    far.hang_up();
    to_near.let_go();
    assert!(rt; held(&rt)? == before.saturating_add(1));
    assert!(rt; turn(&mut far) == Got::Failed);
    assert!(rt; to_near.write(b"ping") == Took::Failed);
    assert!(rt; far.bell().is_none());
    near.hang_up();
    to_far.let_go();
    assert!(rt; held(&rt)? == before);
    Ok(())
}

#[test]
fn what_was_written_before_the_end_comes(rt: HostRuntime) -> Result<(), Fail> {
    let ((mut near, mut to_far), (mut far, mut to_near)) = ends_of_a_stream(rt)?;
    // Bytes that nobody reads are there as the stream is ended.
    assert!(rt; to_far.write(b"ping") == Took::Bytes(4));
    assert!(rt; next_byte(&mut far) == Some(b'p'));
    assert!(rt; to_far.write(b"ping") == Took::Bytes(4));
    assert!(rt; to_near.write(b"pong") == Took::Bytes(4));
    far.hang_up();
    to_near.let_go();
    assert!(rt; comes(&mut near, b"pong"));
    assert!(rt; drained(&mut near) == Got::End);
    Ok(())
}

#[test]
fn a_fault_says_why(rt: HostRuntime) -> Result<(), Fail> {
    let address = free_address(&rt)?;
    let mut net = StdNet::new(rt, rt.alloc());
    let door = net.bind(address.as_str());
    assert!(rt; door.is_ok());
    assert!(rt; net.bind(address.as_str()).err() == Some(NetFault::InUse));
    drop(door);
    assert!(rt; net.dial(address.as_str()).err() == Some(NetFault::Failed));
    // An address of the documentation's network (RFC 5737) is no machine's, and the name nobody's (RFC 6761).
    for text in [
        "192.0.2.1:2181",
        "name.invalid:2181",
        "127.0.0.1",
        "127.0.0.1:port",
        "127.0.0.1:65536",
    ] {
        assert!(rt; net.bind(text).err() == Some(NetFault::NoAddress));
    }
    assert!(rt; net.dial("name.invalid:2181").err() == Some(NetFault::NoAddress));
    Ok(())
}

#[test]
fn a_worker_whose_stream_was_of_use_begins_its_pauses_anew(rt: HostRuntime) -> Result<(), Fail> {
    let address = free_address(&rt)?;
    let mut worker = StdNet::new(rt, rt.alloc()).another();
    for _ in 0..5u32 {
        assert!(rt; worker.dial(address.as_str()).is_err());
    }
    worker.settle();
    let since = Instant::now(&rt)?;
    assert!(rt; worker.dial(address.as_str()).is_err());
    let lasted = since.elapsed(&rt)?;
    // The sixth dial of a row waits 1.6 seconds, and the second a tenth of one.
    assert!(rt; lasted >= Duration::from_millis(100));
    assert!(rt; lasted < Duration::from_millis(1600));
    Ok(())
}

#[test]
fn a_first_net_dials_at_once(rt: HostRuntime) -> Result<(), Fail> {
    let address = free_address(&rt)?;
    let mut net = StdNet::new(rt, rt.alloc());
    assert!(rt; net.dial(address.as_str()).is_err());
    assert!(rt; dials_at_once(rt, &mut net, address.as_str())?);
    Ok(())
}

/// Whether one of eight dials takes less than a tenth of a second. Each dial of a net that waits takes that at least.
fn dials_at_once(
    rt: HostRuntime,
    net: &mut StdNet<HostRuntime>,
    address: &str,
) -> Result<bool, Fail> {
    for _ in 0..8u32 {
        let since = Instant::now(&rt)?;
        if net.dial(address).is_ok() {
            return Err(Fail::from("dial"));
        }
        if since.elapsed(&rt)? < Duration::from_millis(100) {
            return Ok(true);
        }
    }
    Ok(false)
}

#[test]
fn a_stream_is_prepared(rt: HostRuntime) -> Result<(), Fail> {
    let listener = TcpListener::bind(&rt, "127.0.0.1:0")?;
    let near = TcpStream::connect(&rt, listener.local_addr()?)?;
    prepare(&near)?;
    assert!(rt; is_prepared(&near)?);
    Ok(())
}

/// Whether small writes go at once, and a read and a write wait as long as they should. The system rounds a timeout up.
fn is_prepared(near: &TcpStream) -> Result<bool, Fail> {
    let reads = near.read_timeout()?.unwrap_or(Duration::from_secs(0));
    let writes = near.write_timeout()?.unwrap_or(Duration::from_secs(0));
    Ok(
        near.nodelay()?
            && reads >= Duration::from_millis(10)
            && reads < Duration::from_millis(50)
            && writes >= Duration::from_secs(60)
            && writes < Duration::from_secs(61),
    )
}

/// An option of a stream that is a number.
fn option(stream: &TcpStream, is_asked: bool) -> Option<i32> {
    let (mut value, mut length) = ([0u8; 16], 4u32);
    let fd = stream.as_raw_fd();
    let status = unsafe {
        if is_asked {
            c::getsockopt(fd, c::IPPROTO_TCP, c::TCP_KEEPIDLE, &mut value, &mut length)
        } else {
            c::getsockopt(fd, c::SOL_SOCKET, c::SO_KEEPALIVE, &mut value, &mut length)
        }
    };
    if status == 0 {
        Some(i32::from_ne_bytes([value[0], value[1], value[2], value[3]]))
    } else {
        None
    }
}

#[test]
fn a_dialled_stream_is_watched_over(rt: HostRuntime) -> Result<(), Fail> {
    let listener = TcpListener::bind(&rt, "127.0.0.1:0")?;
    let port = listener.local_addr()?.port();
    let address = format!(in rt.alloc(); "127.0.0.1:{port}")?;
    let Ok(near) = connect(&rt, address.as_str()) else {
        return Err(Fail::from("connect"));
    };
    assert!(rt; option(&near, false) == Some(1));
    assert!(rt; option(&near, true) == Some(60));
    Ok(())
}

#[test]
fn a_job_runs_in_place(rt: HostRuntime) -> Result<(), Fail> {
    let runs = Arc::new(rt.alloc(), AtomicU64::new(0))?;
    let mut spawner = InlineSpawner::<HostRuntime>::new(vec![in rt.alloc(); 2]?);
    let theirs = Arc::try_clone(&runs)?;
    let first = spawner.start(move || {
        let _before = theirs.fetch_add(1, Ordering::SeqCst);
    });
    assert!(rt; first.is_ok());
    assert!(rt; runs.load(Ordering::SeqCst) == 1);
    let theirs = Arc::try_clone(&runs)?;
    let second = spawner.start(move || {
        let _before = theirs.fetch_add(1, Ordering::SeqCst);
    });
    assert!(rt; second.is_err());
    assert!(rt; runs.load(Ordering::SeqCst) == 1);
    Ok(())
}

#[test]
fn a_net_in_memory_gives_its_streams(rt: HostRuntime) -> Result<(), Fail> {
    let alloc = rt.alloc();
    let streams = vec![in alloc; Vec::from_slice(alloc, b"etcd")?]?;
    let mut net = MemNet::new(alloc, vec![in alloc; 2]?, streams);
    let Ok((mut source, mut sink)) = net.dial("etcd:2379") else {
        return Err(Fail::from("dial"));
    };
    assert!(rt; comes(&mut source, b"etcd"));
    assert!(rt; turn(&mut source) == Got::End);
    assert!(rt; sink.write(b"ask") == Took::Bytes(3));
    assert!(rt; sink.inner().bytes() == b"ask".as_slice());
    assert!(rt; net.dial("etcd:2379").is_err());
    Ok(())
}
