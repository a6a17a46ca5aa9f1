//! Streams, and the bells that end a wait for them.

use crate::common::{comes, ends_of_a_stream, next_byte, turn};
use std::sync::Arc;
use std::test::Fail;
use std::thread;
use std::time::{Duration, Instant};
use zx_net::{Bell, Spawner, Wakes};
use zx_outside::{Got, Sink, Source, Took};
use zx_sockets::ThreadSpawner;

/// Whether a ring before a wait ends one of ten waits, each of which answers this. A wait that no ring ends takes a second.
fn is_woken<S: Source, B: Bell>(
    rt: HostRuntime,
    source: &mut S,
    bell: &B,
    answer: Got,
) -> Result<bool, Fail> {
    let mut was_woken = false;
    for _ in 0..10u32 {
        bell.arm(6);
        bell.ring(2);
        let since = Instant::now(&rt)?;
        if turn(source) != answer {
            return Ok(false);
        }
        was_woken = was_woken || since.elapsed(&rt)? < Duration::from_millis(900);
    }
    Ok(was_woken)
}

/// How long so many turns take, each of which answers the end.
fn time_of_ends<S: Source>(rt: HostRuntime, source: &mut S, turns: u32) -> Result<Duration, Fail> {
    let since = Instant::now(&rt)?;
    for _ in 0..turns {
        if turn(source) != Got::End {
            return Err(Fail::from("end"));
        }
    }
    Ok(since.elapsed(&rt)?)
}

#[test]
fn bytes_pass_both_ways(rt: HostRuntime) -> Result<(), Fail> {
    let ((mut near, mut to_far), (mut far, mut to_near)) = ends_of_a_stream(rt)?;
    assert!(rt; turn(&mut far) == Got::Nothing);
    assert!(rt; to_far.write(b"ping") == Took::Bytes(4));
    assert!(rt; comes(&mut far, b"ping"));
    assert!(rt; to_near.write(b"pong") == Took::Bytes(4));
    assert!(rt; comes(&mut near, b"pong"));
    drop(near);
    drop(to_far);
    assert!(rt; next_byte(&mut far) == None);
    assert!(rt; turn(&mut far) == Got::End);
    Ok(())
}

#[test]
fn a_bell_ends_a_wait(rt: HostRuntime) -> Result<(), Fail> {
    let ((near, mut to_far), (mut far, _to_near)) = ends_of_a_stream(rt)?;
    let Some(bell) = far.bell() else {
        return Err(Fail::from("bell"));
    };
    // A bell that was just hung makes the first turn idle, and the second asks the system, which has nothing.
    assert!(rt; turn(&mut far) == Got::Nothing);
    assert!(rt; turn(&mut far) == Got::Nothing);
    // A bell that was rung before the wait ends it; one that is lost takes a second each time.
    assert!(rt; is_woken(rt, &mut far, &*bell, Got::Nothing)?);
    assert!(rt; to_far.write(b"ping") == Took::Bytes(4));
    assert!(rt; comes(&mut far, b"ping"));
    drop(to_far);
    drop(near);
    assert!(rt; next_byte(&mut far) == None);
    assert!(rt; turn(&mut far) == Got::End);
    Ok(())
}

#[test]
fn a_ring_ends_a_wait_that_has_begun(rt: HostRuntime) -> Result<(), Fail> {
    let ((_near, _to_far), (mut far, _to_near)) = ends_of_a_stream(rt)?;
    let Some(bell) = far.bell() else {
        return Err(Fail::from("bell"));
    };
    assert!(rt; turn(&mut far) == Got::Nothing);
    assert!(rt; turn(&mut far) == Got::Nothing);
    // Another thread rings a tenth of a second later.
    let mut spawner = ThreadSpawner::new(rt);
    let mut was_woken = false;
    for _ in 0..10u32 {
        let theirs = Arc::try_clone(&bell)?;
        bell.arm(1 << 63);
        let job = move || {
            thread::sleep(&rt, Duration::from_millis(100));
            theirs.ring(1 << 63);
        };
        assert!(rt; spawner.start(job).is_ok());
        was_woken = is_woken_late(rt, &mut far)? || was_woken;
    }
    assert!(rt; was_woken);
    Ok(())
}

/// Whether an idle turn takes some of that time, and less than the second of a wait that no ring ends.
fn is_woken_late<S: Source>(rt: HostRuntime, source: &mut S) -> Result<bool, Fail> {
    let since = Instant::now(&rt)?;
    if turn(source) != Got::Nothing {
        return Err(Fail::from("turn"));
    }
    let took = since.elapsed(&rt)?.as_millis();
    Ok(took >= 50 && took < 900)
}

#[test]
fn a_ring_makes_the_next_turn_idle(rt: HostRuntime) -> Result<(), Fail> {
    let ((_near, mut to_far), (mut far, _to_near)) = ends_of_a_stream(rt)?;
    let Some(bell) = far.bell() else {
        return Err(Fail::from("bell"));
    };
    // Nobody arms the bell, and bytes are there each time: without the ring the turn would give them.
    for round in 0..10u32 {
        assert!(rt; to_far.write(b"ping") == Took::Bytes(4));
        if round > 0 {
            bell.ring(u64::MAX);
        }
        assert!(rt; turn(&mut far) == Got::Nothing);
        assert!(rt; comes(&mut far, b"ping"));
    }
    Ok(())
}

#[test]
fn a_ring_of_other_bits_wakes_nobody(rt: HostRuntime) -> Result<(), Fail> {
    let ((_near, _to_far), (mut far, _to_near)) = ends_of_a_stream(rt)?;
    let Some(bell) = far.bell() else {
        return Err(Fail::from("bell"));
    };
    assert!(rt; turn(&mut far) == Got::Nothing);
    assert!(rt; turn(&mut far) == Got::Nothing);
    // The wait lasts its second, also where nothing was asked for.
    for asked in [6, 0] {
        bell.arm(asked);
        bell.ring(9);
        let since = Instant::now(&rt)?;
        assert!(rt; turn(&mut far) == Got::Nothing);
        assert!(rt; since.elapsed(&rt)? >= Duration::from_millis(900));
    }
    Ok(())
}

#[test]
fn a_peer_that_never_pauses_leaves_idle_turns(rt: HostRuntime) -> Result<(), Fail> {
    let ((_near, mut to_far), (mut far, _to_near)) = ends_of_a_stream(rt)?;
    // Each byte is there before it is asked for, and goes through the system by itself.
    let (mut idles, mut bytes) = (0u32, 0u32);
    for _ in 0..300u32 {
        assert!(rt; to_far.write(b"x") == Took::Bytes(1));
        match turn(&mut far) {
            Got::Bytes(_) => bytes = bytes.saturating_add(1),
            Got::Nothing => {
                idles = idles.saturating_add(1);
                assert!(rt; comes(&mut far, b"x"));
            }
            Got::End | Got::Failed => return Err(Fail::from("read")),
        }
    }
    assert!(rt; idles >= 2);
    assert!(rt; bytes > 0);
    Ok(())
}

#[test]
fn an_end_is_answered_again_after_a_wait(rt: HostRuntime) -> Result<(), Fail> {
    let ((near, to_far), (mut far, _to_near)) = ends_of_a_stream(rt)?;
    drop(to_far);
    drop(near);
    assert!(rt; next_byte(&mut far) == None);
    assert!(rt; time_of_ends(rt, &mut far, 10)? >= Duration::from_millis(100));
    let Some(bell) = far.bell() else {
        return Err(Fail::from("bell"));
    };
    // The new bell counts as rung, and the peer's end may end one wait. Each further wait takes a second unless the bell is rung.
    assert!(rt; time_of_ends(rt, &mut far, 4)? >= Duration::from_millis(900));
    assert!(rt; is_woken(rt, &mut far, &*bell, Got::End)?);
    Ok(())
}
