//! A hub with one reader.

use crate::publisher::Publisher;
use std::alloc::Global;
use std::io;
use std::sync::Wait;
use zw_hub::{Fed, Feed, FeedEnd, HubReader, Keeper};

/// A hub, its one reader and its keeper.
#[derive(Drop)]
pub struct Trial<R: Wait + Drop> {
    pub publisher: Publisher<R>,
    pub reader: HubReader,
    keeper: Keeper<R>,
}

impl<R: Wait + Drop> Trial<R> {
    /// A new hub, whose first entry has the number `first + 1`.
    pub fn new(rt: R, alloc: Global, first: i64) -> io::Result<Trial<R>> {
        let (publisher, mut readers, keeper) = Publisher::open(rt, alloc, first, 1)?;
        match readers.pop() {
            Some(reader) => Ok(Trial {
                publisher,
                reader,
                keeper,
            }),
            None => Err(io::Error::from(io::ErrorKind::OutOfMemory)),
        }
    }
}

/// The answers to a reader whose hub is gone, which had published two entries and was closed: at both cursors below its end, and at
/// its end; and there again once the keeper is gone too.
pub fn orphan<R: Wait + Drop>(rt: R, alloc: Global) -> io::Result<[Fed; 4]> {
    let Trial {
        mut publisher,
        mut reader,
        keeper,
    } = Trial::new(rt, alloc, 0)?;
    publisher.publish_all(alloc, 2)?;
    publisher.close(FeedEnd::NoLine)?;
    drop(publisher);
    let (first, second, end) = (reader.next(0), reader.next(1), reader.next(2));
    drop(keeper);
    Ok([first, second, end, reader.next(2)])
}
