//! Estimates of how many bytes texts take, with each number as long as it can be. Only speed rests on them: a longer text grows.

use crate::message::Message;

/// `room` bytes, and those that these bytes take in base64.
pub fn about_bytes(room: usize, bytes: &[u8]) -> usize {
    (bytes.len() / 3)
        .saturating_add(1)
        .saturating_mul(4)
        .saturating_add(room)
}

/// `room` bytes, and those of each message with its comma.
pub fn about_list<M: Message>(room: usize, items: &[M]) -> usize {
    let mut sum = room;
    for item in items {
        sum = sum.saturating_add(item.room()).saturating_add(1);
    }
    sum
}
