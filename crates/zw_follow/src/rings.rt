//! Who is woken when entries were published.

use std::sync::Wait;

/// Wakes those who wait for entries. No contract says whom a ring wakes.
pub trait Rings {
    /// Wakes all. Comes after the hub was closed.
    fn ring<R: Wait>(&self, rt: &R);

    /// Wakes those whom entries with these bits may concern (`bits_of` in `zw_watch`), and some of the others. Comes after the entries above the
    /// number `before`, up to the number `after`, were published.
    fn ring_for<R: Wait>(&self, rt: &R, bits: u64, before: i64, after: i64);
}

/// Nobody is woken.
#[derive(Clone, Copy)]
pub struct NoBells;

impl Rings for NoBells {
    fn ring<R: Wait>(&self, _rt: &R) {}

    fn ring_for<R: Wait>(&self, _rt: &R, _bits: u64, _before: i64, _after: i64) {}
}
