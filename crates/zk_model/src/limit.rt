//! Limits of the service (`specs/Limits.antt`).

/// The most bytes of a frame without its length, and so of a node's data (`jute.maxbuffer`).
pub const MAX_FRAME: usize = 1_048_575;

/// The most creates of children that a node counts: the Stat's `cversion` is an int and counts each of them twice.
pub const MAX_CREATES: i32 = 1_073_741_823;

/// The greatest version of a node's data: the Stat's `version` is an int.
pub const MAX_VERSION: i32 = 2_147_483_647;

/// The most parts of a multi.
pub const MAX_PARTS: usize = 24;

/// The greatest load of a multi, in bytes: its parts' data, and the paths that the sessions it touches owned before.
pub const MAX_LOAD: usize = 1_000_000;

/// The least session timeout, in milliseconds.
pub const MIN_TIMEOUT: i32 = 4_000;

/// The greatest session timeout, in milliseconds.
pub const MAX_TIMEOUT: i32 = 40_000;

/// The greatest reading of the clock, in milliseconds.
pub const MAX_TIME: u64 = 9_000_000_000_000_000;
