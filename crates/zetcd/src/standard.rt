//! The standard descriptors that the program was started without.

use std::fs::{File, Files};
use std::os::fd::{AsRawFd, IntoRawFd};

/// The last standard descriptor: 0 is input, 1 is output, and 2 is error.
const LAST: i32 = 2;

/// Takes the standard descriptors that are closed, for good. Otherwise a socket would get the number of standard output, and be sent what
/// is written there. Each read and write of what takes them fails, as it does where they are closed.
pub fn take_closed<R: Files<File = File>>(rt: &R) {
    for _ in 0..=LAST {
        // The least number that is free is given (open(2)). A directory that is opened for reading gives and takes no byte.
        let Ok(file) = File::open(rt, "/") else {
            return;
        };
        if file.as_raw_fd() > LAST {
            return;
        }
        let _stays_open = file.into_raw_fd();
    }
}
