//! Waiting: for the lock of a database that another run has, and for a standard stream that does not wait itself.

use crate::telling::{say, told};
use std::fs::{self, TryLockError};
use std::io::{self, ErrorKind};
use std::rt::{Clock, Runtime};
use std::thread;
use std::time::Duration;

/// So often the lock of another run is asked for, with a pause behind each time: five seconds in all.
const MOST_ASKED: u32 = 100;

/// The pause, in thousandths of a second.
const PAUSE: u64 = 50;

/// The longest pause before a standard stream is tried again, in thousandths of a second.
const LONGEST_PAUSE: u64 = 64;

/// Takes the lock on a file. Another run that has it is waited for, but no longer than five seconds.
pub fn lock<R: Runtime>(rt: &R, path: &str, file: &fs::File) -> io::Result<()> {
    for asked in 0..MOST_ASKED {
        match file.try_lock() {
            Ok(()) => return Ok(()),
            Err(TryLockError::WouldBlock) => {}
            Err(TryLockError::Error(fault)) => return told(rt, path, Err(fault)),
        }
        if asked == 0 {
            say(rt, path, "waiting for another run");
        }
        thread::sleep(rt, Duration::from_millis(PAUSE));
    }
    Err(held(rt, path))
}

/// Another run has the database.
pub fn held<R: Runtime>(rt: &R, path: &str) -> io::Error {
    say(rt, path, "another run has the database");
    io::Error::from(ErrorKind::WouldBlock)
}

/// A pause before the next try of a standard stream, and how long the one behind it is to be.
pub fn pause<R: Clock>(rt: &R, length: u64) -> u64 {
    thread::sleep(rt, Duration::from_millis(length));
    length.saturating_mul(2).min(LONGEST_PAUSE)
}
