//! What the program is started with: its words and the time.

use sr_base::{NoMemory, Text};
use std::alloc::{AllocError, Global};
use std::env;
use std::io::ErrorKind;
use std::rt::{Clock, Env};
use std::time::{SystemTime, UNIX_EPOCH};

/// The words after the program's name. Where one of them is no UTF-8 there are none, which is refused as words.
pub fn words<R: Env + Alloc>(alloc: Global, rt: &R) -> Result<Vec<Text>, NoMemory> {
    let mut words = Vec::new(alloc);
    match env::args(rt) {
        Ok(given) => {
            for word in given.skip(1) {
                words.push(Text::from_str(alloc, word.as_str())?)?;
            }
        }
        Err(fault) => {
            if fault.kind() == ErrorKind::OutOfMemory {
                return Err(AllocError);
            }
        }
    }
    Ok(words)
}

/// The seconds since 1970 began, or 0 where the clock does not say.
pub fn now<R: Clock>(rt: &R) -> i64 {
    let Ok(time) = SystemTime::now(rt) else {
        return 0;
    };
    match time.duration_since(UNIX_EPOCH) {
        Ok(since) => i64::try_from(since.as_secs()).unwrap_or(0),
        Err(_) => 0,
    }
}
