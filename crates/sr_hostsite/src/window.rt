//! A part of a file, read ahead: many small reads, one behind the other, cost a copy each and no call of the system.
ghost use Rattle.std.specs.Prelude.{◌≤◌, length, IfOk};

use crate::disk_file::DiskFile;
use sr_base::NoMemory;
use sr_site::File;
use std::alloc::Global;
use std::rt::{Files, Runtime};
use std::{fs, io};

/// How many bytes are read at once.
const AHEAD: usize = 65_536;

/// The bytes of one file from a place on.
#[derive(Drop)]
pub struct Window {
    file: File,
    start: u64,
    /// So many bytes at the front of `bytes` are the file's.
    filled: usize,
    bytes: Vec<u8>,
}

impl Window {
    /// A window with nothing in it, and its memory.
    pub fn new(alloc: Global) -> Result<Window, NoMemory> {
        let mut bytes = Vec::new(alloc);
        bytes.resize(AHEAD, 0u8)?;
        Ok(Window {
            file: File::Root,
            start: 0,
            filled: 0,
            bytes,
        })
    }

    /// Forgets what it has of `file`, as before a write.
    pub fn forget(&mut self, file: File) {
        if self.file == file {
            self.filled = 0;
        }
    }

    /// Fills the front of `buffer` from the place `at` of the file on, and answers how many bytes it gave.
    pub fn read<R: Runtime + Files<File = fs::File>>(
        &mut self,
        rt: &R,
        file: File,
        from: &mut DiskFile,
        at: u64,
        buffer: &mut [u8],
    ) -> io::Result<usize>
        ensures within { IfOk result (λ n. n ≤ length buffer.old) }
    {
        if buffer.len() >= self.bytes.len() {
            return from.read(rt, at, buffer);
        }
        if !self.has(file, at, buffer.len()) {
            self.filled = 0;
            let filled = from.read(rt, at, self.bytes.as_mut_slice())?;
            self.file = file;
            self.start = at;
            self.filled = filled;
        }
        Ok(self.give(at, buffer))
    }

    /// It has `count` bytes of the file from `at` on.
    fn has(&self, file: File, at: u64, count: usize) -> bool {
        if self.file != file || at < self.start {
            return false;
        }
        let before = at - self.start;
        let filled = self.filled as u64;
        before <= filled && count as u64 <= filled - before
    }

    /// Copies what it has from `at` on, at most as much as `buffer` holds.
    fn give(&self, at: u64, buffer: &mut [u8]) -> usize
        ensures within { result ≤ length buffer.old }
    {
        let before = at.saturating_sub(self.start).min(self.filled as u64) as usize;
        let count = buffer.len().min(self.filled - before);
        match self.bytes.get(before..before.saturating_add(count)) {
            Some(part) if part.len() == count => {
                buffer[..count].copy_from_slice(part);
                count
            }
            _ => 0,
        }
    }
}
