//! One file of a database: it is opened when its bytes are first wanted, where it is there.
ghost use Rattle.std.specs.Prelude.{◌≤◌, length, IfOk};

use crate::telling::told;
use crate::{opening, waiting};
use std::fs;
use std::io::{self, ErrorKind};
use std::os::unix::fs::{FileExt, MetadataExt};
use std::rt::{Files, Runtime};

/// A file by its path, open or not. One that is not there has no bytes.
#[derive(Drop)]
pub struct DiskFile {
    path: String,
    open: Option<fs::File>,
    /// Why it is open for reading alone, where it is.
    refusal: Option<io::Error>,
    /// Its length in bytes, where it is known.
    length: Option<u64>,
}

/// An open file, and why it is open for reading alone, where it is.
#[derive(Drop)]
struct Opened {
    file: fs::File,
    refusal: Option<io::Error>,
}

impl DiskFile {
    /// The file at `path`, not yet opened.
    pub fn new(path: String) -> DiskFile {
        DiskFile {
            path,
            open: None,
            refusal: None,
            length: None,
        }
    }

    /// Its path.
    pub fn path(&self) -> &str {
        self.path.as_str()
    }

    /// Opens it, where it is there, and answers whether it is.
    pub fn find<R: Runtime + Files<File = fs::File>>(&mut self, rt: &R) -> io::Result<bool> {
        if self.open.is_none() {
            self.length = None;
            if let Some(found) = told(rt, self.path.as_str(), found(rt, self.path.as_str()))? {
                self.open = Some(found.file);
                self.refusal = found.refusal;
            }
        }
        Ok(self.open.is_some())
    }

    /// Makes it, without a byte. It fails where anything stands at its path.
    pub fn make<R: Runtime + Files<File = fs::File>>(&mut self, rt: &R) -> io::Result<()> {
        let made = told(
            rt,
            self.path.as_str(),
            opening::made(rt, self.path.as_str()),
        )?;
        self.open = Some(made);
        self.refusal = None;
        self.length = Some(0);
        Ok(())
    }

    /// Opens it, and makes it where it is not there. Answers whether it was made.
    pub fn ensure<R: Runtime + Files<File = fs::File>>(&mut self, rt: &R) -> io::Result<bool> {
        if self.find(rt)? {
            return Ok(false);
        }
        self.make(rt)?;
        Ok(true)
    }

    /// Lets it go, and its lock.
    pub fn close(&mut self) {
        self.open = None;
        self.refusal = None;
        self.length = None;
    }

    /// Forgets its length.
    pub fn forget(&mut self) {
        self.length = None;
    }

    /// The file, which is open.
    fn file(&self) -> io::Result<&fs::File> {
        match &self.open {
            Some(file) => Ok(file),
            None => Err(io::Error::from(ErrorKind::NotFound)),
        }
    }

    /// The file, which is open for writing too; else why it is not.
    fn writable(&self) -> io::Result<&fs::File> {
        match self.refusal {
            Some(refusal) => Err(refusal),
            None => self.file(),
        }
    }

    /// Takes its lock, and answers whether its path still names the file that is open.
    pub fn lock<R: Runtime + Files<File = fs::File>>(&mut self, rt: &R) -> io::Result<bool> {
        waiting::lock(rt, self.path.as_str(), self.file()?)?;
        told(rt, self.path.as_str(), self.is_named(rt))
    }

    fn is_named<R: Runtime + Files<File = fs::File>>(&self, rt: &R) -> io::Result<bool> {
        let open = self.file()?.metadata()?;
        match fs::metadata(rt, self.path.as_str()) {
            Ok(named) => Ok(named.dev() == open.dev() && named.ino() == open.ino()),
            Err(fault) if fault.kind() == ErrorKind::NotFound => Ok(false),
            Err(fault) => Err(fault),
        }
    }

    /// Its length in bytes.
    pub fn length<R: Runtime + Files<File = fs::File>>(&mut self, rt: &R) -> io::Result<u64> {
        if let Some(length) = self.length {
            return Ok(length);
        }
        if !self.find(rt)? {
            return Ok(0);
        }
        let length = told(rt, self.path.as_str(), self.file()?.metadata())?.len();
        self.length = Some(length);
        Ok(length)
    }

    /// Fills the front of `buffer` from the place `at` on, up to the file's end, and answers how many bytes it gave.
    pub fn read<R: Runtime + Files<File = fs::File>>(
        &mut self,
        rt: &R,
        at: u64,
        buffer: &mut [u8],
    ) -> io::Result<usize>
        ensures within { IfOk result (λ n. n ≤ length buffer.old) }
    {
        if !self.find(rt)? {
            return Ok(0);
        }
        let answer = fill(self.file()?, at, buffer);
        told(rt, self.path.as_str(), answer)
    }

    /// Puts `bytes` at the place `at` of the file, which is there.
    pub fn write<R: Runtime + Files<File = fs::File>>(
        &mut self,
        rt: &R,
        at: u64,
        bytes: &[u8],
    ) -> io::Result<()> {
        let before = self.length.take();
        let answer = self.put(at, bytes);
        told(rt, self.path.as_str(), answer)?;
        if let Some(length) = before {
            self.length = Some(length.max(at.saturating_add(bytes.len() as u64)));
        }
        Ok(())
    }

    fn put(&self, at: u64, bytes: &[u8]) -> io::Result<()> {
        self.writable()?.write_all_at(bytes, at)
    }

    /// Cuts the file, where it is there, to `to` bytes.
    pub fn cut<R: Runtime + Files<File = fs::File>>(&mut self, rt: &R, to: u64) -> io::Result<()> {
        if !self.find(rt)? || to == 0 && self.length == Some(0) {
            return Ok(());
        }
        self.length = None;
        let answer = self.shorten(to);
        told(rt, self.path.as_str(), answer)
    }

    fn shorten(&self, to: u64) -> io::Result<()> {
        self.writable()?.set_len(to)
    }

    /// Makes its bytes and its length durable, and answers whether it is there: where it is not, there is nothing to do.
    pub fn sync<R: Runtime + Files<File = fs::File>>(&mut self, rt: &R) -> io::Result<bool> {
        if !self.find(rt)? {
            return Ok(false);
        }
        let answer = self.file()?.sync_data();
        told(rt, self.path.as_str(), answer)?;
        Ok(true)
    }
}

/// Opens the file at the path, where there is one. A plain file that may not be written is opened for reading alone.
fn found<R: Runtime + Files<File = fs::File>>(rt: &R, path: &str) -> io::Result<Option<Opened>> {
    match opening::to_update(rt, path) {
        Ok(file) => Ok(Some(Opened {
            file,
            refusal: None,
        })),
        Err(fault) => match fault.kind() {
            ErrorKind::NotFound => Ok(None),
            ErrorKind::PermissionDenied | ErrorKind::ReadOnlyFilesystem => {
                Ok(Some(readable(rt, path, fault)?))
            }
            _ => Err(fault),
        },
    }
}

/// Opens a plain file for reading alone, since writing was refused. Where that is refused too, the first refusal is the answer.
fn readable<R: Runtime + Files<File = fs::File>>(
    rt: &R,
    path: &str,
    refusal: io::Error,
) -> io::Result<Opened> {
    match fs::metadata(rt, path) {
        Ok(found) if found.is_file() => {}
        _ => return Err(refusal),
    }
    match opening::to_read(rt, path) {
        Ok(file) => Ok(Opened {
            file,
            refusal: Some(refusal),
        }),
        Err(_) => Err(refusal),
    }
}

/// Reads until `buffer` is full or the file ends.
fn fill(file: &fs::File, at: u64, buffer: &mut [u8]) -> io::Result<usize>
    ensures within { IfOk result (λ n. n ≤ length buffer.old) }
{
    let whole = buffer.len();
    let mut done = 0usize;
    for _ in 0..u64::MAX {
        if done >= whole {
            break;
        }
        let place = at.saturating_add(done as u64);
        let count = file.read_at(&mut buffer[done..], place)?;
        if count == 0 {
            break;
        }
        done += count;
    }
    Ok(done.min(whole))
}
