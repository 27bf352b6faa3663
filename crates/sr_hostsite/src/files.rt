//! The five files of one database, and the lock that keeps other runs away from them.
ghost use Rattle.std.specs.Prelude.{◌≤◌, length, IfOk};

use crate::disk_file::DiskFile;
use crate::folder::{folder_of, sync_folder};
use crate::waiting::held;
use crate::window::Window;
use sr_base::NoMemory;
use sr_site::File;
use std::alloc::Global;
use std::rt::{Files, Runtime};
use std::{fs, io};

/// So often the root is opened anew, where its name went to another file before its lock was had.
const MOST_OPENED: u32 = 8;

/// The files beside the root.
const OTHERS: [File; 4] = [File::Log0, File::Log1, File::Snap0, File::Snap1];

/// The files of the database with one name.
#[derive(Drop)]
pub struct DatabaseFiles {
    /// The folder that they lie in.
    folder: String,
    five: FiveFiles,
    window: Window,
    /// `NAME.root` is there, and this run has its lock. Before that it counts as a file without bytes: one that another run makes meanwhile is
    /// not looked at.
    is_held: bool,
    /// The folder was synced since the lock was taken, and since a file was made: the names in it stand after a crash.
    is_settled: bool,
}

#[derive(Drop)]
struct FiveFiles {
    root: DiskFile,
    log0: DiskFile,
    log1: DiskFile,
    snap0: DiskFile,
    snap1: DiskFile,
}

impl FiveFiles {
    fn of(&mut self, file: File) -> &mut DiskFile {
        match file {
            File::Root => &mut self.root,
            File::Log0 => &mut self.log0,
            File::Log1 => &mut self.log1,
            File::Snap0 => &mut self.snap0,
            File::Snap1 => &mut self.snap1,
        }
    }
}

/// The file `NAME.SUFFIX`.
fn named(alloc: Global, name: &str, suffix: &str) -> Result<DiskFile, NoMemory> {
    Ok(DiskFile::new(format!(in alloc; "{name}.{suffix}")?))
}

impl DatabaseFiles {
    /// The files `NAME.root`, `NAME.log0`, `NAME.log1`, `NAME.snap0` and `NAME.snap1`, not yet opened.
    pub fn new(alloc: Global, name: &str) -> Result<DatabaseFiles, NoMemory> {
        Ok(DatabaseFiles {
            folder: String::from_str(alloc, folder_of(name))?,
            five: FiveFiles {
                root: named(alloc, name, "root")?,
                log0: named(alloc, name, "log0")?,
                log1: named(alloc, name, "log1")?,
                snap0: named(alloc, name, "snap0")?,
                snap1: named(alloc, name, "snap1")?,
            },
            window: Window::new(alloc)?,
            is_held: false,
            is_settled: false,
        })
    }

    /// Takes the lock on `NAME.root`, where it is there. It is held until the files are let go. Nothing is made: where there is no root, the
    /// first write or cut makes it and takes its lock.
    pub fn lock<R: Runtime + Files<File = fs::File>>(&mut self, rt: &R) -> io::Result<()> {
        for _ in 0..MOST_OPENED {
            if !self.five.root.find(rt)? {
                return Ok(());
            }
            if self.five.root.lock(rt)? {
                self.is_held = true;
                return Ok(());
            }
            self.five.root.close();
        }
        Err(held(rt, self.five.root.path()))
    }

    /// Makes the files that are not there, before the first write or cut of a database that had no root: the root first, which is locked, and
    /// then the others.
    ///
    /// Before that the others are looked for, so that a name which the system does not take leaves nothing behind. A root that another run made
    /// meanwhile is refused, and so is one that got a byte from another run before its lock was had: what this run has read would be wrong.
    fn claim<R: Runtime + Files<File = fs::File>>(&mut self, rt: &R) -> io::Result<()> {
        if self.is_held {
            return Ok(());
        }
        for other in OTHERS {
            self.five.of(other).find(rt)?;
        }
        self.five.root.make(rt)?;
        let is_named = self.five.root.lock(rt)?;
        self.five.root.forget();
        if !is_named || self.five.root.length(rt)? > 0 {
            return Err(held(rt, self.five.root.path()));
        }
        self.is_held = true;
        self.is_settled = false;
        for other in OTHERS {
            self.window.forget(other);
            self.five.of(other).forget();
            self.five.of(other).ensure(rt)?;
        }
        Ok(())
    }

    /// The file counts as one without bytes: it is the root of a database that was not there.
    fn is_awaited(&self, file: File) -> bool {
        !self.is_held && file == File::Root
    }

    /// The length of `file` in bytes.
    pub fn length<R: Runtime + Files<File = fs::File>>(
        &mut self,
        rt: &R,
        file: File,
    ) -> io::Result<u64> {
        if self.is_awaited(file) {
            return Ok(0);
        }
        self.five.of(file).length(rt)
    }

    /// Fills the front of `buffer` from the place `at` of `file` on, and answers how many bytes it gave.
    pub fn read<R: Runtime + Files<File = fs::File>>(
        &mut self,
        rt: &R,
        file: File,
        at: u64,
        buffer: &mut [u8],
    ) -> io::Result<usize>
        ensures within { IfOk result (λ n. n ≤ length buffer.old) }
    {
        if self.is_awaited(file) {
            return Ok(0);
        }
        let from = self.five.of(file);
        self.window.read(rt, file, from, at, buffer)
    }

    /// Puts `bytes` at the place `at` of `file`, which is made where it is not there.
    pub fn write<R: Runtime + Files<File = fs::File>>(
        &mut self,
        rt: &R,
        file: File,
        at: u64,
        bytes: &[u8],
    ) -> io::Result<()> {
        self.claim(rt)?;
        self.window.forget(file);
        if self.five.of(file).ensure(rt)? {
            self.is_settled = false;
        }
        self.five.of(file).write(rt, at, bytes)
    }

    /// Cuts `file` to `to` bytes.
    pub fn cut<R: Runtime + Files<File = fs::File>>(
        &mut self,
        rt: &R,
        file: File,
        to: u64,
    ) -> io::Result<()> {
        self.claim(rt)?;
        self.window.forget(file);
        if to > 0 && self.five.of(file).ensure(rt)? {
            self.is_settled = false;
        }
        self.five.of(file).cut(rt, to)
    }

    /// Makes the bytes, the length and the name of `file` durable.
    pub fn sync<R: Runtime + Files<File = fs::File>>(
        &mut self,
        rt: &R,
        file: File,
    ) -> io::Result<()> {
        if self.is_awaited(file) {
            return Ok(());
        }
        if self.five.of(file).sync(rt)? && !self.is_settled {
            sync_folder(rt, self.folder.as_str())?;
            self.is_settled = true;
        }
        Ok(())
    }
}
