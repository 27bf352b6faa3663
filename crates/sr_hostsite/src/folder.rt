//! The mail over folders: `FOLDER/ADDRESS/` holds the message files for ADDRESS.
//!
//! A file whose name begins with a dot is one that is still being written. What is no plain file is not there, and nothing is read through a
//! link.
ghost use Rattle.std.specs.Prelude.{◌≤◌, length, IfOk, IfSome};

use crate::opening;
use crate::telling::told;
use std::alloc::Global;
use std::fs::{self, DirEntry, OpenFile};
use std::io::{self, ErrorKind, Read, Write};
use std::os::unix::fs::MetadataExt;
use std::rt::{Files, Runtime};

/// How many names a listing has at most.
pub const MOST_NAMES: usize = 65_536;

/// So many names are held while a folder is read, before those behind the first `MOST_NAMES` are let go.
const MOST_HELD: usize = 262_144;

/// Makes the names in a folder durable. A file system that knows no sync of a folder counts as having done it.
pub fn sync_folder<R: Runtime + Files<File = fs::File>>(rt: &R, folder: &str) -> io::Result<()> {
    let opened = open_folder(rt, folder)?;
    sync_opened(rt, folder, &opened)
}

/// Opens a folder, to sync it.
fn open_folder<R: Runtime + Files<File = fs::File>>(rt: &R, folder: &str) -> io::Result<fs::File> {
    told(rt, folder, opening::to_read(rt, folder))
}

/// The same of a folder that is open.
fn sync_opened<R: Runtime>(rt: &R, folder: &str, opened: &fs::File) -> io::Result<()> {
    match opened.sync_all() {
        Err(fault) if is_unknown(fault.kind()) => Ok(()),
        answer => told(rt, folder, answer),
    }
}

/// The file system does not know the call: the kinds of EINVAL and ENOTSUP.
fn is_unknown(kind: ErrorKind) -> bool {
    kind == ErrorKind::InvalidInput || kind == ErrorKind::Unsupported
}

/// The folder that the path lies in.
pub fn folder_of(path: &str) -> &str {
    match path.rsplit_once('/') {
        Some(("", _)) => "/",
        Some((folder, _)) => folder,
        None => ".",
    }
}

/// The names of the message files in a folder, and whether there are others.
#[derive(Drop)]
pub struct Names {
    /// The first `MOST_NAMES` in byte order.
    pub first: Vec<String>,
    pub more: bool,
}

impl Names {
    /// Sorts the names, leaves each once, and lets those behind the first go.
    fn settle(&mut self) {
        self.first.sort_unstable();
        self.first.dedup();
        if self.first.len() > MOST_NAMES {
            self.first.truncate(MOST_NAMES);
            self.more = true;
        }
    }
}

/// Whether a message file may have the name: it is not empty, has no `/` and does not begin with a dot.
pub fn is_message_name(name: &str) -> bool {
    !name.is_empty() && !name.starts_with('.') && !name.contains('/')
}

/// The name of a message file, where the entry is one.
fn message_name<R: Runtime>(
    alloc: Global,
    entry: &DirEntry<R, R::A>,
) -> io::Result<Option<String>> {
    let name = entry.file_name();
    if name.starts_with('.') {
        return Ok(None);
    }
    match entry.file_type() {
        Ok(kind) if kind.is_file() => Ok(Some(String::from_str(alloc, name)?)),
        Ok(_) => Ok(None),
        Err(fault) if fault.kind() == ErrorKind::NotFound => Ok(None),
        Err(fault) => Err(fault),
    }
}

/// Lists the message files of a folder; one that is not there has none. Names that are no UTF-8 are left out.
pub fn list<R: Runtime>(rt: &R, alloc: Global, folder: &str) -> io::Result<Names> {
    let mut names = Names {
        first: Vec::new(alloc),
        more: false,
    };
    let Some(entries) = told(rt, folder, if_there(fs::read_dir(rt, folder)))? else {
        return Ok(names);
    };
    for entry in entries {
        let entry = match entry {
            Ok(entry) => entry,
            Err(fault) if fault.kind() == ErrorKind::InvalidFilename => continue,
            Err(fault) => return told(rt, folder, Err(fault)),
        };
        if let Some(name) = told(rt, folder, message_name(alloc, &entry))? {
            names.first.push(name)?;
        }
        if names.first.len() >= MOST_HELD {
            names.settle();
        }
    }
    names.settle();
    Ok(names)
}

/// Reads at most `limit` first bytes of a file, or nothing where there is no plain file at `path`.
pub fn fetch<R: Runtime + Files<File = fs::File>>(
    rt: &R,
    alloc: Global,
    path: &str,
    limit: usize,
) -> io::Result<Option<Vec<u8>>>
    ensures within { IfOk result (λ found. IfSome found (λ bytes. length bytes.items ≤ limit)) }
{
    let Some(file) = told(rt, path, plain_file(rt, path))? else {
        return Ok(None);
    };
    let mut bytes = Vec::new(alloc);
    let read = file.take(limit as u64).read_to_end(&mut bytes);
    told(rt, path, read)?;
    bytes.truncate(limit);
    Ok(Some(bytes))
}

/// Opens the plain file at `path`, if there is one.
///
/// What was opened is the file that stood at the path itself: one that has become a link, a folder or another file meanwhile is not there.
/// One that becomes a pipe between the two looks is opened as one, and that waits for its writer: the toolchain opens nothing without waiting.
fn plain_file<R: Runtime + Files<File = fs::File>>(
    rt: &R,
    path: &str,
) -> io::Result<Option<fs::File>> {
    let Some(listed) = if_there(fs::symlink_metadata(rt, path))? else {
        return Ok(None);
    };
    if !listed.is_file() {
        return Ok(None);
    }
    let Some(file) = if_there(opening::to_read(rt, path))? else {
        return Ok(None);
    };
    let opened = file.metadata()?;
    let is_same = opened.dev() == listed.dev() && opened.ino() == listed.ino();
    Ok(if opened.is_file() && is_same {
        Some(file)
    } else {
        None
    })
}

/// That there is nothing at the path is no fault.
fn if_there<T: Drop>(answer: io::Result<T>) -> io::Result<Option<T>> {
    match answer {
        Ok(found) => Ok(Some(found)),
        Err(fault) if fault.kind() == ErrorKind::NotFound => Ok(None),
        Err(fault) => Err(fault),
    }
}

/// Makes an empty file. One that a cut-off run left there is removed first.
fn new_file<R: Runtime + Files<File = fs::File>>(rt: &R, path: &str) -> io::Result<fs::File> {
    match opening::made(rt, path) {
        Err(fault) if fault.kind() == ErrorKind::AlreadyExists => {
            fs::remove_file(rt, path)?;
            opening::made(rt, path)
        }
        answer => answer,
    }
}

/// Writes a new file, whole and durable.
fn write_whole<R: Runtime + Files<File = fs::File>>(
    rt: &R,
    path: &str,
    bytes: &[u8],
) -> io::Result<()> {
    let mut file = new_file(rt, path)?;
    file.write_all(bytes)?;
    file.sync_all()
}

/// Makes a folder, where there is none.
fn make_folder<R: Runtime>(rt: &R, path: &str) -> io::Result<()> {
    match fs::create_dir(rt, path) {
        Ok(()) => Ok(()),
        Err(fault) => match fs::metadata(rt, path) {
            Ok(found) if found.is_dir() => Ok(()),
            _ => Err(fault),
        },
    }
}

/// The front of a path of `end` bytes, where it names one of the folders on the way or all of it.
fn folder_at(path: &str, end: usize) -> Option<&str> {
    match path.split_at_checked(end) {
        Some((prefix, rest))
            if !prefix.ends_with('/') && (rest.is_empty() || rest.starts_with('/')) => {
            Some(prefix)
        }
        _ => None,
    }
}

/// Makes the folders of a path that are not there.
pub fn make<R: Runtime>(rt: &R, path: &str) -> io::Result<()> {
    match make_folder(rt, path) {
        Err(fault) if fault.kind() == ErrorKind::NotFound => {}
        answer => return told(rt, path, answer),
    }
    for end in 1..=path.len() {
        if let Some(folder) = folder_at(path, end) {
            told(rt, folder, make_folder(rt, folder))?;
        }
    }
    Ok(())
}

/// Whether there is a folder at the path.
pub fn is_there<R: Runtime>(rt: &R, path: &str) -> bool {
    match fs::metadata(rt, path) {
        Ok(found) => found.is_dir(),
        Err(_) => false,
    }
}

/// Syncs each folder on a path, and before them the one in which the path begins: then each name on it stands after a crash, whoever made it.
pub fn sync_path<R: Runtime + Files<File = fs::File>>(rt: &R, path: &str) -> io::Result<()> {
    sync_folder(rt, if path.starts_with('/') { "/" } else { "." })?;
    for end in 1..=path.len() {
        if let Some(folder) = folder_at(path, end) {
            sync_folder(rt, folder)?;
        }
    }
    Ok(())
}

/// Puts a file of these bytes at FOLDER/ADDRESS/NAME, where `inbox`, FOLDER/ADDRESS, is there: it is written under another name, synced, and
/// then renamed. Then its name is synced; the folder was opened for that before anything was written. A put that fails takes the other
/// name away.
pub fn put<R: Runtime + Files<File = fs::File>>(
    rt: &R,
    alloc: Global,
    inbox: &str,
    name: &str,
    bytes: &[u8],
) -> io::Result<()> {
    let draft = format!(in alloc; "{inbox}/.{name}")?;
    let path = format!(in alloc; "{inbox}/{name}")?;
    let folder = open_folder(rt, inbox)?;
    let answer = place(rt, draft.as_str(), path.as_str(), bytes);
    if answer.is_err() {
        match fs::remove_file(rt, draft.as_str()) {
            Ok(()) | Err(_) => {}
        }
    }
    told(rt, path.as_str(), answer)?;
    sync_opened(rt, inbox, &folder)
}

/// Writes the draft, and renames it.
fn place<R: Runtime + Files<File = fs::File>>(
    rt: &R,
    draft: &str,
    path: &str,
    bytes: &[u8],
) -> io::Result<()> {
    write_whole(rt, draft, bytes)?;
    fs::rename(rt, draft, path)
}

/// Removes the file. That it is not there is no fault.
pub fn remove<R: Runtime>(rt: &R, path: &str) -> io::Result<()> {
    match fs::remove_file(rt, path) {
        Err(fault) if fault.kind() == ErrorKind::NotFound => Ok(()),
        answer => told(rt, path, answer),
    }
}
