//! How files and folders are opened: none of them gets the number of a standard stream.

use std::fs::{self, OpenOptions};
use std::io;
use std::os::fd::AsRawFd;
use std::rt::{Files, Runtime};

/// The system's number of standard error, the last of the three standard streams.
const LAST_STREAM: i32 = 2;

/// Opens a file or a folder for reading.
pub fn to_read<R: Runtime + Files<File = fs::File>>(rt: &R, path: &str) -> io::Result<fs::File> {
    above_streams(OpenOptions::new().read(true).open(rt, path)?)
}

/// Opens a file for reading and writing.
pub fn to_update<R: Runtime + Files<File = fs::File>>(rt: &R, path: &str) -> io::Result<fs::File> {
    above_streams(OpenOptions::new().read(true).write(true).open(rt, path)?)
}

/// Makes a file and opens it for reading and writing. Whatever stands at its path is refused, also a link that leads nowhere.
pub fn made<R: Runtime + Files<File = fs::File>>(rt: &R, path: &str) -> io::Result<fs::File> {
    above_streams(fs::File::create_new(rt, path)?)
}

/// The file by another number, where the system gave it that of a standard stream that was closed: what is printed would land in it.
fn above_streams(file: fs::File) -> io::Result<fs::File> {
    if file.as_raw_fd() <= LAST_STREAM {
        return file.try_clone();
    }
    Ok(file)
}
