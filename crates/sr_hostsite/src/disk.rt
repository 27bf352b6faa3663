//! The disk of the host: each call goes to the file of the database, and a fault is counted.

use crate::site::{HostSite, unattached};
use sr_site::{Disk, Failed, File};
use std::fs;
use std::rt::{Files, Runtime};

impl<R: Runtime + Files<File = fs::File>> Disk for HostSite<R> {
    fn length(&mut self, file: File) -> Result<u64, Failed> {
        let answer = match &mut self.files {
            Some(files) => files.length(&self.rt, file),
            None => Err(unattached()),
        };
        self.disk_answer(answer)
    }

    fn read_at(&mut self, file: File, at: u64, buffer: &mut [u8]) -> Result<usize, Failed> {
        let answer = match &mut self.files {
            Some(files) => files.read(&self.rt, file, at, buffer),
            None => Err(unattached()),
        };
        self.disk_answer(answer)
    }

    fn write_at(&mut self, file: File, at: u64, bytes: &[u8]) -> Result<(), Failed> {
        let answer = match &mut self.files {
            Some(files) => files.write(&self.rt, file, at, bytes),
            None => Err(unattached()),
        };
        self.disk_answer(answer)
    }

    fn cut(&mut self, file: File, to: u64) -> Result<(), Failed> {
        let answer = match &mut self.files {
            Some(files) => files.cut(&self.rt, file, to),
            None => Err(unattached()),
        };
        self.disk_answer(answer)
    }

    fn sync(&mut self, file: File) -> Result<(), Failed> {
        let answer = match &mut self.files {
            Some(files) => files.sync(&self.rt, file),
            None => Err(unattached()),
        };
        self.disk_answer(answer)
    }
}
