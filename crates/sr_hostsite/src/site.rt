//! The host as a site: it counts the faults of its disk and of its mail, and tells nothing else.
ghost use Rattle.std.specs.Prelude.{◌≡◌, ◌≤◌, ◌-◌, Ok, IfOk, OnOk, OnErr, refl};
ghost use Rattle.sr_site.specs.Causes.{Rose};
ghost use Rattle.sr_hostsite.specs.Inner.Untold.{untold};

use crate::files::DatabaseFiles;
use sr_base::Text;
use sr_site::{Failed, Held, MailFault, Site};
use std::alloc::Global;
use std::fs;
use std::io::{self, ErrorKind};
use std::rt::{Files, Runtime};

/// The files `NAME.root`, `NAME.log0`, `NAME.log1`, `NAME.snap0` and `NAME.snap1` of a database, and the mail in `FOLDER/ADDRESS/`.
#[derive(Drop)]
pub struct HostSite<R: Runtime + Files<File = fs::File>> {
    pub(super) rt: R,
    pub(super) files: Option<DatabaseFiles>,
    /// The mail folder; none before a site is attached to one.
    pub(super) folder: Option<String>,
    /// FOLDER/ADDRESS of the last message that was put: the folder was there then, and its name stands after a crash.
    pub(super) settled: Option<String>,
    /// The folders down to FOLDER were synced in this run.
    pub(super) is_path_settled: bool,
    /// How many calls of the disk have failed; it stands still at its end.
    pub(super) disk_faults: u64,
    /// Likewise of the mail.
    pub(super) mail_faults: u64,
}

impl<R: Runtime + Files<File = fs::File>> HostSite<R> {
    /// A site that is not attached to a database: each call of its disk fails until it is.
    pub fn new(rt: R) -> HostSite<R> {
        HostSite {
            rt,
            files: None,
            folder: None,
            settled: None,
            is_path_settled: false,
            disk_faults: 0,
            mail_faults: 0,
        }
    }

    /// The answer of a call of the disk; a fault is counted.
    pub(super) fn disk_answer<T: Drop>(&mut self, answer: io::Result<T>) -> Result<T, Failed>
        ensures ok { IfOk result (λ x. answer ≡ Ok x) }
        ensures later { self.old.disk_faults ≤ self.new.disk_faults }
        ensures cause { OnErr result (Rose self.old.disk_faults self.new.disk_faults) }
        ensures steady { OnOk result (self.new.disk_faults ≡ self.old.disk_faults) }
        ensures mail { self.new.mail_faults ≡ self.old.mail_faults }
    {
        match answer {
            Ok(value) => Ok(value),
            Err(_) => {
                self.disk_faults = self.disk_faults.saturating_add(1);
                Err(Failed)
            }
        }
    }
}

impl<R: Runtime + Files<File = fs::File>> Held for HostSite<R> {
    ghost seen = { λ s. untold s.disk_faults s.mail_faults };

    ghost read_is_image = { λ s told. refl };
}

/// Why a call before `attach` fails.
pub(super) fn unattached() -> io::Error {
    io::Error::from(ErrorKind::NotConnected)
}

/// The call failed for want of memory alone, which is no fault of the device.
fn is_want_of_memory<T>(answer: &io::Result<T>) -> bool {
    match answer {
        Ok(_) => false,
        Err(fault) => fault.kind() == ErrorKind::OutOfMemory,
    }
}

/// Attaches to the files of `name`, and takes their lock where they are there. No file is made.
fn attached<R: Runtime + Files<File = fs::File>>(
    rt: &R,
    alloc: Global,
    name: &str,
) -> io::Result<DatabaseFiles> {
    let mut files = DatabaseFiles::new(alloc, name)?;
    files.lock(rt)?;
    Ok(files)
}

impl<R: Runtime + Files<File = fs::File>> Site for HostSite<R> {
    fn attach(&mut self, alloc: Global, name: &Text, mail: &Text) -> Result<(), MailFault> {
        self.files = None;
        self.settled = None;
        self.is_path_settled = false;
        let Ok(folder) = String::from_str(alloc, mail.as_str()) else {
            return Err(MailFault::Memory);
        };
        self.folder = Some(folder);
        let answer = attached(&self.rt, alloc, name.as_str());
        if is_want_of_memory(&answer) {
            return Err(MailFault::Memory);
        }
        match self.disk_answer(answer) {
            Ok(files) => {
                self.files = Some(files);
                Ok(())
            }
            Err(Failed) => Err(MailFault::Failed),
        }
    }
}
