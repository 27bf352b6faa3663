//! The mail of the host: each call goes to a folder of message files, and a fault is counted.
ghost use Rattle.std.specs.Prelude.{◌≡◌, ◌≤◌, length, true, Ok, IfOk, IfSome, OnOk, IsErrOf};
ghost use Rattle.sr_site.specs.Causes.{Rose};
ghost use Rattle.sr_site.specs.Listings.{IsListing, AreAscending};
ghost use Rattle.sr_site.specs.declared.mail.MailFault.TheVariants.{Failed as failed_mail, Memory as no_memory};

use crate::folder::{self, MOST_NAMES, folder_of};
use crate::site::{HostSite, unattached};
use crate::telling::say;
use sr_base::{Name, Seq, Text};
use sr_site::{Listing, Mail, MailFault};
use std::alloc::Global;
use std::cmp::Ordering;
use std::fs;
use std::io::{self, ErrorKind};
use std::rt::{Files, Runtime};

/// The names as a listing. Names out of order, twice or too many are none, which the folder's listing never gives.
fn listing_of(names: Vec<Text>, more: bool) -> io::Result<Listing>
    ensures listing { IfOk result IsListing }
{
    let count = names.len();
    if !are_ascending(names.as_slice()) || count > MOST_NAMES || more && count < MOST_NAMES {
        return Err(io::Error::from(ErrorKind::InvalidData));
    }
    Ok(Listing {
        names: Seq::from_vec(names),
        more,
    })
}

/// Whether the names are in byte order, none of them twice.
fn are_ascending(names: &[Text]) -> bool
    ensures ascending { result ≡ true → AreAscending names.now }
{
    let mut i = 1;
    'names: while i < names.len() {
        if !matches!(names[i - 1].bytes().cmp(names[i].bytes()), Ordering::Less) {
            return false;
        }
        i += 1;
    }
    true
}

impl<R: Runtime + Files<File = fs::File>> HostSite<R> {
    /// The answer of a call of the mail; a fault other than want of memory is counted.
    fn mail_answer<T: Drop>(&mut self, answer: io::Result<T>) -> Result<T, MailFault>
        ensures ok { IfOk result (λ x. answer ≡ Ok x) }
        ensures later { self.old.mail_faults ≤ self.new.mail_faults }
        ensures cause { IsErrOf result failed_mail → Rose self.old.mail_faults self.new.mail_faults }
        ensures steady { OnOk result (self.new.mail_faults ≡ self.old.mail_faults) }
        ensures short { IsErrOf result no_memory → self.new.mail_faults ≡ self.old.mail_faults }
        ensures disk { self.new.disk_faults ≡ self.old.disk_faults }
    {
        match answer {
            Ok(value) => Ok(value),
            Err(fault) if fault.kind() == ErrorKind::OutOfMemory => Err(MailFault::Memory),
            Err(_) => {
                self.mail_faults = self.mail_faults.saturating_add(1);
                Err(MailFault::Failed)
            }
        }
    }

    /// The mail folder, where the site is attached to one.
    fn mail_folder(&self) -> io::Result<&str> {
        match &self.folder {
            Some(folder) if !folder.is_empty() => Ok(folder.as_str()),
            _ => Err(unattached()),
        }
    }

    /// FOLDER/ADDRESS, where the messages for ADDRESS lie.
    fn inbox(&self, alloc: Global, address: &Name) -> io::Result<String> {
        let folder = self.mail_folder()?;
        match std::str::from_utf8(address.bytes()) {
            Ok(address) => Ok(format!(in alloc; "{folder}/{address}")?),
            Err(_) => Err(io::Error::from(ErrorKind::InvalidFilename)),
        }
    }

    /// FOLDER/ADDRESS/NAME. A name that no message file has is refused.
    fn message(&self, alloc: Global, address: &Name, name: &Text) -> io::Result<String> {
        let inbox = self.inbox(alloc, address)?;
        let name = name.as_str();
        self.check_name(inbox.as_str(), name)?;
        Ok(format!(in alloc; "{inbox}/{name}")?)
    }

    /// Refuses a name that no message file has: none such is ever listed.
    fn check_name(&self, inbox: &str, name: &str) -> io::Result<()> {
        if folder::is_message_name(name) {
            return Ok(());
        }
        say(&self.rt, inbox, "a name that no message file has");
        Err(io::Error::from(ErrorKind::InvalidFilename))
    }

    fn listed(&self, alloc: Global, address: &Name) -> io::Result<Listing>
        ensures listing { IfOk result IsListing }
    {
        let inbox = self.inbox(alloc, address)?;
        let found = folder::list(&self.rt, alloc, inbox.as_str())?;
        let mut names = Vec::new(alloc);
        for name in found.first {
            names.push(Text::from_string(name)?)?;
        }
        listing_of(names, found.more)
    }

    fn fetched(
        &self,
        alloc: Global,
        address: &Name,
        name: &Text,
        limit: usize,
    ) -> io::Result<Option<Vec<u8>>>
        ensures within { IfOk result (λ found. IfSome found (λ bytes. length bytes.items ≤ limit)) }
    {
        let path = self.message(alloc, address, name)?;
        folder::fetch(&self.rt, alloc, path.as_str(), limit)
    }

    /// Puts a message. Before the first one of a run for its address, and where the folder went away, the folders are made and synced.
    fn sent(&mut self, alloc: Global, address: &Name, name: &Text, bytes: &[u8]) -> io::Result<()>
        ensures mail { self.new.mail_faults ≡ self.old.mail_faults }
        ensures disk { self.new.disk_faults ≡ self.old.disk_faults }
    {
        let inbox = self.inbox(alloc, address)?;
        self.check_name(inbox.as_str(), name.as_str())?;
        if self.is_settled(inbox.as_str()) && folder::is_there(&self.rt, inbox.as_str()) {
            return folder::put(&self.rt, alloc, inbox.as_str(), name.as_str(), bytes);
        }
        self.settle(inbox.as_str())?;
        folder::put(&self.rt, alloc, inbox.as_str(), name.as_str(), bytes)?;
        self.settled = Some(inbox);
        Ok(())
    }

    /// Makes the folders down to FOLDER/ADDRESS where they are not there, and syncs them, also those that were there: another run, or another
    /// database, may have made one and ended before its sync. The folders down to FOLDER are synced once a run.
    fn settle(&mut self, inbox: &str) -> io::Result<()>
        ensures mail { self.new.mail_faults ≡ self.old.mail_faults }
        ensures disk { self.new.disk_faults ≡ self.old.disk_faults }
    {
        let was_there = folder::is_there(&self.rt, folder_of(inbox));
        folder::make(&self.rt, inbox)?;
        if was_there && self.is_path_settled {
            folder::sync_folder(&self.rt, folder_of(inbox))?;
            return folder::sync_folder(&self.rt, inbox);
        }
        folder::sync_path(&self.rt, inbox)?;
        self.is_path_settled = true;
        Ok(())
    }

    /// Whether the folder was put into last, so that its own name stands after a crash.
    fn is_settled(&self, inbox: &str) -> bool {
        match &self.settled {
            Some(settled) => settled.as_str() == inbox,
            None => false,
        }
    }

    fn removed(&self, alloc: Global, address: &Name, name: &Text) -> io::Result<()> {
        let path = self.message(alloc, address, name)?;
        folder::remove(&self.rt, path.as_str())
    }
}

impl<R: Runtime + Files<File = fs::File>> Mail for HostSite<R> {
    fn list(&mut self, alloc: Global, address: &Name) -> Result<Listing, MailFault> {
        let answer = self.listed(alloc, address);
        self.mail_answer(answer)
    }

    fn fetch(
        &mut self,
        alloc: Global,
        address: &Name,
        name: &Text,
        limit: usize,
    ) -> Result<Option<Vec<u8>>, MailFault> {
        let answer = self.fetched(alloc, address, name, limit);
        self.mail_answer(answer)
    }

    fn put(
        &mut self,
        alloc: Global,
        address: &Name,
        name: &Text,
        bytes: &[u8],
    ) -> Result<(), MailFault> {
        let answer = self.sent(alloc, address, name, bytes);
        self.mail_answer(answer)
    }

    fn remove(&mut self, alloc: Global, address: &Name, name: &Text) -> Result<(), MailFault> {
        let answer = self.removed(alloc, address, name);
        self.mail_answer(answer)
    }
}
