ghost use Rattle.std.specs.Prelude.{◌≡◌, ◌≤◌, ◌∷◌, true, length, take, IsTrue, IsErr, OnOk, OnErr, is_ok, is_err};
ghost use Rattle.std.specs.Option.{option_map};
ghost use Rattle.std.specs.Result.{result_map_both};
ghost use Rattle.sr_site.specs.Files.{bytes_of, with_bytes, overwritten};
ghost use Rattle.sr_site.specs.Happenings.{attached, wrote, cut_to, synced, listed, fetched, sent, removed};
ghost use Rattle.sr_memsite.specs.Disks.{begun_with, files_in};
ghost use Rattle.sr_memsite.specs.Handing.{handed};
ghost use Rattle.sr_memsite.specs.Inner.Disks.{with_happening, HasCrashed};
ghost use Rattle.sr_memsite_mail.specs.Inner.Folders.{names_in};
ghost use Rattle.sr_memsite_disk.specs.Stores.{no_bytes};

use crate::calls::{Calls, Step};
use sr_base::{Name, NoMemory, Text};
use sr_memsite_disk::{FiveFiles, Stored};
use sr_memsite_mail::SharedMail;
use sr_site::{Failed, File, Listing, MailFault};
use std::alloc::Global;
use std::marker::Model;
use std::snapshot::Snapshot;

/// The five files of a database, as they stand. Contracts see the bytes of each, those at the beginning, and what happened since then.
#[derive(Drop)]
pub struct MemoryDisk {
    files: FiveFiles,
    calls: Calls,
}

impl Model for MemoryDisk {
    ghost use Rattle.sr_memsite.specs.Disks.{Disk};
    ghost use Rattle.sr_memsite.specs.Inner.Steps.{first_of, happened_of};
    ghost use Rattle.sr_memsite_disk.specs.Inner.Stores.{AreBacked};

    ghost Value = { Disk };

    ghost view = { λ d. record { first = first_of d.calls.steps; happened = happened_of d.calls.steps } };

    ghost invariant = { λ d. AreBacked d.files (first_of d.calls.steps) (happened_of d.calls.steps) };
}

impl MemoryDisk {
    /// Five files without a byte. It takes no memory.
    pub fn new(alloc: Global) -> MemoryDisk
        ensures empty { result ≡ begun_with no_bytes }
    {
        MemoryDisk {
            files: FiveFiles::new(alloc),
            calls: Calls::new(),
        }
    }

    /// The bytes of a file.
    pub fn bytes(&self, file: File) -> &[u8]
        ensures bytes { result.now ≡ bytes_of (files_in self.now) file }
    {
        self.files.file(file).bytes()
    }

    /// A crash: it puts one of the things in place that it may leave, and all begins anew. At `pick` 0 each file is as its last sync left it,
    /// at 1 as it stood. Else the digits of the pick, less 2, in base eight say what became of each write and cut since then, file by file from
    /// the root on, the oldest first: it is lost, or whole; its first half is there alone, or its second half behind zeros; or the bytes 0, 1,
    /// 85 or 255 stand all over its range. For want of memory all stays as it was.
    pub fn crash(&mut self, alloc: Global, pick: u64) -> Result<(), NoMemory>
        ensures crashed { OnOk result (HasCrashed pick self.old self.new) }
        ensures err { OnErr result (self.new ≡ self.old) }
    {
        let files = self.files.crashed(alloc, pick)?;
        let step = Step::Began(Snapshot::of(&files));
        self.calls = Calls::with(&self.calls, &step, &[]);
        self.files = files;
        Ok(())
    }

    /// Gives a file these bytes in place of its own, as something other than the program may do: they are durable. It takes no memory.
    pub fn set(&mut self, file: File, bytes: Vec<u8>)
        ensures set { self.new ≡ with_happening self.old (synced file true bytes.items) }
        ensures files { files_in self.new ≡ with_bytes (files_in self.old) file bytes.items }
    {
        let stored = Stored::of(bytes);
        let step = Step::Synced(file, true, Snapshot::of(&stored));
        self.files.set(file, stored);
        self.calls = Calls::with(&self.calls, &step, &[]);
    }

    /// A write, that is to fail or not: it fails for want of memory too. Where it fails the files stand as they were.
    pub(crate) fn write(
        &mut self,
        file: File,
        at: u64,
        bytes: &[u8],
        fails: bool,
    ) -> Result<(), Failed>
        requires { at ≤ length (bytes_of (files_in self.old) file) }
        ensures written { OnOk result (files_in self.new ≡ with_bytes (files_in self.old) file (overwritten (bytes_of (files_in self.old) file) at bytes.now)) }
        ensures err { OnErr result (files_in self.new ≡ files_in self.old) }
        ensures fails { IsTrue fails → IsErr result }
        ensures first { self.new.first ≡ self.old.first }
        ensures happened { self.new.happened ≡ wrote file at bytes.now (is_ok result) (bytes_of (files_in self.new) file) ∷ self.old.happened }
    {
        if fails || self.files.write(file, at as usize, bytes).is_err() {
            let step = Step::Wrote(file, at, false, Snapshot::of(self.files.file(file)));
            self.calls = Calls::with(&self.calls, &step, bytes);
            return Err(Failed);
        }
        let step = Step::Wrote(file, at, true, Snapshot::of(self.files.file(file)));
        self.calls = Calls::with(&self.calls, &step, bytes);
        Ok(())
    }

    /// A cut, that is to fail or not. Where it fails the files stand as they were.
    pub(crate) fn cut(&mut self, file: File, to: u64, fails: bool) -> Result<(), Failed>
        requires { to ≤ length (bytes_of (files_in self.old) file) }
        ensures cut { OnOk result (files_in self.new ≡ with_bytes (files_in self.old) file (take to (bytes_of (files_in self.old) file))) }
        ensures err { OnErr result (files_in self.new ≡ files_in self.old) }
        ensures fails { is_err result ≡ fails }
        ensures first { self.new.first ≡ self.old.first }
        ensures happened { self.new.happened ≡ cut_to file to (is_ok result) (bytes_of (files_in self.new) file) ∷ self.old.happened }
    {
        if fails {
            let step = Step::Cut(file, to, false, Snapshot::of(self.files.file(file)));
            self.calls = Calls::with(&self.calls, &step, &[]);
            return Err(Failed);
        }
        self.files.cut(file, to as usize);
        let step = Step::Cut(file, to, true, Snapshot::of(self.files.file(file)));
        self.calls = Calls::with(&self.calls, &step, &[]);
        Ok(())
    }

    /// A sync, that is to fail or not.
    pub(crate) fn sync(&mut self, file: File, fails: bool) -> Result<(), Failed>
        ensures fails { is_err result ≡ fails }
        ensures noted { self.new ≡ with_happening self.old (synced file (is_ok result) (bytes_of (files_in self.old) file)) }
        ensures files { files_in self.new ≡ files_in self.old }
    {
        if fails {
            let step = Step::Synced(file, false, Snapshot::of(self.files.file(file)));
            self.calls = Calls::with(&self.calls, &step, &[]);
            return Err(Failed);
        }
        self.files.sync(file);
        let step = Step::Synced(file, true, Snapshot::of(self.files.file(file)));
        self.calls = Calls::with(&self.calls, &step, &[]);
        Ok(())
    }

    /// Tells that names were given to the site, and whether that succeeded.
    #[tactic(auto, using(sr_memsite_disk::proofs::Standing::quiet))]
    pub(crate) fn note_attach(&mut self, name: &Text, mail: &Text, done: bool)
        ensures noted { self.new ≡ with_happening self.old (attached name.now mail.now done) }
        ensures files { files_in self.new ≡ files_in self.old }
    {
        let step = Step::Attached(Snapshot::of(name), Snapshot::of(mail), done);
        self.calls = Calls::with(&self.calls, &step, &[]);
    }

    /// Tells that a folder was listed, and what came of it.
    #[tactic(auto, using(sr_memsite_disk::proofs::Standing::quiet))]
    pub(crate) fn note_list(
        &mut self,
        address: &Name,
        mail: &SharedMail,
        listing: &Result<Listing, MailFault>,
    )
        ensures noted { self.new ≡ with_happening self.old (listed address.now (names_in mail.now.files address.now) listing.now) }
        ensures files { files_in self.new ≡ files_in self.old }
    {
        let step = Step::Listed(
            Snapshot::of(address),
            Snapshot::of(mail),
            Snapshot::of(listing),
        );
        self.calls = Calls::with(&self.calls, &step, &[]);
    }

    /// Tells that a file was fetched, and what came of it.
    #[tactic(auto, using(sr_memsite_disk::proofs::Standing::quiet))]
    pub(crate) fn note_fetch(
        &mut self,
        address: &Name,
        name: &Text,
        limit: usize,
        found: &Result<Option<Vec<u8>>, MailFault>,
    )
        ensures noted { self.new ≡ with_happening self.old (fetched address.now name.now limit (result_map_both (option_map (λ file. file.items)) (λ fault. fault) found.now)) }
        ensures files { files_in self.new ≡ files_in self.old }
    {
        let step = Step::Fetched(
            Snapshot::of(address),
            Snapshot::of(name),
            limit,
            Snapshot::of(found),
        );
        self.calls = Calls::with(&self.calls, &step, &[]);
    }

    /// Tells that a file was put, and whether that succeeded.
    #[tactic(auto, using(sr_memsite_disk::proofs::Standing::quiet))]
    pub(crate) fn note_put(&mut self, address: &Name, name: &Text, bytes: &[u8], done: bool)
        ensures noted { self.new ≡ with_happening self.old (sent address.now name.now bytes.now done) }
        ensures files { files_in self.new ≡ files_in self.old }
    {
        let step = Step::Put(Snapshot::of(address), Snapshot::of(name), done);
        self.calls = Calls::with(&self.calls, &step, bytes);
    }

    /// Tells that a file was removed, and whether that succeeded.
    #[tactic(auto, using(sr_memsite_disk::proofs::Standing::quiet))]
    pub(crate) fn note_remove(&mut self, address: &Name, name: &Text, done: bool)
        ensures noted { self.new ≡ with_happening self.old (removed address.now name.now done) }
        ensures files { files_in self.new ≡ files_in self.old }
    {
        let step = Step::Removed(Snapshot::of(address), Snapshot::of(name), done);
        self.calls = Calls::with(&self.calls, &step, &[]);
    }

    /// Tells what lies in the folders as they are handed to the site, and what was put into them before.
    #[tactic(auto, using(sr_memsite_disk::proofs::Standing::quiet))]
    pub(crate) fn note_handed(&mut self, mail: &SharedMail)
        ensures noted { self.new ≡ handed self.old mail.now }
        ensures files { files_in self.new ≡ files_in self.old }
    {
        let step = Step::Handed(Snapshot::of(mail));
        self.calls = Calls::with(&self.calls, &step, &[]);
    }

    /// The allocator of the files.
    pub(crate) fn alloc(&self) -> Global {
        self.files.file(File::Root).alloc()
    }
}
