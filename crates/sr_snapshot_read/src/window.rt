//! A file that is read from its front to its end through a window.

ghost use Rattle.std.specs.Prelude.{◌≡◌, ◌≤◌, ◌<◌, ◌+◌, ◌^◌, [], length, drop, IsTrue, OnOk, IfErr};
ghost use Rattle.sr_site.specs.Files.{bytes_of};
ghost use Rattle.sr_snapshot_read.specs.Inner.Reading.{HasEnough, IsOver, ReadAlone, ReadyCause};

use sr_site::{Disk, File};
use sr_snapshot::SnapFault;
use std::alloc::Global;
use std::marker::Model;

/// So many bytes are read at once: 64 KiB, or as many as a field has.
const WINDOW: u64 = 65_536;

/// The bytes of a file from a place on, as many as were read. Memory is taken for a window, and for a field that is longer.
#[derive(Drop)]
pub(crate) struct Window {
    buffer: Vec<u8>,
    start: usize,
    place: u64,
    size: u64,
}

impl Model for Window {
    ghost use Rattle.std.specs.Prelude.{drop};
    ghost use Rattle.sr_snapshot_read.specs.Inner.Views.{View, LiesWithin};

    ghost Value = { View };

    ghost view = { λ w. record { held = drop w.start w.buffer.items; place = w.place; size = w.size } };

    ghost invariant = { λ w. LiesWithin w.buffer.items w.start w.place w.size };
}

impl Window {
    /// A window over a file of so many bytes, before its first byte. It takes no memory.
    pub(crate) fn new(alloc: Global, size: u64) -> Window
        ensures held { result.held ≡ [] }
        ensures place { result.place ≡ 0 }
        ensures size { result.size ≡ size }
    {
        Window {
            buffer: Vec::new(alloc),
            start: 0,
            place: 0,
            size,
        }
    }

    /// Another window, from the same place on. It takes no memory.
    pub(crate) fn again(&self, alloc: Global) -> Window
        ensures held { result.held ≡ [] }
        ensures place { result.place ≡ self.now.place }
        ensures size { result.size ≡ self.now.size }
    {
        Window {
            buffer: Vec::new(alloc),
            start: 0,
            place: self.place,
            size: self.size,
        }
    }

    /// The bytes that it holds.
    pub(crate) fn held(&self) -> &[u8]
        ensures held { result.now ≡ self.now.held }
        ensures within { self.now.place + length self.now.held ≤ self.now.size }
        ensures short { self.now.size < 2 ^ 64 }
    {
        &self.buffer[self.start..]
    }

    /// The place in the file of the first byte that it holds.
    pub(crate) fn place(&self) -> u64
        ensures place { result ≡ self.now.place }
        ensures within { self.now.place + length self.now.held ≤ self.now.size }
    {
        self.place
    }

    /// How many bytes are left of the file.
    pub(crate) fn left(&self) -> u64
        ensures left { self.now.place + result ≡ self.now.size }
    {
        self.size - self.place
    }

    /// Leaves the first bytes behind.
    pub(crate) fn skip(&mut self, count: usize)
        requires there { count ≤ length self.old.held }
        ensures held { self.new.held ≡ drop count self.old.held }
        ensures place { self.new.place ≡ self.old.place + count }
        ensures size { self.new.size ≡ self.old.size }
    {
        self.start += count;
        self.place += count as u64;
    }

    /// Reads until it holds so many bytes, or all that are left of the file.
    pub(crate) fn ready<S: Disk>(
        &mut self,
        site: &mut S,
        file: File,
        need: u64,
    ) -> Result<(), SnapFault>
        requires over { IsTrue (S.seen site.old).observable → IsOver self.old (bytes_of (S.seen site.old).files file) }
        ensures over { IsTrue (S.seen site.old).observable → OnOk result (IsOver self.new (bytes_of (S.seen site.old).files file)) }
        ensures enough { IsTrue (S.seen site.old).observable → OnOk result (HasEnough self.new need) }
        ensures place { self.new.place ≡ self.old.place }
        ensures size { self.new.size ≡ self.old.size }
        ensures read { ReadAlone (S.seen site.old) (S.seen site.new) }
        ensures steady { OnOk result ((S.seen site.new).disk_faults ≡ (S.seen site.old).disk_faults) }
        ensures cause { IfErr result (ReadyCause (S.seen site.old) (S.seen site.new)) }
    {
        if (self.buffer.len() - self.start) as u64 >= need {
            return Ok(());
        }
        self.refill(site, file, need)?;
        Ok(())
    }

    /// Reads from its place on, as many bytes as are needed or more.
    fn refill<S: Disk>(&mut self, site: &mut S, file: File, need: u64) -> Result<(), SnapFault>
        requires size { IsTrue (S.seen site.old).observable → self.old.size ≡ length (bytes_of (S.seen site.old).files file) }
        ensures over { IsTrue (S.seen site.old).observable → OnOk result (IsOver self.new (bytes_of (S.seen site.old).files file)) }
        ensures enough { IsTrue (S.seen site.old).observable → OnOk result (HasEnough self.new need) }
        ensures place { self.new.place ≡ self.old.place }
        ensures size { self.new.size ≡ self.old.size }
        ensures read { ReadAlone (S.seen site.old) (S.seen site.new) }
        ensures steady { OnOk result ((S.seen site.new).disk_faults ≡ (S.seen site.old).disk_faults) }
        ensures cause { IfErr result (ReadyCause (S.seen site.old) (S.seen site.new)) }
    {
        let wanted = need.max(WINDOW).min(self.size - self.place);
        self.buffer.clear();
        self.start = 0;
        self.buffer.resize(wanted as usize, 0)?;
        match site.read_at(file, self.place, self.buffer.as_mut_slice()) {
            Ok(count) => {
                self.buffer.truncate(count);
                Ok(())
            }
            Err(_) => {
                self.buffer.clear();
                Err(SnapFault::Disk)
            }
        }
    }
}
