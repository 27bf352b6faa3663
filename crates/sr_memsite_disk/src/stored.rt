ghost use Rattle.std.specs.Prelude.{◌≡◌, ◌≤◌, length, IfOk, OnOk, OnErr, vec_len};
ghost use Rattle.sr_site.specs.Files.{overwritten};
ghost use Rattle.sr_memsite_disk.specs.Picks.{crash_of};
ghost use Rattle.sr_memsite_disk.specs.Inner.Store.{after_cut, after_write, settled_on};
ghost use Rattle.sr_memsite_disk.specs.Inner.Undoing.{content};

use crate::bytes::overwrite;
use crate::crashing::Crashing;
use crate::written::{Written, parted};
use sr_base::NoMemory;
use std::alloc::{AllocError, Global};
use std::marker::Model;

/// A file: its bytes, of which only the first `cut` count where it was cut since its last write, and its writes since its last sync, the oldest
/// first. So a cut takes no memory, and a sync neither takes memory nor copies anything.
#[derive(Drop)]
pub struct Stored {
    bytes: Vec<u8>,
    cut: Option<usize>,
    writes: Vec<Written>,
}

impl Model for Stored {
    ghost use Rattle.sr_memsite_disk.specs.Store.{Store};
    ghost use Rattle.sr_memsite_disk.specs.Inner.Undoing.{stored};

    ghost Value = { Store };

    ghost view = { λ f. stored f.bytes.items f.cut f.writes.items };
}

impl Stored {
    /// A file of these bytes, all of them durable.
    pub fn of(bytes: Vec<u8>) -> Stored
        ensures settled { result ≡ settled_on bytes.items }
    {
        let writes = Vec::new(*bytes.allocator());
        Stored {
            bytes,
            cut: None,
            writes,
        }
    }

    /// Its bytes as they stand.
    pub fn bytes(&self) -> &[u8]
        ensures bytes { result.now ≡ self.now.bytes }
    {
        let (counted, _) = parted(self.bytes.as_slice(), self.cut);
        counted
    }

    /// The allocator of its bytes.
    pub fn alloc(&self) -> Global {
        *self.bytes.allocator()
    }

    /// Puts `bytes` at the place `at`, over what is there and past the end. It costs the bytes that are written, and those that a cut took away.
    pub fn write(&mut self, at: usize, bytes: &[u8]) -> Result<(), NoMemory>
        requires { at ≤ length self.old.bytes }
        ensures ok { OnOk result (self.new ≡ after_write self.old at bytes.now) }
        ensures err { OnErr result (self.new ≡ self.old) }
    {
        let written = Written::of(
            *self.bytes.allocator(),
            self.bytes.as_slice(),
            self.cut,
            at,
            bytes,
        )?;
        self.writes.push(written)?;
        if put(&mut self.bytes, self.cut, at, bytes).is_err() {
            self.writes.pop();
            return Err(AllocError);
        }
        self.cut = None;
        Ok(())
    }

    /// Cuts it to its first `to` bytes.
    pub fn cut(&mut self, to: usize)
        requires { to ≤ length self.old.bytes }
        ensures cut { self.new ≡ after_cut self.old to }
    {
        self.cut = Some(to);
    }

    /// Makes the bytes durable as they stand. It costs a step for each write since the last sync.
    pub fn sync(&mut self)
        ensures synced { self.new ≡ settled_on self.old.bytes }
    {
        if let Some(to) = self.cut {
            self.bytes.truncate(to);
            self.cut = None;
        }
        self.writes.clear();
    }

    /// What a crash makes of it, and the pick that is left.
    #[tactic(auto, using(crate::proofs::Tearing::tearing))]
    pub fn crashed(&self, alloc: Global, pick: u64) -> Result<(Stored, u64), NoMemory>
        ensures file { IfOk result (λ x. x.0 ≡ settled_on (crash_of pick self.now.unsynced).file) }
        ensures pick { IfOk result (λ x. x.1 ≡ (crash_of pick self.now.unsynced).pick) }
    {
        let mut crash = Crashing::of(self.settled(alloc)?, pick);
        let mut writes = self.writes.as_slice();
        'writes: while let Some((written, later)) = writes.split_first() {
            written.redo(&mut crash)?;
            writes = later;
        }
        crash.cut_if(self.cut)?;
        let (bytes, left) = crash.apart();
        Ok((Stored::of(bytes), left))
    }

    /// A copy of the bytes as the last sync left them.
    #[tactic(auto, using(crate::proofs::Undone::undone_last))]
    fn settled(&self, alloc: Global) -> Result<Vec<u8>, NoMemory>
        ensures settled { IfOk result (λ bytes. bytes.items ≡ self.now.unsynced.settled) }
    {
        let mut bytes = Vec::from_slice(alloc, self.bytes.as_slice())?;
        let mut writes = self.writes.as_slice();
        'writes: while let Some((written, earlier)) = writes.split_last() {
            written.undo(alloc, &mut bytes)?;
            writes = earlier;
        }
        Ok(bytes)
    }
}

/// Puts `bytes` at the place `at` of a file of which only the first `cut` bytes count, where it was cut.
#[tactic(auto, using(crate::proofs::Undone::putting))]
fn put(file: &mut Vec<u8>, cut: Option<usize>, at: usize, bytes: &[u8]) -> Result<(), NoMemory>
    requires { at ≤ length (content cut file.old.items) }
    ensures ok { OnOk result (file.new.items ≡ overwritten (content cut file.old.items) at bytes.now) }
    ensures err { OnErr result (file.new.items ≡ file.old.items) }
{
    overwrite(file, at, bytes)?;
    if let Some(to) = cut {
        file.truncate(to.max(at + bytes.len()));
    }
    Ok(())
}
