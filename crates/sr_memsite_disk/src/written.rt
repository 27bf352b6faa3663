ghost use Rattle.std.specs.Prelude.{◌≡◌, IfOk, OnOk};
ghost use Rattle.sr_memsite_disk.specs.Picks.{crashed};
ghost use Rattle.sr_memsite_disk.specs.Inner.Undoing.{Keeps, changes_by, content, off, undone_by};

use crate::crashing::Crashing;
use sr_base::NoMemory;
use std::alloc::Global;

/// A write that is not yet synced, with what it takes to have the file without it: the bytes that it went over, and those that a cut before it
/// had taken away.
#[derive(Drop)]
pub struct Written {
    pub cut: Option<usize>,
    pub off: Vec<u8>,
    pub place: usize,
    pub over: Vec<u8>,
    pub new: Vec<u8>,
}

/// The bytes that count of a file that was cut, and those that do not.
#[tactic(auto, using(crate::proofs::Tearing::tearing))]
pub fn parted(file: &[u8], cut: Option<usize>) -> (&[u8], &[u8])
    ensures content { result.0.now ≡ content cut file.now }
    ensures off { result.1.now ≡ off cut file.now }
{
    match cut {
        Some(to) => file.split_at(to.min(file.len())),
        None => file.split_at(file.len()),
    }
}

impl Written {
    /// What a write of `bytes` at a place of a file is to keep.
    #[tactic(auto, using(crate::proofs::Tearing::tearing))]
    pub fn of(
        alloc: Global,
        file: &[u8],
        cut: Option<usize>,
        place: usize,
        bytes: &[u8],
    ) -> Result<Written, NoMemory>
        ensures keeps { IfOk result (Keeps cut file.now place bytes.now) }
    {
        let (counted, off) = parted(file, cut);
        let (_, behind) = counted.split_at(place.min(counted.len()));
        let (over, _) = behind.split_at(bytes.len().min(behind.len()));
        Ok(Written {
            cut,
            off: Vec::from_slice(alloc, off)?,
            place,
            over: Vec::from_slice(alloc, over)?,
            new: Vec::from_slice(alloc, bytes)?,
        })
    }

    /// Takes the write back, and the cut before it. It costs the bytes from the write's place on.
    #[tactic(auto, using(crate::proofs::Tearing::tearing))]
    pub fn undo(&self, alloc: Global, file: &mut Vec<u8>) -> Result<(), NoMemory>
        ensures undone { OnOk result (file.new.items ≡ undone_by self.now file.old.items) }
    {
        let (_, rest) = file.as_slice().split_at(self.place.min(file.len()));
        let (_, behind) = rest.split_at(self.new.len().min(rest.len()));
        let behind = Vec::from_slice(alloc, behind)?;
        file.truncate(self.place);
        file.extend_from_slice(self.over.as_slice())?;
        file.extend_from_slice(behind.as_slice())?;
        file.extend_from_slice(self.off.as_slice())?;
        Ok(())
    }

    /// Goes through the cut before it and the write itself in a crash.
    pub fn redo(&self, crash: &mut Crashing) -> Result<(), NoMemory>
        ensures redone { OnOk result (crash.new ≡ crashed crash.old (changes_by self.now)) }
    {
        crash.cut_if(self.cut)?;
        crash.write(self.place, self.new.as_slice())?;
        Ok(())
    }
}
