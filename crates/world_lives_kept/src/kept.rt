ghost use Rattle.std.specs.Prelude.{◌≡◌, ◌++◌, ◌∷◌, [], true, Contains, IsTrue, OnOk};
ghost use Rattle.world_lives_kept.specs.Inner.Kept.{AreOf, came_in};

use sr_base::{NoMemory, Seq};
use sr_site::MailFault;
use std::alloc::{AllocError, Global};

/// The bytes of the files that a site was asked to put, and of those that were fetched from it, in order. Where there was no memory for one of them it is
/// no more whole.
#[derive(Drop)]
pub struct KeptMail {
    pub put: Seq<Seq<u8>>,
    pub fetched: Seq<Seq<u8>>,
    pub whole: bool,
}

impl KeptMail {
    /// Nothing was put or fetched so far. It takes no memory.
    pub fn new(alloc: Global) -> KeptMail
        ensures put { result.put ≡ [] }
        ensures fetched { result.fetched ≡ [] }
        ensures whole { result.whole ≡ true }
    {
        KeptMail {
            put: Seq::empty(alloc),
            fetched: Seq::empty(alloc),
            whole: true,
        }
    }

    /// Notes a put.
    pub fn note_put(&mut self, alloc: Global, bytes: &[u8])
        ensures put { IsTrue self.new.whole → self.new.put ≡ self.old.put ++ bytes.now ∷ [] }
        ensures fetched { self.new.fetched ≡ self.old.fetched }
        ensures whole { IsTrue self.new.whole → IsTrue self.old.whole }
    {
        if push_bytes(alloc, &mut self.put, bytes).is_err() {
            self.whole = false;
        }
    }

    /// Notes what a fetch gave.
    pub fn note_fetched(&mut self, alloc: Global, found: &Result<Option<Vec<u8>>, MailFault>)
        ensures fetched { IsTrue self.new.whole → self.new.fetched ≡ self.old.fetched ++ came_in found.now }
        ensures put { self.new.put ≡ self.old.put }
        ensures whole { IsTrue self.new.whole → IsTrue self.old.whole }
    {
        if let Ok(Some(bytes)) = found {
            if push_bytes(alloc, &mut self.fetched, bytes.as_slice()).is_err() {
                self.whole = false;
            }
        }
    }
}

/// Adds a file's bytes at the end.
fn push_bytes(alloc: Global, list: &mut Seq<Seq<u8>>, bytes: &[u8]) -> Result<(), NoMemory>
    ensures ok { OnOk result (list.new ≡ list.old ++ bytes.now ∷ []) }
{
    let file = Seq::from_vec(Vec::from_slice(alloc, bytes)?);
    match list.push(file) {
        Ok(()) => Ok(()),
        Err(back) => {
            drop(back);
            Err(AllocError)
        }
    }
}

/// Adds all files' bytes at the end.
pub fn push_all(alloc: Global, list: &mut Seq<Seq<u8>>, files: &[Seq<u8>]) -> Result<(), NoMemory>
    ensures ok { OnOk result (list.new ≡ list.old ++ files.now) }
{
    'files: for file in files {
        push_bytes(alloc, list, file.as_slice())?;
    }
    Ok(())
}

/// Whether each of these files' bytes are those of one of the others.
pub fn are_of(files: &[Seq<u8>], others: &[Seq<u8>]) -> bool
    ensures are { IsTrue result → AreOf others.now files.now }
{
    'files: for file in files {
        if !is_of(file.as_slice(), others) {
            return false;
        }
    }
    true
}

fn is_of(bytes: &[u8], others: &[Seq<u8>]) -> bool
    ensures is { IsTrue result → Contains others.now bytes.now }
{
    'others: for other in others {
        if other.as_slice() == bytes {
            return true;
        }
    }
    false
}
