ghost use Rattle.std.specs.Prelude.{◌≡◌, ℕ, List, [], ◌∷◌};
ghost use Rattle.std.specs.Borrow.{ftrue};
ghost use Rattle.sr_memsite.specs.declared.calls.Step.{Step as step};

use sr_base::{Name, Text};
use sr_memsite_disk::{FiveFiles, Stored};
use sr_memsite_mail::SharedMail;
use sr_site::{File, Listing, MailFault};
use std::marker::Model;
use std::snapshot::Snapshot;

/// A call of a site, as contracts see it, with its outcome: a snapshot takes no memory. A call of the disk has its file as it stood then, a
/// listing all folders. `Began` and `Handed` are no calls: the five files with which all begins anew, and the folders as they are handed over.
#[derive(Drop)]
pub enum Step {
    Began(Snapshot<FiveFiles>),
    Attached(Snapshot<Text>, Snapshot<Text>, bool),
    Wrote(File, u64, bool, Snapshot<Stored>),
    Cut(File, u64, bool, Snapshot<Stored>),
    Synced(File, bool, Snapshot<Stored>),
    Listed(Snapshot<Name>, Snapshot<SharedMail>, Snapshot<Result<Listing, MailFault>>),
    Fetched(Snapshot<Name>, Snapshot<Text>, usize, Snapshot<Result<Option<Vec<u8>>, MailFault>>),
    Put(Snapshot<Name>, Snapshot<Text>, bool),
    Removed(Snapshot<Name>, Snapshot<Text>, bool),
    Handed(Snapshot<SharedMail>),
}

/// The calls of a site so far, the newest first, each with the bytes that it was given. Contracts alone read it: it takes no memory, so it
/// is complete whatever memory there is.
#[derive(Drop)]
pub struct Calls {
    pub ghost steps: { List (step × List ℕ) },
}

impl Model for Calls {
    ghost also_owns = { λ _. ftrue };
}

impl Calls {
    /// No call so far.
    pub fn new() -> Calls
        ensures { result.steps ≡ [] }
    {
        Calls {}
    }

    /// One more call.
    pub fn with(_before: &Calls, _step: &Step, _bytes: &[u8]) -> Calls
        ensures { result.steps ≡ (_step.now, _bytes.now) ∷ _before.now.steps }
    {
        Calls {}
    }
}
