ghost use Rattle.std.specs.Prelude.{◌≡◌, ◌+◌, ◌^◌, ◌≤◌, [], ◌∷◌, ◌++◌, List, ℕ, length, true, IsTrue, IfOk, OnOk, OnErr, IfErr, Err, is_ok};
ghost use Rattle.sr_site.specs.Inner.Happenings.{Made};
ghost use Rattle.sr_site.specs.Images.{IsSettled, KeepsOthers, RestsThroughout};
ghost use Rattle.sr_logfile.specs.Inner.Calls.{commit_calls};
ghost use Rattle.sr_logfile.specs.Inner.Moments.{HasOrLacks, IsAsRead, SpellsOrLacks};
ghost use Rattle.sr_site.specs.Causes.{DiskStays};
ghost use Rattle.sr_site.specs.Files.{OthersStay};
ghost use Rattle.sr_logfile.specs.Inner.Faults.{CommitCause};
ghost use Rattle.sr_logfile.specs.Logs.{IsFull, gate_of};
ghost use Rattle.sr_logfile.specs.Inner.Logs.{IsLog, HasLog, longer, spent};
ghost use Rattle.sr_logfile.specs.Inner.Log.{InOrder};
ghost use Rattle.sr_logfile.specs.Records.{IsFramed, body_of};
ghost use Rattle.sr_logfile.specs.declared.fault.LogFault.TheVariants.{Full};

use crate::appending::append;
use crate::fault::LogFault;
use crate::head::place_in;
use sr_base::{FARTHEST_OFFSET, Offset};
use sr_site::{Disk, File};
use std::marker::Model;

/// A log file that was opened: it knows where its first closed gate stands.
///
/// Its file is to stand, at each call, as the calls of this value left it. After `commit` answered `Disk` the value is not used again.
#[derive(Drop)]
pub struct LogFile {
    file: File,
    base: u64,
    end: u64,
    usable: bool,
}

impl Model for LogFile {
    ghost use Rattle.sr_logfile.specs.Log.{Log};
    ghost use Rattle.sr_logfile.specs.Inner.Log.{InOrder};

    ghost Value = { Log };

    ghost view = { λ l. record { file = l.file; base = l.base; end = l.end; usable = l.usable } };

    ghost invariant = { λ l. InOrder l.base l.end };
}

impl LogFile {
    /// The log of a file that was read up to its first closed gate, which stands at the stream position `end`; the first gate stands at `base`.
    pub fn at(file: File, base: u64, end: u64) -> LogFile
        requires { InOrder base end }
        ensures { result ≡ record { file = file; base = base; end = end; usable = true } }
    {
        LogFile {
            file,
            base,
            end,
            usable: true,
        }
    }

    /// Which of the five files it is.
    pub fn file(&self) -> File
        ensures file { result ≡ self.now.file }
    {
        self.file
    }

    /// The stream position of the first gate, in bytes.
    pub fn base(&self) -> Offset
        ensures base { result.0 ≡ self.now.base }
        ensures order { InOrder self.now.base self.now.end }
    {
        Offset(self.base)
    }

    /// The stream position of the first closed gate, in bytes: the offset of the last record.
    pub fn end(&self) -> Offset
        ensures end { result.0 ≡ self.now.end }
        ensures order { InOrder self.now.base self.now.end }
    {
        Offset(self.end)
    }

    /// Whether the value can be used: not after `commit` answered `Disk`, and not after `spend`.
    pub fn usable(&self) -> bool
        ensures usable { result ≡ self.now.usable }
    {
        self.usable
    }

    /// Has the value not used again: for a call beside it that the disk refused.
    pub fn spend(&mut self)
        ensures spent { self.new ≡ spent self.old }
    {
        self.usable = false;
    }

    /// Puts a framed record behind the last, and answers its offset: the stream position behind its body.
    ///
    /// It writes the record behind the first closed gate, syncs, opens that gate and syncs. `Full` comes exactly where the record would pass
    /// the place `bound` in the file or the last offset, 2^62, and leaves all as it was. After `Disk` the file holds the records
    /// before, or those and the new one, and the value is not used again.
    pub fn commit<S: Disk>(
        &mut self,
        site: &mut S,
        framed: &[u8],
        bound: u64,
    ) -> Result<Offset, LogFault>
        requires framed { IsFramed framed.now }
        requires usable { self.old.usable ≡ true }
        requires log { IsTrue (S.seen site.old).observable → HasLog self.old (S.seen site.old).files }
        ensures offset { IfOk result (λ offset. offset.0 ≡ self.old.end + length framed.now) }
        ensures log { OnOk result (self.new ≡ longer self.old (length framed.now)) }
        ensures has_log { IsTrue (S.seen site.old).observable → OnOk result (HasLog self.new (S.seen site.new).files) }
        ensures record { IsTrue (S.seen site.old).observable → OnOk result ((bodies : List (List ℕ)) → IsLog self.old bodies (S.seen site.old).files → IsLog self.new (bodies ++ body_of framed.now ∷ []) (S.seen site.new).files) }
        ensures stands { IsTrue (S.seen site.old).observable → OnErr result ((bodies : List (List ℕ)) → IsLog self.old bodies (S.seen site.old).files → SpellsOrLacks self.old bodies framed.now (S.seen site.new).files) }
        ensures happened { IsTrue (S.seen site.old).observable → (IsFull self.old (length framed.now) bound → ⊥) → Made (commit_calls self.old.file (gate_of self.old) framed.now) (S.seen site.old).happened (S.seen site.new).happened (is_ok result) }
        ensures room { OnOk result (IsFull self.old (length framed.now) bound → ⊥) }
        ensures moments { IsTrue (S.seen site.old).observable → (bodies : List (List ℕ)) → IsLog self.old bodies (S.seen site.old).files → IsSettled (IsLog self.old bodies) (S.seen site.old) → RestsThroughout (HasOrLacks self.old bodies framed.now) (S.seen site.old) (S.seen site.new) }
        ensures beside { IsTrue (S.seen site.old).observable → RestsThroughout (KeepsOthers self.old.file (S.seen site.old)) (S.seen site.old) (S.seen site.new) }
        ensures settled { IsTrue (S.seen site.old).observable → OnOk result (IsSettled (IsAsRead self.old.file (S.seen site.new)) (S.seen site.new)) }
        ensures others { IsTrue (S.seen site.old).observable → OthersStay self.old.file (S.seen site.old).files (S.seen site.new).files }
        ensures full { IsFull self.old (length framed.now) bound → result ≡ Err (Full (gate_of self.old + 1) (length framed.now)) }
        ensures stays { DiskStays (S.seen site.old) (S.seen site.new) }
        ensures steady { OnOk result ((S.seen site.new).disk_faults ≡ (S.seen site.old).disk_faults) }
        ensures cause { IfErr result (CommitCause self.old self.new (length framed.now) bound (S.seen site.old) (S.seen site.new)) }
    {
        let gate = place_in(self.base, self.end);
        let need = framed.len() as u64;
        if need > FARTHEST_OFFSET || gate + 1 + need > bound || self.end + need > FARTHEST_OFFSET {
            return Err(LogFault::Full {
                end: gate + 1,
                need,
            });
        }
        self.usable = false;
        append(site, self.file, gate, framed)?;
        self.usable = true;
        self.end += need;
        Ok(Offset(self.end))
    }
}
