ghost use Rattle.std.specs.Prelude.{◌≡◌, ◌+◌, ◌≤◌, [], List, ℕ, length, IsTrue, MatchOption, IfOk, IfSome, OnOk, IfErr};
ghost use Rattle.sr_site.specs.Causes.{DiskStays};
ghost use Rattle.sr_logfile.specs.Inner.Faults.{NextCause, RecordAfterCause};
ghost use Rattle.sr_logfile.specs.Inner.Logs.{IsAt};
ghost use Rattle.sr_logfile.specs.Inner.Steps.{IsNext, IsStep, StaysWithin};

use crate::fault::{LogFault, RecordFault};
use crate::head::{Head, LONGEST_BODY, RECORD_HEAD, head_at, place_in};
use crate::log::LogFile;
use sr_base::Offset;
use sr_site::Disk;

/// What stands behind a position of a log.
#[derive(Clone, Copy)]
pub enum Step {
    /// No record.
    End,
    /// A record whose body has `need` bytes, more than the buffer.
    Short { need: usize },
    /// A record: its body is the first `length` bytes of the buffer, and `end` is its offset.
    Record { end: Offset, length: usize },
}

impl LogFile {
    /// Reads the body of the record behind the position `after`, the base or a record's offset, to the front of `buffer`.
    #[tactic(auto, using(sr_site::specs::Inner::Growing::disk_stays_on))]
    pub fn next<S: Disk>(
        &self,
        site: &mut S,
        after: Offset,
        buffer: &mut [u8],
    ) -> Result<Step, LogFault>
        ensures step { IsTrue (S.seen site.old).observable → IfOk result (λ step. (done left : List (List ℕ)) → IsAt self.now after.0 done left (S.seen site.old).files → IsStep self.now after.0 done left (S.seen site.new).files buffer.new step) }
        ensures within { IfOk result (StaysWithin self.now after.0 (length buffer.old)) }
        ensures files { IsTrue (S.seen site.old).observable → (S.seen site.new).files ≡ (S.seen site.old).files }
        ensures happened { IsTrue (S.seen site.old).observable → (S.seen site.new).happened ≡ (S.seen site.old).happened }
        ensures stays { DiskStays (S.seen site.old) (S.seen site.new) }
        ensures steady { OnOk result ((S.seen site.new).disk_faults ≡ (S.seen site.old).disk_faults) }
        ensures cause { IfErr result (NextCause self.now after.0 (S.seen site.old) (S.seen site.new)) }
    {
        let base = self.base().0;
        let end = self.end().0;
        if after.0 < base || after.0 >= end {
            return Ok(Step::End);
        }
        let place = place_in(base, after.0);
        let length = match head_at(site, self.file(), place)? {
            Head::Open { length } => length as u64,
            _ => return Err(LogFault::Damaged { at: place }),
        };
        if length == 0 || length > LONGEST_BODY || after.0 + RECORD_HEAD + length > end {
            return Err(LogFault::Damaged { at: place });
        }
        let need = length as usize;
        if buffer.len() < need {
            return Ok(Step::Short { need });
        }
        let (prefix, _) = buffer.split_at_mut(need);
        let count = site.read_at(self.file(), place + RECORD_HEAD, prefix)?;
        if count < need {
            return Err(LogFault::Damaged { at: place });
        }
        Ok(Step::Record {
            end: Offset(after.0 + RECORD_HEAD + length),
            length: need,
        })
    }

    /// Reads the body of the record behind the position `after`, the base or a record's offset, to the front of `buffer`, which grows where it
    /// is shorter. It answers the record's offset and the body's length, or `None` where no record follows.
    #[tactic(auto, using(sr_site::specs::Inner::Growing::disk_stays_on))]
    pub fn record_after<S: Disk>(
        &self,
        site: &mut S,
        after: Offset,
        buffer: &mut Vec<u8>,
    ) -> Result<Option<(Offset, usize)>, RecordFault>
        requires { (self.now.base ≤ after.0) × (after.0 ≤ self.now.end) }
        ensures step { IsTrue (S.seen site.old).observable → IfOk result (λ found. (done left : List (List ℕ)) → IsAt self.now after.0 done left (S.seen site.old).files → MatchOption found (left ≡ []) (λ x. IsNext self.now after.0 done left (S.seen site.new).files buffer.new.items x.0.0 x.1)) }
        ensures within { IfOk result (λ found. IfSome found (λ x. (x.0.0 ≡ after.0 + 5 + x.1) × (x.0.0 ≤ self.now.end) × (x.1 ≤ length buffer.new.items))) }
        ensures files { IsTrue (S.seen site.old).observable → (S.seen site.new).files ≡ (S.seen site.old).files }
        ensures happened { IsTrue (S.seen site.old).observable → (S.seen site.new).happened ≡ (S.seen site.old).happened }
        ensures stays { DiskStays (S.seen site.old) (S.seen site.new) }
        ensures steady { OnOk result ((S.seen site.new).disk_faults ≡ (S.seen site.old).disk_faults) }
        ensures cause { IfErr result (RecordAfterCause self.now after.0 (S.seen site.old) (S.seen site.new)) }
    {
        match self.next(site, after, buffer.as_mut_slice())? {
            Step::End => Ok(None),
            Step::Record { end, length } => Ok(Some((end, length))),
            Step::Short { need } => {
                buffer.resize(need, 0u8)?;
                match self.next(site, after, buffer.as_mut_slice())? {
                    Step::End => Ok(None),
                    Step::Record { end, length } => Ok(Some((end, length))),
                    Step::Short { .. } => Err(RecordFault::Log(LogFault::Damaged {
                        at: place_in(self.base().0, after.0),
                    })),
                }
            }
        }
    }
}
