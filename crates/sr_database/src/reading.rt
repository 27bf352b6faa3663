ghost use Rattle.std.specs.Prelude.{◌≡◌, ◌≢◌, ◌+◌, ◌≤◌, ◌<◌, ◌++◌, [], true, List, IsTrue, IfOk, IfErr, IfSome, OnOk};
ghost use Rattle.sr_logfile.specs.Records.{place_in};
ghost use Rattle.sr_book.specs.Entries.{Name as AName};
ghost use Rattle.sr_database_history.specs.Folds.{end_of};
ghost use Rattle.sr_database_history.specs.Recorded.{Recorded};
ghost use Rattle.sr_site.specs.Causes.{DiskStays};
ghost use Rattle.sr_database.specs.Inner.Causes.{EntryCause, IsRecordFault};
ghost use Rattle.sr_database.specs.Databases.{IsDatabase};
ghost use Rattle.sr_database.specs.Inner.Entries.{IsEntryAfter, IsBriefAfter, IsEndAfter, IsKindAfter, BeginWith, Parts, BehindCause};
ghost use Rattle.sr_database_files.specs.declared.fault.DatabaseFault.TheVariants.{Damaged, Memory};
ghost use Rattle.sr_database_files.specs.Inner.Openings.{ReadAlone};

use crate::database::Database;
use sr_base::Offset;
use sr_database_files::{DatabaseFault, log_fault};
use sr_database_replay::{brief_in, entry_in};
use sr_logfile::{LogFault, LogFile, RecordFault, Step, place_in};
use sr_logform::Entry;
use sr_site::{File, Site};
use std::alloc::Global;

impl Database {
    /// The entry that follows the offset `after`, the base or the end of an entry, with its own end. `None` comes exactly where none follows.
    ///
    /// It reads one record, in a buffer of its length. Where the disk tells what it holds, it is never `Damaged`.
    pub fn entry_after<S: Site>(
        &self,
        alloc: Global,
        site: &mut S,
        after: Offset,
    ) -> Result<Option<(Offset, Entry)>, DatabaseFault>
        requires usable { self.now.log.usable ≡ true }
        requires after { (self.now.log.base ≤ after.0) × (after.0 ≤ self.now.log.end) }
        ensures entry { IsTrue (S.seen site.old).observable → (publisher : AName) (done left : List Recorded) → IsDatabase self.now publisher (done ++ left) (S.seen site.old) → after.0 ≡ end_of done
            → IfOk result (IsEntryAfter done left) }
        ensures within { IfOk result (λ found. IfSome found (λ x. (after.0 < x.0.0) × (x.0.0 ≤ self.now.log.end))) }
        ensures files { IsTrue (S.seen site.old).observable → (S.seen site.new).files ≡ (S.seen site.old).files }
        ensures happened { IsTrue (S.seen site.old).observable → (S.seen site.new).happened ≡ (S.seen site.old).happened }
        ensures database { IsTrue (S.seen site.old).observable → (publisher : AName) (es : List Recorded) → IsDatabase self.now publisher es (S.seen site.old) → IsDatabase self.now publisher es (S.seen site.new) }
        ensures stays { DiskStays (S.seen site.old) (S.seen site.new) }
        ensures steady { OnOk result ((S.seen site.new).disk_faults ≡ (S.seen site.old).disk_faults) }
        ensures cause { IfErr result (EntryCause self.now after (S.seen site.old) (S.seen site.new)) }
    {
        let mut buffer = Vec::new(alloc);
        self.entry_read(alloc, site, after, &mut buffer)
    }

    /// As `entry_after`, in a buffer that is lent, and grows where it is shorter than the record: who goes along the log and lends the same one for each
    /// entry takes no memory for their bytes.
    pub fn entry_read<S: Site>(
        &self,
        alloc: Global,
        site: &mut S,
        after: Offset,
        buffer: &mut Vec<u8>,
    ) -> Result<Option<(Offset, Entry)>, DatabaseFault>
        requires usable { self.now.log.usable ≡ true }
        requires after { (self.now.log.base ≤ after.0) × (after.0 ≤ self.now.log.end) }
        ensures entry { IsTrue (S.seen site.old).observable → (publisher : AName) (done left : List Recorded) → IsDatabase self.now publisher (done ++ left) (S.seen site.old) → after.0 ≡ end_of done
            → IfOk result (IsEntryAfter done left) }
        ensures within { IfOk result (λ found. IfSome found (λ x. (after.0 < x.0.0) × (x.0.0 ≤ self.now.log.end))) }
        ensures files { IsTrue (S.seen site.old).observable → (S.seen site.new).files ≡ (S.seen site.old).files }
        ensures happened { IsTrue (S.seen site.old).observable → (S.seen site.new).happened ≡ (S.seen site.old).happened }
        ensures database { IsTrue (S.seen site.old).observable → (publisher : AName) (es : List Recorded) → IsDatabase self.now publisher es (S.seen site.old) → IsDatabase self.now publisher es (S.seen site.new) }
        ensures stays { DiskStays (S.seen site.old) (S.seen site.new) }
        ensures steady { OnOk result ((S.seen site.new).disk_faults ≡ (S.seen site.old).disk_faults) }
        ensures cause { IfErr result (EntryCause self.now after (S.seen site.old) (S.seen site.new)) }
    {
        entry_behind(alloc, &self.log, site, after, buffer)
    }

    /// As `entry_read`, the entry in brief: of a transaction that was taken it passes over the ops that inserted rows, in the place of each of which stands
    /// another one that ran no statement, with the same outcome. Who has to know of an entry what it changed here, and not all that was asked for, is
    /// spared the reading of their rows.
    pub fn brief_read<S: Site>(
        &self,
        alloc: Global,
        site: &mut S,
        after: Offset,
        buffer: &mut Vec<u8>,
    ) -> Result<Option<(Offset, Entry)>, DatabaseFault>
        requires usable { self.now.log.usable ≡ true }
        requires after { (self.now.log.base ≤ after.0) × (after.0 ≤ self.now.log.end) }
        ensures brief { IsTrue (S.seen site.old).observable → (publisher : AName) (done left : List Recorded) → IsDatabase self.now publisher (done ++ left) (S.seen site.old) → after.0 ≡ end_of done
            → IfOk result (IsBriefAfter done left) }
        ensures within { IfOk result (λ found. IfSome found (λ x. (after.0 < x.0.0) × (x.0.0 ≤ self.now.log.end))) }
        ensures files { IsTrue (S.seen site.old).observable → (S.seen site.new).files ≡ (S.seen site.old).files }
        ensures happened { IsTrue (S.seen site.old).observable → (S.seen site.new).happened ≡ (S.seen site.old).happened }
        ensures database { IsTrue (S.seen site.old).observable → (publisher : AName) (es : List Recorded) → IsDatabase self.now publisher es (S.seen site.old) → IsDatabase self.now publisher es (S.seen site.new) }
        ensures stays { DiskStays (S.seen site.old) (S.seen site.new) }
        ensures steady { OnOk result ((S.seen site.new).disk_faults ≡ (S.seen site.old).disk_faults) }
        ensures cause { IfErr result (EntryCause self.now after (S.seen site.old) (S.seen site.new)) }
    {
        brief_behind(alloc, &self.log, site, after, buffer)
    }

    /// The end of the entry that follows the offset `after`, the base or the end of an entry, with the byte that its bytes begin with: that tells its kind.
    /// `None` comes exactly where none follows.
    ///
    /// It reads the record into `buffer`, which grows where it is shorter, and makes no entry of it. Where the disk tells what it holds, it is never
    /// `Damaged`.
    pub fn kind_after<S: Site>(
        &self,
        site: &mut S,
        after: Offset,
        buffer: &mut Vec<u8>,
    ) -> Result<Option<(Offset, u8)>, DatabaseFault>
        requires usable { self.now.log.usable ≡ true }
        requires after { (self.now.log.base ≤ after.0) × (after.0 ≤ self.now.log.end) }
        ensures kind { IsTrue (S.seen site.old).observable → (publisher : AName) (done left : List Recorded) → IsDatabase self.now publisher (done ++ left) (S.seen site.old) → after.0 ≡ end_of done
            → IfOk result (IsKindAfter done left) }
        ensures within { IfOk result (λ found. IfSome found (λ x. (after.0 < x.0.0) × (x.0.0 ≤ self.now.log.end))) }
        ensures files { IsTrue (S.seen site.old).observable → (S.seen site.new).files ≡ (S.seen site.old).files }
        ensures happened { IsTrue (S.seen site.old).observable → (S.seen site.new).happened ≡ (S.seen site.old).happened }
        ensures database { IsTrue (S.seen site.old).observable → (publisher : AName) (es : List Recorded) → IsDatabase self.now publisher es (S.seen site.old) → IsDatabase self.now publisher es (S.seen site.new) }
        ensures stays { DiskStays (S.seen site.old) (S.seen site.new) }
        ensures steady { OnOk result ((S.seen site.new).disk_faults ≡ (S.seen site.old).disk_faults) }
        ensures cause { IfErr result (EntryCause self.now after (S.seen site.old) (S.seen site.new)) }
    {
        kind_behind(&self.log, site, after, buffer)
    }

    /// The end of the entry that follows the offset `after`, the base or the end of an entry. `None` comes exactly where none follows.
    ///
    /// It reads no more of an entry than its length, and takes no memory. Where the disk tells what it holds, it is never `Damaged`.
    pub fn end_after<S: Site>(
        &self,
        site: &mut S,
        after: Offset,
    ) -> Result<Option<Offset>, DatabaseFault>
        requires usable { self.now.log.usable ≡ true }
        requires after { (self.now.log.base ≤ after.0) × (after.0 ≤ self.now.log.end) }
        ensures end { IsTrue (S.seen site.old).observable → (publisher : AName) (done left : List Recorded) → IsDatabase self.now publisher (done ++ left) (S.seen site.old) → after.0 ≡ end_of done
            → IfOk result (IsEndAfter done left) }
        ensures later { IfOk result (λ found. IfSome found (λ end. after.0 < end.0)) }
        ensures files { IsTrue (S.seen site.old).observable → (S.seen site.new).files ≡ (S.seen site.old).files }
        ensures happened { IsTrue (S.seen site.old).observable → (S.seen site.new).happened ≡ (S.seen site.old).happened }
        ensures database { IsTrue (S.seen site.old).observable → (publisher : AName) (es : List Recorded) → IsDatabase self.now publisher es (S.seen site.old) → IsDatabase self.now publisher es (S.seen site.new) }
        ensures stays { DiskStays (S.seen site.old) (S.seen site.new) }
        ensures steady { OnOk result ((S.seen site.new).disk_faults ≡ (S.seen site.old).disk_faults) }
        ensures cause { IfErr result (EntryCause self.now after (S.seen site.old) (S.seen site.new)) }
        ensures memory { IfErr result (λ fault. fault ≢ Memory) }
    {
        end_behind(&self.log, site, after)
    }
}

/// The end of the entry that follows an offset of a log.
fn end_behind<S: Site>(
    log: &LogFile,
    site: &mut S,
    after: Offset,
) -> Result<Option<Offset>, DatabaseFault>
    requires after { (log.now.base ≤ after.0) × (after.0 ≤ log.now.end) }
    ensures end { IsTrue (S.seen site.old).observable → (publisher : AName) (done left : List Recorded) → Parts log.now after.0 publisher done left (S.seen site.old) → IfOk result (IsEndAfter done left) }
    ensures later { IfOk result (λ found. IfSome found (λ end. after.0 < end.0)) }
    ensures read { ReadAlone (S.seen site.old) (S.seen site.new) }
    ensures steady { OnOk result ((S.seen site.new).disk_faults ≡ (S.seen site.old).disk_faults) }
    ensures cause { IfErr result (BehindCause log.now after.0 (S.seen site.old) (S.seen site.new)) }
    ensures memory { IfErr result (λ fault. fault ≢ Memory) }
{
    let _end = log.end();
    let mut prefix = [0];
    match log.next(site, after, &mut prefix) {
        Ok(Step::End) => Ok(None),
        Ok(Step::Short { need }) => Ok(Some(Offset(after.0 + 5 + need as u64))),
        Ok(Step::Record { end, .. }) => Ok(Some(end)),
        Err(fault) => Err(log_fault(log.file(), fault)),
    }
}

/// The entry that follows an offset of a log, with its own end.
fn entry_behind<S: Site>(
    alloc: Global,
    log: &LogFile,
    site: &mut S,
    after: Offset,
    buffer: &mut Vec<u8>,
) -> Result<Option<(Offset, Entry)>, DatabaseFault>
    requires after { (log.now.base ≤ after.0) × (after.0 ≤ log.now.end) }
    ensures entry { IsTrue (S.seen site.old).observable → (publisher : AName) (done left : List Recorded) → Parts log.now after.0 publisher done left (S.seen site.old) → IfOk result (IsEntryAfter done left) }
    ensures within { IfOk result (λ found. IfSome found (λ x. (after.0 < x.0.0) × (x.0.0 ≤ log.now.end))) }
    ensures read { ReadAlone (S.seen site.old) (S.seen site.new) }
    ensures steady { OnOk result ((S.seen site.new).disk_faults ≡ (S.seen site.old).disk_faults) }
    ensures cause { IfErr result (BehindCause log.now after.0 (S.seen site.old) (S.seen site.new)) }
{
    match log.record_after(site, after, buffer) {
        Ok(None) => Ok(None),
        Ok(Some((end, length))) => {
            let (body, _) = buffer.as_slice().split_at(length);
            let entry = entry_in(alloc, log.file(), place_of(log, after), body)?;
            Ok(Some((end, entry)))
        }
        Err(fault) => Err(record_fault(log.file(), fault)),
    }
}

/// The entry that follows an offset of a log, in brief, with its own end.
fn brief_behind<S: Site>(
    alloc: Global,
    log: &LogFile,
    site: &mut S,
    after: Offset,
    lent: &mut Vec<u8>,
) -> Result<Option<(Offset, Entry)>, DatabaseFault>
    requires after { (log.now.base ≤ after.0) × (after.0 ≤ log.now.end) }
    ensures brief { IsTrue (S.seen site.old).observable → (publisher : AName) (done left : List Recorded) → Parts log.now after.0 publisher done left (S.seen site.old) → IfOk result (IsBriefAfter done left) }
    ensures within { IfOk result (λ found. IfSome found (λ x. (after.0 < x.0.0) × (x.0.0 ≤ log.now.end))) }
    ensures read { ReadAlone (S.seen site.old) (S.seen site.new) }
    ensures steady { OnOk result ((S.seen site.new).disk_faults ≡ (S.seen site.old).disk_faults) }
    ensures cause { IfErr result (BehindCause log.now after.0 (S.seen site.old) (S.seen site.new)) }
{
    match log.record_after(site, after, lent) {
        Ok(None) => Ok(None),
        Ok(Some((end, length))) => {
            let (body, _) = lent.as_slice().split_at(length);
            let entry = brief_in(alloc, log.file(), place_of(log, after), body)?;
            Ok(Some((end, entry)))
        }
        Err(fault) => Err(record_fault(log.file(), fault)),
    }
}

/// The end of the entry that follows an offset of a log, with the byte that its bytes begin with.
fn kind_behind<S: Site>(
    log: &LogFile,
    site: &mut S,
    after: Offset,
    room: &mut Vec<u8>,
) -> Result<Option<(Offset, u8)>, DatabaseFault>
    requires after { (log.now.base ≤ after.0) × (after.0 ≤ log.now.end) }
    ensures kind { IsTrue (S.seen site.old).observable → (publisher : AName) (done left : List Recorded) → Parts log.now after.0 publisher done left (S.seen site.old) → IfOk result (IsKindAfter done left) }
    ensures within { IfOk result (λ found. IfSome found (λ x. (after.0 < x.0.0) × (x.0.0 ≤ log.now.end))) }
    ensures read { ReadAlone (S.seen site.old) (S.seen site.new) }
    ensures steady { OnOk result ((S.seen site.new).disk_faults ≡ (S.seen site.old).disk_faults) }
    ensures cause { IfErr result (BehindCause log.now after.0 (S.seen site.old) (S.seen site.new)) }
{
    match log.record_after(site, after, room) {
        Ok(None) => Ok(None),
        Ok(Some((end, length))) => {
            let (body, _) = room.as_slice().split_at(length);
            let kind = kind_in(log.file(), place_of(log, after), body)?;
            Ok(Some((end, kind)))
        }
        Err(fault) => Err(record_fault(log.file(), fault)),
    }
}

/// The byte that a record's body begins with; damage at the record's gate where it has none.
fn kind_in(log: File, place: u64, body: &[u8]) -> Result<u8, DatabaseFault>
    ensures kind { IfOk result (BeginWith body.now) }
    ensures cause { IfErr result (λ fault. (fault ≡ Damaged log place) × (body.now ≡ [])) }
{
    match body.split_first() {
        Some((kind, _)) => Ok(*kind),
        None => Err(DatabaseFault::Damaged {
            file: log,
            at: place,
        }),
    }
}

/// The place in the file of the gate at an offset of a log.
fn place_of(log: &LogFile, after: Offset) -> u64
    requires after { (log.now.base ≤ after.0) × (after.0 ≤ log.now.end) }
    ensures place { result ≡ place_in log.now.base after.0 }
{
    place_in(log.base().0, after.0)
}

/// The fault of a database where a record of its log is not read.
fn record_fault(log: File, fault: RecordFault) -> DatabaseFault
    ensures { IsRecordFault log fault result }
{
    match fault {
        RecordFault::Memory => DatabaseFault::Memory,
        RecordFault::Log(fault) => log_fault(log, fault),
    }
}
