//! How long an entry may be, and how far the log may reach that holds it.

ghost use Rattle.std.specs.Prelude.{◌≡◌};
ghost use Rattle.sr_logform.specs.Limits.{longest_body as body_limit, farthest_end as end_limit};

use crate::entry::Entry;

/// The longest body of an Own, a Ddl, a Pass and a Note: 4 MiB.
const SHORT_BODY: u64 = 4_194_304;

/// The longest body of a Sync: 16 MiB.
const SYNC_BODY: u64 = 16_777_216;

/// The longest body of a From: 64 MiB.
const FROM_BODY: u64 = 67_108_864;

/// The longest encoding of a transaction for a partner, in bytes: 64 MiB.
pub const LONGEST_TRANSACTION: u64 = 67_108_864;

/// The farthest end of a log file behind an Own, a Ddl, a Pass and a Sync: 960 MiB.
const LOCAL_END: u64 = 1_006_632_960;

/// The farthest end of a log file behind a From and a Note: 1 GiB.
const PARTNER_END: u64 = 1_073_741_824;

/// The longest body of an entry's kind, in bytes.
pub fn longest_body(entry: &Entry) -> u64
    ensures { result ≡ body_limit entry.now }
{
    match entry {
        Entry::Own(_) => SHORT_BODY,
        Entry::From { .. } => FROM_BODY,
        Entry::Ddl(_) => SHORT_BODY,
        Entry::Sync { .. } => SYNC_BODY,
        Entry::Pass { .. } => SHORT_BODY,
        Entry::Note { .. } => SHORT_BODY,
    }
}

/// The farthest end of a log file behind an entry's kind, in bytes of the file.
pub fn farthest_end(entry: &Entry) -> u64
    ensures { result ≡ end_limit entry.now }
{
    match entry {
        Entry::Own(_) => LOCAL_END,
        Entry::From { .. } => PARTNER_END,
        Entry::Ddl(_) => LOCAL_END,
        Entry::Sync { .. } => LOCAL_END,
        Entry::Pass { .. } => LOCAL_END,
        Entry::Note { .. } => PARTNER_END,
    }
}
