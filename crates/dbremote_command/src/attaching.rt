ghost use Rattle.std.specs.Prelude.{◌≡◌, [], IfErr, OnOk, is_ok};
ghost use Rattle.dbremote_command.specs.Inner.Attaching.{AttachCause, Attaches};

use sr_base::Text;
use sr_database::DatabaseFault;
use sr_site::{MailFault, Site};
use std::alloc::Global;

/// Names the database's files and the mail folder: the empty text where there is none.
pub fn attach<S: Site>(
    alloc: Global,
    name: &Text,
    mail: &Text,
    site: &mut S,
) -> Result<(), DatabaseFault>
    ensures attaches { Attaches name.now mail.now (is_ok result) (S.seen site.old) (S.seen site.new) }
    ensures steady { OnOk result ((S.seen site.new).disk_faults ≡ (S.seen site.old).disk_faults) }
    ensures cause { IfErr result (AttachCause (S.seen site.old) (S.seen site.new)) }
{
    match site.attach(alloc, name, mail) {
        Ok(()) => Ok(()),
        Err(MailFault::Failed) => Err(DatabaseFault::Disk),
        Err(MailFault::Memory) => Err(DatabaseFault::Memory),
    }
}

/// Names the database's files, for a command without mail: `no_mail` is the empty text.
pub fn attach_alone<S: Site>(
    alloc: Global,
    name: &Text,
    no_mail: &Text,
    site: &mut S,
) -> Result<(), DatabaseFault>
    requires no_mail { no_mail.now ≡ [] }
    ensures attaches { Attaches name.now [] (is_ok result) (S.seen site.old) (S.seen site.new) }
    ensures steady { OnOk result ((S.seen site.new).disk_faults ≡ (S.seen site.old).disk_faults) }
    ensures cause { IfErr result (AttachCause (S.seen site.old) (S.seen site.new)) }
{
    attach(alloc, name, no_mail, site)
}
