ghost use Rattle.std.specs.Prelude.{◌≡◌, ◌++◌, [], IsTrue, IfOk, IfErr, OnOk};
ghost use Rattle.sr_site.specs.Causes.{DiskStays};
ghost use Rattle.dbremote_command.specs.Making.{created_line, IsGuarded, IsMade, MakeCause, StoreCause};
ghost use Rattle.dbremote_command.specs.Outside.{IsAttachTried};

use crate::attaching::attach_alone;
use crate::fault::Fault;
use crate::saying::say_lines;
use sr_base::{Name, NoMemory, Text};
use sr_database::{Database, DatabaseFault};
use sr_site::{Sink, Site};
use std::alloc::Global;

/// `created USER`, with its line feed.
fn created_line(alloc: Global, user: &Name) -> Result<Vec<u8>, NoMemory>
    ensures line { IfOk result (λ line. line.items ≡ created_line user.now) }
{
    let mut line = Vec::from_slice(alloc, b"created ")?;
    line.extend_from_slice(user.bytes())?;
    line.push(b'\n')?;
    Ok(line)
}

/// Makes a fresh database of the files of a name, and answers the line that says so. The memory for the line is taken before anything is made.
#[tactic(auto, using(sr_site::specs::Inner::Growing::disk_stays_on, crate::proofs::Opened::attaching))]
fn make_files<S: Site>(
    alloc: Global,
    name: &Text,
    no_mail: &Text,
    user: &Name,
    site: &mut S,
) -> Result<Vec<u8>, DatabaseFault>
    requires no_mail { no_mail.now ≡ [] }
    ensures line { IfOk result (λ line. line.items ≡ created_line user.now) }
    ensures tried { IsAttachTried name.now [] (S.seen site.old) (S.seen site.new) }
    ensures guarded { IsGuarded user.now (S.seen site.old) (S.seen site.new) }
    ensures made { OnOk result (IsMade name.now user.now (S.seen site.old) (S.seen site.new)) }
    ensures stays { DiskStays (S.seen site.old) (S.seen site.new) }
    ensures cause { IfErr result (StoreCause name.now (S.seen site.old) (S.seen site.new)) }
{
    attach_alone(alloc, name, no_mail, site)?;
    let line = created_line(alloc, user)?;
    Database::create(alloc, site, user)?;
    Ok(line)
}

/// `init NAME USER`: makes a fresh database, and says so.
pub fn make<S: Site, O: Sink>(
    alloc: Global,
    name: &Text,
    no_mail: &Text,
    user: &Name,
    site: &mut S,
    output: &mut O,
) -> Result<(), Fault>
    requires no_mail { no_mail.now ≡ [] }
    ensures tried { IsAttachTried name.now [] (S.seen site.old) (S.seen site.new) }
    ensures guarded { IsGuarded user.now (S.seen site.old) (S.seen site.new) }
    ensures made { OnOk result (IsMade name.now user.now (S.seen site.old) (S.seen site.new)) }
    ensures said { IsTrue (O.seen output.old).observable → OnOk result ((O.seen output.new).taken ≡ (O.seen output.old).taken ++ created_line user.now) }
    ensures steady { OnOk result ((O.seen output.new).faults ≡ (O.seen output.old).faults) }
    ensures stays { DiskStays (S.seen site.old) (S.seen site.new) }
    ensures cause { IfErr result (MakeCause name.now user.now (S.seen site.old) (S.seen site.new) (O.seen output.old) (O.seen output.new)) }
{
    let line = make_files(alloc, name, no_mail, user, site)?;
    say_lines(output, line.as_slice())
}
