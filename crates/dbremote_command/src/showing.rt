//! `show`: what a database's offsets and books are.

ghost use Rattle.std.specs.Prelude.{◌≡◌, ◌++◌, [], true, IsTrue, IfErr, IfSome, OnOk};
ghost use Rattle.dbremote_command.specs.Shown.{shown};
ghost use Rattle.sr_site.specs.Causes.{DiskStays};
ghost use Rattle.dbremote_command.specs.Inner.Kept.{IsKept};
ghost use Rattle.dbremote_command.specs.Outside.{IsAttachTried};
ghost use Rattle.dbremote_command.specs.Running.{IsUntouched};
ghost use Rattle.dbremote_command.specs.Showing.{HasShown, ShowCause};
ghost use Rattle.dbremote_command.specs.Inner.Showing.{TellCause};

use crate::fault::Fault;
use crate::running::{keep, open_alone};
use crate::saying::say_lines;
use crate::shown_text::shown;
use sr_base::Text;
use sr_database::Database;
use sr_site::{Sink, Site};
use std::alloc::Global;

/// Writes the lines of a database. They are made before the first is written.
fn tell_of<O: Sink>(alloc: Global, database: &Database, output: &mut O) -> Result<(), Fault>
    requires usable { database.now.log.usable ≡ true }
    ensures said { IsTrue (O.seen output.old).observable → OnOk result ((O.seen output.new).taken ≡ (O.seen output.old).taken ++ shown database.now) }
    ensures steady { OnOk result ((O.seen output.new).faults ≡ (O.seen output.old).faults) }
    ensures cause { IfErr result (TellCause (shown database.now) (O.seen output.old) (O.seen output.new)) }
{
    let lines = shown(alloc, database)?;
    say_lines(output, lines.as_slice())
}

/// `show NAME`: opens the database and prints what it is. It commits nothing and changes no file. Where no fault ended it, the database is kept open.
pub fn show<S: Site, O: Sink>(
    alloc: Global,
    name: &Text,
    no_mail: &Text,
    kept: &mut Option<Database>,
    site: &mut S,
    output: &mut O,
) -> Result<(), Fault>
    requires no_mail { no_mail.now ≡ [] }
    requires kept { IfSome kept.old (λ db. IsKept db (S.seen site.old)) }
    ensures shown { OnOk result (HasShown name.now (S.seen site.old) (S.seen site.new) (O.seen output.old) (O.seen output.new)) }
    ensures kept { IsTrue (S.seen site.new).observable → IfSome kept.new (λ db. IsKept db (S.seen site.new)) }
    ensures tried { IsAttachTried name.now [] (S.seen site.old) (S.seen site.new) }
    ensures untouched { IsUntouched (S.seen site.old) (S.seen site.new) }
    ensures stays { DiskStays (S.seen site.old) (S.seen site.new) }
    ensures cause { IfErr result (ShowCause name.now (S.seen site.old) (S.seen site.new) (O.seen output.old) (O.seen output.new)) }
{
    match open_alone(alloc, name, no_mail, kept.take(), site) {
        Ok(database) => {
            let told = tell_of(alloc, &database, output);
            match told {
                Ok(()) => {
                    keep(kept, database);
                    Ok(())
                }
                Err(fault) => {
                    drop(database);
                    Err(fault)
                }
            }
        }
        Err(fault) => Err(Fault::Database(fault)),
    }
}
