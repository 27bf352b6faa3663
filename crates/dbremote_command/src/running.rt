ghost use Rattle.std.specs.Prelude.{◌≡◌, [], true, ℕ, List, Some, IsTrue, IfOk, IfErr, IfSome, OnOk};
ghost use Rattle.std.specs.List.{AllByRecursion};
ghost use Rattle.sr_database.specs.Databases.{HasBeginning};
ghost use Rattle.sr_database.specs.InForce.{HasLogInForce};
ghost use Rattle.sr_ast.specs.NormalForms.{IsNormal};
ghost use Rattle.sr_site.specs.Causes.{DiskStays};
ghost use Rattle.sr_site.specs.Seen.{Seen};
ghost use Rattle.sr_database_meaning.specs.Events.{attaches_in};
ghost use Rattle.dbremote_command.specs.Inner.Kept.{IsKept};
ghost use Rattle.dbremote_command.specs.Outside.{outside, IsAttachTried};
ghost use Rattle.dbremote_command.specs.Running.{IsOpened, IsUntouched, OpenedCause, RanWhole, Stopped, fault_of};
ghost use Rattle.dbremote_command.specs.Inner.Steps.{RanToEnd, RanToFault};

use crate::attaching::attach;
use crate::fault::Fault;
use crate::reading::read_script;
use sr_ast::Script;
use sr_base::Text;
use sr_database::{Database, DatabaseFault};
use sr_session::{SessionFault, run_script};
use sr_site::{Sink, Site, Source};
use std::alloc::Global;

/// Attaches the files of a name and opens the database. Where one is kept open it is what they hold: it is gone on with, and no file is read.
pub(crate) fn open<S: Site>(
    alloc: Global,
    name: &Text,
    mail: &Text,
    kept: Option<Database>,
    site: &mut S,
) -> Result<Database, DatabaseFault>
    requires kept { IfSome kept (λ db. IsKept db (S.seen site.old)) }
    ensures opened { IfOk result (λ db. IsOpened name.now mail.now db (S.seen site.old) (S.seen site.new)) }
    ensures ready { IfOk result (λ db. (db.log.usable ≡ true) × (db.pending ≡ [])) }
    ensures stands { IsTrue (S.seen site.new).observable → IfOk result (λ db. HasLogInForce db (S.seen site.new)) }
    ensures tried { IsAttachTried name.now mail.now (S.seen site.old) (S.seen site.new) }
    ensures untouched { IsUntouched (S.seen site.old) (S.seen site.new) }
    ensures stays { DiskStays (S.seen site.old) (S.seen site.new) }
    ensures cause { IfErr result (OpenedCause (S.seen site.old) (S.seen site.new)) }
{
    match kept {
        Some(database) => go_on(alloc, name, mail, database, site),
        None => open_anew(alloc, name, mail, site),
    }
}

/// Attaches the files of a name and goes on with a database that is open: it is what they hold, and nothing is read.
#[tactic(auto, using(crate::proofs::Opened::attaching))]
fn go_on<S: Site>(
    alloc: Global,
    name: &Text,
    mail: &Text,
    database: Database,
    site: &mut S,
) -> Result<Database, DatabaseFault>
    requires kept { IsKept database (S.seen site.old) }
    ensures opened { IfOk result (λ db. IsOpened name.now mail.now db (S.seen site.old) (S.seen site.new)) }
    ensures ready { IfOk result (λ db. (db.log.usable ≡ true) × (db.pending ≡ [])) }
    ensures stands { IsTrue (S.seen site.new).observable → IfOk result (λ db. HasLogInForce db (S.seen site.new)) }
    ensures tried { IsAttachTried name.now mail.now (S.seen site.old) (S.seen site.new) }
    ensures untouched { IsUntouched (S.seen site.old) (S.seen site.new) }
    ensures stays { DiskStays (S.seen site.old) (S.seen site.new) }
    ensures cause { IfErr result (OpenedCause (S.seen site.old) (S.seen site.new)) }
{
    match attach(alloc, name, mail, site) {
        Ok(()) => Ok(database),
        Err(fault) => {
            drop(database);
            Err(fault)
        }
    }
}

/// Attaches the files of a name and opens the database that they hold.
#[tactic(auto, using(crate::proofs::Opened::attaching))]
fn open_anew<S: Site>(
    alloc: Global,
    name: &Text,
    mail: &Text,
    site: &mut S,
) -> Result<Database, DatabaseFault>
    ensures opened { IfOk result (λ db. IsOpened name.now mail.now db (S.seen site.old) (S.seen site.new)) }
    ensures ready { IfOk result (λ db. (db.log.usable ≡ true) × (db.pending ≡ [])) }
    ensures stands { IsTrue (S.seen site.new).observable → IfOk result (λ db. HasLogInForce db (S.seen site.new)) }
    ensures begins { IsTrue (S.seen site.new).observable → IfOk result (λ db. HasBeginning db (S.seen site.new)) }
    ensures tried { IsAttachTried name.now mail.now (S.seen site.old) (S.seen site.new) }
    ensures untouched { IsUntouched (S.seen site.old) (S.seen site.new) }
    ensures stays { DiskStays (S.seen site.old) (S.seen site.new) }
    ensures cause { IfErr result (OpenedCause (S.seen site.old) (S.seen site.new)) }
{
    match attach(alloc, name, mail, site) {
        Ok(()) => {
            let opened = Database::open(alloc, site);
            match opened {
                Ok(database) => Ok(database),
                Err(fault) => Err(fault),
            }
        }
        Err(fault) => Err(fault),
    }
}

/// Attaches the files of a name and opens the database for the agent: anew, whatever is kept open, where its log is to begin anew.
pub(crate) fn open_for_agent<S: Site>(
    alloc: Global,
    name: &Text,
    mail: &Text,
    restart: bool,
    kept: Option<Database>,
    site: &mut S,
) -> Result<Database, DatabaseFault>
    requires kept { IfSome kept (λ db. IsKept db (S.seen site.old)) }
    ensures opened { IfOk result (λ db. IsOpened name.now mail.now db (S.seen site.old) (S.seen site.new)) }
    ensures ready { IfOk result (λ db. (db.log.usable ≡ true) × (db.pending ≡ [])) }
    ensures stands { IsTrue (S.seen site.new).observable → IfOk result (λ db. HasLogInForce db (S.seen site.new)) }
    ensures begins { IsTrue restart → IsTrue (S.seen site.new).observable → IfOk result (λ db. HasBeginning db (S.seen site.new)) }
    ensures tried { IsAttachTried name.now mail.now (S.seen site.old) (S.seen site.new) }
    ensures untouched { IsUntouched (S.seen site.old) (S.seen site.new) }
    ensures stays { DiskStays (S.seen site.old) (S.seen site.new) }
    ensures cause { IfErr result (OpenedCause (S.seen site.old) (S.seen site.new)) }
{
    if restart {
        drop(kept);
        return open_anew(alloc, name, mail, site);
    }
    open(alloc, name, mail, kept, site)
}

/// Keeps a database open for the next command.
pub(crate) fn keep(kept: &mut Option<Database>, database: Database)
    ensures kept { kept.new ≡ Some database }
{
    let before = kept.replace(database);
    drop(before);
}

/// Attaches the files of a name and opens the database, or goes on with the one that is kept open, for a command without mail: `no_mail` is the
/// empty text.
pub(crate) fn open_alone<S: Site>(
    alloc: Global,
    name: &Text,
    no_mail: &Text,
    kept: Option<Database>,
    site: &mut S,
) -> Result<Database, DatabaseFault>
    requires no_mail { no_mail.now ≡ [] }
    requires kept { IfSome kept (λ db. IsKept db (S.seen site.old)) }
    ensures opened { IfOk result (λ db. IsOpened name.now [] db (S.seen site.old) (S.seen site.new)) }
    ensures ready { IfOk result (λ db. (db.log.usable ≡ true) × (db.pending ≡ [])) }
    ensures stands { IsTrue (S.seen site.new).observable → IfOk result (λ db. HasLogInForce db (S.seen site.new)) }
    ensures tried { IsAttachTried name.now [] (S.seen site.old) (S.seen site.new) }
    ensures untouched { IsUntouched (S.seen site.old) (S.seen site.new) }
    ensures stays { DiskStays (S.seen site.old) (S.seen site.new) }
    ensures cause { IfErr result (OpenedCause (S.seen site.old) (S.seen site.new)) }
{
    open(alloc, name, no_mail, kept, site)
}

/// Runs a script on a database that was opened.
fn run_on<S: Site, O: Sink>(
    alloc: Global,
    database: &mut Database,
    site: &mut S,
    script: &Script,
    output: &mut O,
) -> Result<(), Fault>
    requires usable { database.old.log.usable ≡ true }
    requires pending { database.old.pending ≡ [] }
    requires normal { AllByRecursion IsNormal script.now }
    requires stands { IsTrue (S.seen site.old).observable → HasLogInForce database.old (S.seen site.old) }
    ensures done { OnOk result (RanToEnd database.old database.new (S.seen site.old) (S.seen site.new) (O.seen output.old) (O.seen output.new) script.now) }
    ensures stopped { IfErr result (RanToFault database.old database.new (S.seen site.old) (S.seen site.new) (O.seen output.old) (O.seen output.new) script.now) }
    ensures kept { IsTrue (S.seen site.new).observable → OnOk result (IsKept database.new (S.seen site.new)) }
    ensures attached { IsTrue (S.seen site.old).observable → attaches_in (S.seen site.new).happened ≡ attaches_in (S.seen site.old).happened }
    ensures stays { DiskStays (S.seen site.old) (S.seen site.new) }
{
    match run_script(alloc, database, site, script, output) {
        Ok(_) => Ok(()),
        Err(fault) => Err(fault_of(fault)),
    }
}

/// Reads the whole script and runs it on the database that was opened.
#[tactic(auto, using(crate::proofs::Scripts::script_normal))]
fn read_and_run<S: Site, I: Source, O: Sink>(
    alloc: Global,
    database: &mut Database,
    site: &mut S,
    input: &mut I,
    output: &mut O,
) -> Result<(), Fault>
    requires usable { database.old.log.usable ≡ true }
    requires pending { database.old.pending ≡ [] }
    requires stands { IsTrue (S.seen site.old).observable → HasLogInForce database.old (S.seen site.old) }
    ensures done { (name : List ℕ) (before : Seen) → IsOpened name [] database.old before (S.seen site.old) → OnOk result (RanWhole name (outside before (I.seen input.old) (O.seen output.old)) (outside (S.seen site.new) (I.seen input.new) (O.seen output.new))) }
    ensures stopped { (name : List ℕ) (before : Seen) → IsOpened name [] database.old before (S.seen site.old) → IfErr result (Stopped name (outside before (I.seen input.old) (O.seen output.old)) (outside (S.seen site.new) (I.seen input.new) (O.seen output.new))) }
    ensures kept { IsTrue (S.seen site.new).observable → OnOk result (IsKept database.new (S.seen site.new)) }
    ensures attached { IsTrue (S.seen site.old).observable → attaches_in (S.seen site.new).happened ≡ attaches_in (S.seen site.old).happened }
    ensures stays { DiskStays (S.seen site.old) (S.seen site.new) }
{
    match read_script(alloc, input) {
        Ok(script) => {
            let ran = run_on(alloc, database, site, &script, output);
            drop(script);
            ran
        }
        Err(fault) => Err(fault),
    }
}

/// `sql NAME`: opens the database, reads the whole script and runs it. Where no fault ended it, the database is kept open.
#[tactic(auto, using(sr_site::specs::Inner::Growing::disk_stays_on))]
pub fn run_sql<S: Site, I: Source, O: Sink>(
    alloc: Global,
    name: &Text,
    no_mail: &Text,
    kept: &mut Option<Database>,
    site: &mut S,
    input: &mut I,
    output: &mut O,
) -> Result<(), Fault>
    requires no_mail { no_mail.now ≡ [] }
    requires kept { IfSome kept.old (λ db. IsKept db (S.seen site.old)) }
    ensures done { OnOk result (RanWhole name.now (outside (S.seen site.old) (I.seen input.old) (O.seen output.old)) (outside (S.seen site.new) (I.seen input.new) (O.seen output.new))) }
    ensures stopped { IfErr result (Stopped name.now (outside (S.seen site.old) (I.seen input.old) (O.seen output.old)) (outside (S.seen site.new) (I.seen input.new) (O.seen output.new))) }
    ensures kept { IsTrue (S.seen site.new).observable → IfSome kept.new (λ db. IsKept db (S.seen site.new)) }
    ensures tried { IsAttachTried name.now [] (S.seen site.old) (S.seen site.new) }
    ensures stays { DiskStays (S.seen site.old) (S.seen site.new) }
{
    match open_alone(alloc, name, no_mail, kept.take(), site) {
        Ok(mut database) => {
            let ran = read_and_run(alloc, &mut database, site, input, output);
            match ran {
                Ok(()) => {
                    keep(kept, database);
                    Ok(())
                }
                Err(fault) => {
                    drop(database);
                    Err(fault)
                }
            }
        }
        Err(fault) => Err(Fault::Database(fault)),
    }
}

/// The fault of a script's run.
fn fault_of(fault: SessionFault) -> Fault
    ensures { result ≡ fault_of fault }
{
    match fault {
        SessionFault::Statement { number, fault } => Fault::Statement { number, fault },
        SessionFault::Store(fault) => Fault::Database(fault),
        SessionFault::Sink => Fault::Sink,
        SessionFault::Memory => Fault::Database(DatabaseFault::Memory),
    }
}
