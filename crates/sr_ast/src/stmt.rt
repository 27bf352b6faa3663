ghost use Rattle.std.specs.Prelude.{◌≡◌};
ghost use Rattle.sr_ast.specs.Statements.{is_ddl, is_carried};
ghost use Rattle.sr_ast.specs.Inner.Statements.{form};

use crate::create::{CreatePublication, CreateTable, CreateTrigger, Grant, SubscriptionRule};
use crate::form::Form;
use crate::options::OptionRule;
use crate::query::{Dml, Select};
use sr_base::{Copied, Name, NoMemory, Seq};
use std::alloc::Global;

/// A statement in its normal form: the forms that printing leaves out are equal to their absence.
#[derive(Drop)]
pub enum Stmt {
    CreateTable(CreateTable),
    DropTable(Name),
    CreatePublication(CreatePublication),
    DropPublication(Name),
    GrantRemote(Grant),
    GrantConsolidate(Grant),
    CreateSubscription(SubscriptionRule),
    StartSubscription(SubscriptionRule),
    StopSubscription(SubscriptionRule),
    Synchronize(SubscriptionRule),
    DropSubscription(SubscriptionRule),
    CreateTrigger(CreateTrigger),
    DropTrigger(Name),
    SetOption(OptionRule),
    Dml(Dml),
    Select(Select),
    Commit,
    Rollback,
    Passthrough(Passthrough),
    PassthroughStop,
}

impl Stmt {
    /// Which statement it is.
    pub fn form(&self) -> Form
        ensures { result ≡ form self.now }
    {
        match self {
            Stmt::CreateTable(_) => Form::CreateTable,
            Stmt::DropTable(_) => Form::DropTable,
            Stmt::CreatePublication(_) => Form::CreatePublication,
            Stmt::DropPublication(_) => Form::DropPublication,
            Stmt::GrantRemote(_) => Form::GrantRemote,
            Stmt::GrantConsolidate(_) => Form::GrantConsolidate,
            Stmt::CreateSubscription(_) => Form::CreateSubscription,
            Stmt::StartSubscription(_) => Form::StartSubscription,
            Stmt::StopSubscription(_) => Form::StopSubscription,
            Stmt::Synchronize(_) => Form::Synchronize,
            Stmt::DropSubscription(_) => Form::DropSubscription,
            Stmt::CreateTrigger(_) => Form::CreateTrigger,
            Stmt::DropTrigger(_) => Form::DropTrigger,
            Stmt::SetOption(_) => Form::SetOption,
            Stmt::Dml(Dml::Insert(_)) => Form::Insert,
            Stmt::Dml(Dml::Update(_)) => Form::Update,
            Stmt::Dml(Dml::Delete(_)) => Form::Delete,
            Stmt::Select(_) => Form::Select,
            Stmt::Commit => Form::Commit,
            Stmt::Rollback => Form::Rollback,
            Stmt::Passthrough(_) => Form::Passthrough,
            Stmt::PassthroughStop => Form::PassthroughStop,
        }
    }
}

/// `PASSTHROUGH ONLY FOR users`
#[derive(Drop)]
pub struct Passthrough {
    pub only: bool,
    pub users: Seq<Name>,
}

/// The statements of a script, in order.
pub type Script = Seq<Stmt>;

/// Whether the statement changes the catalog: it begins with CREATE, DROP, GRANT, SET, START or STOP.
pub fn is_ddl(stmt: &Stmt) -> bool
    ensures { result ≡ is_ddl stmt.now }
{
    match stmt {
        Stmt::CreateTable(_)
        | Stmt::DropTable(_)
        | Stmt::CreatePublication(_)
        | Stmt::DropPublication(_)
        | Stmt::GrantRemote(_)
        | Stmt::GrantConsolidate(_)
        | Stmt::CreateSubscription(_)
        | Stmt::StartSubscription(_)
        | Stmt::StopSubscription(_)
        | Stmt::DropSubscription(_)
        | Stmt::CreateTrigger(_)
        | Stmt::DropTrigger(_)
        | Stmt::SetOption(_) => true,
        _ => false,
    }
}

/// Whether passthrough carries the statement: CREATE and DROP of tables, publications, triggers and subscriptions, START and
/// STOP, INSERT, UPDATE and DELETE.
pub fn is_carried(stmt: &Stmt) -> bool
    ensures { result ≡ is_carried stmt.now }
{
    match stmt {
        Stmt::CreateTable(_)
        | Stmt::DropTable(_)
        | Stmt::CreatePublication(_)
        | Stmt::DropPublication(_)
        | Stmt::CreateSubscription(_)
        | Stmt::StartSubscription(_)
        | Stmt::StopSubscription(_)
        | Stmt::DropSubscription(_)
        | Stmt::CreateTrigger(_)
        | Stmt::DropTrigger(_)
        | Stmt::Dml(_) => true,
        _ => false,
    }
}

impl Copied for Stmt {
    fn copy(&self, alloc: Global) -> Result<Stmt, NoMemory> {
        match self {
            Stmt::CreateTable(create) => Ok(Stmt::CreateTable(create.copy(alloc)?)),
            Stmt::DropTable(name) => Ok(Stmt::DropTable(name.copy(alloc)?)),
            Stmt::CreatePublication(create) => Ok(Stmt::CreatePublication(create.copy(alloc)?)),
            Stmt::DropPublication(name) => Ok(Stmt::DropPublication(name.copy(alloc)?)),
            Stmt::GrantRemote(grant) => Ok(Stmt::GrantRemote(grant.copy(alloc)?)),
            Stmt::GrantConsolidate(grant) => Ok(Stmt::GrantConsolidate(grant.copy(alloc)?)),
            Stmt::CreateSubscription(rule) => Ok(Stmt::CreateSubscription(rule.copy(alloc)?)),
            Stmt::StartSubscription(rule) => Ok(Stmt::StartSubscription(rule.copy(alloc)?)),
            Stmt::StopSubscription(rule) => Ok(Stmt::StopSubscription(rule.copy(alloc)?)),
            Stmt::Synchronize(rule) => Ok(Stmt::Synchronize(rule.copy(alloc)?)),
            Stmt::DropSubscription(rule) => Ok(Stmt::DropSubscription(rule.copy(alloc)?)),
            Stmt::CreateTrigger(create) => Ok(Stmt::CreateTrigger(create.copy(alloc)?)),
            Stmt::DropTrigger(name) => Ok(Stmt::DropTrigger(name.copy(alloc)?)),
            Stmt::SetOption(rule) => Ok(Stmt::SetOption(rule.copy(alloc)?)),
            Stmt::Dml(dml) => Ok(Stmt::Dml(dml.copy(alloc)?)),
            Stmt::Select(select) => Ok(Stmt::Select(select.copy(alloc)?)),
            Stmt::Commit => Ok(Stmt::Commit),
            Stmt::Rollback => Ok(Stmt::Rollback),
            Stmt::Passthrough(passthrough) => Ok(Stmt::Passthrough(passthrough.copy(alloc)?)),
            Stmt::PassthroughStop => Ok(Stmt::PassthroughStop),
        }
    }
}

impl Copied for Passthrough {
    fn copy(&self, alloc: Global) -> Result<Passthrough, NoMemory> {
        Ok(Passthrough {
            only: self.only,
            users: self.users.copy(alloc)?,
        })
    }
}
