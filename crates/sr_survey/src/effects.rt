//! What a statement does to a survey besides its catalog.

ghost use Rattle.std.specs.Prelude.{◌≡◌, ◌≤◌, ◌∷◌, [], ℕ, List, true, max, OnOk, IfOk};
ghost use Rattle.std.specs.List.{All};
ghost use Rattle.sr_ast.specs.declared.stmt.Stmt.TheVariants.{StartSubscription};
ghost use Rattle.sr_book.specs.Entries.{Name as Bytes};
ghost use Rattle.sr_publish.specs.Inner.Numbers.{widened};
ghost use Rattle.sr_survey.specs.Inner.Alike.{touches};
ghost use Rattle.sr_survey.specs.Inner.Effects.{is_for_all, Serves, Touches, TouchesAll, Notes};
ghost use Rattle.sr_survey.specs.Inner.Following.{since_of};
ghost use Rattle.sr_survey.specs.Inner.Keyed.{keys_of};
ghost use Rattle.sr_survey_places.specs.declared.key.Key.{Key as AKey};
ghost use Rattle.sr_survey_places.specs.declared.key.Key.TheVariants.{Whole, Part};

use crate::offices::{add_key, move_since};
use crate::survey::Survey;
use sr_ast::{Stmt, SubscriptionRule};
use sr_base::{Copied, Name, NoMemory, Value};
use sr_survey_places::Key;
use std::alloc::Global;

impl Survey {
    /// Notes what a statement that ends at an offset starts, and whom it may show another catalog.
    #[tactic(auto, using(crate::proofs::Noting::quiet_noted))]
    pub(crate) fn note(&mut self, alloc: Global, statement: &Stmt, at: u64) -> Result<(), NoMemory>
        ensures noted { OnOk result (Notes self.old statement.now at self.new) }
    {
        match statement {
            Stmt::CreateTable(_) => self.note_for_all(statement, at),
            Stmt::DropTable(_) => self.note_for_all(statement, at),
            Stmt::CreatePublication(_) => self.note_for_all(statement, at),
            Stmt::DropPublication(_) => self.note_for_all(statement, at),
            Stmt::SetOption(_) => self.note_for_all(statement, at),
            Stmt::StartSubscription(rule) => self.start(alloc, rule, at),
            Stmt::StopSubscription(rule) => self.touch(alloc, &rule.user, at),
            Stmt::DropSubscription(rule) => self.touch(alloc, &rule.user, at),
            Stmt::GrantConsolidate(grant) => self.touch(alloc, &grant.user, at),
            Stmt::GrantRemote(_)
            | Stmt::CreateSubscription(_)
            | Stmt::Synchronize(_)
            | Stmt::CreateTrigger(_)
            | Stmt::DropTrigger(_)
            | Stmt::Dml(_)
            | Stmt::Select(_)
            | Stmt::Commit
            | Stmt::Rollback
            | Stmt::Passthrough(_)
            | Stmt::PassthroughStop => Ok(()),
        }
    }

    /// Notes that a statement on tables, publications or options may show everybody another catalog.
    fn note_for_all(&mut self, statement: &Stmt, at: u64) -> Result<(), NoMemory>
        requires for_all { is_for_all statement.now ≡ true }
        ensures noted { OnOk result (Notes self.old statement.now at self.new) }
    {
        self.touch_all(at);
        Ok(())
    }

    /// Notes the keys of a subscription that is started, and that its user is shown another catalog.
    #[tactic(auto, using(crate::proofs::Noting::started))]
    fn start(&mut self, alloc: Global, rule: &SubscriptionRule, at: u64) -> Result<(), NoMemory>
        ensures noted { OnOk result (Notes self.old (StartSubscription rule.now) at self.new) }
    {
        self.serve(alloc, &rule.user, &rule.publication, &rule.value)?;
        self.touch(alloc, &rule.user, at)?;
        Ok(())
    }

    /// A statement that ends at an offset may show everybody another catalog.
    pub(crate) fn touch_all(&mut self, at: u64)
        ensures touched { TouchesAll self.old at self.new }
    {
        self.since = later(self.since, at);
    }

    /// A statement that ends at an offset may show a user another catalog.
    #[tactic(auto, using(crate::proofs::Officed::touched_user))]
    fn touch(&mut self, alloc: Global, user: &Name, at: u64) -> Result<(), NoMemory>
        ensures touched { OnOk result (Touches self.old user.now at self.new) }
    {
        move_since(alloc, &mut self.offices, user, at)?;
        Ok(())
    }

    /// Gives a user the keys of a subscription, and begins the places under them.
    #[tactic(auto, using(crate::proofs::Noting::serves_both))]
    pub(crate) fn serve(
        &mut self,
        alloc: Global,
        user: &Name,
        publication: &Name,
        value: &Option<Value>,
    ) -> Result<(), NoMemory>
        ensures served { OnOk result (Serves self.old user.now (keys_of publication.now value.now) self.new) }
    {
        self.serve_whole(alloc, user, publication)?;
        match value {
            None => Ok(()),
            Some(value) => {
                self.serve_value(alloc, user, publication, value)?;
                Ok(())
            }
        }
    }

    fn serve_whole(
        &mut self,
        alloc: Global,
        user: &Name,
        publication: &Name,
    ) -> Result<(), NoMemory>
        ensures served { OnOk result (Serves self.old user.now (Whole publication.now ∷ []) self.new) }
    {
        self.serve_one(alloc, user, Key::Whole(publication.copy(alloc)?))?;
        Ok(())
    }

    fn serve_value(
        &mut self,
        alloc: Global,
        user: &Name,
        publication: &Name,
        value: &Value,
    ) -> Result<(), NoMemory>
        ensures served { OnOk result (Serves self.old user.now (Part publication.now (widened value.now) ∷ []) self.new) }
    {
        let value = widened(alloc, value)?;
        let publication = publication.copy(alloc)?;
        self.serve_one(alloc, user, Key::Part(publication, value))?;
        Ok(())
    }

    fn serve_one(&mut self, alloc: Global, user: &Name, key: Key) -> Result<(), NoMemory>
        ensures served { OnOk result ((k : AKey) → key ≡ k → Serves self.old user.now (k ∷ []) self.new) }
    {
        let served = self.serve_key(alloc, user, &key);
        drop(key);
        served
    }

    #[tactic(auto, using(crate::proofs::Officed::served_key))]
    fn serve_key(&mut self, alloc: Global, user: &Name, key: &Key) -> Result<(), NoMemory>
        ensures served { OnOk result (Serves self.old user.now (key.now ∷ []) self.new) }
    {
        self.places.begin(alloc, key)?;
        add_key(alloc, &mut self.offices, user, key)?;
        Ok(())
    }
}

/// The later of two offsets.
pub(crate) fn later(offset: u64, other: u64) -> u64
    ensures later { result ≡ max offset other }
{
    if offset < other { other } else { offset }
}

/// The value, an INTEGER as a BIGINT.
fn widened(alloc: Global, value: &Value) -> Result<Value, NoMemory>
    ensures value { IfOk result (λ wide. wide ≡ widened value.now) }
{
    match value {
        Value::Int(number) => Ok(Value::Big(i64::from(*number))),
        Value::Null | Value::Big(_) | Value::Str(_) | Value::Date(_) => value.copy(alloc),
    }
}
