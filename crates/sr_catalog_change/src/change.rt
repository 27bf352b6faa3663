//! What statements do to a schema, by their kinds.

ghost use Rattle.std.specs.Prelude.{◌≡◌, ◌∷◌, ◌++◌, [], IfOk, OnErr, OnOk};
ghost use Rattle.sr_catalog_change.specs.Changes.{refusal, next};
ghost use Rattle.sr_catalog_ddl.specs.Publications.{publication_of};

use crate::dropping::drop_table_fault;
use sr_ast::{CreatePublication, Stmt};
use sr_base::NoMemory;
use sr_catalog_ddl::{
    create_publication_fault, create_subscription_fault, create_table_fault,
    drop_publication_fault, drop_subscription_fault, grant_fault, options_set, passthrough_fault,
    publication_of, set_option_fault, start_fault, stop_fault, subscription_of, synchronize_fault,
    table_of, user_of,
};
use sr_catalog_schema::{DdlFault, Schema};
use sr_catalog_triggers::{create_trigger_fault, drop_trigger_fault, trigger_of};
use std::alloc::Global;

/// The fault that refuses a statement, where one does: the first that applies, in the order of `DdlFault`; of several places of one
/// fault the leftmost. A later one is not looked for.
#[tactic(auto, unfolding(crate::specs::Changes::refusal, sr_catalog_schema::specs::Causes::first_fault))]
pub fn refusal(schema: &Schema, alloc: Global, stmt: &Stmt) -> Result<Option<DdlFault>, NoMemory>
    ensures refusal { IfOk result (λ fault. fault ≡ refusal schema.now stmt.now) }
{
    match stmt {
        Stmt::CreateTable(rule) => create_table_fault(schema, alloc, rule),
        Stmt::DropTable(name) => drop_table_fault(schema, alloc, name),
        Stmt::CreatePublication(rule) => create_publication_fault(schema, alloc, rule),
        Stmt::DropPublication(name) => drop_publication_fault(schema, alloc, name),
        Stmt::GrantRemote(grant) => grant_fault(schema, alloc, false, grant),
        Stmt::GrantConsolidate(grant) => grant_fault(schema, alloc, true, grant),
        Stmt::CreateSubscription(rule) => create_subscription_fault(schema, alloc, rule),
        Stmt::StartSubscription(rule) => start_fault(schema, alloc, rule),
        Stmt::StopSubscription(rule) => stop_fault(schema, alloc, rule),
        Stmt::Synchronize(rule) => synchronize_fault(schema, alloc, rule),
        Stmt::DropSubscription(rule) => drop_subscription_fault(schema, alloc, rule),
        Stmt::CreateTrigger(rule) => create_trigger_fault(schema, alloc, rule),
        Stmt::DropTrigger(name) => drop_trigger_fault(schema, alloc, name),
        Stmt::SetOption(rule) => set_option_fault(alloc, rule),
        Stmt::Passthrough(rule) => passthrough_fault(schema, alloc, rule.users.as_slice()),
        _ => Ok(None),
    }
}

/// Does to a schema what a statement does that is not refused. Where memory lacks it stays as it was.
///
/// SYNCHRONIZE and PASSTHROUGH FOR leave it as it is, and so does each statement that is not of the catalog.
#[tactic(auto, unfolding(crate::specs::Changes::next))]
pub fn apply(schema: &mut Schema, alloc: Global, stmt: &Stmt) -> Result<(), NoMemory>
    ensures ok { OnOk result (schema.new ≡ next schema.old stmt.now) }
    ensures err { OnErr result (schema.new ≡ schema.old) }
{
    match stmt {
        Stmt::CreateTable(rule) => schema.add_table(alloc, table_of(alloc, rule)?),
        Stmt::DropTable(name) => schema.remove_table(alloc, name),
        Stmt::CreatePublication(rule) => add_publication(schema, alloc, rule),
        Stmt::DropPublication(name) => schema.remove_publication(alloc, name),
        Stmt::GrantRemote(grant) => schema.add_user(alloc, user_of(alloc, false, grant)?),
        Stmt::GrantConsolidate(grant) => schema.add_user(alloc, user_of(alloc, true, grant)?),
        Stmt::CreateSubscription(rule) => schema.add_subscription(
            alloc,
            subscription_of(alloc, rule)?,
        ),
        Stmt::StartSubscription(rule) => schema.mark_subscription(alloc, true, rule),
        Stmt::StopSubscription(rule) => schema.mark_subscription(alloc, false, rule),
        Stmt::DropSubscription(rule) => schema.remove_subscription(alloc, rule),
        Stmt::CreateTrigger(rule) => schema.add_trigger(alloc, trigger_of(alloc, rule)?),
        Stmt::DropTrigger(name) => schema.remove_trigger(alloc, name),
        Stmt::SetOption(rule) => {
            schema.set_options(options_set(rule, schema.options()));
            Ok(())
        }
        _ => Ok(()),
    }
}

/// CREATE PUBLICATION, which takes the columns of an article without columns from its table.
fn add_publication(
    schema: &mut Schema,
    alloc: Global,
    rule: &CreatePublication,
) -> Result<(), NoMemory>
    ensures ok { OnOk result (schema.new ≡ record schema.old { publications = schema.old.publications ++ publication_of schema.old rule.now ∷ [] }) }
    ensures err { OnErr result (schema.new ≡ schema.old) }
{
    let publication = publication_of(schema, alloc, rule)?;
    schema.add_publication(alloc, publication)
}
