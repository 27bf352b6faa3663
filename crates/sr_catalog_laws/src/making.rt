//! What each statement makes of a catalog. The function does nothing: it carries the laws as its clauses.

ghost use Rattle.std.specs.Prelude.{◌≡◌, ◌∷◌, ◌++◌, [], ℕ, List, None, false, true, filter, map, not};
ghost use Rattle.sr_ast.specs.declared.create.CreatePublication.{CreatePublication as Publishing};
ghost use Rattle.sr_ast.specs.declared.create.CreateTable.{CreateTable as Tabling};
ghost use Rattle.sr_ast.specs.declared.create.CreateTrigger.{CreateTrigger as Triggering};
ghost use Rattle.sr_ast.specs.declared.create.Grant.{Grant as Granting};
ghost use Rattle.sr_ast.specs.declared.create.SubscriptionRule.{SubscriptionRule as Rule};
ghost use Rattle.sr_ast.specs.declared.options.OptionRule.{OptionRule as Setting};
ghost use Rattle.sr_ast.specs.declared.query.Dml.{Dml as Changing};
ghost use Rattle.sr_ast.specs.declared.query.Select.{Select as Query};
ghost use Rattle.sr_ast.specs.declared.stmt.Passthrough.{Passthrough as Passing};
ghost use Rattle.sr_ast.specs.declared.stmt.Stmt.TheVariants as stmt;
ghost use Rattle.sr_catalog_change.specs.Changes.{next, refusal};
ghost use Rattle.sr_catalog_ddl.specs.Options.{options_set};
ghost use Rattle.sr_catalog_ddl.specs.Publications.{publication_of};
ghost use Rattle.sr_catalog_ddl.specs.Subscriptions.{is_of, marked, subscription_of};
ghost use Rattle.sr_catalog_ddl.specs.Tables.{table_of};
ghost use Rattle.sr_catalog_ddl.specs.Users.{user_of};
ghost use Rattle.sr_catalog_laws.specs.Inner.Making.{IsTableOf};
ghost use Rattle.sr_catalog_schema.specs.Catalogs.{Lists};
ghost use Rattle.sr_catalog_schema.specs.Members.{publication_name, table_name, trigger_name};
ghost use Rattle.sr_catalog_schema.specs.Names.{without};
ghost use Rattle.sr_catalog_triggers.specs.Triggers.{trigger_of};

/// What each statement makes of a catalog: a CREATE or GRANT adds the last of its kind, a DROP takes away what has the name or the rule, START and
/// STOP mark the subscription of the rule, SET OPTION sets its option, and the others leave the catalog as it is. The table that an accepted CREATE TABLE makes has the
/// columns and the key that are written.
pub fn statements_make()
    ensures create_table { (c : Lists) (t : Tabling) → next c (stmt.CreateTable t) ≡ record c { tables = c.tables ++ table_of t ∷ [] } }
    ensures table { (c : Lists) (t : Tabling) → refusal c (stmt.CreateTable t) ≡ None → IsTableOf t (table_of t) }
    ensures drop_table { (c : Lists) (n : List ℕ) → next c (stmt.DropTable n) ≡ record c { tables = without table_name n c.tables } }
    ensures create_publication { (c : Lists) (p : Publishing) → next c (stmt.CreatePublication p) ≡ record c { publications = c.publications ++ publication_of c p ∷ [] } }
    ensures drop_publication { (c : Lists) (n : List ℕ) → next c (stmt.DropPublication n) ≡ record c { publications = without publication_name n c.publications } }
    ensures grant_remote { (c : Lists) (g : Granting) → next c (stmt.GrantRemote g) ≡ record c { users = c.users ++ user_of false g ∷ [] } }
    ensures grant_consolidate { (c : Lists) (g : Granting) → next c (stmt.GrantConsolidate g) ≡ record c { users = c.users ++ user_of true g ∷ [] } }
    ensures create_subscription { (c : Lists) (r : Rule) → next c (stmt.CreateSubscription r) ≡ record c { subscriptions = c.subscriptions ++ subscription_of r ∷ [] } }
    ensures start { (c : Lists) (r : Rule) → next c (stmt.StartSubscription r) ≡ record c { subscriptions = map (marked true r) c.subscriptions } }
    ensures stop { (c : Lists) (r : Rule) → next c (stmt.StopSubscription r) ≡ record c { subscriptions = map (marked false r) c.subscriptions } }
    ensures drop_subscription { (c : Lists) (r : Rule) → next c (stmt.DropSubscription r) ≡ record c { subscriptions = filter (λ s. not (is_of r s)) c.subscriptions } }
    ensures create_trigger { (c : Lists) (g : Triggering) → next c (stmt.CreateTrigger g) ≡ record c { triggers = c.triggers ++ trigger_of g ∷ [] } }
    ensures drop_trigger { (c : Lists) (n : List ℕ) → next c (stmt.DropTrigger n) ≡ record c { triggers = without trigger_name n c.triggers } }
    ensures set_option { (c : Lists) (o : Setting) → next c (stmt.SetOption o) ≡ record c { options = options_set o c.options } }
    ensures synchronize { (c : Lists) (r : Rule) → next c (stmt.Synchronize r) ≡ c }
    ensures passthrough { (c : Lists) (p : Passing) → next c (stmt.Passthrough p) ≡ c }
    ensures passthrough_stop { (c : Lists) → next c stmt.PassthroughStop ≡ c }
    ensures rows { (c : Lists) (d : Changing) → next c (stmt.Dml d) ≡ c }
    ensures select { (c : Lists) (q : Query) → next c (stmt.Select q) ≡ c }
    ensures commit { (c : Lists) → next c stmt.Commit ≡ c }
    ensures rollback { (c : Lists) → next c stmt.Rollback ≡ c }
{}
