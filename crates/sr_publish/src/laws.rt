//! What holds of views. Each function does nothing: it carries a law as its clauses.

ghost use Rattle.std.specs.Prelude.{◌≡◌, ◌&&◌, ℕ, List, Some, None, is_some};
ghost use Rattle.std.specs.List.{list_any, AllByRecursion};
ghost use Rattle.sr_ast.specs.declared.stmt.Stmt.TheVariants.{DropTable};
ghost use Rattle.sr_base.specs.declared.value.Value.{Value as Cell};
ghost use Rattle.sr_catalog_change.specs.Changes.{refusal};
ghost use Rattle.sr_exec_dml.specs.Statements.{table_named};
ghost use Rattle.sr_catalog_script_laws.specs.Scripts.{IsMadeByStatements};
ghost use Rattle.sr_catalog_schema.specs.Catalogs.{Lists};
ghost use Rattle.sr_catalog_schema.specs.declared.table.Table.{Table as ATable};
ghost use Rattle.sr_exec_fits.specs.Rows.{is_row};
ghost use Rattle.sr_publish.specs.Inner.Laws.{holds, IsTheSource, HasKey, IsInOrder};
ghost use Rattle.sr_publish.specs.SubscribedTables.{SubscribedTable, subscribed_table_of};
ghost use Rattle.sr_publish.specs.Views.{seen};

/// START takes no second publication of a table for one user: so whichever of his started subscriptions has the table, he has it by that one's
/// publication and article.
pub fn one_article()
    ensures source { (c : Lists) (user table : List ℕ) → IsMadeByStatements c → AllByRecursion (IsTheSource c user table) c.subscriptions }
{}

/// A row is seen exactly where it fits its table and some started subscription of the user holds it: his publication has an article of the table whose
/// WHERE is true of it, and SUBSCRIBE BY, where there is one, gives the subscription's value.
pub fn seen_where_held()
    ensures seen { (c : Lists) (user table : List ℕ) (t : ATable) (row : List Cell) → IsMadeByStatements c → table_named c table ≡ Some t
        → is_some (seen c user table row) ≡ (is_row t.columns row && list_any (holds c user table t row) c.subscriptions) }
{}

/// A table that may be dropped is in no publication, so nobody has it.
pub fn nobody_has_a_dropped_table()
    ensures none { (c : Lists) (user table : List ℕ) → refusal c (DropTable table) ≡ None → subscribed_table_of c user table ≡ None }
{}

/// What every catalog keeps: a table has a key, whose columns are among its own, none twice; and of what a user has of a table the columns are the
/// table's, none twice, with those of its key among them.
pub fn catalogs_are_in_order()
    ensures tables { (c : Lists) (name : List ℕ) (t : ATable) → IsMadeByStatements c → table_named c name ≡ Some t → HasKey t }
    ensures subscribed_tables { (c : Lists) (user table : List ℕ) (s : SubscribedTable) → IsMadeByStatements c → subscribed_table_of c user table ≡ Some s → IsInOrder s }
{}
