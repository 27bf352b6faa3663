ghost use Rattle.std.specs.Prelude.{◌≡◌, ◌∷◌, ◌++◌, [], List, ℕ, Option, Bool, OnOk, IfOk, codes};
ghost use Rattle.sr_ast.specs.Printing.{names_pieces};
ghost use Rattle.sr_ast.specs.declared.expr.Expr.{Expr};
ghost use Rattle.sr_ast.specs.Pages.{put_all, word, led, listed};
ghost use Rattle.sr_ast.specs.Layout.{
  row_of_exprs_pieces,
  insert_pieces,
  set_pieces,
  update_pieces,
  delete_pieces,
  dml_pieces,
  aggregate_pieces,
  item_pieces,
  items_pieces,
  source_pieces,
  join_pieces,
  order_pieces,
  ordered_pieces,
  select_pieces,
  passthrough_pieces,
  stmt_pieces,
  printed,
};

use crate::page::Page;
use crate::print_action::{print_names, print_parenthesized};
use crate::print_create::print_if;
use crate::print_expr::{print_called, print_column};
use crate::printing::{Printed, print_behind, print_led, print_list, print_row};
use sr_ast::{
    Delete, Dml, Expr, Insert, Item, Items, Join, OrderBy, Passthrough, Select, Source, Stmt,
    Update,
};
use sr_base::{Name, NoMemory, Seq, Text};
use std::alloc::Global;

impl Printed for Seq<Expr> {
    ghost pieces = { row_of_exprs_pieces };

    fn print(&self, page: &mut Page) -> Result<(), NoMemory> {
        print_parenthesized(self.as_slice(), page)
    }
}

/// Prints the columns and rows of an INSERT.
#[tactic(auto, using(crate::proofs::Prints::steps))]
fn print_rows(columns: &[Name], rows: &[Seq<Expr>], page: &mut Page) -> Result<(), NoMemory>
    ensures ok { OnOk result (page.new ≡ put_all page.old (names_pieces columns.now ++ word (codes "VALUES") ∷ listed row_of_exprs_pieces rows.now)) }
{
    print_names(columns, page)?;
    page.word("VALUES")?;
    print_list(rows, page)?;
    Ok(())
}

impl Printed for Insert {
    ghost pieces = { insert_pieces };

    #[tactic(auto, using(crate::proofs::Prints::steps), unfolding(sr_ast::specs::Layout::insert_pieces))]
    fn print(&self, page: &mut Page) -> Result<(), NoMemory> {
        print_behind("INSERT INTO", &self.table, page)?;
        print_rows(self.columns.as_slice(), self.rows.as_slice(), page)?;
        Ok(())
    }
}

impl Printed for (Name, Expr) {
    ghost pieces = { set_pieces };

    #[tactic(auto, using(crate::proofs::Prints::steps), unfolding(sr_ast::specs::Layout::set_pieces))]
    fn print(&self, page: &mut Page) -> Result<(), NoMemory> {
        page.name(&self.0)?;
        print_behind("=", &self.1, page)?;
        Ok(())
    }
}

impl Printed for Update {
    ghost pieces = { update_pieces };

    #[tactic(auto, using(crate::proofs::Prints::steps), unfolding(sr_ast::specs::Layout::update_pieces))]
    fn print(&self, page: &mut Page) -> Result<(), NoMemory> {
        print_behind("UPDATE", &self.table, page)?;
        page.word("SET")?;
        print_list(self.sets.as_slice(), page)?;
        print_led("WHERE", &self.condition, page)?;
        Ok(())
    }
}

impl Printed for Delete {
    ghost pieces = { delete_pieces };

    #[tactic(auto, using(crate::proofs::Prints::steps), unfolding(sr_ast::specs::Layout::delete_pieces))]
    fn print(&self, page: &mut Page) -> Result<(), NoMemory> {
        print_behind("DELETE FROM", &self.table, page)?;
        print_led("WHERE", &self.condition, page)?;
        Ok(())
    }
}

impl Printed for Dml {
    ghost pieces = { dml_pieces };

    #[tactic(auto, unfolding(sr_ast::specs::Layout::dml_pieces))]
    fn print(&self, page: &mut Page) -> Result<(), NoMemory> {
        match self {
            Dml::Insert(insert) => insert.print(page),
            Dml::Update(update) => update.print(page),
            Dml::Delete(delete) => delete.print(page),
        }
    }
}

#[tactic(auto, using(crate::proofs::Prints::steps))]
fn print_aggregate(aggregate: &str, of: &Expr, page: &mut Page) -> Result<(), NoMemory>
    ensures ok { OnOk result (page.new ≡ put_all page.old (aggregate_pieces aggregate.now of.now)) }
{
    page.word(aggregate)?;
    page.call()?;
    of.print(page)?;
    page.close()?;
    Ok(())
}

impl Printed for Item {
    ghost pieces = { item_pieces };

    #[tactic(auto, using(crate::proofs::Prints::steps), unfolding(sr_ast::specs::Layout::item_pieces))]
    fn print(&self, page: &mut Page) -> Result<(), NoMemory> {
        match self {
            Item::Value(expr) => expr.print(page),
            Item::Count => print_called("COUNT", "*", page),
            Item::Sum(of) => print_aggregate("SUM", of, page),
            Item::Min(of) => print_aggregate("MIN", of, page),
            Item::Max(of) => print_aggregate("MAX", of, page),
        }
    }
}

fn print_items(items: &Items, page: &mut Page) -> Result<(), NoMemory>
    ensures ok { OnOk result (page.new ≡ put_all page.old (items_pieces items.now)) }
{
    match items {
        Items::All => page.word("*"),
        Items::Each(items) => print_list(items.as_slice(), page),
    }
}

impl Printed for Source {
    ghost pieces = { source_pieces };

    #[tactic(auto, using(crate::proofs::Prints::steps), unfolding(sr_ast::specs::Layout::source_pieces))]
    fn print(&self, page: &mut Page) -> Result<(), NoMemory> {
        page.name(&self.table)?;
        print_led("AS", &self.alias, page)?;
        Ok(())
    }
}

impl Printed for Join {
    ghost pieces = { join_pieces };

    #[tactic(auto, using(crate::proofs::Prints::steps), unfolding(sr_ast::specs::Layout::join_pieces))]
    fn print(&self, page: &mut Page) -> Result<(), NoMemory> {
        print_behind("JOIN", &self.source, page)?;
        print_behind("ON", &self.condition, page)?;
        Ok(())
    }
}

impl Printed for OrderBy {
    ghost pieces = { order_pieces };

    #[tactic(auto, using(crate::proofs::Prints::steps), unfolding(sr_ast::specs::Layout::order_pieces))]
    fn print(&self, page: &mut Page) -> Result<(), NoMemory> {
        print_column(&self.table, &self.column, page)?;
        print_if(self.descending, "DESC", page)?;
        Ok(())
    }
}

#[tactic(auto, using(crate::proofs::Prints::steps))]
fn print_order(order: &[OrderBy], page: &mut Page) -> Result<(), NoMemory>
    ensures ok { OnOk result (page.new ≡ put_all page.old (ordered_pieces order.now)) }
{
    if order.is_empty() {
        return Ok(());
    }
    page.word("ORDER BY")?;
    print_list(order, page)?;
    Ok(())
}

impl Printed for Select {
    ghost pieces = { select_pieces };

    #[tactic(auto, using(crate::proofs::Prints::steps), unfolding(sr_ast::specs::Layout::select_pieces))]
    fn print(&self, page: &mut Page) -> Result<(), NoMemory> {
        page.word("SELECT")?;
        print_items(&self.items, page)?;
        print_behind("FROM", &self.source, page)?;
        print_row(self.joins.as_slice(), page)?;
        print_led("WHERE", &self.condition, page)?;
        print_order(self.order.as_slice(), page)?;
        Ok(())
    }
}

impl Printed for Passthrough {
    ghost pieces = { passthrough_pieces };

    #[tactic(auto, using(crate::proofs::Prints::steps), unfolding(sr_ast::specs::Layout::passthrough_pieces))]
    fn print(&self, page: &mut Page) -> Result<(), NoMemory> {
        page.word("PASSTHROUGH")?;
        print_if(self.only, "ONLY", page)?;
        page.word("FOR")?;
        print_list(self.users.as_slice(), page)?;
        Ok(())
    }
}

impl Printed for Stmt {
    ghost pieces = { stmt_pieces };

    #[tactic(auto, unfolding(sr_ast::specs::Layout::stmt_pieces))]
    fn print(&self, page: &mut Page) -> Result<(), NoMemory> {
        match self {
            Stmt::CreateTable(create) => create.print(page),
            Stmt::DropTable(name) => print_behind("DROP TABLE", name, page),
            Stmt::CreatePublication(create) => create.print(page),
            Stmt::DropPublication(name) => print_behind("DROP PUBLICATION", name, page),
            Stmt::GrantRemote(grant) => print_behind("GRANT REMOTE TO", grant, page),
            Stmt::GrantConsolidate(grant) => print_behind("GRANT CONSOLIDATE TO", grant, page),
            Stmt::CreateSubscription(rule) => print_behind("CREATE SUBSCRIPTION TO", rule, page),
            Stmt::StartSubscription(rule) => print_behind("START SUBSCRIPTION TO", rule, page),
            Stmt::StopSubscription(rule) => print_behind("STOP SUBSCRIPTION TO", rule, page),
            Stmt::Synchronize(rule) => print_behind("SYNCHRONIZE SUBSCRIPTION TO", rule, page),
            Stmt::DropSubscription(rule) => print_behind("DROP SUBSCRIPTION TO", rule, page),
            Stmt::CreateTrigger(create) => create.print(page),
            Stmt::DropTrigger(name) => print_behind("DROP TRIGGER", name, page),
            Stmt::SetOption(rule) => rule.print(page),
            Stmt::Dml(dml) => dml.print(page),
            Stmt::Select(select) => select.print(page),
            Stmt::Commit => page.word("COMMIT"),
            Stmt::Rollback => page.word("ROLLBACK"),
            Stmt::Passthrough(passthrough) => passthrough.print(page),
            Stmt::PassthroughStop => page.word("PASSTHROUGH STOP"),
        }
    }
}

/// The printed text of a statement, with no `;` at its end.
///
/// Key words are in upper case and names in lower case; one space stands between tokens, but none behind `(`, before `)`, `,` and
/// `;`, around `.`, and between VARCHAR or an aggregate and its `(`. An operand that is itself an operator stands in parentheses.
pub fn print(alloc: Global, stmt: &Stmt) -> Result<Text, NoMemory>
    ensures printed { IfOk result (λ text. text ≡ printed stmt.now) }
{
    let mut page = Page::new(alloc);
    stmt.print(&mut page)?;
    page.into_text()
}
