//! What a user has of a table.

ghost use Rattle.std.specs.Prelude.{◌≡◌, true, Some, IfOk, filter_map};
ghost use Rattle.std.specs.Option.{option_copied};
ghost use Rattle.sr_ast.specs.Exprs.{term_of};
ghost use Rattle.sr_eval.specs.Meanings.{found_at};
ghost use Rattle.sr_exec_fits.specs.Rows.{IsRow, is_row};
ghost use Rattle.sr_publish.specs.SubscribedTables.{subscribed_table_of, subscribed_table_by, verifies};
ghost use Rattle.sr_publish.specs.Views.{meets, by_value, goes_to, is_in, shown_in};
ghost use Rattle.sr_catalog_schema.specs.Members.{column_name, scope_of};
ghost use Rattle.sr_catalog_schema.specs.Names.{named, place_of};

use crate::articles::{columns_of, places_of, source_of};
use crate::subscribed::Subscribed;
use crate::values::values_at;
use sr_ast::{Expr, Scope, is_meant};
use sr_base::{Copied, Name, NoMemory, Row, Seq, Value};
use sr_catalog::Catalog;
use sr_catalog_ddl::stands_above;
use sr_catalog_schema::{Article, Column, Table, scope_of};
use sr_eval::{Bound, holds_plain};
use sr_exec_fits::is_row;
use std::alloc::Global;
use std::marker::Model;

/// What a user has of a table: the article of the publication that he subscribes to, the values of his subscriptions, and whether he
/// verifies. Contracts see it as a subscribed table.
///
/// It is made for a catalog, and serves as long as that stays. What it tells of a row costs by the row, and not by the subscriptions.
#[derive(Drop)]
pub struct TableView {
    table: Table,
    columns: Seq<Column>,
    places: Seq<usize>,
    condition: Option<Expr>,
    by: Option<Expr>,
    values: Subscribed,
    verifies: bool,
    scope: Scope,
}

impl Model for TableView {
    ghost use Rattle.std.specs.Coded.{codes};
    ghost use Rattle.sr_ast.specs.Inner.Terms.{term_code};
    ghost use Rattle.sr_publish.specs.SubscribedTables.{SubscribedTable};

    ghost Value = { SubscribedTable };

    ghost coded = { Prim.hlevel (codes, term_code) };

    ghost view = { λ v. record {
      table = v.table;
      columns = v.columns;
      places = v.places;
      condition = v.condition;
      by = v.by;
      values = v.values;
      verifies = v.verifies;
    } };

    ghost use Rattle.std.specs.Prelude.{◌≡◌};
    ghost use Rattle.sr_catalog_schema.specs.Members.{scope_of};

    ghost invariant = { λ v. v.scope ≡ scope_of v.table };
}

impl TableView {
    /// What a user has of the table of a name: `None` where there is no such table, or no started subscription of his has it.
    ///
    /// It takes a pass or two over the subscriptions of the catalog.
    #[tactic(auto, unfolding(crate::specs::SubscribedTables::subscribed_table_of))]
    pub fn of(
        alloc: Global,
        catalog: &Catalog,
        user: &Name,
        table: &Name,
    ) -> Result<Option<TableView>, NoMemory>
        ensures subscribed_table { IfOk result (λ found. found ≡ subscribed_table_of catalog.now user.now table.now) }
    {
        let Some(table_there) = catalog.table(table) else {
            return Ok(None);
        };
        match source_of(catalog, user, table) {
            None => Ok(None),
            Some((publication, article)) => {
                let view = TableView::by(alloc, catalog, user, table_there, publication, article)?;
                Ok(Some(view))
            }
        }
    }

    fn by(
        alloc: Global,
        catalog: &Catalog,
        user: &Name,
        table: &Table,
        publication: &Name,
        article: &Article,
    ) -> Result<TableView, NoMemory>
        ensures subscribed_table { IfOk result (λ view. view ≡ subscribed_table_by catalog.now user.now table.now (publication.now, article.now)) }
    {
        let verifies = verifies(catalog, user);
        let values = Subscribed::of(alloc, user, publication, catalog.subscriptions())?;
        match parts_of(alloc, table, article) {
            Ok(((table, scope), (columns, places), (condition, by))) => Ok(TableView {
                table,
                columns,
                places,
                condition,
                by,
                values,
                verifies,
                scope,
            }),
            Err(lack) => {
                drop(values);
                Err(lack)
            }
        }
    }

    /// The table.
    pub fn table(&self) -> &Table
        ensures table { result.now ≡ self.now.table }
    {
        &self.table
    }

    /// The article's columns, in article order.
    pub fn columns(&self) -> &[Column]
        ensures columns { result.now ≡ self.now.columns }
    {
        self.columns.as_slice()
    }

    /// The places of the article's columns in the table.
    pub fn places(&self) -> &[usize]
        ensures places { result.now ≡ self.now.places }
    {
        self.places.as_slice()
    }

    /// Whether an update of a row is told with the old value of every column outside the key, so that he verifies them all.
    pub fn verifies(&self) -> bool
        ensures verifies { result ≡ self.now.verifies }
    {
        self.verifies
    }

    /// Whether a row of the table is one of those that the user has: it fits the table, WHERE is true, and one of his subscriptions has
    /// the value that SUBSCRIBE BY gives. It takes no memory.
    pub fn has(&self, row: &[Value]) -> bool
        ensures has { result ≡ is_in self.now row.now }
    {
        if !is_row(self.table.columns.as_slice(), row) {
            return false;
        }
        self.meets(row) && self.goes(row)
    }

    /// What the user has of a row: the values of the article's columns. `None` where he has not the row.
    pub fn sees(&self, alloc: Global, row: &Row) -> Result<Option<Row>, NoMemory>
        ensures sees { IfOk result (λ found. found ≡ shown_in (Some self.now) row.now) }
    {
        if !self.has(row.values()) {
            return Ok(None);
        }
        let values = values_at(alloc, self.places(), row.values())?;
        Ok(Some(Row::new(alloc, values)?))
    }

    /// Whether a row that fits the table meets the article's WHERE.
    #[tactic(auto, using(crate::proofs::Fitted::row_bound))]
    fn meets(&self, row: &[Value]) -> bool
        requires { IsRow self.now.table.columns row.now }
        ensures meets { result ≡ meets self.now.table self.now.condition row.now }
    {
        match &self.condition {
            None => true,
            Some(condition) => holds_plain(
                condition,
                &Bound {
                    scope: &self.scope,
                    values: row,
                },
            ),
        }
    }

    /// Whether the article's SUBSCRIBE BY gives a row to the user's subscriptions.
    fn goes(&self, row: &[Value]) -> bool
        ensures goes { result ≡ goes_to self.now.table self.now.by self.now.values row.now }
    {
        match &self.by {
            None => true,
            Some(by) => match self.by_value(by, row) {
                None => false,
                Some(value) => self.values.has(value),
            },
        }
    }

    /// The value that a SUBSCRIBE BY gives a row. It takes a pass over the columns.
    fn by_value<'a>(&self, by: &'a Expr, row: &'a [Value]) -> Option<&'a Value>
        ensures value { option_copied result ≡ by_value self.now.table row.now (term_of by.now) }
    {
        match by {
            Expr::Literal(value) => Some(value),
            Expr::Column(alias, name) => found_at(&self.scope, row, alias, name),
            Expr::Unary(_, _) | Expr::Binary(_, _, _) => None,
        }
    }
}

/// Whether a user verifies the old values of all columns: he is above, and the option is On.
fn verifies(catalog: &Catalog, user: &Name) -> bool
    ensures verifies { result ≡ verifies catalog.now user.now }
{
    catalog.verifies() && stands_above(catalog.user(user))
}

type Parts = (
    (Table, Scope),
    (Seq<Column>, Seq<usize>),
    (Option<Expr>, Option<Expr>),
);

/// What is kept of a table and of its article.
fn parts_of(alloc: Global, table: &Table, article: &Article) -> Result<Parts, NoMemory>
    ensures parts { IfOk result (λ parts. parts ≡ (
      (table.now, scope_of table.now),
      (filter_map (λ n. named column_name n table.now.columns) article.now.columns, filter_map (λ n. place_of column_name n table.now.columns) article.now.columns),
      (article.now.condition, article.now.by),
    )) }
{
    let kept = table_with_scope(alloc, table)?;
    match shown_parts_of(alloc, table, article) {
        Ok((columns, conditions)) => Ok((kept, columns, conditions)),
        Err(lack) => {
            drop(kept);
            Err(lack)
        }
    }
}

fn table_with_scope(alloc: Global, table: &Table) -> Result<(Table, Scope), NoMemory>
    ensures kept { IfOk result (λ kept. kept ≡ (table.now, scope_of table.now)) }
{
    let scope = scope_of(alloc, table)?;
    match table.copy(alloc) {
        Ok(table) => Ok((table, scope)),
        Err(lack) => {
            drop(scope);
            Err(lack)
        }
    }
}

/// What is kept of an article.
fn shown_parts_of(
    alloc: Global,
    table: &Table,
    article: &Article,
) -> Result<((Seq<Column>, Seq<usize>), (Option<Expr>, Option<Expr>)), NoMemory>
    ensures parts { IfOk result (λ parts. parts ≡ (
      (filter_map (λ n. named column_name n table.now.columns) article.now.columns, filter_map (λ n. place_of column_name n table.now.columns) article.now.columns),
      (article.now.condition, article.now.by),
    )) }
{
    let conditions = conditions_of(alloc, article)?;
    match columns_with_places(alloc, table, article.columns.as_slice()) {
        Ok(columns) => Ok((columns, conditions)),
        Err(lack) => {
            drop(conditions);
            Err(lack)
        }
    }
}

fn columns_with_places(
    alloc: Global,
    table: &Table,
    names: &[Name],
) -> Result<(Seq<Column>, Seq<usize>), NoMemory>
    ensures columns { IfOk result (λ columns. columns ≡ (filter_map (λ n. named column_name n table.now.columns) names.now, filter_map (λ n. place_of column_name n table.now.columns) names.now)) }
{
    let places = places_of(alloc, table, names)?;
    match columns_of(alloc, table, names) {
        Ok(columns) => Ok((columns, places)),
        Err(lack) => {
            drop(places);
            Err(lack)
        }
    }
}

/// An article's WHERE, and its SUBSCRIBE BY.
fn conditions_of(alloc: Global, article: &Article) -> Result<(Option<Expr>, Option<Expr>), NoMemory>
    ensures conditions { IfOk result (λ conditions. conditions ≡ (article.now.condition, article.now.by)) }
{
    let condition = article.condition.copy(alloc)?;
    match article.by.copy(alloc) {
        Ok(by) => Ok((condition, by)),
        Err(lack) => {
            drop(condition);
            Err(lack)
        }
    }
}

/// The value of the first column that a reference means.
fn found_at<'a>(
    scope: &Scope,
    row: &'a [Value],
    alias: &Option<Name>,
    name: &Name,
) -> Option<&'a Value>
    ensures found { option_copied result ≡ found_at scope.now row.now alias.now name.now }
{
    let mut columns_left = scope.as_slice();
    let mut values_left = row;
    'columns: while let Some((column, columns_after)) = columns_left.split_first() {
        let Some((value, values_after)) = values_left.split_first() else {
            return None;
        };
        if is_meant(&column.0, &column.1, alias, name) {
            return Some(value);
        }
        columns_left = columns_after;
        values_left = values_after;
    }
    None
}
