//! What speaks against CREATE TABLE, and the table that is made.

ghost use Rattle.std.specs.Prelude.{◌≡◌, ◌||◌, nat_eq, nat_le, nat_lt, length, filter_map, map, IfOk};
ghost use Rattle.sr_catalog_schema.specs.Causes.{first_fault};
ghost use Rattle.sr_catalog_schema.specs.Firsts.{where_true, first_absent};
ghost use Rattle.sr_catalog_schema.specs.Names.{place_of, taken};
ghost use Rattle.sr_catalog_ddl.specs.Tables.{taken_or_twice, rule_name, column_of, table_of, create_table_causes};

use sr_ast::{ColumnRule, CreateTable};
use sr_base::{Copied, Name, NoMemory, Seq};
use sr_catalog_schema::{
    Column, DdlFault, Named, Schema, Table, first, first_twice, first_twice_of, is_empty,
    limit_where, owned, too_many_fault, where_true,
};
use std::alloc::Global;

/// The fault that refuses CREATE TABLE. Each is looked for where those before do not hold, in a time linear in the statement.
#[tactic(auto, unfolding(crate::specs::Tables::create_table_causes, sr_catalog_schema::specs::Causes::first_fault))]
pub fn create_table_fault(
    schema: &Schema,
    alloc: Global,
    table: &CreateTable,
) -> Result<Option<DdlFault>, NoMemory>
    ensures { IfOk result (λ fault. fault ≡ first_fault (create_table_causes schema.now table.now)) }
{
    if let Some(name) = exists(schema, alloc, table)? {
        return Ok(Some(DdlFault::Exists { name }));
    }
    if let Some(name) = missing(alloc, table)? {
        return Ok(Some(DdlFault::Missing { name }));
    }
    if let Some(table) = no_key(alloc, table)? {
        return Ok(Some(DdlFault::NoKey { table }));
    }
    let many = is_too_many(schema.tables().len(), table.columns.as_slice().len());
    Ok(too_many_fault(limit_where(many, 256)))
}

fn exists(schema: &Schema, alloc: Global, table: &CreateTable) -> Result<Option<Name>, NoMemory>
    ensures { IfOk result (λ found. found ≡ taken_or_twice schema.now table.now) }
{
    let taken = where_true(schema.has_table(&table.name), &table.name);
    let column = first_twice_of(alloc, table.columns.as_slice())?;
    let key = first_twice(alloc, table.key.as_slice())?;
    owned(alloc, first(taken, first(column, key)))
}

fn missing(alloc: Global, table: &CreateTable) -> Result<Option<Name>, NoMemory>
    ensures { IfOk result (λ found. found ≡ first_absent (λ n. taken rule_name n table.now.columns) table.now.key) }
{
    let columns = Named::firsts_of(alloc, table.columns.as_slice())?;
    owned(alloc, columns.first_absent(table.key.as_slice()))
}

fn no_key(alloc: Global, table: &CreateTable) -> Result<Option<Name>, NoMemory>
    ensures { IfOk result (λ found. found ≡ where_true (nat_eq (length table.now.key) 0) table.now.name) }
{
    owned(
        alloc,
        where_true(is_empty(table.key.as_slice()), &table.name),
    )
}

/// 256 tables already, or more than 256 columns.
fn is_too_many(tables: usize, columns: usize) -> bool
    ensures { result ≡ (nat_le 256 tables || nat_lt 256 columns) }
{
    256 <= tables || 256 < columns
}

/// The table that CREATE TABLE makes.
#[tactic(auto, unfolding(crate::specs::Tables::table_of))]
pub fn table_of(alloc: Global, rule: &CreateTable) -> Result<Table, NoMemory>
    ensures { IfOk result (λ table. table ≡ table_of rule.now) }
{
    Ok(Table {
        name: rule.name.copy(alloc)?,
        key: places_of(alloc, rule.columns.as_slice(), rule.key.as_slice())?,
        columns: columns_of(alloc, rule.columns.as_slice())?,
    })
}

fn columns_of(alloc: Global, rules: &[ColumnRule]) -> Result<Seq<Column>, NoMemory>
    ensures { IfOk result (λ columns. columns ≡ map column_of rules.now) }
{
    let mut columns = Vec::new(alloc);
    let mut rest = rules;
    'rules: while let Some((rule, after)) = rest.split_first() {
        columns.push(Column {
            name: rule.name.copy(alloc)?,
            kind: rule.kind,
            not_null: rule.not_null,
        })?;
        rest = after;
    }
    Ok(Seq::from_vec(columns))
}

fn places_of(alloc: Global, rules: &[ColumnRule], key: &[Name]) -> Result<Seq<usize>, NoMemory>
    ensures { IfOk result (λ places. places ≡ filter_map (λ n. place_of rule_name n rules.now) key.now) }
{
    let mut places = Vec::new(alloc);
    let mut rest = key;
    'key: while let Some((name, after)) = rest.split_first() {
        if let Some(place) = place_of(rules, name) {
            places.push(place)?;
        }
        rest = after;
    }
    Ok(Seq::from_vec(places))
}

fn place_of(rules: &[ColumnRule], name: &Name) -> Option<usize>
    ensures { result ≡ place_of rule_name name.now rules.now }
{
    rules
        .iter()
        .position(|rule| name.bytes() == rule.name.bytes())
}
