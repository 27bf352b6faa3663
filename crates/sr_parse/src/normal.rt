//! The normal form of columns: those of the key are NOT NULL.
ghost use Rattle.std.specs.Prelude.{◌≡◌, ◌||◌};
ghost use Rattle.std.specs.BTreeSet.{contains as has};
ghost use Rattle.sr_base.specs.Order.{name_cmp};
ghost use Rattle.sr_parse_reader.specs.Inner.Reading.{Gives};
ghost use Rattle.sr_parse_grammar.specs.Tables.{AreNormal};
ghost use Rattle.sr_parse.specs.Inner.Keys.{IsSetOf};

use sr_ast::ColumnRule;
use sr_base::{Copied, Name};
use sr_parse_reader::Broken;
use std::alloc::Global;
use std::collections::BTreeSet;

/// The columns, each NOT NULL where it is so written and where it is of the key.
pub fn normal(
    alloc: Global,
    written: Vec<ColumnRule>,
    key: &[Name],
) -> Result<Vec<ColumnRule>, Broken>
    ensures normal { Gives result (λ columns. AreNormal key.now written.items columns.items) }
{
    let names = set_of(alloc, key)?;
    let mut left = written;
    let mut columns = Vec::new(alloc);
    'columns: while let Some(column) = left.pop() {
        let marked = marked(column, &names);
        columns.push(marked)?;
    }
    columns.reverse();
    Ok(columns)
}

/// The column, NOT NULL where it is so written and where it is one of the names.
fn marked(column: ColumnRule, names: &BTreeSet<Name>) -> ColumnRule
    ensures name { result.name ≡ column.name }
    ensures kind { result.kind ≡ column.kind }
    ensures not_null { result.not_null ≡ (has name_cmp names.now column.name || column.not_null) }
{
    let is_key = names.contains(&column.name);
    ColumnRule {
        name: column.name,
        kind: column.kind,
        not_null: is_key || column.not_null,
    }
}

/// The names as a set, so that each is found in few steps.
fn set_of(alloc: Global, names: &[Name]) -> Result<BTreeSet<Name>, Broken>
    ensures set { Gives result (λ set. IsSetOf set names.now) }
{
    let mut set = BTreeSet::new(alloc);
    let mut rest = names;
    'names: while let Some((name, after)) = rest.split_first() {
        let copy = name.copy(alloc)?;
        set.insert(copy)?;
        rest = after;
    }
    Ok(set)
}
