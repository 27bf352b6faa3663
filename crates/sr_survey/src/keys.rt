//! The key under which an article gives a row.

ghost use Rattle.std.specs.Prelude.{◌≡◌, IfOk};
ghost use Rattle.std.specs.Option.{option_copied};
ghost use Rattle.sr_ast.specs.Exprs.{term_of};
ghost use Rattle.sr_catalog_schema.specs.Members.{scope_of};
ghost use Rattle.sr_eval.specs.Meanings.{found_at};
ghost use Rattle.sr_exec_fits.specs.Rows.{IsRow};
ghost use Rattle.sr_publish.specs.Views.{meets, by_value};
ghost use Rattle.sr_survey.specs.Inner.Keyed.{key_of_value, key_of_some, key_by, article_key};

use sr_ast::{Expr, Scope, is_meant};
use sr_base::{Copied, Name, NoMemory, Value};
use sr_catalog_schema::{Article, Table};
use sr_eval::{Bound, holds_plain};
use sr_survey_places::Key;
use std::alloc::Global;

/// The key under which an article of a publication gives a row that fits the table: none where WHERE is not true, or SUBSCRIBE BY gives NULL.
pub(crate) fn article_key(
    alloc: Global,
    table: &Table,
    scope: &Scope,
    route: &(Name, Article),
    row: &[Value],
) -> Result<Option<Key>, NoMemory>
    requires row { IsRow table.now.columns row.now }
    requires scope { scope.now ≡ scope_of table.now }
    ensures key { IfOk result (λ key. key ≡ article_key table.now row.now route.now) }
{
    if !meets(table, scope, &route.1.condition, row) {
        return Ok(None);
    }
    key_by(alloc, table, scope, &route.0, &route.1.by, row)
}

/// Whether a row that fits the table meets an article's WHERE.
#[tactic(auto, using(sr_publish::proofs::Fitted::row_bound))]
fn meets(_table: &Table, scope: &Scope, condition: &Option<Expr>, row: &[Value]) -> bool
    requires row { IsRow _table.now.columns row.now }
    requires scope { scope.now ≡ scope_of _table.now }
    ensures meets { result ≡ meets _table.now condition.now row.now }
{
    match condition {
        None => true,
        Some(condition) => holds_plain(condition, &Bound { scope, values: row }),
    }
}

/// The key that SUBSCRIBE BY gives a row; that of the whole publication where there is none.
fn key_by(
    alloc: Global,
    _table: &Table,
    scope: &Scope,
    publication: &Name,
    by: &Option<Expr>,
    row: &[Value],
) -> Result<Option<Key>, NoMemory>
    requires scope { scope.now ≡ scope_of _table.now }
    ensures key { IfOk result (λ key. key ≡ key_by publication.now _table.now by.now row.now) }
{
    match by {
        None => Ok(Some(Key::Whole(publication.copy(alloc)?))),
        Some(by) => match by_value(_table, scope, by, row) {
            None => Ok(None),
            Some(value) => key_of_value(alloc, publication, value),
        },
    }
}

/// The key of a value; none of NULL, which goes to nobody.
fn key_of_value(alloc: Global, publication: &Name, value: &Value) -> Result<Option<Key>, NoMemory>
    ensures key { IfOk result (λ key. key ≡ key_of_value publication.now value.now) }
{
    match value {
        Value::Null => Ok(None),
        Value::Int(number) => Ok(Some(Key::Part(
            publication.copy(alloc)?,
            Value::Big(i64::from(*number)),
        ))),
        Value::Big(_) | Value::Str(_) | Value::Date(_) => Ok(Some(Key::Part(
            publication.copy(alloc)?,
            value.copy(alloc)?,
        ))),
    }
}

/// The value that a SUBSCRIBE BY gives a row. It takes a pass over the columns.
fn by_value<'a>(_table: &Table, scope: &Scope, by: &'a Expr, row: &'a [Value]) -> Option<&'a Value>
    requires scope { scope.now ≡ scope_of _table.now }
    ensures value { option_copied result ≡ by_value _table.now row.now (term_of by.now) }
{
    match by {
        Expr::Literal(value) => Some(value),
        Expr::Column(alias, name) => found_at(scope, row, alias, name),
        Expr::Unary(_, _) | Expr::Binary(_, _, _) => None,
    }
}

/// The value of the first column that a reference means. It takes one pass over the columns.
fn found_at<'a>(
    scope: &Scope,
    row: &'a [Value],
    alias: &Option<Name>,
    name: &Name,
) -> Option<&'a Value>
    ensures found { option_copied result ≡ found_at scope.now row.now alias.now name.now }
{
    let mut columns_left = scope.as_slice();
    let mut values_left = row;
    'columns: while let Some((column, columns_after)) = columns_left.split_first() {
        let Some((value, values_after)) = values_left.split_first() else {
            return None;
        };
        if is_meant(&column.0, &column.1, alias, name) {
            return Some(value);
        }
        columns_left = columns_after;
        values_left = values_after;
    }
    None
}
