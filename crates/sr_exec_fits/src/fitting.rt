//! Whether a row fits columns, as a test.

ghost use Rattle.std.specs.Prelude.{◌≡◌, ◌↔◌, IsTrue};
ghost use Rattle.sr_base.specs.declared.value.Kind.TheVariants.{Varchar};
ghost use Rattle.sr_base.specs.declared.value.Value.TheVariants.{Int, Str};
ghost use Rattle.sr_base_dates.specs.Fitting.{fitted};
ghost use Rattle.sr_exec_fits.specs.Rows.{IsRow, is_kept, is_row, may_hold};

use sr_base::{Kind, Text, Value};
use sr_catalog_schema::Column;
use sr_eval::is_null;

/// Whether a row fits columns: it has one value for each, fitting leaves each as it is, and no NOT NULL column holds NULL.
///
/// It takes one pass over the columns, and no memory.
pub fn is_row(columns: &[Column], row: &[Value]) -> bool
    ensures test { result ≡ is_row columns.now row.now }
    ensures fits { IsTrue result ↔ IsRow columns.now row.now }
{
    let mut columns_left = columns;
    let mut values_left = row;
    'columns: while let Some((column, columns_after)) = columns_left.split_first() {
        let Some((value, values_after)) = values_left.split_first() else {
            return false;
        };
        if !may_hold(column, value) {
            return false;
        }
        columns_left = columns_after;
        values_left = values_after;
    }
    values_left.is_empty()
}

/// Whether a column may hold a value as it is.
fn may_hold(column: &Column, value: &Value) -> bool
    ensures { result ≡ may_hold column.now value.now }
{
    is_kept(value, column.kind) && !(column.not_null && is_null(value))
}

/// Whether fitting leaves a value as it is. It takes no memory.
#[tactic(auto, using(crate::proofs::Kinded::kept))]
fn is_kept(value: &Value, kind: Kind) -> bool
    ensures { result ≡ is_kept (fitted value.now kind) value.now }
{
    match value {
        Value::Null => true,
        Value::Int(number) => is_int_kept(*number, kind),
        Value::Big(_) => match kind {
            Kind::Big => true,
            Kind::Int | Kind::Varchar(_) | Kind::Date => false,
        },
        Value::Str(text) => match kind {
            Kind::Varchar(limit) => is_text_kept(text, limit),
            Kind::Int | Kind::Big | Kind::Date => false,
        },
        Value::Date(_) => match kind {
            Kind::Date => true,
            Kind::Int | Kind::Big | Kind::Varchar(_) => false,
        },
    }
}

/// Whether a column of a type holds an INTEGER as it is.
#[tactic(auto, using(crate::proofs::Kinded::kept))]
fn is_int_kept(number: i32, kind: Kind) -> bool
    ensures { result ≡ is_kept (fitted (Int number) kind) (Int number) }
{
    match kind {
        Kind::Int => true,
        Kind::Big | Kind::Varchar(_) | Kind::Date => false,
    }
}

/// Whether a text column of a limit holds a text as it is.
fn is_text_kept(text: &Text, limit: u16) -> bool
    ensures { result ≡ is_kept (fitted (Str text.now) (Varchar limit)) (Str text.now) }
{
    text.bytes().len() <= usize::from(limit)
}
