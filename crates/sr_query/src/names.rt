ghost use Rattle.std.specs.Prelude.{◌≡◌, ℕ, List, Option, map, bytes_eq};
ghost use Rattle.std.specs.List.{list_any};
ghost use Rattle.sr_base.specs.declared.value.Kind.{Kind as ColumnKind};
ghost use Rattle.sr_ast.specs.Exprs.{term_of};
ghost use Rattle.sr_ast.specs.Classes.{is_meant};
ghost use Rattle.sr_exec_where.specs.Checks.{is_among};
ghost use Rattle.sr_ast.specs.declared.query.Join.{Join as OfJoin};
ghost use Rattle.sr_query.specs.Checks.{means_two, is_ambiguous, are_distinct};
ghost use Rattle.sr_query.specs.Sources.{alias_of, sources_of};

use sr_ast::{Expr, Join, Operand, Select, Source, is_meant};
use sr_base::{Kind, Name};

fn is_same(left: &Name, right: &Name) -> bool
    ensures { result ≡ bytes_eq left.now right.now }
{
    left.bytes() == right.bytes()
}

/// Whether a reference means one of these columns. It looks at each.
fn means_one(columns: &[(Option<Name>, Name, Kind)], table: &Option<Name>, name: &Name) -> bool
    ensures { result ≡ list_any (λ (d : Option (List ℕ) × List ℕ × ColumnKind). is_meant d.0 d.1 table.now name.now) columns.now }
{
    let mut left = columns;
    'columns: while let Some((column, rest)) = left.split_first() {
        if is_meant(&column.0, &column.1, table, name) {
            return true;
        }
        left = rest;
    }
    false
}

/// Whether a reference means two of these columns. It looks at each.
pub(crate) fn means_two(
    columns: &[(Option<Name>, Name, Kind)],
    table: &Option<Name>,
    name: &Name,
) -> bool
    ensures { result ≡ means_two columns.now table.now name.now }
{
    let mut left = columns;
    'columns: while let Some((column, rest)) = left.split_first() {
        if is_meant(&column.0, &column.1, table, name) {
            return means_one(rest, table, name);
        }
        left = rest;
    }
    false
}

/// Whether a reference of an expression means two of these columns.
#[cycle(ambiguity)]
pub(crate) fn is_ambiguous(columns: &[(Option<Name>, Name, Kind)], expr: &Expr) -> bool
    ensures { result ≡ is_ambiguous columns.now (term_of expr.now) }
{
    match expr {
        Expr::Literal(_) => false,
        Expr::Column(table, name) => means_two(columns, table, name),
        Expr::Unary(_, operand) => is_ambiguous_operand(columns, operand),
        Expr::Binary(_, left, right) => {
            is_ambiguous_operand(columns, left) || is_ambiguous_operand(columns, right)
        }
    }
}

#[cycle(ambiguity)]
fn is_ambiguous_operand(columns: &[(Option<Name>, Name, Kind)], operand: &Operand) -> bool
    ensures { result ≡ is_ambiguous columns.now operand.now }
{
    is_ambiguous(columns, operand.expr())
}

/// The name before the dot of a source's columns.
pub(crate) fn alias_of(source: &Source) -> &Name
    ensures { result.now ≡ alias_of source.now }
{
    match &source.alias {
        None => &source.table,
        Some(alias) => alias,
    }
}

/// Whether a source of a JOIN has an alias.
fn is_alias_among(alias: &Name, joins: &[Join]) -> bool
    ensures { result ≡ is_among alias.now (map alias_of (map (λ (j : OfJoin). j.source) joins.now)) }
{
    let mut left = joins;
    'joins: while let Some((join, rest)) = left.split_first() {
        if is_same(alias, alias_of(&join.source)) {
            return true;
        }
        left = rest;
    }
    false
}

/// Whether the sources of the JOINs have different aliases. Each is looked for among those behind it; there are seven at most.
fn are_joins_distinct(joins: &[Join]) -> bool
    ensures { result ≡ are_distinct (map alias_of (map (λ (j : OfJoin). j.source) joins.now)) }
{
    let mut left = joins;
    'joins: while let Some((join, rest)) = left.split_first() {
        if is_alias_among(alias_of(&join.source), rest) {
            return false;
        }
        left = rest;
    }
    true
}

/// Whether no two sources have one alias.
pub(crate) fn are_distinct(select: &Select) -> bool
    ensures { result ≡ are_distinct (map alias_of (sources_of select.now)) }
{
    let joins = select.joins.as_slice();
    !is_alias_among(alias_of(&select.source), joins) && are_joins_distinct(joins)
}
