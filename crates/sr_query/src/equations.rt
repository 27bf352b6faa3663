//! The equations of a statement's conditions, made ready once: over combinations of rows no name is looked for.

ghost use Rattle.std.specs.Prelude.{◌≡◌, ◌++◌, map, IfOk, OnOk};
ghost use Rattle.std.specs.Option.{option_map};
ghost use Rattle.sr_ast.specs.Exprs.{term_of};
ghost use Rattle.sr_query.specs.Inner.Equations.{equation_of, equations, equations_in, of_column, of_sides, side_in, side_of};
ghost use Rattle.sr_query.specs.Sources.{conditions_of};

use crate::lists::push;
use sr_ast::{Binary, Expr, Operand, Places, Scope, Select, is_plain};
use sr_base::{NoMemory, Seq, Value};
use std::alloc::Global;

/// A side of an equation: a literal, or the place of a column among those of all sources. No value is copied.
#[derive(Clone, Copy)]
pub(crate) enum Side<'a> {
    Literal(&'a Value),
    Place(usize),
}

/// A column, by its place among those of all sources, and what the conditions make it equal to.
#[derive(Clone, Copy)]
pub(crate) struct Equation<'a> {
    pub place: usize,
    pub other: Side<'a>,
}

/// The equations of the conditions in the order of their tests, up to the first condition with arithmetic. Each name of an equation looks
/// at the columns of all sources up to its own, once for a statement.
#[tactic(auto, using(crate::proofs::Readied::one_more))]
pub(crate) fn equations_of<'a>(
    alloc: Global,
    scope: &Scope,
    select: &'a Select,
) -> Result<Seq<Equation<'a>>, NoMemory>
    ensures equations { IfOk result (λ made. map equation_of made ≡ equations scope.now (conditions_of select.now)) }
{
    let mut made = Vec::new(alloc);
    let mut left = select.joins.as_slice();
    'joins: while let Some((join, rest)) = left.split_first() {
        if !is_plain(&join.condition) {
            return Ok(Seq::from_vec(made));
        }
        add_equations(&mut made, scope, &join.condition)?;
        left = rest;
    }
    let Some(condition) = &select.condition else {
        return Ok(Seq::from_vec(made));
    };
    if is_plain(condition) {
        add_equations(&mut made, scope, condition)?;
    }
    Ok(Seq::from_vec(made))
}

/// Adds the equations of a condition: it looks at each operand of the conjunction.
#[cycle(equating)]
#[tactic(auto, using(crate::proofs::Readied::one_more))]
fn add_equations<'a>(
    made: &mut Vec<Equation<'a>>,
    scope: &Scope,
    expr: &'a Expr,
) -> Result<(), NoMemory>
    ensures ok { OnOk result (map equation_of made.new.items ≡ map equation_of made.old.items ++ equations_in scope.now (term_of expr.now)) }
{
    match expr {
        Expr::Binary(Binary::And, left, right) => {
            add_operand_equations(made, scope, left)?;
            add_operand_equations(made, scope, right)
        }
        Expr::Binary(Binary::Equal, left, right) => {
            add_sides(
                made,
                side_in(scope, left.expr()),
                side_in(scope, right.expr()),
            )
        }
        Expr::Binary(_, _, _) => Ok(()),
        Expr::Unary(_, _) => Ok(()),
        Expr::Column(_, _) => Ok(()),
        Expr::Literal(_) => Ok(()),
    }
}

#[cycle(equating)]
fn add_operand_equations<'a>(
    made: &mut Vec<Equation<'a>>,
    scope: &Scope,
    operand: &'a Operand,
) -> Result<(), NoMemory>
    ensures ok { OnOk result (map equation_of made.new.items ≡ map equation_of made.old.items ++ equations_in scope.now operand.now) }
{
    add_equations(made, scope, operand.expr())
}

/// Adds what two equal sides make each other equal to.
#[tactic(auto, using(crate::proofs::Readied::one_more))]
fn add_sides<'a>(
    made: &mut Vec<Equation<'a>>,
    left: Option<Side<'a>>,
    right: Option<Side<'a>>,
) -> Result<(), NoMemory>
    ensures ok { OnOk result (map equation_of made.new.items ≡ map equation_of made.old.items ++ of_sides (option_map side_of left.entry) (option_map side_of right.entry)) }
{
    let Some(left) = left else {
        return Ok(());
    };
    let Some(right) = right else {
        return Ok(());
    };
    add_side(made, left, right)?;
    add_side(made, right, left)
}

/// Adds what a side is equal to, where it is a column.
#[tactic(auto, using(crate::proofs::Readied::one_more))]
fn add_side<'a>(
    made: &mut Vec<Equation<'a>>,
    side: Side<'a>,
    other: Side<'a>,
) -> Result<(), NoMemory>
    ensures ok { OnOk result (map equation_of made.new.items ≡ map equation_of made.old.items ++ of_column (side_of side.entry) (side_of other.entry)) }
{
    match side {
        Side::Literal(_) => Ok(()),
        Side::Place(place) => push(made, Equation { place, other }),
    }
}

/// A side, where it is a literal or a column. A name looks at the columns up to its own.
fn side_in<'a>(scope: &Scope, expr: &'a Expr) -> Option<Side<'a>>
    ensures { option_map side_of result ≡ side_in scope.now (term_of expr.now) }
{
    match expr {
        Expr::Literal(value) => Some(Side::Literal(value)),
        Expr::Column(table, name) => {
            let place = scope.place_of(table, name)?;
            Some(Side::Place(place))
        }
        Expr::Unary(_, _) => None,
        Expr::Binary(_, _, _) => None,
    }
}
