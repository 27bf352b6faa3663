ghost use Rattle.std.specs.Prelude.{◌≡◌, IfOk};
ghost use Rattle.sr_ast.specs.Exprs.{term_of};

use crate::copying::copy_two;
use crate::operator::{Binary, Unary};
use sr_base::{Copied, Name, NoMemory, Value};
use std::alloc::Global;
use std::marker::Model;

/// How deep an expression may be, how many parentheses may be open in it, and how many IFs of a trigger may stand in one another.
pub const DEEPEST: usize = 200;

/// An expression.
#[cycle(expr)]
#[derive(Drop)]
pub enum Expr {
    /// A number, a text, NULL or a date. A number within 32 bits is an `Int`, and another one a `Big`.
    Literal(Value),
    /// A column, with the alias before its dot, or a variable.
    Column(Option<Name>, Name),
    /// An operator and its operand.
    Unary(Unary, Operand),
    /// An operator between its operands.
    Binary(Binary, Operand, Operand),
}

/// An operand of an expression, which stands in a box. Contracts see it as the term that it is.
#[cycle(expr)]
#[derive(Drop)]
pub struct Operand {
    expr: Box<Expr>,
}

impl Model for Operand {
    ghost use Rattle.sr_ast.specs.Terms.{Term};
    ghost use Rattle.sr_ast.specs.Inner.Terms.{term_code, term_size};

    ghost Value = { Term };

    ghost coded = { term_code };

    ghost use Rattle.sr_ast.specs.Exprs.{term_of};

    ghost view = { λ o. term_of o.expr.value };

    ghost size = { term_size };

    ghost use Rattle.sr_ast.specs.Inner.Falls.{operand_falls};

    ghost size_decreases = { λ o h. operand_falls o.expr.value };
}

impl Operand {
    /// The expression, in a box.
    pub fn new(alloc: Global, expr: Expr) -> Result<Operand, NoMemory>
        ensures term { IfOk result (λ operand. operand ≡ term_of expr) }
    {
        Ok(Operand {
            expr: Box::new(alloc, expr)?,
        })
    }

    /// The expression.
    pub fn expr(&self) -> &Expr
        ensures term { term_of result.now ≡ self.now }
    {
        &self.expr
    }
}

impl Copied for Expr {
    fn copy(&self, alloc: Global) -> Result<Expr, NoMemory> {
        copy_expr(self, alloc)
    }
}

impl Copied for Operand {
    fn copy(&self, alloc: Global) -> Result<Operand, NoMemory> {
        copy_operand(self, alloc)
    }
}

#[cycle(copying)]
fn copy_expr(expr: &Expr, alloc: Global) -> Result<Expr, NoMemory>
    ensures equal { IfOk result (λ copy. copy ≡ expr.now) }
{
    match expr {
        Expr::Literal(value) => Ok(Expr::Literal(value.copy(alloc)?)),
        Expr::Column(table, name) => {
            let (table, name) = copy_two(table, name, alloc)?;
            Ok(Expr::Column(table, name))
        }
        Expr::Unary(operator, operand) => Ok(Expr::Unary(*operator, copy_operand(operand, alloc)?)),
        Expr::Binary(operator, left, right) => Ok(Expr::Binary(
            *operator,
            copy_operand(left, alloc)?,
            copy_operand(right, alloc)?,
        )),
    }
}

#[cycle(copying)]
fn copy_operand(operand: &Operand, alloc: Global) -> Result<Operand, NoMemory>
    ensures equal { IfOk result (λ copy. copy ≡ operand.now) }
{
    Operand::new(alloc, copy_expr(operand.expr(), alloc)?)
}
