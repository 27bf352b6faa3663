//! Questions about expressions: what stands in them.

ghost use Rattle.std.specs.Prelude.{◌≡◌, ◌++◌, OnOk};
ghost use Rattle.sr_ast.specs.Exprs.{term_of};
ghost use Rattle.sr_catalog_schema.specs.Expressions.{is_operator, refs};

use sr_ast::{Expr, Operand};
use sr_base::{Copied, Name, NoMemory};
use std::alloc::Global;

/// Whether an expression is an operator and its operands.
pub fn is_operator(expr: &Expr) -> bool
    ensures { result ≡ is_operator (term_of expr.now) }
{
    match expr {
        Expr::Literal(_) => false,
        Expr::Column(_, _) => false,
        Expr::Unary(_, _) => true,
        Expr::Binary(_, _, _) => true,
    }
}

/// Adds the names in an expression, each with what stands before its dot, in the order of the text.
#[cycle(naming)]
pub fn add_refs(
    alloc: Global,
    expr: &Expr,
    found: &mut Vec<(Option<Name>, Name)>,
) -> Result<(), NoMemory>
    ensures ok { OnOk result (found.new.items ≡ found.old.items ++ refs (term_of expr.now)) }
{
    match expr {
        Expr::Literal(_) => Ok(()),
        Expr::Column(alias, name) => {
            found.push((alias.copy(alloc)?, name.copy(alloc)?))?;
            Ok(())
        }
        Expr::Unary(_, operand) => add_operand_refs(alloc, operand, found),
        Expr::Binary(_, left, right) => {
            add_operand_refs(alloc, left, found)?;
            add_operand_refs(alloc, right, found)?;
            Ok(())
        }
    }
}

#[cycle(naming)]
fn add_operand_refs(
    alloc: Global,
    operand: &Operand,
    found: &mut Vec<(Option<Name>, Name)>,
) -> Result<(), NoMemory>
    ensures ok { OnOk result (found.new.items ≡ found.old.items ++ refs operand.now) }
{
    add_refs(alloc, operand.expr(), found)
}
