//! How an expression may be used: whether each column is there, whether it gives a value or a truth, and whether it is plain.

ghost use Rattle.std.specs.Prelude.{◌≡◌, IfOk};
ghost use Rattle.sr_ast.specs.Classes.{class_in, unknown_in};
ghost use Rattle.sr_ast.specs.Exprs.{term_of};
ghost use Rattle.sr_ast.specs.Uses.{gives_value, gives_truth, is_plain, is_plain_unary, is_plain_binary};

use crate::classes::{Class, Columns, NotTyped, Scope, class_by};
use crate::expr::{Expr, Operand};
use crate::operator::{Binary, Unary};
use sr_base::{Name, NoMemory};
use std::alloc::{AllocError, Global};

/// The leftmost column of an expression that is not in the scope.
pub fn unknown_in(alloc: Global, scope: &Scope, expr: &Expr) -> Result<Option<Name>, NoMemory>
    ensures unknown { IfOk result (λ found. found ≡ unknown_in scope.now (term_of expr.now)) }
{
    unknown_among(alloc, scope, expr)
}

/// The same over columns that may be looked up in another way.
pub fn unknown_among<C: Columns>(
    alloc: Global,
    columns: &C,
    expr: &Expr,
) -> Result<Option<Name>, NoMemory>
    ensures unknown { IfOk result (λ found. found ≡ unknown_in (C.scope columns.now) (term_of expr.now)) }
{
    match class_by(alloc, expr, columns) {
        Ok(_) => Ok(None),
        Err(NotTyped::Wrong { name: Some(name) }) => Ok(Some(name)),
        Err(NotTyped::Wrong { name: None }) => Ok(None),
        Err(NotTyped::Memory) => Err(AllocError),
    }
}

/// The class of an expression, if it has one.
pub fn class_in(alloc: Global, scope: &Scope, expr: &Expr) -> Result<Option<Class>, NoMemory>
    ensures class { IfOk result (λ found. found ≡ class_in scope.now (term_of expr.now)) }
{
    class_among(alloc, scope, expr)
}

/// The same over columns that may be looked up in another way.
pub fn class_among<C: Columns>(
    alloc: Global,
    columns: &C,
    expr: &Expr,
) -> Result<Option<Class>, NoMemory>
    ensures class { IfOk result (λ found. found ≡ class_in (C.scope columns.now) (term_of expr.now)) }
{
    match class_by(alloc, expr, columns) {
        Ok(class) => Ok(Some(class)),
        Err(NotTyped::Wrong { name: Some(_) }) => Ok(None),
        Err(NotTyped::Wrong { name: None }) => Ok(None),
        Err(NotTyped::Memory) => Err(AllocError),
    }
}

/// Whether an expression of this class, or of none, may stand where a value is needed.
pub fn gives_value(class: Option<Class>) -> bool
    ensures { result ≡ gives_value class }
{
    match class {
        Some(Class::Truth) => false,
        Some(Class::Number) => true,
        Some(Class::Text) => true,
        Some(Class::Date) => true,
        Some(Class::Any) => true,
        None => false,
    }
}

/// Whether an expression of this class, or of none, may stand where a truth is needed.
pub fn gives_truth(class: Option<Class>) -> bool
    ensures { result ≡ gives_truth class }
{
    match class {
        Some(Class::Truth) => true,
        Some(Class::Any) => true,
        Some(Class::Number) => false,
        Some(Class::Text) => false,
        Some(Class::Date) => false,
        None => false,
    }
}

/// Whether there is no arithmetic in an expression, so that it has a value over each row.
#[cycle(plain)]
pub fn is_plain(expr: &Expr) -> bool
    ensures { result ≡ is_plain (term_of expr.now) }
{
    match expr {
        Expr::Literal(_) => true,
        Expr::Column(_, _) => true,
        Expr::Unary(operator, operand) => { is_plain_unary(*operator) && is_plain_operand(operand) }
        Expr::Binary(operator, left, right) => {
            is_plain_binary(*operator) && is_plain_operand(left) && is_plain_operand(right)
        }
    }
}

#[cycle(plain)]
fn is_plain_operand(operand: &Operand) -> bool
    ensures { result ≡ is_plain operand.now }
{
    is_plain(operand.expr())
}

fn is_plain_unary(operator: Unary) -> bool
    ensures { result ≡ is_plain_unary operator }
{
    match operator {
        Unary::Negate => false,
        Unary::Not => true,
        Unary::IsNull => true,
        Unary::IsNotNull => true,
    }
}

fn is_plain_binary(operator: Binary) -> bool
    ensures { result ≡ is_plain_binary operator }
{
    match operator {
        Binary::Add => false,
        Binary::Subtract => false,
        Binary::Multiply => false,
        Binary::Or => true,
        Binary::And => true,
        Binary::Equal => true,
        Binary::Unequal => true,
        Binary::Less => true,
        Binary::AtMost => true,
        Binary::Greater => true,
        Binary::AtLeast => true,
    }
}
