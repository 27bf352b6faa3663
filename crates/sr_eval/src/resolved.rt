ghost use Rattle.std.specs.Prelude.{◌≡◌, IfOk};
ghost use Rattle.sr_ast.specs.Exprs.{term_of};
ghost use Rattle.sr_eval.specs.Inner.Resolutions.{at_place, resolved};
ghost use Rattle.sr_eval.specs.Inner.Resolving.{resolution_of, operation_of};

use sr_ast::{Binary, Expr, Operand, Places, Unary};
use sr_base::{Copied, Name, NoMemory, Value};
use std::alloc::Global;
use std::marker::Model;

/// An expression whose names are resolved. It is made once for a statement, so that no name is looked for over a row.
#[cycle(resolved)]
#[derive(Drop)]
pub enum Resolved {
    /// A literal, or NULL for a column that is not there.
    Literal(Value),
    /// The value at a place among those of all sources, one source after the other.
    Place(usize),
    /// An operator with its operands.
    Operated(Boxed),
}

/// An operator with its operands, which stand in one box. Contracts see it as the resolution that it is.
#[cycle(resolved)]
#[derive(Drop)]
pub struct Boxed {
    operation: Box<Operation>,
}

/// An operator with its operands.
#[cycle(resolved)]
#[derive(Drop)]
pub(crate) enum Operation {
    Unary(Unary, Resolved),
    Binary(Binary, Resolved, Resolved),
}

impl Model for Boxed {
    ghost use Rattle.sr_eval.specs.Inner.Resolutions.{Resolution, resolution_code, resolution_size};

    ghost Value = { Resolution };

    ghost coded = { resolution_code };

    ghost use Rattle.sr_eval.specs.Inner.Resolving.{operation_of};

    ghost view = { λ b. operation_of b.operation.value };

    ghost size = { resolution_size };

    ghost use Rattle.sr_eval.specs.Inner.ResolutionFalls.{operands_fall};

    ghost size_decreases = { λ b h. operands_fall b.operation.value };
}

impl Boxed {
    /// The operator with its operands.
    pub(crate) fn operation(&self) -> &Operation
        ensures resolution { operation_of result.now ≡ self.now }
    {
        &self.operation
    }
}

/// An operator with its operands, in a box.
fn operated(alloc: Global, operation: Operation) -> Result<Resolved, NoMemory>
    ensures resolution { IfOk result (λ made. resolution_of made ≡ operation_of operation) }
{
    Ok(Resolved::Operated(Boxed {
        operation: Box::new(alloc, operation)?,
    }))
}

/// Resolves the names of an expression among the columns of all sources. Each name is looked up once, and each operator takes a block of
/// memory.
#[cycle(resolving)]
pub fn resolve<P: Places>(alloc: Global, expr: &Expr, scope: &P) -> Result<Resolved, NoMemory>
    ensures resolved { IfOk result (λ made. resolution_of made ≡ resolved (P.scope scope.now) (term_of expr.now)) }
{
    match expr {
        Expr::Literal(value) => Ok(Resolved::Literal(value.copy(alloc)?)),
        Expr::Column(table, name) => Ok(at_place(scope.place_of(table, name))),
        Expr::Unary(operator, operand) => {
            let operand = resolve_operand(alloc, operand, scope)?;
            operated(alloc, Operation::Unary(*operator, operand))
        }
        Expr::Binary(operator, left, right) => {
            let left = resolve_operand(alloc, left, scope)?;
            let right = resolve_operand(alloc, right, scope)?;
            operated(alloc, Operation::Binary(*operator, left, right))
        }
    }
}

#[cycle(resolving)]
fn resolve_operand<P: Places>(
    alloc: Global,
    operand: &Operand,
    scope: &P,
) -> Result<Resolved, NoMemory>
    ensures resolved { IfOk result (λ made. resolution_of made ≡ resolved (P.scope scope.now) operand.now) }
{
    resolve(alloc, operand.expr(), scope)
}

/// A column at its place; NULL where there is none.
fn at_place(place: Option<usize>) -> Resolved
    ensures { resolution_of result ≡ at_place place }
{
    match place {
        Some(place) => Resolved::Place(place),
        None => Resolved::Literal(Value::Null),
    }
}
