//! The meaning of expressions over columns behind aliases and a variable.

ghost use Rattle.std.specs.Prelude.{◌≡◌, IfOk};
ghost use Rattle.sr_eval.specs.Bounds.{IsRowOf};

use sr_ast::{Class, Delete, Dml, Expr, Stmt, class_of};
use sr_base::{Kind, Name, NoMemory, Seq, Text, Value, name_of};
use sr_base_dates::write_literal;
use sr_eval::{Bound, EvalFault, eval, holds};
use sr_parse::{ParseFault, parse};
use std::alloc::{AllocError, Global};
use test_rows::say;

/// A column or a variable.
type Column = (Option<Name>, Name, Kind);

/// Says what an expression gives as the condition of a DELETE.
pub fn say_given(alloc: Global, condition: &str, out: &mut Vec<u8>) -> Result<(), NoMemory> {
    let script = format!(in alloc; "DELETE FROM t WHERE {condition}")?;
    say_in(alloc, Text::from_string(script)?, out)
}

fn say_in(alloc: Global, script: Text, out: &mut Vec<u8>) -> Result<(), NoMemory> {
    let parsed = parse(alloc, &script);
    drop(script);
    match parsed {
        Ok(statements) => {
            let said = match statements.as_slice() {
                [statement] => say_condition(alloc, statement, out),
                _ => say(out, "not one"),
            };
            drop(statements);
            said
        }
        Err(ParseFault::Refused { .. }) => say(out, "refused"),
        Err(ParseFault::Memory) => Err(AllocError),
    }
}

fn say_condition(alloc: Global, statement: &Stmt, out: &mut Vec<u8>) -> Result<(), NoMemory> {
    match statement {
        Stmt::Dml(
            Dml::Delete(
                Delete {
                    condition: Some(condition),
                    ..
                },
            ),
        ) => say_over_row(alloc, condition, out),
        _ => say(out, "no condition"),
    }
}

fn name_in(alloc: Global, text: &[u8]) -> Result<Name, NoMemory> {
    match name_of(alloc, text) {
        Ok(name) => Ok(name),
        Err(_) => Err(AllocError),
    }
}

/// A column of this kind behind an alias.
fn column(alloc: Global, alias: &[u8], name: &[u8], kind: Kind) -> Result<Column, NoMemory>
    ensures kind { IfOk result (λ column. column.2 ≡ kind) }
{
    let alias = name_in(alloc, alias)?;
    let name = name_in(alloc, name)?;
    Ok((Some(alias), name, kind))
}

/// A variable of this kind.
fn variable(alloc: Global, name: &[u8], kind: Kind) -> Result<Column, NoMemory>
    ensures kind { IfOk result (λ column. column.2 ≡ kind) }
{
    let name = name_in(alloc, name)?;
    Ok((None, name, kind))
}

/// Says what an expression gives over the row.
fn say_over_row(alloc: Global, expr: &Expr, out: &mut Vec<u8>) -> Result<(), NoMemory> {
    let o_i = column(alloc, b"o", b"i", Kind::Int)?;
    let n_i = column(alloc, b"n", b"i", Kind::Big)?;
    let o_d = column(alloc, b"o", b"d", Kind::Date)?;
    let v = variable(alloc, b"v", Kind::Int)?;
    let scope = Seq::from_vec(vec![in alloc; o_i, n_i, o_d, v]?);
    let values = [Value::Int(7), Value::Big(8), Value::Null, Value::Int(-9)];
    let row = Bound {
        scope: &scope,
        values: &values,
    };
    let said = say_value(alloc, expr, &row, out);
    drop(scope);
    said
}

/// Says the value of an expression as a literal, or whether it holds, over a row.
fn say_value(alloc: Global, expr: &Expr, row: &Bound, out: &mut Vec<u8>) -> Result<(), NoMemory>
    requires { IsRowOf row.now.scope.now row.now.values.now }
{
    match class_of(alloc, expr, row.scope) {
        Ok(Class::Truth) => match holds(alloc, expr, row) {
            Ok(held) => say(out, if held { "true" } else { "false" }),
            Err(EvalFault::Overflow) => say(out, "Overflow"),
            Err(EvalFault::Memory) => Err(AllocError),
        },
        Ok(_) => match eval(alloc, expr, row) {
            Ok(found) => {
                let said = write_literal(alloc, &found, out);
                drop(found);
                said
            }
            Err(EvalFault::Overflow) => say(out, "Overflow"),
            Err(EvalFault::Memory) => Err(AllocError),
        },
        Err(_) => say(out, "no class"),
    }
}
