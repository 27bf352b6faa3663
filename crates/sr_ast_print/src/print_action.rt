ghost use Rattle.std.specs.Prelude.{◌≡◌, ◌∷◌, ◌++◌, [], map, codes, OnOk};
ghost use Rattle.sr_ast.specs.Actions.{chain_of};
ghost use Rattle.sr_ast.specs.Exprs.{term_of};
ghost use Rattle.sr_ast.specs.Pages.{put_all, word, semicolon, in_parentheses, listed};
ghost use Rattle.sr_ast.specs.Printing.{names_pieces, row_pieces, expr_pieces, chain_pieces};

use crate::page::Page;
use crate::print_expr::print_column;
use crate::printing::{Printed, print_behind, print_list};
use sr_ast::{Action, Actions, Expr};
use sr_base::{Name, NoMemory};

/// Prints names in parentheses, or nothing where there are none.
pub fn print_names(names: &[Name], page: &mut Page) -> Result<(), NoMemory>
    ensures ok { OnOk result (page.new ≡ put_all page.old (names_pieces names.now)) }
{
    if names.is_empty() {
        return Ok(());
    }
    print_parenthesized(names, page)
}

/// Prints one or more in parentheses, with commas between them.
#[tactic(auto, using(crate::proofs::Prints::steps))]
pub fn print_parenthesized<T: Printed>(items: &[T], page: &mut Page) -> Result<(), NoMemory>
    ensures ok { OnOk result (page.new ≡ put_all page.old (in_parentheses (listed T.pieces items.now))) }
{
    page.open()?;
    print_list(items, page)?;
    page.close()?;
    Ok(())
}

/// Prints the actions of a trigger, each with its `;`.
#[cycle(printing_actions)]
pub fn print_actions(actions: &Actions, page: &mut Page) -> Result<(), NoMemory>
    ensures ok { OnOk result (page.new ≡ put_all page.old (chain_pieces actions.now)) }
{
    'actions: for action in actions.as_slice() {
        print_action(action, page)?;
    }
    Ok(())
}

#[cycle(printing_actions)]
#[tactic(auto, using(crate::proofs::Prints::steps))]
fn print_action(action: &Action, page: &mut Page) -> Result<(), NoMemory>
    ensures ok { OnOk result (page.new ≡ put_all page.old (chain_pieces (chain_of (action.now ∷ [])))) }
{
    match action {
        Action::Set(alias, name, value) => print_set(alias, name, value, page),
        Action::Insert(table, columns, values) => {
            print_insert(table, columns.as_slice(), values.as_slice(), page)
        }
        Action::If(condition, taken) => {
            print_condition(condition, page)?;
            print_actions(taken, page)?;
            print_end(page)?;
            Ok(())
        }
        Action::IfElse(condition, taken, other) => {
            print_condition(condition, page)?;
            print_actions(taken, page)?;
            page.word("ELSE")?;
            print_actions(other, page)?;
            print_end(page)?;
            Ok(())
        }
    }
}

/// Prints the head of an IF.
#[tactic(auto, using(crate::proofs::Prints::steps))]
fn print_condition(condition: &Expr, page: &mut Page) -> Result<(), NoMemory>
    ensures ok { OnOk result (page.new ≡ put_all page.old (word (codes "IF") ∷ (expr_pieces condition.now ++ word (codes "THEN") ∷ []))) }
{
    print_behind("IF", condition, page)?;
    page.word("THEN")?;
    Ok(())
}

/// Prints the end of an IF, and its `;`.
fn print_end(page: &mut Page) -> Result<(), NoMemory>
    ensures ok { OnOk result (page.new ≡ put_all page.old (word (codes "END IF") ∷ semicolon ∷ [])) }
{
    page.word("END IF")?;
    page.semicolon()?;
    Ok(())
}

#[tactic(auto, using(crate::proofs::Prints::steps))]
fn print_set(
    alias: &Option<Name>,
    name: &Name,
    value: &Expr,
    page: &mut Page,
) -> Result<(), NoMemory>
    ensures ok { OnOk result (page.new ≡ put_all page.old (chain_pieces (chain_of (Action.Set alias.now name.now value.now ∷ [])))) }
{
    page.word("SET")?;
    print_column(alias, name, page)?;
    print_behind("=", value, page)?;
    page.semicolon()?;
    Ok(())
}

#[tactic(auto, using(crate::proofs::Prints::steps))]
fn print_insert(
    table: &Name,
    columns: &[Name],
    values: &[Expr],
    page: &mut Page,
) -> Result<(), NoMemory>
    ensures ok { OnOk result (page.new ≡ put_all page.old (chain_pieces (chain_of (Action.Insert table.now columns.now values.now ∷ [])))) }
{
    print_behind("INSERT INTO", table, page)?;
    print_inserted(columns, values, page)?;
    Ok(())
}

/// Prints the columns and values of an INSERT, and its `;`.
#[tactic(auto, using(crate::proofs::Prints::steps))]
fn print_inserted(columns: &[Name], values: &[Expr], page: &mut Page) -> Result<(), NoMemory>
    ensures ok { OnOk result (page.new ≡ put_all page.old (names_pieces columns.now ++ word (codes "VALUES") ∷ (row_pieces (map term_of values.now) ++ semicolon ∷ []))) }
{
    print_names(columns, page)?;
    print_values(values, page)?;
    page.semicolon()?;
    Ok(())
}

#[tactic(auto, using(crate::proofs::Prints::rows))]
fn print_values(values: &[Expr], page: &mut Page) -> Result<(), NoMemory>
    ensures ok { OnOk result (page.new ≡ put_all page.old (word (codes "VALUES") ∷ row_pieces (map term_of values.now))) }
{
    page.word("VALUES")?;
    print_parenthesized(values, page)?;
    Ok(())
}
