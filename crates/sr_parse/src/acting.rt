ghost use Rattle.std.specs.Prelude.{◌<◌, ◌≤◌, length, OnOk, IsTrue, IsFalse};
ghost use Rattle.sr_parse_reader.specs.Inner.Reading.{Reading, Anywhere};
ghost use Rattle.sr_parse_reader.specs.Inner.Productions.{TwoWords, OneAction, Assigned, Inserted};
ghost use Rattle.sr_parse_grammar.specs.Inner.Going.{Stop, Begins, expression_goes, action_starts};
ghost use Rattle.sr_parse_grammar.specs.Triggers.{IsActions};
ghost use Rattle.sr_ast.specs.declared.keyword.Keyword.TheVariants as key;

use sr_ast::{Action, Actions, Expr, Keyword};
use sr_base::{Name, Seq};
use sr_parse_grammar::Sign;
use sr_parse_reader::{Broken, Reader, expr, row};

/// The actions up to END or ELSE, each with its `;`.
#[cycle(acting)]
pub fn actions(reader: &mut Reader, ifs: usize) -> Result<Actions, Broken>
    ensures reads { Reading (IsActions ifs) (Stop action_starts) reader.old reader.new result }
    ensures shorter { length reader.new ≤ length reader.old }
{
    let mut actions = Vec::new(reader.alloc());
    'more: while is_action(reader) {
        let item = action(reader, ifs)?;
        reader.sign(Sign::Semicolon)?;
        actions.push(item)?;
    }
    Ok(Actions::from_vec(actions))
}

/// Whether an action is next.
fn is_action(reader: &Reader) -> bool
    ensures starts { IsTrue result → Begins action_starts reader.now }
    ensures stops { IsFalse result → Stop action_starts reader.now }
{
    reader.is_keyword(Keyword::Set)
        || reader.is_keyword(Keyword::Insert)
        || reader.is_keyword(Keyword::If)
}

#[cycle(acting)]
fn action(reader: &mut Reader, ifs: usize) -> Result<Action, Broken>
    ensures reads { Reading (OneAction ifs) (Stop expression_goes) reader.old reader.new result }
    ensures shorter { length reader.new ≤ length reader.old }
    ensures progress { OnOk result (length reader.new < length reader.old) }
{
    if reader.takes(Keyword::Set) {
        let (alias, name, value) = assigned(reader)?;
        return Ok(Action::Set(alias, name, value));
    }
    if reader.takes(Keyword::Insert) {
        let (table, columns, values) = inserted(reader)?;
        return Ok(Action::Insert(table, columns, values));
    }
    if ifs == 0 {
        return Err(Broken::Refused);
    }
    reader.keyword(Keyword::If)?;
    let condition = expr(reader)?;
    reader.keyword(Keyword::Then)?;
    let taken = actions(reader, ifs - 1)?;
    if reader.takes(Keyword::Else) {
        let other = actions(reader, ifs - 1)?;
        end_if(reader)?;
        return Ok(Action::IfElse(condition, taken, other));
    }
    end_if(reader)?;
    Ok(Action::If(condition, taken))
}

fn end_if(reader: &mut Reader) -> Result<(), Broken>
    ensures reads { Reading (TwoWords key.End key.If) Anywhere reader.old reader.new result }
    ensures shorter { length reader.new ≤ length reader.old }
{
    reader.keyword(Keyword::End)?;
    reader.keyword(Keyword::If)?;
    Ok(())
}

/// Behind SET.
fn assigned(reader: &mut Reader) -> Result<(Option<Name>, Name, Expr), Broken>
    ensures reads { Reading Assigned (Stop expression_goes) reader.old reader.new result }
    ensures shorter { length reader.new ≤ length reader.old }
{
    let (alias, name) = reader.reference()?;
    reader.sign(Sign::Equal)?;
    let value = expr(reader)?;
    Ok((alias, name, value))
}

/// Behind INSERT.
fn inserted(reader: &mut Reader) -> Result<(Name, Seq<Name>, Seq<Expr>), Broken>
    ensures reads { Reading Inserted Anywhere reader.old reader.new result }
    ensures shorter { length reader.new ≤ length reader.old }
{
    reader.keyword(Keyword::Into)?;
    let table = reader.name()?;
    let columns = reader.optional_names()?;
    reader.keyword(Keyword::Values)?;
    let values = row(reader)?;
    Ok((table, columns, values))
}
