ghost use Rattle.std.specs.Prelude.{◌≡◌, ◌<◌, ◌≤◌, length, OnOk, IfOk, ℕ, List, Ok, Err, Some};
ghost use Rattle.sr_ast.specs.declared.stmt.Stmt.{Stmt as Statement};
ghost use Rattle.sr_parse_reader.specs.Inner.Reading.{Reading, AtEnd, mapped};
ghost use Rattle.sr_parse_reader.specs.Inner.Productions.{Work};
ghost use Rattle.sr_parse_grammar.specs.Scripts.Stage.{closed};
ghost use Rattle.sr_parse_grammar.specs.Inner.Going.{Ends};
ghost use Rattle.sr_parse_grammar.specs.Inner.Faults.{IsRead};
ghost use Rattle.sr_parse_grammar.specs.Places.{IsRefusedAt};
ghost use Rattle.sr_parse_grammar.specs.Meanings.{IsWritten};
ghost use Rattle.sr_parse_grammar.specs.Scripts.{Pieces, IsRest, IsStatement};
ghost use Rattle.sr_parse_grammar.specs.Inner.Scripts.{IsPiece};
ghost use Rattle.sr_parse_grammar.specs.Inner.Symbols.{behind};
ghost use Rattle.sr_parse_grammar.specs.Forms.{words};
ghost use Rattle.sr_parse_grammar.specs.Inner.Forms.{form_at, past};

use crate::creating::{
    consolidated, create_publication, create_table, create_trigger, granted, subscription,
};
use crate::options::option_rule;
use sr_ast::{Dml, Form, Keyword, Script, Stmt};
use sr_base::{Seq, Text};
use sr_lex::LexFault;
use sr_parse_grammar::{ParseFault, Sign};
use sr_parse_reader::{
    Broken, Reader, delete, form_at, insert, passthrough, select, start_behind, symbols, update,
};
use std::alloc::{AllocError, AllocFailed, Global};

/// The statements of a script, each in its normal form.
///
/// Names and key words are read without regard to the case of ASCII letters. `Refused { at }` is the place where `lex` refuses the
/// text; else the first byte of the first token with which no script goes on, or the text's length at its end.
pub fn parse(alloc: Global, text: &Text) -> Result<Script, ParseFault>
    // The text spells the script that is answered.
    ensures sound { IfOk result (λ script. IsWritten text.now script) }
    // It spells no other script.
    ensures only { IfOk result (λ script. (other : List Statement) → IsWritten text.now other → other ≡ script) }
    // A text that spells a script is answered with it, and refused for want of memory alone.
    ensures read { IsRead text.now result }
    // A refusal stands where no token begins, or else at the first token with which no script goes on, or at the end.
    ensures refused { (at : ℕ) → result ≡ Err (ParseFault.Refused at) → IsRefusedAt text.now at }
{
    let symbols = symbols(alloc, text.bytes())?;
    let count = symbols.len();
    let mut reader = Reader::new(alloc, symbols);
    match script(&mut reader) {
        Ok(script) => Ok(script),
        Err(Broken::Memory) => Err(ParseFault::Memory),
        Err(Broken::Refused) => {
            let behind = count.saturating_sub(reader.left());
            match start_behind(alloc, text.bytes(), behind) {
                Ok(at) => Err(ParseFault::Refused { at }),
                Err(_) => Err(ParseFault::Memory),
            }
        }
    }
}

fn script(reader: &mut Reader) -> Result<Script, Broken>
    ensures reads { Reading (Pieces closed) AtEnd reader.old reader.new result }
    ensures end { OnOk result (AtEnd reader.new) }
    ensures shorter { length reader.new ≤ length reader.old }
{
    let mut script = Vec::new(reader.alloc());
    'statements: loop {
        piece(reader, &mut script)?;
        if !reader.takes_sign(Sign::Semicolon) {
            if reader.left() > 0 {
                return Err(Broken::Refused);
            }
            return Ok(Seq::from_vec(script));
        }
    }
}

/// A statement, or nothing before a `;` and at the end.
fn piece(reader: &mut Reader, script: &mut Vec<Stmt>) -> Result<(), Broken>
    ensures reads { Reading (λ before xs after. IsPiece before script.old.items xs after) Ends reader.old reader.new (mapped (λ _. script.new.items) result) }
    ensures shorter { length reader.new ≤ length reader.old }
{
    if reader.left() == 0 || reader.is_sign(Sign::Semicolon) {
        return Ok(());
    }
    let stmt = statement(reader)?;
    script.push(stmt)?;
    Ok(())
}

/// A statement: its words, and what stands behind them.
fn statement(reader: &mut Reader) -> Result<Stmt, Broken>
    ensures reads { Reading IsStatement Ends reader.old reader.new result }
    ensures shorter { length reader.new ≤ length reader.old }
    ensures progress { OnOk result (length reader.new < length reader.old) }
{
    let Some(form) = form_at(reader) else {
        return Err(Broken::Refused);
    };
    take_words(reader, form);
    let stmt = rest(reader, form)?;
    Ok(stmt)
}

/// Takes the words of a statement that begins here.
fn take_words(reader: &mut Reader, form: Form)
    requires { form_at reader.old ≡ Some form }
    ensures rest { reader.new ≡ past (words form).1 (behind reader.old) }
    ensures taken { length reader.new < length reader.old }
{
    reader.skip();
    match form {
        Form::CreateTable
        | Form::DropTable
        | Form::CreatePublication
        | Form::DropPublication
        | Form::GrantRemote
        | Form::CreateTrigger
        | Form::DropTrigger
        | Form::PassthroughStop => reader.skip(),
        _ => {}
    }
}

/// Behind the words of a statement.
#[tactic(auto, using(crate::proofs::FirstWords::made))]
fn rest(reader: &mut Reader, form: Form) -> Result<Stmt, Broken>
    ensures reads { Reading (IsRest form) Ends reader.old reader.new result }
    ensures shorter { length reader.new ≤ length reader.old }
{
    match form {
        Form::CreateTable => Ok(Stmt::CreateTable(create_table(reader)?)),
        Form::DropTable => Ok(Stmt::DropTable(reader.name()?)),
        Form::CreatePublication => Ok(Stmt::CreatePublication(create_publication(reader)?)),
        Form::DropPublication => Ok(Stmt::DropPublication(reader.name()?)),
        Form::GrantRemote => Ok(Stmt::GrantRemote(granted(reader)?)),
        Form::GrantConsolidate => Ok(Stmt::GrantConsolidate(consolidated(reader)?)),
        Form::CreateSubscription => Ok(Stmt::CreateSubscription(subscription(reader)?)),
        Form::StartSubscription => Ok(Stmt::StartSubscription(subscription(reader)?)),
        Form::StopSubscription => Ok(Stmt::StopSubscription(subscription(reader)?)),
        Form::Synchronize => Ok(Stmt::Synchronize(subscription(reader)?)),
        Form::DropSubscription => Ok(Stmt::DropSubscription(subscription(reader)?)),
        Form::CreateTrigger => Ok(Stmt::CreateTrigger(create_trigger(reader)?)),
        Form::DropTrigger => Ok(Stmt::DropTrigger(reader.name()?)),
        Form::SetOption => Ok(Stmt::SetOption(option_rule(reader)?)),
        Form::Insert => Ok(Stmt::Dml(Dml::Insert(insert(reader)?))),
        Form::Update => Ok(Stmt::Dml(Dml::Update(update(reader)?))),
        Form::Delete => Ok(Stmt::Dml(Dml::Delete(delete(reader)?))),
        Form::Select => Ok(Stmt::Select(select(reader)?)),
        Form::Commit => {
            work(reader);
            Ok(Stmt::Commit)
        }
        Form::Rollback => {
            work(reader);
            Ok(Stmt::Rollback)
        }
        Form::Passthrough => Ok(Stmt::Passthrough(passthrough(reader)?)),
        Form::PassthroughStop => Ok(Stmt::PassthroughStop),
    }
}

/// `[WORK]`
fn work(reader: &mut Reader)
    ensures reads { Reading Work Ends reader.old reader.new (Ok result) }
    ensures shorter { length reader.new ≤ length reader.old }
{
    let _ = reader.takes(Keyword::Work);
}
