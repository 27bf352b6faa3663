//! The catalog behind the statements of an entry.

ghost use Rattle.std.specs.Prelude.{◌≡◌, None, Some, is_some, IfOk, IfSome};
ghost use Rattle.std.specs.Option.{option_copied};
ghost use Rattle.sr_ast.specs.NormalForms.{IsNormal};
ghost use Rattle.sr_catalog_change.specs.Changes.{refusal, next};
ghost use Rattle.sr_scan.specs.Inner.Changed.{or_before, LeavesBehind};
ghost use Rattle.sr_scan.specs.Inner.Images.{catalog_behind};
ghost use Rattle.sr_scan.specs.Inner.Meanings.{text_done, IsMeant};

use sr_ast::{Stmt, is_ddl};
use sr_base::{Copied, NoMemory, Text};
use sr_catalog::Catalog;
use sr_logform::{Op, Outcome};
use sr_parse::printed_statement;
use std::alloc::Global;

/// The catalog behind the statement that a text prints: `None` where it stays as it is, since the text prints none, or the statement is on
/// rows or refused.
#[tactic(auto, using(crate::proofs::Behind::behind_none))]
pub(crate) fn behind_text(
    alloc: Global,
    catalog: &Catalog,
    text: &Text,
) -> Result<Option<Catalog>, NoMemory>
    ensures behind { IfOk result (λ after. LeavesBehind catalog.now (Some text.now) after) }
{
    let Some(statement) = meant_by(alloc, text)? else {
        return Ok(None);
    };
    let after = behind(alloc, catalog, &statement);
    drop(statement);
    after
}

/// The statement in normal form that a text prints, if it prints one.
#[tactic(auto, using(crate::proofs::Behind::meant_so))]
pub(crate) fn meant_by(alloc: Global, text: &Text) -> Result<Option<Stmt>, NoMemory>
    ensures meant { IfOk result (λ meant. IsMeant (Some text.now) meant) }
    ensures normal { IfOk result (λ meant. IfSome meant (λ statement. IsNormal statement)) }
{
    printed_statement(alloc, text)
}

/// The catalog behind a statement in normal form: `None` where it stays as it is. It is copied only where it changes.
#[tactic(auto, using(crate::proofs::Behind::rows_only, crate::proofs::Behind::refused, crate::proofs::Behind::accepted, crate::proofs::Behind::not_refused))]
fn behind(alloc: Global, catalog: &Catalog, statement: &Stmt) -> Result<Option<Catalog>, NoMemory>
    requires normal { IsNormal statement.now }
    ensures behind { IfOk result (λ after. or_before after catalog.now ≡ catalog_behind catalog.now (Some statement.now)) }
{
    if !is_ddl(statement) {
        return Ok(None);
    }
    if is_refused(alloc, catalog, statement)? {
        return Ok(None);
    }
    copy_behind(alloc, catalog, statement)
}

/// Whether a catalog refuses a statement.
pub(crate) fn is_refused(
    alloc: Global,
    catalog: &Catalog,
    statement: &Stmt,
) -> Result<bool, NoMemory>
    ensures refused { IfOk result (λ told. told ≡ is_some (refusal catalog.now statement.now)) }
{
    match catalog.refusal(alloc, statement)? {
        None => Ok(false),
        Some(fault) => {
            drop(fault);
            Ok(true)
        }
    }
}

/// A copy of a catalog, behind a statement that it does not refuse.
fn copy_behind(
    alloc: Global,
    catalog: &Catalog,
    statement: &Stmt,
) -> Result<Option<Catalog>, NoMemory>
    requires normal { IsNormal statement.now }
    requires accepted { refusal catalog.now statement.now ≡ None }
    ensures behind { IfOk result (λ after. after ≡ Some (next catalog.now statement.now)) }
{
    let mut after = catalog.copy(alloc)?;
    match after.apply(alloc, statement) {
        Ok(()) => Ok(Some(after)),
        Err(lack) => {
            drop(after);
            Err(lack)
        }
    }
}

/// The text of a statement that ran: that of an Exec that was done.
pub(crate) fn text_done<'a>(op: &'a Op, outcome: &Outcome) -> Option<&'a Text>
    ensures text { option_copied result ≡ text_done op.now outcome.now }
{
    match (op, outcome) {
        (Op::Exec { text }, Outcome::Plain(_)) => Some(text),
        _ => None,
    }
}
