//! A survey follows the statements of an entry.

ghost use Rattle.std.specs.Prelude.{◌≡◌, ◌≤◌, ◌∷◌, [], ℕ, Some, None, true, is_some, OnOk, IfOk, IfSome, map};
ghost use Rattle.std.specs.Option.{option_copied};
ghost use Rattle.sr_ast.specs.NormalForms.{IsNormal};
ghost use Rattle.sr_catalog_change.specs.Changes.{refusal};
ghost use Rattle.sr_logform.specs.declared.entry.Entry.TheVariants.{Pass};
ghost use Rattle.sr_scan.specs.Inner.Meanings.{text_done, texts_of, IsMeant};
ghost use Rattle.sr_survey.specs.Inner.Concerning.{runs};
ghost use Rattle.sr_survey.specs.Inner.Following.{Follows};
ghost use Rattle.sr_survey.specs.Inner.Texts.{FollowsTexts};

use crate::chart::Chart;
use crate::entries::has_run;
use crate::survey::Survey;
use sr_ast::Stmt;
use sr_base::{Name, NoMemory, Seq, Text};
use sr_logform::{Change, Entry, Op, Outcome};
use sr_parse::printed_statement;
use std::alloc::Global;

impl Survey {
    /// Follows the statements of an entry that ends at an offset: that of a Ddl, that of a Pass that ran here, and each of a From that ran.
    #[tactic(auto, using(crate::proofs::Followed::follows_nothing))]
    pub(crate) fn follow(&mut self, alloc: Global, entry: &Entry, at: u64) -> Result<(), NoMemory>
        ensures followed { OnOk result (FollowsTexts self.old (texts_of entry.now) at self.new) }
    {
        match entry {
            Entry::Ddl(text) => self.follow_text(alloc, text, at),
            Entry::Pass {
                users,
                only,
                text,
                changes,
            } => self.follow_pass(alloc, users, *only, text, changes, at),
            Entry::From { ops, .. } => self.follow_ops(alloc, ops.as_slice(), at),
            Entry::Own(_) | Entry::Sync { .. } | Entry::Note { .. } => Ok(()),
        }
    }

    /// Follows a statement that is passed on, where it ran here.
    fn follow_pass(
        &mut self,
        alloc: Global,
        _users: &Seq<Name>,
        only: bool,
        text: &Text,
        _changes: &Seq<Change>,
        at: u64,
    ) -> Result<(), NoMemory>
        ensures followed { OnOk result (FollowsTexts self.old (texts_of (Pass _users.now only text.now _changes.now)) at self.new) }
    {
        if only {
            return Ok(());
        }
        self.follow_text(alloc, text, at)
    }

    /// Follows the statements of ops that ran, one after the other, in one pass over the ops.
    fn follow_ops(&mut self, alloc: Global, ops: &[(Op, Outcome)], at: u64) -> Result<(), NoMemory>
        ensures followed { OnOk result (FollowsTexts self.old (map (λ p. text_done p.0 p.1) ops.now) at self.new) }
    {
        let mut left = ops;
        'ops: while let Some((op, rest)) = left.split_first() {
            self.follow_op(alloc, &op.0, &op.1, at)?;
            left = rest;
        }
        Ok(())
    }

    fn follow_op(
        &mut self,
        alloc: Global,
        op: &Op,
        outcome: &Outcome,
        at: u64,
    ) -> Result<(), NoMemory>
        ensures followed { OnOk result (FollowsTexts self.old (text_done op.now outcome.now ∷ []) at self.new) }
    {
        match text_done(op, outcome) {
            None => Ok(()),
            Some(text) => self.follow_text(alloc, text, at),
        }
    }

    /// Follows the statement that a text prints, if it prints one.
    #[tactic(auto, using(crate::proofs::Followed::follows_no_statement, crate::proofs::Followed::follows_statement))]
    fn follow_text(&mut self, alloc: Global, text: &Text, at: u64) -> Result<(), NoMemory>
        ensures followed { OnOk result (FollowsTexts self.old (Some text.now ∷ []) at self.new) }
    {
        let Some(statement) = meant_by(alloc, text)? else {
            return Ok(());
        };
        let followed = self.follow_statement(alloc, &statement, at);
        drop(statement);
        followed
    }

    /// Follows a statement in normal form: it is noted, and the catalog goes on, unless it refuses the statement.
    #[tactic(auto, using(crate::proofs::Followed::refused_followed, crate::proofs::Followed::accepted_followed, sr_scan::proofs::Behind::not_refused))]
    fn follow_statement(&mut self, alloc: Global, statement: &Stmt, at: u64) -> Result<(), NoMemory>
        requires normal { IsNormal statement.now }
        ensures followed { OnOk result (Follows self.old (Some statement.now ∷ []) at self.new) }
    {
        self.note(alloc, statement, at)?;
        if is_refused(alloc, &self.catalog, statement)? {
            return Ok(());
        }
        self.catalog.apply(alloc, statement)?;
        Ok(())
    }
}

/// The statement in normal form that a text prints, if it prints one.
#[tactic(auto, using(sr_scan::proofs::Behind::meant_so))]
fn meant_by(alloc: Global, text: &Text) -> Result<Option<Stmt>, NoMemory>
    ensures meant { IfOk result (λ meant. IsMeant (Some text.now) meant) }
    ensures normal { IfOk result (λ meant. IfSome meant (λ statement. IsNormal statement)) }
{
    printed_statement(alloc, text)
}

/// The text of a statement that ran: that of an Exec that was done.
fn text_done<'a>(op: &'a Op, outcome: &Outcome) -> Option<&'a Text>
    ensures text { option_copied result ≡ text_done op.now outcome.now }
{
    match (op, outcome) {
        (Op::Exec { text }, Outcome::Plain(_)) => Some(text),
        _ => None,
    }
}

/// Whether a catalog refuses a statement.
fn is_refused(alloc: Global, catalog: &Chart, statement: &Stmt) -> Result<bool, NoMemory>
    ensures refused { IfOk result (λ told. told ≡ is_some (refusal catalog.now statement.now)) }
{
    match catalog.catalog().refusal(alloc, statement)? {
        None => Ok(false),
        Some(fault) => {
            drop(fault);
            Ok(true)
        }
    }
}

/// Whether a statement ran in an entry that was taken.
pub(crate) fn runs(entry: &Entry) -> bool
    ensures runs { result ≡ runs entry.now }
{
    match entry {
        Entry::From { ops, .. } => has_run(ops.as_slice()),
        Entry::Own(_)
        | Entry::Ddl(_)
        | Entry::Sync { .. }
        | Entry::Pass { .. }
        | Entry::Note { .. } => false,
    }
}
