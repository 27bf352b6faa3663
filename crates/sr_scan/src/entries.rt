//! What entries give.

ghost use Rattle.std.specs.Prelude.{◌≡◌, ◌++◌, ◌∷◌, [], cond, Some, None, IfOk, OnOk, IfSome, option_map};
ghost use Rattle.std.specs.BTreeMap as tree;
ghost use Rattle.sr_base.specs.Order.{name_cmp};
ghost use Rattle.sr_logform.specs.declared.entry.Entry.TheVariants.{Own, From, Ddl, Sync, Pass, Note as Noted};
ghost use Rattle.sr_logform.specs.declared.op.Op.TheVariants.{Exec};
ghost use Rattle.sr_catalog_schema.specs.Firsts.{first_of, has};
ghost use Rattle.sr_scan.specs.Inner.Changed.{or_before, LeavesBehind, AreTaken, IsTold};
ghost use Rattle.sr_scan.specs.Inner.Images.{op_told, changes_told};
ghost use Rattle.sr_scan.specs.Inner.Meanings.{text_done};
ghost use Rattle.sr_scan.specs.Inner.Views.{AreViews};

use crate::changes::{push, tell_changes};
use crate::columns::has;
use crate::conflicts::tell_op;
use crate::statements::{behind_text, text_done};
use crate::synchronized::tell_tables;
use crate::views::{Views, views_of};
use sr_base::{Copied, Name, NoMemory, Offset, Row, Seq, Text};
use sr_book::Note;
use sr_catalog::Catalog;
use sr_logform::{Change, Entry, Op, Outcome};
use std::alloc::Global;

/// What an entry comes to for a user: its ops, and the catalog behind it where that changes.
#[derive(Drop)]
pub(crate) struct Told {
    pub(crate) ops: Vec<Op>,
    pub(crate) behind: Option<Catalog>,
}

/// A catalog, and what a user has of each of its tables.
#[derive(Drop)]
struct Sight {
    catalog: Catalog,
    views: Views,
}

/// What an entry comes to for a user. It costs by the entry, and more only where a statement changes the catalog.
pub(crate) fn tell_entry(
    alloc: Global,
    catalog: &Catalog,
    views: &Views,
    user: &Name,
    entry: &Entry,
) -> Result<Told, NoMemory>
    requires { AreViews catalog.now user.now views.now }
    ensures told { IfOk result (λ t. IsTold catalog.now entry.now user.now t.ops.items t.behind) }
{
    match entry {
        Entry::Own(changes) => tell_own(alloc, catalog, views, user, changes),
        Entry::From {
            user: from,
            at,
            ops,
        } => { tell_from(alloc, catalog, views, user, from, *at, ops) }
        Entry::Ddl(text) => tell_statement(alloc, catalog, user, text),
        Entry::Sync { user: to, tables } => tell_sync(alloc, catalog, views, user, to, tables),
        Entry::Pass {
            users,
            only,
            text,
            changes,
        } => tell_pass(alloc, catalog, views, user, users, *only, text, changes),
        Entry::Note { user: about, note } => tell_note(alloc, catalog, user, about, note),
    }
}

/// A transaction of this database's own: its changes.
#[tactic(auto, using(crate::proofs::Telling::own_told))]
fn tell_own(
    alloc: Global,
    catalog: &Catalog,
    views: &Views,
    user: &Name,
    changes: &Seq<Change>,
) -> Result<Told, NoMemory>
    requires { AreViews catalog.now user.now views.now }
    ensures told { IfOk result (λ t. IsTold catalog.now (Own changes.now) user.now t.ops.items t.behind) }
{
    let ops = own_ops(alloc, views, changes.as_slice())?;
    Ok(Told { ops, behind: None })
}

/// What changes give that this database made itself.
pub(crate) fn own_ops(alloc: Global, views: &Views, changes: &[Change]) -> Result<Vec<Op>, NoMemory>
    ensures ops { IfOk result (λ ops. ops.items ≡ changes_told (tree.get name_cmp views.now) changes.now) }
{
    let mut ops = Vec::with_capacity(alloc, changes.len())?;
    tell_changes(alloc, views, changes, &mut ops)?;
    Ok(ops)
}

/// A transaction that was taken: op by op, each by the catalog behind those before it.
#[tactic(auto, using(crate::proofs::Telling::from_told))]
fn tell_from(
    alloc: Global,
    catalog: &Catalog,
    views: &Views,
    user: &Name,
    from: &Name,
    at: Offset,
    taken: &Seq<(Op, Outcome)>,
) -> Result<Told, NoMemory>
    requires { AreViews catalog.now user.now views.now }
    ensures told { IfOk result (λ t. IsTold catalog.now (From from.now at taken.now) user.now t.ops.items t.behind) }
{
    let is_origin = from.bytes() == user.bytes();
    tell_taken(alloc, catalog, views, user, is_origin, taken.as_slice())
}

/// A statement on the catalog gives nothing.
#[tactic(auto, using(crate::proofs::Telling::statement_told))]
fn tell_statement(
    alloc: Global,
    catalog: &Catalog,
    _user: &Name,
    text: &Text,
) -> Result<Told, NoMemory>
    ensures told { IfOk result (λ t. IsTold catalog.now (Ddl text.now) _user.now t.ops.items t.behind) }
{
    let behind = behind_text(alloc, catalog, text)?;
    Ok(Told {
        ops: Vec::new(alloc),
        behind,
    })
}

/// A view that was recorded for the user.
#[tactic(auto, using(crate::proofs::Telling::sync_told))]
fn tell_sync(
    alloc: Global,
    catalog: &Catalog,
    views: &Views,
    user: &Name,
    to: &Name,
    tables: &Seq<(Name, Seq<Row>)>,
) -> Result<Told, NoMemory>
    requires { AreViews catalog.now user.now views.now }
    ensures told { IfOk result (λ t. IsTold catalog.now (Sync to.now tables.now) user.now t.ops.items t.behind) }
{
    let mut ops = Vec::new(alloc);
    if to.bytes() == user.bytes() {
        tell_tables(alloc, catalog, user, views, tables.as_slice(), &mut ops)?;
    }
    Ok(Told { ops, behind: None })
}

/// A statement that is passed on: to the users that it names as it is, to another one as the changes that it made here.
#[tactic(auto, using(crate::proofs::Telling::pass_only_told, crate::proofs::Telling::pass_told))]
fn tell_pass(
    alloc: Global,
    catalog: &Catalog,
    views: &Views,
    user: &Name,
    users: &Seq<Name>,
    only: bool,
    text: &Text,
    changes: &Seq<Change>,
) -> Result<Told, NoMemory>
    requires { AreViews catalog.now user.now views.now }
    ensures told { IfOk result (λ t. IsTold catalog.now (Pass users.now only text.now changes.now) user.now t.ops.items t.behind) }
{
    let ops = pass_ops(
        alloc,
        views,
        user,
        users.as_slice(),
        only,
        text,
        changes.as_slice(),
    )?;
    if only {
        return Ok(Told { ops, behind: None });
    }
    let behind = behind_text(alloc, catalog, text)?;
    Ok(Told { ops, behind })
}

fn pass_ops(
    alloc: Global,
    views: &Views,
    user: &Name,
    users: &[Name],
    only: bool,
    text: &Text,
    changes: &[Change],
) -> Result<Vec<Op>, NoMemory>
    ensures ops { IfOk result (λ ops. ops.items ≡ cond (has users.now user.now) (Exec text.now ∷ []) (cond only [] (changes_told (tree.get name_cmp views.now) changes.now))) }
{
    let mut ops = Vec::new(alloc);
    if has(users, user) {
        push(
            &mut ops,
            Op::Exec {
                text: text.copy(alloc)?,
            },
        )?;
        return Ok(ops);
    }
    if !only {
        tell_changes(alloc, views, changes, &mut ops)?;
    }
    Ok(ops)
}

/// A change of a book gives nothing.
#[tactic(auto, using(crate::proofs::Telling::note_told))]
fn tell_note(
    alloc: Global,
    _catalog: &Catalog,
    _user: &Name,
    _about: &Name,
    _note: &Note,
) -> Result<Told, NoMemory>
    ensures told { IfOk result (λ t. IsTold _catalog.now (Noted _about.now _note.now) _user.now t.ops.items t.behind) }
{
    Ok(Told {
        ops: Vec::new(alloc),
        behind: None,
    })
}

/// What ops that were taken give, one after the other.
fn tell_taken(
    alloc: Global,
    catalog: &Catalog,
    views: &Views,
    user: &Name,
    is_origin: bool,
    taken: &[(Op, Outcome)],
) -> Result<Told, NoMemory>
    requires { AreViews catalog.now user.now views.now }
    ensures told { IfOk result (λ t. AreTaken is_origin catalog.now user.now taken.now t.ops.items t.behind) }
{
    let mut ops = Vec::new(alloc);
    let mut sight: Option<Sight> = None;
    let mut left = taken;
    'taken: while let Some((done, rest)) = left.split_first() {
        match tell_done(
            alloc, catalog, views, &sight, user, is_origin, done, &mut ops,
        ) {
            Ok(next) => {
                sight = latest(next, sight);
            }
            Err(lack) => {
                drop(sight);
                drop(ops);
                return Err(lack);
            }
        }
        left = rest;
    }
    let behind = catalog_in(sight);
    Ok(Told { ops, behind })
}

/// The sight behind a statement, or else the one before it.
fn latest(next: Option<Sight>, sight: Option<Sight>) -> Option<Sight>
    ensures { result ≡ first_of next sight }
{
    match next {
        Some(next) => {
            drop(sight);
            Some(next)
        }
        None => sight,
    }
}

fn catalog_in(sight: Option<Sight>) -> Option<Catalog>
    ensures { result ≡ option_map (λ s. s.catalog) sight }
{
    match sight {
        None => None,
        Some(sight) => Some(sight.catalog),
    }
}

/// Adds what an op gives that was taken, by the catalog in force; the one behind it where a statement changes it.
fn tell_done(
    alloc: Global,
    catalog: &Catalog,
    views: &Views,
    sight: &Option<Sight>,
    user: &Name,
    is_origin: bool,
    done: &(Op, Outcome),
    ops: &mut Vec<Op>,
) -> Result<Option<Sight>, NoMemory>
    requires views { AreViews catalog.now user.now views.now }
    requires sight { IfSome sight.now (λ s. AreViews s.catalog user.now s.views) }
    ensures told { OnOk result (ops.new.items ≡ ops.old.items ++ op_told is_origin (or_before (option_map (λ s. s.catalog) sight.now) catalog.now) user.now done.now.0 done.now.1) }
    ensures behind { IfOk result (λ next. LeavesBehind (or_before (option_map (λ s. s.catalog) sight.now) catalog.now) (text_done done.now.0 done.now.1) (option_map (λ s. s.catalog) next)) }
    ensures sight { IfOk result (λ next. IfSome next (λ s. AreViews s.catalog user.now s.views)) }
{
    match sight {
        None => tell_one(alloc, catalog, views, user, is_origin, done, ops),
        Some(sight) => tell_one(
            alloc,
            &sight.catalog,
            &sight.views,
            user,
            is_origin,
            done,
            ops,
        ),
    }
}

#[tactic(auto, using(crate::proofs::Behind::behind_nothing))]
fn tell_one(
    alloc: Global,
    catalog: &Catalog,
    views: &Views,
    user: &Name,
    is_origin: bool,
    done: &(Op, Outcome),
    ops: &mut Vec<Op>,
) -> Result<Option<Sight>, NoMemory>
    requires { AreViews catalog.now user.now views.now }
    ensures told { OnOk result (ops.new.items ≡ ops.old.items ++ op_told is_origin catalog.now user.now done.now.0 done.now.1) }
    ensures behind { IfOk result (λ next. LeavesBehind catalog.now (text_done done.now.0 done.now.1) (option_map (λ s. s.catalog) next)) }
    ensures sight { IfOk result (λ next. IfSome next (λ s. AreViews s.catalog user.now s.views)) }
{
    tell_op(
        alloc, catalog, views, user, is_origin, &done.0, &done.1, ops,
    )?;
    match text_done(&done.0, &done.1) {
        None => Ok(None),
        Some(text) => sight_behind(alloc, catalog, user, text),
    }
}

/// The catalog behind a text, with what the user has of it, where it changes.
fn sight_behind(
    alloc: Global,
    catalog: &Catalog,
    user: &Name,
    text: &Text,
) -> Result<Option<Sight>, NoMemory>
    ensures behind { IfOk result (λ next. LeavesBehind catalog.now (Some text.now) (option_map (λ s. s.catalog) next)) }
    ensures sight { IfOk result (λ next. IfSome next (λ s. AreViews s.catalog user.now s.views)) }
{
    match behind_text(alloc, catalog, text)? {
        None => Ok(None),
        Some(catalog) => sight_of(alloc, catalog, user),
    }
}

/// A catalog, with what a user has of it.
fn sight_of(alloc: Global, catalog: Catalog, user: &Name) -> Result<Option<Sight>, NoMemory>
    ensures catalog { IfOk result (λ sight. option_map (λ s. s.catalog) sight ≡ Some catalog) }
    ensures views { IfOk result (λ sight. IfSome sight (λ s. AreViews s.catalog user.now s.views)) }
{
    match views_of(alloc, &catalog, user) {
        Ok(views) => Ok(Some(Sight { catalog, views })),
        Err(lack) => {
            drop(catalog);
            Err(lack)
        }
    }
}
