//! Statements in a passthrough region.

ghost use Rattle.std.specs.Prelude.{◌≡◌, ◌++◌, [], MatchResult, IfOk};
ghost use Rattle.sr_exec_dml.specs.Fitting.{RowsFit};
ghost use Rattle.sr_session_script.specs.Inner.Answers.{IsStop};
ghost use Rattle.sr_session_script.specs.Meaning.{catalog_changes, row_changes, uncarried, not_carried};
ghost use Rattle.sr_session_script.specs.Works.{is_among, once_behind, region_of};

use crate::lists::push;
use crate::refusal::Stop;
use crate::statements::{accept, execute};
use sr_ast::{Dml, Passthrough, Stmt};
use sr_base::{Copied, Name, NoMemory, Seq};
use sr_catalog::{Catalog, DdlFault};
use sr_logform::Change;
use sr_rows::Rows;
use std::alloc::Global;

/// The changes with which a carried statement on the catalog is passed on, none, or what refuses it: with ONLY nothing does.
pub fn pass_on_catalog(
    alloc: Global,
    only: bool,
    catalog: &Catalog,
    rows: &Rows,
    stmt: &Stmt,
) -> Result<Seq<Change>, Stop>
    ensures meant { let meant = catalog_changes only (record { catalog = catalog.now; rows = rows.now.rows }) stmt.now in MatchResult result (λ changes. meant ≡ Ok changes) (IsStop meant) }
{
    if !only {
        accept(alloc, catalog, stmt)?;
    }
    Ok(Seq::empty(alloc))
}

/// The changes with which a statement on rows is passed on, or what refuses it: with ONLY it does not run here.
pub fn pass_on_rows(
    alloc: Global,
    only: bool,
    catalog: &Catalog,
    rows: &Rows,
    stmt: &Dml,
) -> Result<Seq<Change>, Stop>
    requires rows { RowsFit catalog.now rows.now.rows }
    ensures meant { let meant = row_changes only (record { catalog = catalog.now; rows = rows.now.rows }) stmt.now in MatchResult result (λ changes. meant ≡ Ok changes) (IsStop meant) }
{
    if only {
        return Ok(Seq::empty(alloc));
    }
    let changes = execute(alloc, catalog, rows, stmt, Vec::new(alloc))?;
    Ok(changes.list)
}

/// What refuses a statement in a region that passthrough does not carry: what is there already or is missing, else `BadType` with its first
/// name; with ONLY always that.
pub fn uncarried(
    alloc: Global,
    only: bool,
    name: &Name,
    catalog: &Catalog,
    stmt: &Stmt,
) -> Result<DdlFault, NoMemory>
    ensures fault { IfOk result (λ fault. fault ≡ uncarried only name.now catalog.now stmt.now) }
{
    if only {
        return Ok(DdlFault::BadType {
            name: name.copy(alloc)?,
        });
    }
    let refusal = catalog.refusal(alloc, stmt)?;
    not_carried(alloc, name, refusal)
}

fn not_carried(alloc: Global, name: &Name, refusal: Option<DdlFault>) -> Result<DdlFault, NoMemory>
    ensures fault { IfOk result (λ fault. fault ≡ not_carried name.now refusal) }
{
    match refusal {
        Some(DdlFault::Exists { name }) => Ok(DdlFault::Exists { name }),
        Some(DdlFault::Missing { name }) => Ok(DdlFault::Missing { name }),
        _ => Ok(DdlFault::BadType {
            name: name.copy(alloc)?,
        }),
    }
}

/// The region that a PASSTHROUGH FOR begins: of each of its users the first.
pub fn region_of(alloc: Global, passthrough: &Passthrough) -> Result<Passthrough, NoMemory>
    ensures region { IfOk result (λ region. region ≡ region_of passthrough.now) }
{
    Ok(Passthrough {
        only: passthrough.only,
        users: once_each(alloc, passthrough.users.as_slice())?,
    })
}

/// Of each name the first. Each name is compared with those that are kept: users of the catalog, of which there are 1,024 at most.
#[tactic(auto, using(crate::proofs::Regions::kept))]
fn once_each(alloc: Global, names: &[Name]) -> Result<Seq<Name>, NoMemory>
    ensures once { IfOk result (λ kept. kept ≡ once_behind [] names.now) }
{
    let mut kept = Vec::new(alloc);
    let mut left = names;
    'names: while let Some((name, rest)) = left.split_first() {
        if !is_among(name, kept.as_slice()) {
            push(&mut kept, name.copy(alloc)?)?;
        }
        left = rest;
    }
    Ok(Seq::from_vec(kept))
}

fn is_among(name: &Name, others: &[Name]) -> bool
    ensures { result ≡ is_among name.now others.now }
{
    let mut left = others;
    'others: while let Some((other, rest)) = left.split_first() {
        if name.bytes() == other.bytes() {
            return true;
        }
        left = rest;
    }
    false
}
