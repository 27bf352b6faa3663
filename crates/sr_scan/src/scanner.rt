//! Scanners, and what a single entry gives.

ghost use Rattle.std.specs.Prelude.{◌≡◌, Some, None, IfOk, OnOk, OnErr};
ghost use Rattle.sr_ast.specs.NormalForms.{IsNormal};
ghost use Rattle.sr_logform.specs.declared.entry.Entry.TheVariants.{Own};
ghost use Rattle.sr_scan.specs.Inner.Changed.{IsTold, or_before};
ghost use Rattle.sr_scan.specs.Inner.Images.{catalog_behind};
ghost use Rattle.sr_scan.specs.Inner.Meanings.{IsGiven};
ghost use Rattle.sr_scan.specs.Inner.Scanners.{IsFed, Follows, transaction_of};
ghost use Rattle.sr_scan.specs.Inner.Views.{AreViews};

use crate::entries::{Told, own_ops, tell_entry};
use crate::statements::{is_refused, meant_by};
use crate::views::{Views, kept_or_made, views_of};
use sr_ast::Stmt;
use sr_base::{Copied, Name, NoMemory, Offset, Seq, Text};
use sr_catalog::Catalog;
use sr_logform::{Change, Entry, Op, Transaction};
use std::alloc::Global;
use std::marker::Model;
use std::mem::replace;

/// What an entry gives a user, with the catalog before it: the ops that tell him how his view changed.
///
/// It takes any entry. A change whose table is not there, or of which a row does not fit its table, gives nothing; neither does an op
/// that met another value and is no Set of a table that is there, or whose rows do not fit it or stand under another key than it
/// names, its values fitted; a row of a Sync is not inserted that has not one fitting value for each column of the article by which
/// the user has its table. A text that no statement prints, and a statement that is refused, change nothing. None of these is met in a
/// history that may stand in a log.
///
/// It takes a pass or two over the catalog's subscriptions for each of its tables. Whoever reads the entries of a log one after the other makes a
/// `Scanner`; whoever has some of one catalog makes what the user has of its tables once, and asks `given_by`.
pub fn given(
    alloc: Global,
    catalog: &Catalog,
    entry: &Entry,
    user: &Name,
) -> Result<Vec<Op>, NoMemory>
    ensures given { IfOk result (λ ops. IsGiven catalog.now entry.now user.now ops.items) }
{
    let views = views_of(alloc, catalog, user)?;
    let given = given_by(alloc, catalog, &views, entry, user);
    drop(views);
    given
}

/// What `given` says, by what the user has of each table of the catalog. It takes the time of the entry, and more only where a statement is in it.
#[tactic(auto, using(crate::proofs::Telling::given_from_told))]
pub fn given_by(
    alloc: Global,
    catalog: &Catalog,
    views: &Views,
    entry: &Entry,
    user: &Name,
) -> Result<Vec<Op>, NoMemory>
    requires views { AreViews catalog.now user.now views.now }
    ensures given { IfOk result (λ ops. IsGiven catalog.now entry.now user.now ops.items) }
{
    let told = tell_entry(alloc, catalog, views, user, entry)?;
    Ok(ops_in(told))
}

/// The ops of what an entry comes to.
fn ops_in(told: Told) -> Vec<Op>
    ensures ops { result.items ≡ told.ops.items }
{
    let Told { ops, behind } = told;
    drop(behind);
    ops
}

/// What the entries of a log give a user, read one after the other. Contracts see the user, and the catalog behind what was read.
///
/// What he has of each table is kept until a statement changes the catalog, so that an entry costs by its own length, however many
/// subscriptions there are.
#[derive(Drop)]
pub struct Scanner {
    catalog: Catalog,
    user: Name,
    views: Option<Views>,
}

impl Model for Scanner {
    ghost use Rattle.std.specs.Coded.{codes};
    ghost use Rattle.sr_ast.specs.Inner.Terms.{term_code};
    ghost use Rattle.sr_ast.specs.Inner.Chains.{chain_code};
    ghost use Rattle.sr_scan.specs.Inner.Scanners.{Scan};

    ghost Value = { Scan };

    ghost coded = { Prim.hlevel (codes, term_code, chain_code) };

    ghost view = { λ s. record { catalog = s.catalog; user = s.user } };

    ghost use Rattle.std.specs.Prelude.{IfSome};
    ghost use Rattle.sr_scan.specs.Inner.Views.{AreViews};

    ghost invariant = { λ s. IfSome s.views (λ views. AreViews s.catalog s.user views) };
}

impl Scanner {
    /// A scanner for a user, that begins with this catalog.
    pub fn new(alloc: Global, catalog: &Catalog, user: &Name) -> Result<Scanner, NoMemory>
        ensures catalog { IfOk result (λ s. s.catalog ≡ catalog.now) }
        ensures user { IfOk result (λ s. s.user ≡ user.now) }
    {
        let user = user.copy(alloc)?;
        match catalog.copy(alloc) {
            Ok(catalog) => Ok(Scanner {
                catalog,
                user,
                views: None,
            }),
            Err(lack) => {
                drop(user);
                Err(lack)
            }
        }
    }

    /// What the next entry, which ends at `at`, gives the user; `None` exactly where it gives nothing. It goes on with the catalog behind the
    /// entry: behind a statement on the catalog, one that was passed on and ran here, and each one that was taken from a partner and ran.
    ///
    /// It takes any entry, as `given` says. Where memory lacks the scanner is as it was.
    #[tactic(auto, using(crate::proofs::Telling::fed_by_statement, crate::proofs::Telling::fed_by_note))]
    pub fn feed(
        &mut self,
        alloc: Global,
        at: Offset,
        entry: &Entry,
    ) -> Result<Option<Transaction>, NoMemory>
        ensures fed { IfOk result (λ found. IsFed self.old at entry.now found self.new) }
        ensures err { OnErr result (self.new ≡ self.old) }
    {
        match entry {
            Entry::Ddl(text) => {
                self.follow(alloc, text)?;
                Ok(None)
            }
            Entry::Note { .. } => Ok(None),
            Entry::Own(changes) => self.feed_own(alloc, at, changes.as_slice()),
            Entry::From { .. } | Entry::Sync { .. } | Entry::Pass { .. } => {
                self.feed_told(alloc, at, entry)
            }
        }
    }

    /// Lets the catalog follow a statement, in its place. It is not copied.
    #[tactic(auto, using(crate::proofs::Telling::followed_none))]
    fn follow(&mut self, alloc: Global, text: &Text) -> Result<(), NoMemory>
        ensures followed { OnOk result (Follows self.old text.now self.new) }
        ensures err { OnErr result (self.new ≡ self.old) }
    {
        let Some(statement) = meant_by(alloc, text)? else {
            return Ok(());
        };
        let done = self.apply(alloc, &statement);
        drop(statement);
        done
    }

    /// Lets the catalog follow a statement in normal form that it does not refuse.
    #[tactic(auto, using(crate::proofs::Behind::refused, crate::proofs::Behind::accepted, crate::proofs::Behind::not_refused))]
    fn apply(&mut self, alloc: Global, statement: &Stmt) -> Result<(), NoMemory>
        requires normal { IsNormal statement.now }
        ensures catalog { OnOk result (self.new.catalog ≡ catalog_behind self.old.catalog (Some statement.now)) }
        ensures user { self.new.user ≡ self.old.user }
        ensures err { OnErr result (self.new ≡ self.old) }
    {
        if is_refused(alloc, &self.catalog, statement)? {
            return Ok(());
        }
        drop(self.views.take());
        self.catalog.apply(alloc, statement)
    }

    /// What a transaction of this database's own gives. It has no statement, so that no other catalog comes of it.
    #[tactic(auto, using(crate::proofs::Telling::fed_by_own))]
    fn feed_own(
        &mut self,
        alloc: Global,
        at: Offset,
        changes: &[Change],
    ) -> Result<Option<Transaction>, NoMemory>
        ensures fed { IfOk result (λ found. IsFed self.old at (Own changes.now) found self.new) }
        ensures err { OnErr result (self.new ≡ self.old) }
    {
        let told = self.tell_own(alloc, changes)?;
        Ok(transaction_of(at, told))
    }

    /// What changes give that this database made itself.
    #[tactic(auto, using(crate::proofs::Telling::own_told))]
    fn tell_own(&mut self, alloc: Global, changes: &[Change]) -> Result<Vec<Op>, NoMemory>
        ensures told { IfOk result (λ ops. IsTold self.old.catalog (Own changes.now) self.old.user ops.items None) }
        ensures same { self.new ≡ self.old }
    {
        let views = kept_or_made(alloc, self.views.take(), &self.catalog, &self.user)?;
        let told = own_ops(alloc, &views, changes);
        self.views = Some(views);
        told
    }

    /// What an entry gives that was taken, or that a statement is in.
    #[tactic(auto, using(crate::proofs::Telling::fed_from_told))]
    fn feed_told(
        &mut self,
        alloc: Global,
        at: Offset,
        entry: &Entry,
    ) -> Result<Option<Transaction>, NoMemory>
        ensures fed { IfOk result (λ found. IsFed self.old at entry.now found self.new) }
        ensures err { OnErr result (self.new ≡ self.old) }
    {
        let Told { ops, behind } = self.tell(alloc, entry)?;
        self.go_on(behind);
        Ok(transaction_of(at, ops))
    }

    /// Goes on with another catalog, if there is one.
    fn go_on(&mut self, behind: Option<Catalog>)
        ensures catalog { self.new.catalog ≡ or_before behind self.old.catalog }
        ensures user { self.new.user ≡ self.old.user }
    {
        match behind {
            None => {}
            Some(catalog) => {
                drop(replace(&mut self.catalog, catalog));
                drop(self.views.take());
            }
        }
    }

    /// What an entry comes to. Only what is kept of the catalog may be made.
    fn tell(&mut self, alloc: Global, entry: &Entry) -> Result<Told, NoMemory>
        ensures told { IfOk result (λ t. IsTold self.old.catalog entry.now self.old.user t.ops.items t.behind) }
        ensures same { self.new ≡ self.old }
    {
        let views = kept_or_made(alloc, self.views.take(), &self.catalog, &self.user)?;
        let told = tell_entry(alloc, &self.catalog, &views, &self.user, entry);
        self.views = Some(views);
        told
    }
}

/// The transaction of ops; `None` where there are none.
fn transaction_of(at: Offset, ops: Vec<Op>) -> Option<Transaction>
    ensures { result ≡ transaction_of at ops.items }
{
    if ops.is_empty() {
        return None;
    }
    Some(Transaction {
        at,
        ops: Seq::from_vec(ops),
    })
}
