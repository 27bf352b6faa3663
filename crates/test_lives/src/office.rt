//! The files of a database, and a run on them.

ghost use Rattle.std.specs.Prelude.{◌≡◌, ℕ, List, [], IfOk};
ghost use Rattle.dbremote_command.specs.Inner.Orders.{MayOrder};
ghost use Rattle.dbremote_command.specs.declared.order.Order.TheVariants.{Init};
ghost use Rattle.test_lives.specs.Inner.Lives.{HasGone, HasRun, IsNew, IsWhole};
ghost use Rattle.test_lives.specs.Inner.Names.{name_at};

use crate::place::Place;
use dbremote_command::{Order, command};
use dbremote_run::run;
use sr_base::{Seq, Text};
use sr_memsite::{MemoryDisk, MemorySink, MemorySource, SharedMail};
use std::alloc::{AllocError, Global};
use std::mem::forget;
use world_lives_kept::{KeptMail, WatchedSite, are_of, push_all};

/// Why a life is not gone on with.
#[derive(Clone, Copy)]
pub enum Broken {
    /// There was no memory to keep it.
    Memory,
    /// A database was not made.
    NotMade,
    /// A run fetched what no run before it put.
    Unknown,
}

impl From<AllocError> for Broken {
    fn from(_refused: AllocError) -> Broken {
        Broken::Memory
    }
}

/// The files of a database as they stand, and what was kept of what happened to them.
#[derive(Drop)]
pub struct Office {
    pub disk: MemoryDisk,
    pub kept: KeptMail,
}

/// What is run: the words, the script, and how many calls of the site are made before all others fail.
#[derive(Clone, Copy)]
pub struct Task<'a> {
    pub words: &'a [Text],
    pub script: &'a [u8],
    pub calls: u64,
}

/// What a run on the files of a database leaves: these, the folder, its status and the lines that it wrote.
#[derive(Drop)]
pub struct Ran {
    pub office: Office,
    pub mail: SharedMail,
    pub status: u8,
    pub lines: MemorySink,
}

/// Makes a database, and answers its files.
pub fn make(alloc: Global, place: Place, now: i64) -> Result<Office, Broken>
    ensures made { IfOk result (IsNew (name_at place)) }
{
    let no_mail = Text::from_str(alloc, "")?;
    let name = place.files(alloc)?;
    let user = place.name(alloc)?;
    let order = Order::Init { name, user };
    let made = made_by(alloc, &order, &no_mail, now);
    drop(order);
    made
}

/// Does an order on files without a byte, and answers what it left; of one that makes a database, where its status is 0, that one.
#[tactic(auto, using(crate::proofs::Running::made_new))]
fn made_by(alloc: Global, order: &Order, no_mail: &Text, now: i64) -> Result<Office, Broken>
    requires may { MayOrder order.now }
    requires no_mail { no_mail.now ≡ [] }
    ensures made { (name user : List ℕ) → order.now ≡ Init name user → IfOk result (IsNew user) }
{
    let mut open = None;
    let mut site = WatchedSite::with(
        MemoryDisk::new(alloc),
        SharedMail::new(alloc),
        KeptMail::new(alloc),
        u64::MAX,
    );
    let mut input = MemorySource::new(Vec::new(alloc));
    let mut output = MemorySink::new(alloc);
    let status = command(
        alloc,
        order,
        no_mail,
        &mut open,
        &mut site,
        &mut input,
        &mut output,
        now,
    );
    forget(open);
    let (disk, _, kept) = site.apart();
    if status != 0 {
        return Err(Broken::NotMade);
    }
    if !kept.whole {
        return Err(Broken::Memory);
    }
    Ok(Office { disk, kept })
}

/// Runs the program on the files of a database and the folder.
#[tactic(auto, using(crate::proofs::Running::has_run))]
pub fn run_on(
    alloc: Global,
    office: Office,
    mail: SharedMail,
    task: Task,
    now: i64,
) -> Result<Ran, Broken>
    requires whole { IsWhole office }
    ensures ran { IfOk result (λ ran. HasRun office ran.office) }
{
    let script = Vec::from_slice(alloc, task.script)?;
    let Office { disk, kept } = office;
    let mut site = WatchedSite::with(disk, mail, kept, task.calls);
    let mut input = MemorySource::new(script);
    let mut lines = MemorySink::new(alloc);
    let status = run(alloc, task.words, &mut site, &mut input, &mut lines, now);
    let (disk, mail, kept) = site.apart();
    if !kept.whole {
        return Err(Broken::Memory);
    }
    Ok(Ran {
        office: Office { disk, kept },
        mail,
        status,
        lines,
    })
}

/// Runs the program, and looks whether all that was fetched had been put before. What the run put is added.
#[tactic(auto, using(crate::proofs::Running::has_gone, crate::proofs::Running::put_longer))]
pub fn go_on(
    alloc: Global,
    office: Office,
    mail: SharedMail,
    put: &mut Seq<Seq<u8>>,
    task: Task,
    now: i64,
) -> Result<Ran, Broken>
    requires whole { IsWhole office }
    ensures gone { IfOk result (λ ran. HasGone office ran.office put.old put.new) }
{
    let before = office.kept.put.as_slice().len();
    let ran = run_on(alloc, office, mail, task, now)?;
    if !are_of(ran.office.kept.fetched.as_slice(), put.as_slice()) {
        return Err(Broken::Unknown);
    }
    let (_, more) = ran.office.kept.put.as_slice().split_at(before);
    push_all(alloc, put, more)?;
    Ok(ran)
}
