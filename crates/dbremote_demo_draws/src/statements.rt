//! The statements that drawn numbers make, and how they read.

ghost use Rattle.std.specs.Prelude.{◌≡◌, ◌<◌, ◌++◌, OnOk};
ghost use Rattle.std.specs.Fmt.{decimal};
ghost use Rattle.dbremote_demo_draws.specs.DrawnStatements.{statement_of, statement_on, statement_text, delete_text, drawn, gone, insert_text, move_text, raise_text, rep_at, third_state, transaction};
ghost use Rattle.dbremote_demo_draws.specs.Names.{text_of};

use crate::demo_site::DemoSite;
use crate::draws::Draws;
use itoa::Buffer;
use sr_base::NoMemory;

/// A statement on the table `cust`.
#[derive(Clone, Copy)]
pub enum DrawnStatement {
    /// A new row for a representative.
    Insert { id: u32, rep: DemoSite },
    /// One more in `qty`.
    Raise { id: u32 },
    /// Another representative.
    Move { id: u32, rep: DemoSite },
    /// The row goes.
    Delete { id: u32 },
}

/// A statement, and where it runs.
#[derive(Clone, Copy)]
pub struct Drawn {
    pub at: DemoSite,
    pub statement: DrawnStatement,
}

/// The statement with the number `i` that the next three numbers make.
#[tactic(auto, unfolding(crate::specs::DrawnStatements::drawn))]
pub(crate) fn next_drawn(draws: &mut Draws, i: u32) -> Drawn
    requires few { i < 100000 }
    ensures drawn { result ≡ drawn draws.old i }
    ensures state { draws.new ≡ third_state draws.old }
{
    let at = DemoSite::of(draws.next() % 4);
    let kind = draws.next() % 4;
    let c = draws.next();
    Drawn {
        at,
        statement: statement_of(at, kind, c, i),
    }
}

/// The statement of a kind: `c` says which row it is on, and which representative.
fn statement_of(at: DemoSite, kind: u32, c: u32, i: u32) -> DrawnStatement
    requires few { i < 100000 }
    ensures { result ≡ statement_of at kind c i }
{
    statement_on(at, kind, c % (4 * i + 4), DemoSite::of(1 + c % 3), i)
}

/// The statement of a kind on a row, for a representative.
fn statement_on(at: DemoSite, kind: u32, id: u32, rep: DemoSite, i: u32) -> DrawnStatement
    requires few { i < 100000 }
    ensures { result ≡ statement_on at kind id rep i }
{
    match kind {
        2 => DrawnStatement::Raise { id },
        3 => gone(at, id, rep),
        _ => DrawnStatement::Insert {
            id: 4 * i + at.number(),
            rep: rep_at(at, rep),
        },
    }
}

/// A row goes to another representative at the consolidated database, and is deleted below it.
fn gone(at: DemoSite, id: u32, rep: DemoSite) -> DrawnStatement
    ensures { result ≡ gone at id rep }
{
    match at {
        DemoSite::Cons => DrawnStatement::Move { id, rep },
        DemoSite::R1 | DemoSite::R2 | DemoSite::R3 => DrawnStatement::Delete { id },
    }
}

/// Who a new row is for: a database below has its own alone.
fn rep_at(at: DemoSite, rep: DemoSite) -> DemoSite
    ensures { result ≡ rep_at at rep }
{
    match at {
        DemoSite::Cons => rep,
        DemoSite::R1 | DemoSite::R2 | DemoSite::R3 => at,
    }
}

/// Appends a transaction of one statement.
pub(crate) fn push_transaction(
    script: &mut Vec<u8>,
    statement: DrawnStatement,
) -> Result<(), NoMemory>
    ensures ok { OnOk result (script.new.items ≡ script.old.items ++ transaction statement) }
{
    push_statement(script, statement)?;
    script.extend_from_slice(b"; COMMIT; ")?;
    Ok(())
}

fn push_statement(script: &mut Vec<u8>, statement: DrawnStatement) -> Result<(), NoMemory>
    ensures ok { OnOk result (script.new.items ≡ script.old.items ++ statement_text statement) }
{
    match statement {
        DrawnStatement::Insert { id, rep } => push_insert(script, id, rep),
        DrawnStatement::Raise { id } => push_raise(script, id),
        DrawnStatement::Move { id, rep } => push_move(script, id, rep),
        DrawnStatement::Delete { id } => push_delete(script, id),
    }
}

fn push_insert(script: &mut Vec<u8>, id: u32, rep: DemoSite) -> Result<(), NoMemory>
    ensures ok { OnOk result (script.new.items ≡ script.old.items ++ insert_text id rep) }
{
    push_counted(script, "INSERT INTO cust VALUES (", u64::from(id))?;
    push_named(script, ", '", rep)?;
    push_words(script, "', 0)")?;
    Ok(())
}

fn push_raise(script: &mut Vec<u8>, id: u32) -> Result<(), NoMemory>
    ensures ok { OnOk result (script.new.items ≡ script.old.items ++ raise_text id) }
{
    push_counted(
        script,
        "UPDATE cust SET qty = qty + 1 WHERE id = ",
        u64::from(id),
    )?;
    Ok(())
}

fn push_move(script: &mut Vec<u8>, id: u32, rep: DemoSite) -> Result<(), NoMemory>
    ensures ok { OnOk result (script.new.items ≡ script.old.items ++ move_text id rep) }
{
    push_named(script, "UPDATE cust SET rep = '", rep)?;
    push_counted(script, "' WHERE id = ", u64::from(id))?;
    Ok(())
}

fn push_delete(script: &mut Vec<u8>, id: u32) -> Result<(), NoMemory>
    ensures ok { OnOk result (script.new.items ≡ script.old.items ++ delete_text id) }
{
    push_counted(script, "DELETE FROM cust WHERE id = ", u64::from(id))?;
    Ok(())
}

/// Appends words.
fn push_words(out: &mut Vec<u8>, words: &str) -> Result<(), NoMemory>
    ensures ok { OnOk result (out.new.items ≡ out.old.items ++ words.now) }
{
    out.extend_from_slice(words.as_bytes())?;
    Ok(())
}

/// Appends words and the name of a representative.
fn push_named(out: &mut Vec<u8>, words: &str, rep: DemoSite) -> Result<(), NoMemory>
    ensures ok { OnOk result (out.new.items ≡ out.old.items ++ words.now ++ text_of rep) }
{
    out.extend_from_slice(words.as_bytes())?;
    out.extend_from_slice(rep.text().as_bytes())?;
    Ok(())
}

/// Appends words and a number.
pub(crate) fn push_counted(out: &mut Vec<u8>, words: &str, number: u64) -> Result<(), NoMemory>
    ensures ok { OnOk result (out.new.items ≡ out.old.items ++ words.now ++ decimal number) }
{
    let mut buffer = Buffer::new();
    out.extend_from_slice(words.as_bytes())?;
    out.extend_from_slice(buffer.format(number).as_bytes())?;
    Ok(())
}
