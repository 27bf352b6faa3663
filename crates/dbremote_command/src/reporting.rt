//! The line of the fault that ended a run.

ghost use Rattle.std.specs.Prelude.{◌≡◌, ◌⊎◌, ◌++◌, IsTrue, IfOk, IfSome, IsNone, OnOk};
ghost use Rattle.sr_database_files.specs.declared.fault.DatabaseFault.TheVariants.{Damaged, Memory};
ghost use Rattle.sr_site.specs.Streams.{OutputStays};
ghost use Rattle.dbremote_command.specs.Faults.{fault_line, file_text, numbers, database_text};
ghost use Rattle.dbremote_command.specs.Reports.{Wrote, HasNumbers};
ghost use Rattle.dbremote_command.specs.declared.fault.Fault.TheVariants.{Database, Script};

use crate::fault::Fault;
use itoa::Buffer;
use sr_base::NoMemory;
use sr_database::DatabaseFault;
use sr_session::say;
use sr_session_script::push_refusal;
use sr_site::{File, Sink};
use std::alloc::Global;

/// The line of a fault where it is the same each time. It takes no memory.
fn constant_line(fault: &Fault) -> Option<&'static [u8]>
    ensures line { IfSome result (λ line. line.now ≡ fault_line fault.now) }
    ensures numbers { IsNone result → HasNumbers fault.now }
{
    match fault {
        Fault::Words => Some(b"words refused\n"),
        Fault::Database(DatabaseFault::Missing) => Some(b"database missing\n"),
        Fault::Database(DatabaseFault::Exists) => Some(b"database exists\n"),
        Fault::Database(DatabaseFault::Disk) => Some(b"disk fault\n"),
        Fault::Database(DatabaseFault::Memory) => Some(b"out of memory\n"),
        Fault::Source => Some(b"source fault\n"),
        Fault::TooLong => Some(b"script too long\n"),
        Fault::Sink => Some(b"sink fault\n"),
        Fault::Mail => Some(b"mail fault\n"),
        Fault::Database(_) | Fault::Script { .. } | Fault::Statement { .. } => None,
    }
}

/// The name of a file in a line.
fn file_text(file: File) -> &'static [u8]
    ensures { result.now ≡ file_text file }
{
    match file {
        File::Root => b"root",
        File::Log0 => b"log0",
        File::Log1 => b"log1",
        File::Snap0 => b"snap0",
        File::Snap1 => b"snap1",
    }
}

/// Appends two numbers with a blank between them.
fn push_numbers(out: &mut Vec<u8>, first: u64, second: u64) -> Result<(), NoMemory>
    ensures ok { OnOk result (out.new.items ≡ out.old.items ++ numbers first second) }
{
    let mut buffer = Buffer::new();
    out.extend_from_slice(buffer.format(first).as_bytes())?;
    out.extend_from_slice(b" ")?;
    out.extend_from_slice(buffer.format(second).as_bytes())
}

/// Appends what a database's fault says.
fn push_database_text(out: &mut Vec<u8>, fault: &DatabaseFault) -> Result<(), NoMemory>
    ensures ok { OnOk result (out.new.items ≡ out.old.items ++ database_text fault.now) }
{
    match fault {
        DatabaseFault::Missing => out.extend_from_slice(b"database missing"),
        DatabaseFault::Exists => out.extend_from_slice(b"database exists"),
        DatabaseFault::Damaged { file, at } => push_damage(out, *file, *at),
        DatabaseFault::Disk => out.extend_from_slice(b"disk fault"),
        DatabaseFault::Full { end, need } => {
            out.extend_from_slice(b"full ")?;
            push_numbers(out, *end, *need)
        }
        DatabaseFault::Long { length, limit } => {
            out.extend_from_slice(b"too long ")?;
            push_numbers(out, *length, *limit)
        }
        DatabaseFault::Memory => out.extend_from_slice(b"out of memory"),
    }
}

fn push_damage(out: &mut Vec<u8>, file: File, at: u64) -> Result<(), NoMemory>
    ensures ok { OnOk result (out.new.items ≡ out.old.items ++ database_text (Damaged file at)) }
{
    let mut buffer = Buffer::new();
    out.extend_from_slice(b"database damaged ")?;
    out.extend_from_slice(file_text(file))?;
    out.extend_from_slice(b" ")?;
    out.extend_from_slice(buffer.format(at).as_bytes())
}

fn script_line(alloc: Global, at: usize) -> Result<Vec<u8>, NoMemory>
    ensures line { IfOk result (λ text. text.items ≡ fault_line (Script at)) }
{
    let mut buffer = Buffer::new();
    let mut text = Vec::from_slice(alloc, b"script refused at byte ")?;
    text.extend_from_slice(buffer.format(at).as_bytes())?;
    text.extend_from_slice(b"\n")?;
    Ok(text)
}

/// The line of a fault.
fn line_of(alloc: Global, fault: &Fault) -> Result<Vec<u8>, NoMemory>
    ensures line { IfOk result (λ text. text.items ≡ fault_line fault.now) }
{
    match fault {
        Fault::Script { at } => script_line(alloc, *at),
        Fault::Statement { number, fault } => {
            let mut text = Vec::new(alloc);
            push_refusal(alloc, &mut text, *number, fault)?;
            Ok(text)
        }
        Fault::Database(fault) => {
            let mut text = Vec::new(alloc);
            push_database_text(&mut text, fault)?;
            text.extend_from_slice(b"\n")?;
            Ok(text)
        }
        Fault::Words => Vec::from_slice(alloc, b"words refused\n"),
        Fault::Source => Vec::from_slice(alloc, b"source fault\n"),
        Fault::TooLong => Vec::from_slice(alloc, b"script too long\n"),
        Fault::Sink => Vec::from_slice(alloc, b"sink fault\n"),
        Fault::Mail => Vec::from_slice(alloc, b"mail fault\n"),
    }
}

/// Tells a fault, and answers the one that was told: want of memory where there was none for the numbers in its line. A line without numbers
/// takes none.
pub fn report<O: Sink>(alloc: Global, output: &mut O, fault: Fault) -> Fault
    ensures fault { (result ≡ fault) ⊎ ((result ≡ Database Memory) × HasNumbers fault) }
    ensures wrote { IsTrue ((O.seen output.old).observable) → Wrote (fault_line result) (O.seen output.old) (O.seen output.new) }
    ensures stays { OutputStays (O.seen output.old) (O.seen output.new) }
{
    if let Some(line) = constant_line(&fault) {
        say_once(output, line);
        return fault;
    }
    match line_of(alloc, &fault) {
        Ok(line) => {
            say_once(output, line.as_slice());
            fault
        }
        Err(_) => {
            say_once(output, b"out of memory\n");
            drop(fault);
            Fault::Database(DatabaseFault::Memory)
        }
    }
}

/// Writes a line once, whatever comes of it.
fn say_once<O: Sink>(output: &mut O, line: &[u8])
    ensures wrote { IsTrue ((O.seen output.old).observable) → Wrote line.now (O.seen output.old) (O.seen output.new) }
    ensures stays { OutputStays (O.seen output.old) (O.seen output.new) }
{
    match say(output, line) {
        Ok(()) => (),
        Err(_) => (),
    }
}
