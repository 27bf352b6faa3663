//! `test_scripts`: reads standard input as a script and says how many statements it has, or the byte at which it is refused. With the
//! word `run` it then runs the statements in memory and says how many rows they inserted, updated, deleted and answered. With the word
//! `answers` it says what each statement is answered, section by section (`answers`).
//!
//! It is there to measure and to try the SQL front, the catalog and the statements on rows: it keeps no database in files.
#![tactic(auto)]

ghost use Rattle.std.specs.List.{AllByRecursion};
ghost use Rattle.sr_ast.specs.NormalForms.{IsNormal};

mod answers;
mod counting;
mod database;
mod rows;
mod saying;

use answers::answers;
use counting::{Stopped, changed_rows};
use sr_ast::Stmt;
use sr_base::Text;
use sr_parse::{ParseFault, parse, what_prints_is_read_so};
use std::env;
use std::io::Read;
use std::process::ExitCode;
use test_rows::print;

/// The status of a text that is no script.
const REFUSED: u8 = 3;
/// The status of a script of which a statement is refused.
const STOPPED: u8 = 4;
/// The status of a run that found no memory, or could not read or write.
const FAILED: u8 = 8;

/// What is asked for by the first word.
#[derive(Clone, Copy)]
enum Deed {
    /// Nothing: the statements are counted.
    Count,
    Run,
    Answers,
}

fn main(rt: HostRuntime) -> ExitCode {
    match input(rt) {
        Some(text) => {
            let status = done(rt, &text);
            drop(text);
            ExitCode::from(status)
        }
        None => ExitCode::from(FAILED),
    }
}

/// All of standard input, where it is a text.
fn input(rt: HostRuntime) -> Option<Text> {
    let mut text = String::new(rt.alloc());
    match rt.reader().read_to_string(&mut text) {
        Ok(_) => Text::from_string(text).ok(),
        Err(_) => None,
    }
}

fn deed_of(rt: HostRuntime) -> Deed {
    let Ok(mut words) = env::args(&rt) else {
        return Deed::Count;
    };
    let _ = words.next();
    match words.next() {
        Some(word) => match word.as_str() {
            "run" => Deed::Run,
            "answers" => Deed::Answers,
            _ => Deed::Count,
        },
        None => Deed::Count,
    }
}

/// Does with a text what is asked for; answers the status.
fn done(rt: HostRuntime, text: &Text) -> u8 {
    match deed_of(rt) {
        Deed::Count => read(rt, text, false),
        Deed::Run => read(rt, text, true),
        Deed::Answers => answered(rt, text.as_str()),
    }
}

/// Reads a text as a script and says what it has, or where it is refused; answers the status.
fn read(rt: HostRuntime, text: &Text, runs: bool) -> u8 {
    what_prints_is_read_so();
    match parse(rt.alloc(), text) {
        Ok(script) => {
            let status = told(rt, script.as_slice(), runs);
            drop(script);
            status
        }
        Err(ParseFault::Refused { at }) => {
            let _ = println!(rt; "script refused at byte {at}");
            REFUSED
        }
        Err(ParseFault::Memory) => FAILED,
    }
}

/// Says how many statements a script has, and what it does where it is to be run; answers the status.
fn told(rt: HostRuntime, script: &[Stmt], runs: bool) -> u8
    requires normal { AllByRecursion IsNormal script.now }
{
    if println!(rt; "{} statements", script.len()).is_err() {
        return FAILED;
    }
    if !runs {
        return 0;
    }
    match changed_rows(rt.alloc(), script) {
        Ok(count) => match println!(rt; "{count} rows") {
            Ok(_) => 0,
            Err(_) => FAILED,
        },
        Err(Stopped::Refused) => STOPPED,
        Err(Stopped::Memory) => FAILED,
    }
}

/// Says what each statement is answered; answers the status.
fn answered(rt: HostRuntime, text: &str) -> u8 {
    let mut lines = Vec::new(rt.alloc());
    let status = match answers(rt.alloc(), &mut lines, text) {
        Ok(()) => print(rt, lines.as_slice()),
        Err(_) => FAILED,
    };
    drop(lines);
    status
}
