//! `test_agents`: reads rows `KIND; STEPS => ANSWERS` on standard input, makes the steps on devices in memory, and says each row in which another
//! answer is given, and then how many are answered as they stand. The rows were reckoned from what a run of the agent is to do; none comes from
//! this program.
//!
//! It is nothing but a test, so that the crates that it tries have none and are proved once. A line without ` => ` is a heading.
//!
//! Two databases, `cons` and below it `r1`, each on a site of its own, share the folders. The step behind `*` is the one that the row is about;
//! no file is held back there. What stands before it is made once, and copied as it stands.
//!
//! | Kind | What befalls the step behind `*` |
//! |---|---|
//! | `once` | nothing |
//! | `fail` | the first call of its site fails; then, made anew, the second one, and so on until it makes no such call |
//! | `stop` | it is stopped before the first call of its site; then before the second one, and so on. Each time a crash follows, of each pick from 0 to 3, or of the first N of `stop N` |
//! | `lost N NAME` | just before the N-th fetch the file of this name is lost |
//! | `other N NAME FILE` | just before the N-th fetch a copy of another file takes its place |
//! | `source`, `sink` | the first call of the script's source, or of what takes its lines, fails |
//!
//! For `fail` and `stop` what the steps say stands once for all calls behind each other with which they say the same, with ` > ` between; where it
//! differs by the pick, ` OR ` stands between. The status of the step behind `*` is 5 where a call of the disk failed in it, 6 where one of the
//! mail did, 7 where one of a stream did, and 0, 1 or 4 where none did: `WRONG` stands where it is not.
//!
//! Steps and answers have `; ` between them. A run with `?` before it says its status and its lines, with ` / ` between; any other run says
//! `ENDED` and its status where that is neither 0 nor 1.
//!
//! | Step | |
//! |---|---|
//! | `begin`, `papers` | makes both databases, with a table `cust` in two partitions, or a table `doc` for long texts |
//! | `stand` | gives `cons` the files of a database with every kind of entry, made elsewhere |
//! | `sql NAME SCRIPT`, `agent NAME WORDS`, `show NAME` | the program with these words, of the agent with the mail folder behind the name; no blank stands behind a `;` in a script |
//! | `write cons` | a script that inserts six rows into `doc`, each with a text of 29,971 letters |
//! | `lay TO NAME BYTES`, `lose TO NAME`, `hold TO NAME`, `repeat TO NAME AS`, `release` | what becomes of a file on its way |
//! | `puts` | says the folder and the name of each put from the step behind `*` on |
//! | `file TO NAME` | says how many bytes a file has |
#![tactic(auto)]

mod befallen;
mod running;
mod steps;

use befallen::say_row;
use sr_base::NoMemory;
use std::alloc::Global;
use std::process::ExitCode;
use test_rows::Answerer;

/// New offices for each row.
#[derive(Clone, Copy)]
struct Rows;

impl Answerer for Rows {
    fn answer(&mut self, alloc: Global, question: &str, out: &mut Vec<u8>) -> Result<(), NoMemory> {
        say_row(alloc, question, out)
    }
}

fn main(rt: HostRuntime) -> ExitCode {
    let mut rows = Rows;
    ExitCode::from(test_rows::run(rt, &mut rows))
}
