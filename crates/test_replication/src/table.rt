//! The rows, one after the other.

use crate::databases::new_catalog;
use crate::giving::{begin, is_fed, is_given, scanner_of};
use crate::judging::say_judged;
use crate::letters::say_letter;
use crate::measuring::say_measure;
use crate::viewing::{do_all, is_seen};
use sr_base::NoMemory;
use sr_catalog::Catalog;
use sr_scan::Scanner;
use std::alloc::Global;
use test_rows::{Answerer, say, word};

/// What goes from one row to the next.
#[derive(Drop)]
pub(crate) struct Told {
    /// What the statements that were done make.
    catalog: Catalog,
    /// Of the log that was begun last.
    scanner: Scanner,
    /// The script of the database on which ops are judged.
    setting: String,
}

/// A new database, a scanner of one, and no script.
pub(crate) fn new_told(alloc: Global) -> Result<Told, NoMemory> {
    Ok(Told {
        catalog: new_catalog(alloc, "cons")?,
        scanner: scanner_of(alloc, "cons", "cons")?,
        setting: String::new(alloc),
    })
}

impl Answerer for Told {
    fn answer(&mut self, alloc: Global, question: &str, out: &mut Vec<u8>) -> Result<(), NoMemory> {
        let (kind, given) = question.split_once(" ").unwrap_or((question, ""));
        match kind {
            "do" => say_yes(out, do_all(alloc, &mut self.catalog, given)?),
            "view" => say_yes(out, is_seen(alloc, &self.catalog, given)?),
            "given" => say_yes(out, is_given(alloc, &self.catalog, given)?),
            "entry" => say_yes(out, is_fed(alloc, &mut self.scanner, given)?),
            "log" => {
                begin(alloc, &mut self.scanner, given)?;
                say(out, "yes")
            }
            "setting" => {
                self.setting.clear();
                self.setting.push_str(given)?;
                say(out, "yes")
            }
            "judge" => say_judged(alloc, self.setting.as_str(), given, out),
            "measure" => say_measure(alloc, word(given, 0), word(given, 1), word(given, 2), out),
            _ => say_letter(alloc, kind, given, out),
        }
    }
}

fn say_yes(out: &mut Vec<u8>, is_so: bool) -> Result<(), NoMemory> {
    say(out, if is_so { "yes" } else { "no" })
}
