//! What is done with two databases, one after the other.

ghost use Rattle.std.specs.Prelude.{◌≡◌, ◌++◌, ◌∷◌, [], IfOk};
ghost use Rattle.test_lives.specs.Inner.Deeds.{places_in, places_of};

use crate::lives::{Answer, Lives};
use crate::office::{Broken, Task};
use crate::place::Place;
use itoa::Buffer;
use sr_base::{Name, NoMemory, Text, name_of};
use std::alloc::{AllocError, Global};

/// Something that is done with one of the databases, or that becomes of a file on its way.
#[derive(Clone, Copy)]
pub enum Deed<'a> {
    /// The program is run with these words on the files of a database, and reads this script.
    Run(Place, &'a str, &'a str),
    /// The same, but all calls of its site fail behind so many.
    Stopped(Place, &'a str, &'a str, u64),
    /// The machine of a database crashes; the pick says what is left of what had not been synced.
    Crash(Place, u64),
    /// The file of this name in the folder of this address is lost.
    Lose(&'a str, &'a str),
    /// A copy of it comes, too, under another name.
    Repeat(&'a str, &'a str, &'a str),
    /// It is held back until all are released.
    Hold(&'a str, &'a str),
    Release,
}

impl Lives {
    /// Does a deed, and appends a line of what came of it: of a run its status and the lines that it wrote.
    pub fn deed(
        self,
        alloc: Global,
        deed: Deed,
        out: &mut Vec<u8>,
        now: i64,
    ) -> Result<Lives, Broken>
        ensures places { IfOk result (λ lives. lives.places ≡ self.places ++ places_of deed.entry) }
    {
        let lives = self.done(alloc, deed, out, now)?;
        lives.unless_failed(end_line(out))
    }

    /// Does a deed, and appends what came of it.
    fn done(self, alloc: Global, deed: Deed, out: &mut Vec<u8>, now: i64) -> Result<Lives, Broken>
        ensures places { IfOk result (λ lives. lives.places ≡ self.places ++ places_of deed.entry) }
    {
        match deed {
            Deed::Run(place, words, script) => {
                self.ran(alloc, place, words, script, u64::MAX, out, now)
            }
            Deed::Stopped(place, words, script, calls) => {
                self.ran(alloc, place, words, script, calls, out, now)
            }
            Deed::Crash(place, pick) => self.crash(alloc, place, pick),
            Deed::Lose(to, name) => {
                let mut lives = self;
                let said = lives.lost(alloc, to, name, out);
                lives.unless_failed(said)
            }
            Deed::Repeat(to, name, as_name) => {
                let mut lives = self;
                let said = lives.repeated(alloc, to, name, as_name, out);
                lives.unless_failed(said)
            }
            Deed::Hold(to, name) => {
                let mut lives = self;
                let said = lives.held(alloc, to, name, out);
                lives.unless_failed(said)
            }
            Deed::Release => {
                let mut lives = self;
                lives.release();
                Ok(lives)
            }
        }
    }

    /// Runs the program, with the words and the script as texts.
    fn ran(
        self,
        alloc: Global,
        place: Place,
        words: &str,
        script: &str,
        calls: u64,
        out: &mut Vec<u8>,
        now: i64,
    ) -> Result<Lives, Broken>
        ensures places { IfOk result (λ lives. lives.places ≡ self.places ++ place ∷ []) }
    {
        let Ok(texts) = texts_of(alloc, words) else {
            drop(self);
            return Err(Broken::Memory);
        };
        let task = Task {
            words: texts.as_slice(),
            script: script.as_bytes(),
            calls,
        };
        let (lives, answer) = self.go(alloc, place, task, now)?;
        let said = say_answer(&answer, out);
        lives.unless_failed(said)
    }

    /// The same lives, unless there was no memory for what is said of them. They are let go by a call of its own, since that takes many steps.
    fn unless_failed(self, said: Result<(), NoMemory>) -> Result<Lives, Broken>
        ensures places { IfOk result (λ lives. lives.places ≡ self.places) }
    {
        match said {
            Ok(()) => Ok(self),
            Err(_) => {
                drop(self);
                Err(Broken::Memory)
            }
        }
    }

    /// Loses a file.
    fn lost(
        &mut self,
        alloc: Global,
        to: &str,
        name: &str,
        out: &mut Vec<u8>,
    ) -> Result<(), NoMemory>
        ensures places { self.new.places ≡ self.old.places }
    {
        let address = named(alloc, to)?;
        let name = Text::from_str(alloc, name)?;
        let is_there = self.lose(&address, &name);
        say_unless(is_there, out)
    }

    /// Repeats a file.
    fn repeated(
        &mut self,
        alloc: Global,
        to: &str,
        name: &str,
        as_name: &str,
        out: &mut Vec<u8>,
    ) -> Result<(), NoMemory>
        ensures places { self.new.places ≡ self.old.places }
    {
        let address = named(alloc, to)?;
        let name = Text::from_str(alloc, name)?;
        let as_name = Text::from_str(alloc, as_name)?;
        let is_there = self.repeat(alloc, &address, &name, &as_name)?;
        say_unless(is_there, out)
    }

    /// Holds a file back.
    fn held(
        &mut self,
        alloc: Global,
        to: &str,
        name: &str,
        out: &mut Vec<u8>,
    ) -> Result<(), NoMemory>
        ensures places { self.new.places ≡ self.old.places }
    {
        let address = named(alloc, to)?;
        let name = Text::from_str(alloc, name)?;
        let is_there = self.hold(&address, &name);
        say_unless(is_there, out)
    }
}

/// Does these deeds, one after the other.
pub fn do_deeds(
    lives: Lives,
    alloc: Global,
    deeds: &[Deed],
    out: &mut Vec<u8>,
    now: i64,
) -> Result<Lives, Broken>
    ensures places { IfOk result (λ done. done.places ≡ lives.places ++ places_in deeds.now) }
{
    let mut lives_now = lives;
    'deeds: for deed in deeds {
        lives_now = lives_now.deed(alloc, *deed, out, now)?;
    }
    Ok(lives_now)
}

/// The words, with blanks between them.
fn texts_of(alloc: Global, words: &str) -> Result<Vec<Text>, NoMemory> {
    let mut texts = Vec::new(alloc);
    for word in words.split(' ') {
        texts.push(Text::from_str(alloc, word)?)?;
    }
    Ok(texts)
}

/// The name that these letters spell. Letters that spell none count as want of memory.
fn named(alloc: Global, letters: &str) -> Result<Name, NoMemory> {
    match name_of(alloc, letters.as_bytes()) {
        Ok(name) => Ok(name),
        Err(_) => Err(AllocError),
    }
}

/// The status and the lines, with ` / ` before each.
fn say_answer(answer: &Answer, out: &mut Vec<u8>) -> Result<(), NoMemory> {
    let mut buffer = Buffer::new();
    out.extend_from_slice(buffer.format(answer.status).as_bytes())?;
    let mut begins = true;
    for byte in answer.lines.bytes() {
        if begins {
            out.extend_from_slice(b" / ")?;
        }
        begins = *byte == b'\n';
        if !begins {
            out.push(*byte)?;
        }
    }
    Ok(())
}

/// Ends a line.
fn end_line(out: &mut Vec<u8>) -> Result<(), NoMemory> {
    out.extend_from_slice(b"\n")?;
    Ok(())
}

/// Says that there is no such file, where it is so.
fn say_unless(is_there: bool, out: &mut Vec<u8>) -> Result<(), NoMemory> {
    if !is_there {
        out.extend_from_slice(b"no file")?;
    }
    Ok(())
}
