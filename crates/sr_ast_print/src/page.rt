ghost use Rattle.std.specs.Prelude.{◌≡◌, ◌∷◌, [], Bool, List, ℕ, true, false, OnOk, IfOk};
ghost use Rattle.sr_ast.specs.Pages.{
  Print,
  blank,
  space,
  put,
  word,
  open_parenthesis,
  call_parenthesis,
  close_parenthesis,
  comma,
  semicolon,
  dot,
  dash,
};

use sr_base::{Name, NoMemory, Text};
use std::alloc::Global;
use std::marker::Model;

/// A statement in print, piece after piece. Contracts see its bytes, and whether the next piece follows with no space.
#[derive(Drop)]
pub struct Page {
    text: String,
    tight: bool,
    alloc: Global,
}

impl Model for Page {
    ghost use Rattle.std.specs.Prelude.{string_bytes};
    ghost use Rattle.sr_ast.specs.Pages.{Print};

    ghost Value = { Print };

    ghost view = { λ p. record { text = string_bytes p.text; tight = p.tight } };
}

/// What stands before a piece.
fn space(tight: bool) -> &'static str
    ensures { result.now ≡ space tight }
{
    if tight { "" } else { " " }
}

/// A name as std sees it.
fn name_str(name: &Name) -> &str
    ensures { result.now ≡ name.now }
{
    match std::str::from_utf8(name.bytes()) {
        Ok(text) => text,
        Err(_) => unreachable!(),
    }
}

impl Page {
    /// A page with nothing on it. It takes no memory.
    pub fn new(alloc: Global) -> Page
        ensures blank { result ≡ blank }
    {
        Page {
            text: String::new(alloc),
            tight: true,
            alloc,
        }
    }

    /// The allocator that the page takes.
    pub fn alloc(&self) -> Global {
        self.alloc
    }

    /// What is printed.
    pub fn into_text(self) -> Result<Text, NoMemory>
        ensures text { IfOk result (λ text. text ≡ self.text) }
    {
        Text::from_string(self.text)
    }

    fn put(&mut self, text: &str, joins: bool, opens: bool) -> Result<(), NoMemory>
        ensures ok { OnOk result (self.new ≡ put self.old (record { text = text.now; joins = joins; opens = opens })) }
    {
        self.text.push_str(space(self.tight || joins))?;
        self.text.push_str(text)?;
        self.tight = opens;
        Ok(())
    }

    /// Words, a number or an operator.
    pub fn word(&mut self, text: &str) -> Result<(), NoMemory>
        ensures ok { OnOk result (self.new ≡ put self.old (word text.now)) }
    {
        self.put(text, false, false)
    }

    /// A name.
    pub fn name(&mut self, name: &Name) -> Result<(), NoMemory>
        ensures ok { OnOk result (self.new ≡ put self.old (word name.now)) }
    {
        self.put(name_str(name), false, false)
    }

    /// `(` with a space before it.
    pub fn open(&mut self) -> Result<(), NoMemory>
        ensures ok { OnOk result (self.new ≡ put self.old open_parenthesis) }
    {
        self.put("(", false, true)
    }

    /// `(` right behind what it belongs to.
    pub fn call(&mut self) -> Result<(), NoMemory>
        ensures ok { OnOk result (self.new ≡ put self.old call_parenthesis) }
    {
        self.put("(", true, true)
    }

    /// `)`
    pub fn close(&mut self) -> Result<(), NoMemory>
        ensures ok { OnOk result (self.new ≡ put self.old close_parenthesis) }
    {
        self.put(")", true, false)
    }

    /// `,`
    pub fn comma(&mut self) -> Result<(), NoMemory>
        ensures ok { OnOk result (self.new ≡ put self.old comma) }
    {
        self.put(",", true, false)
    }

    /// `;`
    pub fn semicolon(&mut self) -> Result<(), NoMemory>
        ensures ok { OnOk result (self.new ≡ put self.old semicolon) }
    {
        self.put(";", true, false)
    }

    /// `.` with no space around it.
    pub fn dot(&mut self) -> Result<(), NoMemory>
        ensures ok { OnOk result (self.new ≡ put self.old dot) }
    {
        self.put(".", true, true)
    }

    /// The `-` of one operand.
    pub fn dash(&mut self) -> Result<(), NoMemory>
        ensures ok { OnOk result (self.new ≡ put self.old dash) }
    {
        self.put("-", false, true)
    }
}
