ghost use Rattle.sr_ast.specs.Keywords.{named};
ghost use Rattle.std.specs.Prelude.{◌≡◌, ◌<◌, ◌≤◌, ℕ, List, length, OnOk, IfSome, IsTrue, IsFalse, reverse};
ghost use Rattle.std.specs.Option.{option_copied};
ghost use Rattle.sr_parse_reader.specs.Inner.Reading.{Reading, Anywhere, mapped};
ghost use Rattle.sr_parse_reader.specs.Inner.Productions.{Word, Mark, Reference};
ghost use Rattle.sr_parse_grammar.specs.Symbols.{Symbols, first, IsName, IsSign, IsWord, IsTextAt};
ghost use Rattle.sr_parse_grammar.specs.Inner.Symbols.{behind};
ghost use Rattle.sr_parse_grammar.specs.Listing.{Listed, IsNames};
ghost use Rattle.sr_parse_grammar.specs.Inner.Going.{Stop, is_dot, is_comma, is_open};

use sr_ast::Keyword;
use sr_base::{Name, Seq, Text, name_of};
use sr_parse_grammar::{Sign, Symbol};
use std::alloc::{AllocError, AllocFailed, Global};
use std::marker::Model;

/// Why a part was not read. Where it was refused, the symbol that no script goes on with is the reader's next.
#[derive(Drop)]
pub enum Broken {
    Refused,
    Memory,
}

impl From<AllocError> for Broken {
    ghost use Rattle.std.specs.Prelude.{◌≡◌};
    ghost use Rattle.sr_parse_reader.specs.declared.reader.Broken.TheVariants.{Memory};

    ghost from_gives = { λ _ e. e ≡ Memory };

    fn from(_refused: AllocError) -> Broken {
        Broken::Memory
    }
}

impl<T: Drop> From<AllocFailed<T>> for Broken {
    ghost use Rattle.std.specs.Prelude.{◌≡◌};
    ghost use Rattle.sr_parse_reader.specs.declared.reader.Broken.TheVariants.{Memory};

    ghost from_gives = { λ _ e. e ≡ Memory };

    fn from(_refused: AllocFailed<T>) -> Broken {
        Broken::Memory
    }
}

/// Gives memory back where more than an eighth of it is free. While a whole list is taken, this moves no more than eight times the list's
/// length, where shrinking moves at all.
fn give_back(left: &mut Vec<Symbol>)
    ensures same { left.new.items ≡ left.old.items }
{
    if left.len() < left.capacity() - left.capacity() / 8 {
        left.shrink_to_fit();
    }
}

/// A list that grows no more, in as much memory as it needs.
pub fn sealed<T>(items: Vec<T>) -> Seq<T>
    ensures items { result ≡ items.items }
{
    let mut items = items;
    items.shrink_to_fit();
    Seq::from_vec(items)
}

/// The symbols that are left. They lie with the next one last; contracts see them in the order in which they are read.
#[derive(Drop)]
pub struct Reader {
    alloc: Global,
    left: Vec<Symbol>,
}

impl Model for Reader {
    ghost use Rattle.std.specs.Prelude.{List, reverse};
    ghost use Rattle.sr_parse_grammar.specs.Symbols.{Symbols};

    ghost Value = { Symbols };

    ghost view = { λ r. reverse r.left.items };
}

impl Reader {
    /// A reader of symbols that stand in the reverse order.
    pub fn new(alloc: Global, left: Vec<Symbol>) -> Reader
        ensures { result ≡ reverse left.items }
    {
        Reader { alloc, left }
    }

    pub fn alloc(&self) -> Global {
        self.alloc
    }

    /// How many symbols are left.
    pub fn left(&self) -> usize
        ensures { result ≡ length self.now }
    {
        self.left.len()
    }

    pub fn peek(&self) -> Option<&Symbol>
        ensures first { option_copied result ≡ first self.now }
    {
        self.left.last()
    }

    /// The symbol behind the next one.
    pub fn second(&self) -> Option<&Symbol>
        ensures second { option_copied result ≡ first (behind self.now) }
    {
        let (_next, rest) = self.left.as_slice().split_last()?;
        rest.last()
    }

    /// Takes the next symbol away.
    pub fn skip(&mut self)
        ensures rest { self.new ≡ behind self.old }
    {
        let _ = self.left.pop();
        give_back(&mut self.left);
    }

    pub fn is_keyword(&self, wanted: Keyword) -> bool
        ensures found { IsTrue result → IsWord self.now wanted (behind self.now) }
        ensures absent { IsFalse result → (rest : Symbols) → IsWord self.now wanted rest → ⊥ }
    {
        match self.peek() {
            Some(Symbol::Keyword(keyword)) => *keyword == wanted,
            _ => false,
        }
    }

    pub fn is_sign(&self, wanted: Sign) -> bool
        ensures found { IsTrue result → IsSign self.now wanted (behind self.now) }
        ensures absent { IsFalse result → (rest : Symbols) → IsSign self.now wanted rest → ⊥ }
    {
        match self.peek() {
            Some(Symbol::Sign(sign)) => *sign == wanted,
            _ => false,
        }
    }

    /// Takes the key word where it is next.
    pub fn takes(&mut self, wanted: Keyword) -> bool
        ensures found { IsTrue result → IsWord self.old wanted self.new }
        ensures absent { IsFalse result → (rest : Symbols) → IsWord self.old wanted rest → ⊥ }
        ensures kept { IsFalse result → self.new ≡ self.old }
        ensures shorter { length self.new ≤ length self.old }
        ensures taken { IsTrue result → length self.new < length self.old }
    {
        let is_next = self.is_keyword(wanted);
        if is_next {
            self.skip();
        }
        is_next
    }

    /// Takes the sign where it is next.
    pub fn takes_sign(&mut self, wanted: Sign) -> bool
        ensures found { IsTrue result → IsSign self.old wanted self.new }
        ensures absent { IsFalse result → (rest : Symbols) → IsSign self.old wanted rest → ⊥ }
        ensures kept { IsFalse result → self.new ≡ self.old }
        ensures shorter { length self.new ≤ length self.old }
        ensures taken { IsTrue result → length self.new < length self.old }
    {
        let is_next = self.is_sign(wanted);
        if is_next {
            self.skip();
        }
        is_next
    }

    pub fn keyword(&mut self, wanted: Keyword) -> Result<(), Broken>
        ensures reads { Reading (Word wanted) Anywhere self.old self.new result }
        ensures shorter { length self.new ≤ length self.old }
        ensures progress { OnOk result (length self.new < length self.old) }
    {
        if self.takes(wanted) {
            Ok(())
        } else {
            Err(Broken::Refused)
        }
    }

    pub fn sign(&mut self, wanted: Sign) -> Result<(), Broken>
        ensures reads { Reading (Mark wanted) Anywhere self.old self.new result }
        ensures shorter { length self.new ≤ length self.old }
        ensures progress { OnOk result (length self.new < length self.old) }
    {
        if self.takes_sign(wanted) {
            Ok(())
        } else {
            Err(Broken::Refused)
        }
    }

    /// Whether a name is next: a word that is no key word, or one of the key words that are also names.
    pub fn is_name(&self) -> bool
        ensures found { IsTrue result → (x : List ℕ) × IsName self.now x (behind self.now) }
        ensures absent { IsFalse result → (x : List ℕ) (rest : Symbols) → IsName self.now x rest → ⊥ }
    {
        match self.peek() {
            Some(Symbol::Name(_)) => true,
            Some(Symbol::Keyword(keyword)) => named(*keyword).is_some(),
            _ => false,
        }
    }

    /// The bytes of the name that is next.
    pub fn next_name(&self) -> Option<&[u8]>
        ensures found { IfSome result (λ name. IsName self.now name.now (behind self.now)) }
        ensures absent { result ≡ None → (name : List ℕ) (rest : Symbols) → IsName self.now name rest → ⊥ }
    {
        match self.peek() {
            Some(Symbol::Name(name)) => Some(name.bytes()),
            Some(Symbol::Keyword(keyword)) => named(*keyword),
            _ => None,
        }
    }

    pub fn name(&mut self) -> Result<Name, Broken>
        ensures reads { Reading IsName Anywhere self.old self.new result }
        ensures shorter { length self.new ≤ length self.old }
        ensures progress { OnOk result (length self.new < length self.old) }
    {
        if let Some(Symbol::Keyword(keyword)) = self.peek() {
            let Some(bytes) = named(*keyword) else {
                return Err(Broken::Refused);
            };
            let name = match name_of(self.alloc, bytes) {
                Ok(name) => name,
                Err(_) => return Err(Broken::Memory),
            };
            self.skip();
            return Ok(name);
        }
        if !self.is_name() {
            return Err(Broken::Refused);
        }
        match self.left.pop() {
            Some(Symbol::Name(name)) => Ok(name),
            _ => Err(Broken::Refused),
        }
    }

    /// One name or more, with commas between them.
    pub fn names(&mut self) -> Result<Seq<Name>, Broken>
        ensures reads { Reading (Listed IsName) (Stop is_comma) self.old self.new result }
        ensures shorter { length self.new ≤ length self.old }
        ensures progress { OnOk result (length self.new < length self.old) }
    {
        let names = self.name_items()?;
        Ok(Seq::from_vec(names))
    }

    /// One name or more, with commas between them.
    #[tactic(auto, using(crate::proofs::Listings::steps))]
    pub fn name_items(&mut self) -> Result<Vec<Name>, Broken>
        ensures reads { Reading (Listed IsName) (Stop is_comma) self.old self.new (mapped (λ names. names.items) result) }
        ensures shorter { length self.new ≤ length self.old }
        ensures progress { OnOk result (length self.new < length self.old) }
    {
        let mut names = Vec::new(self.alloc);
        names.push(self.name()?)?;
        'more: while self.takes_sign(Sign::Comma) {
            names.push(self.name()?)?;
        }
        Ok(names)
    }

    /// Names in parentheses, or none where no `(` is next.
    pub fn optional_names(&mut self) -> Result<Seq<Name>, Broken>
        ensures reads { Reading IsNames (Stop is_open) self.old self.new result }
        ensures shorter { length self.new ≤ length self.old }
    {
        if !self.takes_sign(Sign::Open) {
            return Ok(Seq::empty(self.alloc));
        }
        let names = self.names()?;
        self.sign(Sign::Close)?;
        Ok(names)
    }

    /// A name, or two with a dot between them.
    pub fn reference(&mut self) -> Result<(Option<Name>, Name), Broken>
        ensures reads { Reading Reference (Stop is_dot) self.old self.new result }
        ensures shorter { length self.new ≤ length self.old }
        ensures progress { OnOk result (length self.new < length self.old) }
    {
        let first = self.name()?;
        if self.takes_sign(Sign::Dot) {
            let name = self.name()?;
            return Ok((Some(first), name));
        }
        Ok((None, first))
    }

    pub fn text(&mut self) -> Result<Text, Broken>
        ensures reads { Reading IsTextAt Anywhere self.old self.new result }
        ensures shorter { length self.new ≤ length self.old }
        ensures progress { OnOk result (length self.new < length self.old) }
    {
        match self.peek() {
            Some(Symbol::Text(_)) => {}
            _ => return Err(Broken::Refused),
        }
        match self.left.pop() {
            Some(Symbol::Text(text)) => Ok(text),
            _ => Err(Broken::Refused),
        }
    }
}

/// The name that a key word also is.
fn named(keyword: Keyword) -> Option<&'static [u8]>
    ensures { option_copied result ≡ named keyword }
{
    match keyword {
        Keyword::Old => Some(b"old"),
        Keyword::New => Some(b"new"),
        Keyword::Remote => Some(b"remote"),
        Keyword::Type => Some(b"type"),
        Keyword::File => Some(b"file"),
        Keyword::Address => Some(b"address"),
        Keyword::Option => Some(b"option"),
        Keyword::Alter => Some(b"alter"),
        Keyword::Add => Some(b"add"),
        Keyword::Default => Some(b"default"),
        Keyword::Global => Some(b"global"),
        Keyword::Autoincrement => Some(b"autoincrement"),
        Keyword::Send => Some(b"send"),
        Keyword::Every => Some(b"every"),
        Keyword::At => Some(b"at"),
        _ => None,
    }
}
