ghost use Rattle.std.specs.Prelude.{◌≡◌, IfOk, OnOk, OnErr, IsSome};
ghost use Rattle.std.specs.FinMap as map;
ghost use Rattle.std.specs.Option.{option_copied};
ghost use Rattle.sr_database_files.specs.Books.{book_in, kept_books};
ghost use Rattle.sr_database_replay.specs.Inner.Books.{with_held};

use sr_base::{Copied, Name, NoMemory};
use sr_book::Book;
use std::alloc::Global;
use std::collections::BTreeMap;
use std::marker::Model;

/// The books of all partners, by name: those that an entry has changed; any other has eight zeros.
///
/// A call takes the time of a look-up, which is logarithmic in the number of partners.
#[derive(Drop)]
pub struct Books {
    books: BTreeMap<Name, Book>,
}

impl Model for Books {
    ghost use Rattle.std.specs.FinMap as map;
    ghost use Rattle.sr_database_files.specs.Books.{BookMap};
    ghost use Rattle.sr_database_replay.specs.Inner.Books.{coded_books};

    ghost Value = { BookMap };

    ghost coded = { coded_books };

    ghost view = { λ b. map.from_entries b.books.entries };
}

impl Books {
    /// Eight zeros for each. It takes no memory.
    pub fn new(alloc: Global) -> Books
        ensures new { result ≡ map.empty }
    {
        Books {
            books: BTreeMap::new(alloc),
        }
    }

    /// The books of a list, of two for one user the last.
    pub fn of_lines(alloc: Global, lines: &[(Name, Book)]) -> Result<Books, NoMemory>
        ensures kept { IfOk result (λ books. books ≡ kept_books map.empty lines.now) }
    {
        let mut books = Books::new(alloc);
        let mut left = lines;
        'lines: while let Some((line, rest)) = left.split_first() {
            books.put(alloc, &line.0, line.1)?;
            left = rest;
        }
        Ok(books)
    }

    /// The book of a partner.
    pub fn get(&self, user: &Name) -> Book
        ensures book { result ≡ book_in self.now user.now }
    {
        match self.held(user) {
            Some(book) => book,
            None => Book::new(),
        }
    }

    /// The book of a partner, where one is kept.
    pub fn held(&self, user: &Name) -> Option<Book>
        ensures held { result ≡ map.get self.now user.now }
    {
        self.entry(user).copied()
    }

    /// Where it stands.
    fn entry(&self, user: &Name) -> Option<&Book>
        ensures entry { option_copied result ≡ map.get self.now user.now }
    {
        self.books.get(user)
    }

    /// Keeps again what was kept of a partner before. It takes no memory.
    pub fn set_back(&mut self, user: &Name, before: Option<Book>)
        requires there { IsSome (map.get self.old user.now) }
        ensures back { self.new ≡ with_held self.old user.now before }
    {
        match before {
            None => self.remove(user),
            Some(book) => self.set(user, book),
        }
    }

    /// Keeps no book of a partner.
    fn remove(&mut self, user: &Name)
        ensures removed { self.new ≡ map.remove self.old user.now }
    {
        self.books.remove(user);
    }

    /// Keeps another book of a partner of which one is kept. It takes no memory.
    fn set(&mut self, user: &Name, book: Book)
        requires there { IsSome (map.get self.old user.now) }
        ensures set { self.new ≡ map.insert self.old user.now book }
    {
        match self.books.get_mut(user) {
            Some(held) => *held = book,
            None => {}
        }
    }

    /// Keeps a book.
    pub fn put(&mut self, alloc: Global, user: &Name, book: Book) -> Result<(), NoMemory>
        ensures ok { OnOk result (self.new ≡ map.insert self.old user.now book) }
        ensures err { OnErr result (self.new ≡ self.old) }
    {
        self.books.insert(user.copy(alloc)?, book)?;
        Ok(())
    }
}
