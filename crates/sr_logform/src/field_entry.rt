//! Entries as fields.

ghost use Rattle.std.specs.Prelude.{◌≡◌, ⊤, Bool};
ghost use Rattle.sr_base.specs.Fields.{name_spelling, IsName, list_spelling};
ghost use Rattle.sr_logform.specs.Entries.{flag_spelling, AreUsers, entry_spelling, IsEntry};
ghost use Rattle.sr_logform.specs.Inner.Entries.{flag_at, users_at, entry_at, IsShortEntry};
ghost use Rattle.sr_logform.specs.Inner.EntryLaws.{flag_format, users_format, entry_format};

use crate::change::Change;
use crate::entry::Entry;
use crate::field_changes::filled_changes;
use crate::field_note::BookNote;
use crate::filled::Filled;
use crate::names::are_distinct;
use crate::op::Op;
use crate::outcome::Outcome;
use crate::writing_parts::{write_five, write_four};
use sr_base::{Broken, Field, Name, NoMemory, Offset, Row, Seq, Text, write_pair, write_triple};
use std::alloc::Global;
use std::marker::Model;

type FromParts = (Name, Offset, Filled<(Op, Outcome)>);

type SyncParts = (Name, Seq<(Name, Seq<Row>)>);

type PassParts = ((Users, Flag, Text), Seq<Change>);

type NoteParts = (Name, BookNote);

/// A byte 0 or 1.
#[derive(Drop)]
struct Flag {
    is_set: bool,
}

impl Model for Flag {
    ghost use Rattle.std.specs.Prelude.{Bool};

    ghost Value = { Bool };

    ghost view = { λ f. f.is_set };
}

impl Flag {
    fn new(is_set: bool) -> Flag
        ensures { result ≡ is_set }
    {
        Flag { is_set }
    }

    fn is_set(self) -> bool
        ensures { result ≡ self }
    {
        self.is_set
    }
}

impl Field for Flag {
    ghost can_write = { λ _. ⊤ };

    ghost fits = { λ _. ⊤ };

    ghost spelling = { flag_spelling };

    ghost reading = { flag_at };

    ghost format = { flag_format };

    #[tactic(auto, unfolding(crate::specs::Inner::Entries::flag_at))]
    fn read(_alloc: Global, bytes: &[u8]) -> Result<(Flag, &[u8]), Broken> {
        match bytes {
            [] => Err(Broken::Left(0)),
            [0, rest @ ..] => Ok((Flag::new(false), rest)),
            [1, rest @ ..] => Ok((Flag::new(true), rest)),
            [_, ..] => Err(Broken::Left(bytes.len())),
        }
    }

    #[tactic(auto, unfolding(crate::specs::Entries::flag_spelling))]
    fn write(&self, out: &mut Vec<u8>) -> Result<(), NoMemory> {
        if self.is_set {
            1u8.write(out)
        } else {
            0u8.write(out)
        }
    }
}

/// Names of users, of which none stands twice. The list breaks at its count where one does.
#[derive(Drop)]
struct Users {
    names: Seq<Name>,
}

impl Model for Users {
    ghost use Rattle.std.specs.Prelude.{ℕ, List};

    ghost Value = { List (List ℕ) };

    ghost view = { λ u. u.names };
}

impl Users {
    fn into_seq(self) -> Seq<Name>
        ensures { result ≡ self }
    {
        self.names
    }
}

impl Field for Users {
    ghost can_write = { AreUsers (λ name. ⊤) };

    ghost fits = { AreUsers IsName };

    ghost spelling = { list_spelling name_spelling };

    ghost reading = { users_at };

    ghost format = { users_format };

    #[tactic(auto, unfolding(crate::specs::Inner::Entries::users_at, crate::specs::Inner::Rules::checked_at))]
    fn read(alloc: Global, bytes: &[u8]) -> Result<(Users, &[u8]), Broken> {
        let (names, rest) = Seq::<Name>::read(alloc, bytes)?;
        if !are_distinct(alloc, names.as_slice())? {
            return Err(Broken::Left(bytes.len()));
        }
        Ok((Users { names }, rest))
    }

    fn write(&self, out: &mut Vec<u8>) -> Result<(), NoMemory> {
        self.names.write(out)
    }
}

impl Field for Entry {
    ghost can_write = { IsShortEntry };

    ghost fits = { IsEntry };

    ghost spelling = { entry_spelling };

    ghost reading = { entry_at };

    ghost format = { entry_format };

    #[tactic(auto, unfolding(crate::specs::Inner::Entries::entry_at))]
    fn read(alloc: Global, bytes: &[u8]) -> Result<(Entry, &[u8]), Broken> {
        match bytes {
            [] => Err(Broken::Left(0)),
            [1, rest @ ..] => {
                let (changes, rest) = filled_changes(alloc, rest)?;
                Ok((Entry::Own(changes), rest))
            }
            [2, rest @ ..] => {
                let ((user, at, ops), rest) = FromParts::read(alloc, rest)?;
                let ops = ops.into_seq();
                Ok((Entry::From { user, at, ops }, rest))
            }
            [3, rest @ ..] => {
                let (text, rest) = Text::read(alloc, rest)?;
                Ok((Entry::Ddl(text), rest))
            }
            [4, rest @ ..] => {
                let ((user, tables), rest) = SyncParts::read(alloc, rest)?;
                Ok((Entry::Sync { user, tables }, rest))
            }
            [5, rest @ ..] => {
                let (((users, only, text), changes), rest) = PassParts::read(alloc, rest)?;
                let users = users.into_seq();
                let only = only.is_set();
                let entry = Entry::Pass {
                    users,
                    only,
                    text,
                    changes,
                };
                Ok((entry, rest))
            }
            [6, rest @ ..] => {
                let ((user, note), rest) = NoteParts::read(alloc, rest)?;
                let note = note.into_note();
                Ok((Entry::Note { user, note }, rest))
            }
            [_, ..] => Err(Broken::Left(bytes.len())),
        }
    }

    #[tactic(auto, unfolding(crate::specs::Entries::entry_spelling, crate::specs::Entries::IsEntry))]
    fn write(&self, out: &mut Vec<u8>) -> Result<(), NoMemory> {
        match self {
            Entry::Own(changes) => write_pair(&1u8, changes, out),
            Entry::From { user, at, ops } => write_four(&2u8, user, at, ops, out),
            Entry::Ddl(text) => write_pair(&3u8, text, out),
            Entry::Sync { user, tables } => write_triple(&4u8, user, tables, out),
            Entry::Pass {
                users,
                only,
                text,
                changes,
            } => write_five(&5u8, users, &Flag::new(*only), text, changes, out),
            Entry::Note { user, note } => { write_triple(&6u8, user, &BookNote::new(*note), out) }
        }
    }
}
