//! Notes of a partner's book as fields.

ghost use Rattle.std.specs.Prelude.{◌≡◌, ⊤};
ghost use Rattle.sr_logform.specs.Inner.OutcomeLaws.{note_format};
ghost use Rattle.sr_logform.specs.Outcomes.{note_spelling, IsNote};
ghost use Rattle.sr_logform.specs.Inner.Outcomes.{note_at};

use crate::writing_parts::write_four;
use sr_base::{Broken, Field, NoMemory, Offset, write_pair, write_triple};
use sr_book::Note;
use std::alloc::Global;
use std::marker::Model;

type AskedParts = (u64, Offset);

type SentParts = (Offset, u32, Offset);

/// A note of a partner's book.
#[derive(Drop)]
pub(crate) struct BookNote {
    note: Note,
}

impl Model for BookNote {
    ghost use Rattle.sr_book.specs.declared.note.Note.{Note as ANote};

    ghost Value = { ANote };

    ghost view = { λ n. n.note };
}

impl BookNote {
    pub(crate) fn new(note: Note) -> BookNote
        ensures { result ≡ note }
    {
        BookNote { note }
    }

    pub(crate) fn into_note(self) -> Note
        ensures { result ≡ self }
    {
        self.note
    }
}

impl Field for BookNote {
    ghost can_write = { λ _. ⊤ };

    ghost fits = { IsNote };

    ghost spelling = { note_spelling };

    ghost reading = { note_at };

    ghost format = { note_format };

    #[tactic(auto, unfolding(crate::specs::Inner::Outcomes::note_at))]
    fn read(alloc: Global, bytes: &[u8]) -> Result<(BookNote, &[u8]), Broken> {
        match bytes {
            [] => Err(Broken::Left(0)),
            [1, rest @ ..] => {
                let (place, rest) = Offset::read(alloc, rest)?;
                Ok((BookNote::new(Note::Confirmed(place)), rest))
            }
            [2, rest @ ..] => {
                let ((count, place), rest) = AskedParts::read(alloc, rest)?;
                Ok((BookNote::new(Note::Asked(count, place)), rest))
            }
            [3, rest @ ..] => Ok((BookNote::new(Note::Raised), rest)),
            [4, rest @ ..] => {
                let ((end, messages, confirm), rest) = SentParts::read(alloc, rest)?;
                let note = Note::Sent {
                    end,
                    messages,
                    confirm,
                };
                Ok((BookNote::new(note), rest))
            }
            [_, ..] => Err(Broken::Left(bytes.len())),
        }
    }

    #[tactic(auto, unfolding(crate::specs::Outcomes::note_spelling, crate::specs::Outcomes::IsNote))]
    fn write(&self, out: &mut Vec<u8>) -> Result<(), NoMemory> {
        match &self.note {
            Note::Confirmed(place) => write_pair(&1u8, place, out),
            Note::Asked(count, place) => write_triple(&2u8, count, place, out),
            Note::Raised => 3u8.write(out),
            Note::Sent {
                end,
                messages,
                confirm,
            } => write_four(&4u8, end, messages, confirm, out),
        }
    }
}
