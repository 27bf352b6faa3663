//! Clashes and outcomes as fields.

ghost use Rattle.std.specs.Prelude.{⊤};
ghost use Rattle.sr_logform.specs.Inner.OutcomeLaws.{clash_format, outcome_format};
ghost use Rattle.sr_logform.specs.Outcomes.{clash_spelling, outcome_spelling, IsOutcome, IsShortOutcome};
ghost use Rattle.sr_logform.specs.Inner.Outcomes.{clash_at, outcome_at};

use crate::change::Change;
use crate::outcome::{Clash, Outcome};
use crate::writing_parts::write_four;
use sr_base::{Broken, Field, NoMemory, Row, Seq, write_pair};
use std::alloc::Global;

type ConflictParts = (Seq<Change>, Row, Row);

impl Field for Clash {
    ghost can_write = { λ _. ⊤ };

    ghost fits = { λ _. ⊤ };

    ghost spelling = { clash_spelling };

    ghost reading = { clash_at };

    ghost format = { clash_format };

    #[tactic(auto, unfolding(crate::specs::Inner::Outcomes::clash_at))]
    fn read(_alloc: Global, bytes: &[u8]) -> Result<(Clash, &[u8]), Broken> {
        match bytes {
            [] => Err(Broken::Left(0)),
            [1, rest @ ..] => Ok((Clash::Duplicate, rest)),
            [2, rest @ ..] => Ok((Clash::NoRow, rest)),
            [3, rest @ ..] => Ok((Clash::NoTable, rest)),
            [4, rest @ ..] => Ok((Clash::NoColumn, rest)),
            [5, rest @ ..] => Ok((Clash::BadValue, rest)),
            [6, rest @ ..] => Ok((Clash::Null, rest)),
            [7, rest @ ..] => Ok((Clash::Trigger, rest)),
            [8, rest @ ..] => Ok((Clash::Statement, rest)),
            [_, ..] => Err(Broken::Left(bytes.len())),
        }
    }

    #[tactic(auto, unfolding(crate::specs::Outcomes::clash_spelling))]
    fn write(&self, out: &mut Vec<u8>) -> Result<(), NoMemory> {
        match self {
            Clash::Duplicate => 1u8.write(out),
            Clash::NoRow => 2u8.write(out),
            Clash::NoTable => 3u8.write(out),
            Clash::NoColumn => 4u8.write(out),
            Clash::BadValue => 5u8.write(out),
            Clash::Null => 6u8.write(out),
            Clash::Trigger => 7u8.write(out),
            Clash::Statement => 8u8.write(out),
        }
    }
}

impl Field for Outcome {
    ghost can_write = { IsShortOutcome };

    ghost fits = { IsOutcome };

    ghost spelling = { outcome_spelling };

    ghost reading = { outcome_at };

    ghost format = { outcome_format };

    #[tactic(auto, unfolding(crate::specs::Inner::Outcomes::outcome_at))]
    fn read(alloc: Global, bytes: &[u8]) -> Result<(Outcome, &[u8]), Broken> {
        match bytes {
            [] => Err(Broken::Left(0)),
            [0, rest @ ..] => {
                let (changes, rest) = Seq::<Change>::read(alloc, rest)?;
                Ok((Outcome::Plain(changes), rest))
            }
            [1, rest @ ..] => {
                let ((inserts, before, after), rest) = ConflictParts::read(alloc, rest)?;
                let outcome = Outcome::Conflict {
                    inserts,
                    before,
                    after,
                };
                Ok((outcome, rest))
            }
            [2, rest @ ..] => {
                let (clash, rest) = Clash::read(alloc, rest)?;
                Ok((Outcome::Clash(clash), rest))
            }
            [_, ..] => Err(Broken::Left(bytes.len())),
        }
    }

    #[tactic(auto, unfolding(crate::specs::Outcomes::outcome_spelling, crate::specs::Outcomes::OutcomeHas))]
    fn write(&self, out: &mut Vec<u8>) -> Result<(), NoMemory> {
        match self {
            Outcome::Plain(changes) => write_pair(&0u8, changes, out),
            Outcome::Conflict {
                inserts,
                before,
                after,
            } => write_four(&1u8, inserts, before, after, out),
            Outcome::Clash(clash) => write_pair(&2u8, clash, out),
        }
    }
}
