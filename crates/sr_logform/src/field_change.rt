//! Changes as fields.

ghost use Rattle.std.specs.Prelude.{◌≡◌};
ghost use Rattle.sr_base.specs.Values.{IsValue, IsShort};
ghost use Rattle.sr_logform.specs.Inner.OutcomeLaws.{images_format, change_format};
ghost use Rattle.sr_logform.specs.Outcomes.{ImagesHave, change_spelling, IsChange, IsShortChange, is_same_row};
ghost use Rattle.sr_logform.specs.Inner.Outcomes.{images_at, images_spelling, change_at};

use crate::change::Change;
use sr_base::{Broken, Field, Name, NoMemory, Row, write_pair, write_triple};
use std::alloc::Global;
use std::marker::Model;

/// The row before and the row after, which differ.
#[derive(Drop)]
pub(crate) struct Images {
    before: Option<Row>,
    after: Option<Row>,
}

impl Model for Images {
    ghost use Rattle.std.specs.Prelude.{List, Option};
    ghost use Rattle.sr_base.specs.declared.value.Value.{Value as Cell};

    ghost Value = { Option (List Cell) × Option (List Cell) };

    ghost view = { λ i. (i.before, i.after) };
}

impl Images {
    /// The row before, and the row after.
    pub(crate) fn into_rows(self) -> (Option<Row>, Option<Row>)
        ensures { result ≡ self }
    {
        (self.before, self.after)
    }
}

/// Whether both rows are none, or they are equal.
fn are_same(before: &Option<Row>, after: &Option<Row>) -> bool
    ensures { result ≡ is_same_row before.now after.now }
{
    match before {
        None => after.is_none(),
        Some(before) => match after {
            None => false,
            Some(after) => *before == *after,
        },
    }
}

impl Field for Images {
    ghost can_write = { ImagesHave IsShort };

    ghost fits = { ImagesHave IsValue };

    ghost spelling = { images_spelling };

    ghost reading = { images_at };

    ghost format = { images_format };

    #[tactic(auto, unfolding(crate::specs::Inner::Outcomes::images_at, crate::specs::Inner::Rules::checked_at))]
    fn read(alloc: Global, bytes: &[u8]) -> Result<(Images, &[u8]), Broken> {
        let ((before, after), rest) = <(Option<Row>, Option<Row>)>::read(alloc, bytes)?;
        if are_same(&before, &after) {
            return Err(Broken::Left(bytes.len()));
        }
        Ok((Images { before, after }, rest))
    }

    fn write(&self, out: &mut Vec<u8>) -> Result<(), NoMemory> {
        write_pair(&self.before, &self.after, out)
    }
}

impl Field for Change {
    ghost can_write = { IsShortChange };

    ghost fits = { IsChange };

    ghost spelling = { change_spelling };

    ghost reading = { change_at };

    ghost format = { change_format };

    #[tactic(auto, unfolding(crate::specs::Inner::Outcomes::change_at))]
    fn read(alloc: Global, bytes: &[u8]) -> Result<(Change, &[u8]), Broken> {
        let ((table, images), rest) = <(Name, Images)>::read(alloc, bytes)?;
        let (before, after) = images.into_rows();
        let change = Change {
            table,
            before,
            after,
        };
        Ok((change, rest))
    }

    fn write(&self, out: &mut Vec<u8>) -> Result<(), NoMemory> {
        write_triple(&self.table, &self.before, &self.after, out)
    }
}
