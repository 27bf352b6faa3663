//! Windows of messages between real databases.

ghost use Rattle.std.specs.Prelude.{◌≡◌, ◌<◌, ℕ, List, ◌++◌};
ghost use Rattle.sr_book.specs.Entries.{Name};
ghost use Rattle.sr_book.specs.Histories.{taken as taken_from};
ghost use Rattle.sr_database_history.specs.Recorded.{Recorded};
ghost use Rattle.sr_logform.specs.declared.op.Op.{Op as AnOp};
ghost use Rattle.sr_world_model.specs.Steps.{Chain, Covers};
ghost use Rattle.sr_world_model.specs.Inner.Steps.{Take};
ghost use Rattle.sr_world_model.specs.Inner.Laws.{TakesAreOne, WholeWindowsAreTaken};
ghost use Rattle.sr_world_model.specs.Windows.{window};
ghost use Rattle.sr_world_model.specs.Worlds.{World, history};
ghost use Rattle.sr_world.specs.Real.{layers, HasSpelling, LawfulHistory, IsGoodWorld};

use crate::layers::Real;
use sr_world_model::{chain_covers, one_take, window_taken};

/// A whole window that begins at what was taken, or before it, is taken to its end, transaction by transaction, where each history on
/// the way keeps every rule. And in a good world the windows of a chain have, without gap or overlap, what the sender gives the receiver there.
pub fn windows_are_taken()
    ensures allowed { WholeWindowsAreTaken layers HasSpelling LawfulHistory }
    ensures taken { (user : Name) (txs : List (ℕ × List AnOp)) (rs new : List Recorded) → Take layers user txs new
        → taken_from layers.sees user (rs ++ new) ≡ taken_from layers.sees user rs ++ txs }
    ensures covers { (w : World Recorded) (d user : Name) (prev upto : ℕ) (windows : List (ℕ × List ℕ)) → IsGoodWorld w
        → Chain w.messages d user prev upto windows → Covers layers windows (window prev upto (layers.given d user (history w d))) }
{
    window_taken::<Real>();
    chain_covers::<Real>();
}

/// In a good world two takes of one partner that are both allowed are one entry, whichever windows they come from.
pub fn one_take_of_a_window()
    ensures { TakesAreOne layers HasSpelling LawfulHistory }
{
    one_take::<Real>();
}
