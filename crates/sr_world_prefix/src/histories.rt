//! Messages that are true, and histories that go on.

ghost use Rattle.std.specs.Prelude.{◌≡◌, ◌++◌, List};
ghost use Rattle.std.specs.List.{AllByRecursion};
ghost use Rattle.sr_book.specs.Entries.{Name, local};
ghost use Rattle.sr_database_history.specs.Folds.{sees};
ghost use Rattle.sr_database_history.specs.Recorded.{Recorded};
ghost use Rattle.sr_world_model.specs.Truth.{IsTrueOf};
ghost use Rattle.sr_msgform.specs.declared.message.Message.{Message as AMessage};
ghost use Rattle.sr_world.specs.Real.{layers};
ghost use Rattle.sr_world_prefix.specs.Partners.{ArePartners, IsInStep};
ghost use Rattle.sr_world_prefix.specs.Truths.{IsTrueInPart};

/// A message stays true in part of its sender's history as this goes on in step with the receiver's; and a message that is true of it in a world of
/// databases is true in part.
pub fn what_is_true_stays_so()
    ensures longer { (sender : Name) (es more us : List Recorded) (m : AMessage) → IsInStep sender m.to (es ++ more) us → IsTrueInPart sender es m → IsTrueInPart sender (es ++ more) m }
    ensures world { (sender : Name) (es : List Recorded) (m : AMessage) → IsTrueOf layers sender es m → IsTrueInPart sender es m }
{}

/// What a database does by itself, its own transactions, statements, synchronizations and passthroughs, leaves it in step with each partner.
pub fn own_entries_keep_partners_in_step()
    ensures own { (publisher user : Name) (es us new : List Recorded) → AllByRecursion (λ r. sees r ≡ local) new → ArePartners publisher user es us
        → ArePartners publisher user (es ++ new) us }
{}
