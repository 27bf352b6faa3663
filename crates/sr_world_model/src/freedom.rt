//! What a database may do, it may do whatever the others do.

ghost use Rattle.std.specs.Prelude.{◌≡◌, ◌≢◌, ℕ, List, ◌++◌};
ghost use Rattle.sr_msgform.specs.declared.message.Message.{Message};
ghost use Rattle.sr_book.specs.Entries.{Name};
ghost use Rattle.sr_book.specs.Histories.{taken};
ghost use Rattle.sr_world_model.specs.Layers.{Layers};
ghost use Rattle.sr_world_model.specs.Inner.Layers.{Laws};
ghost use Rattle.sr_world_model.specs.Steps.{DatabaseStep, CanDoAll};
ghost use Rattle.sr_world_model.specs.Inner.Steps.{Take};
ghost use Rattle.sr_world_model.specs.Worlds.{World, WorldStep, happens};
ghost use Rattle.sr_world_model.specs.Worlds.{AreAmong};
ghost use Rattle.sr_world_model.specs.Inner.Worlds.{IsAllowed};
ghost use Rattle.sr_world_model.specs.Inner.Laws.{AllowedStepsJoin, StepsAreAllowedInWorlds, StepsKeepWorldsGood, WholeWindowsAreTaken};

use crate::below::Rules;

/// A step stays allowed when another database steps first.
pub fn still_allowed<R: Rules>()
    ensures { (p : Layers R.Entry R.Ops) (w : World R.Entry) (other act : WorldStep R.Entry) → act.owner ≢ other.owner →
        IsAllowed p R.HasSpelling R.lawful w act → IsAllowed p R.HasSpelling R.lawful (happens w other) act }
{}

/// Deeds that a history and some messages allow, one after the other, are allowed with more messages too.
pub fn run_still_allowed<R: Rules>()
    ensures { (p : Layers R.Entry R.Ops) (fewer messages : List Message) (d : Name) (es : List R.Entry)
        (database_steps : List (DatabaseStep R.Entry)) → AreAmong fewer messages → CanDoAll p R.HasSpelling R.lawful fewer d es database_steps →
        CanDoAll p R.HasSpelling R.lawful messages d es database_steps }
{}

/// Deeds that one history and some messages allow, and then others that what these leave allows, are together allowed;
/// and of steps that are allowed each beginning is.
pub fn runs_join<R: Rules>()
    ensures joined { (p : Layers R.Entry R.Ops) → AllowedStepsJoin p R.HasSpelling R.lawful }
    ensures beginning { (p : Layers R.Entry R.Ops) (messages : List Message) (d : Name) (es : List R.Entry)
        (database_steps more : List (DatabaseStep R.Entry)) → CanDoAll p R.HasSpelling R.lawful messages d es (database_steps ++ more) →
        CanDoAll p R.HasSpelling R.lawful messages d es database_steps }
{}

/// Deeds of a database that its history and some messages allow are allowed steps of every world that has this history, and
/// these messages among others; and they leave each such world good that was good.
pub fn run_good<R: Rules>()
    ensures allowed { (p : Layers R.Entry R.Ops) → StepsAreAllowedInWorlds p R.HasSpelling R.lawful }
    ensures good { (p : Layers R.Entry R.Ops) (laws : Laws p R.HasSpelling R.lawful) → StepsKeepWorldsGood p R.HasSpelling R.lawful }
{}

/// A whole window that begins at what was taken, or before it, is taken to its end by allowed takes: one for each of its
/// transactions past what was taken, in order, where each history on the way is lawful. What was taken then goes on with
/// just these.
pub fn window_taken<R: Rules>()
    ensures allowed { (p : Layers R.Entry R.Ops) → WholeWindowsAreTaken p R.HasSpelling R.lawful }
    ensures taken { (p : Layers R.Entry R.Ops) (user : Name) (txs : List (ℕ × R.Ops)) (es new : List R.Entry) →
        Take p user txs new → taken p.sees user (es ++ new) ≡ taken p.sees user es ++ txs }
{}
