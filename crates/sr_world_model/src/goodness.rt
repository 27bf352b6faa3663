//! Good worlds stay good.

ghost use Rattle.std.specs.Prelude.{◌≡◌, ℕ, ◌<◌, ◌≤◌, List, Contains};
ghost use Rattle.sr_msgform.specs.declared.message.Message.{Message};
ghost use Rattle.sr_book.specs.Entries.{Name};
ghost use Rattle.sr_book.specs.Histories.{taken_end};
ghost use Rattle.sr_book.specs.Rising.{top, offsets};
ghost use Rattle.sr_world_model.specs.Layers.{Layers, end_of};
ghost use Rattle.sr_world_model.specs.Inner.Layers.{Laws};
ghost use Rattle.sr_world_model.specs.Steps.{HasAllFragments, Chain, Covers};
ghost use Rattle.sr_world_model.specs.Windows.{window};
ghost use Rattle.sr_world_model.specs.Worlds.{World, WorldStep, history, happens, after_all, IsGood};
ghost use Rattle.sr_world_model.specs.Worlds.{fresh_world};
ghost use Rattle.sr_world_model.specs.Inner.Worlds.{IsAllowed, AreAllowed};
ghost use Rattle.sr_world_model.specs.Inner.Laws.{TakesAreOne, WhatIsNotedWasPut, WholeWindowsGiveMore};

use crate::below::Rules;

/// Each step that is allowed keeps each line of a good world.
pub fn stays_good<R: Rules>()
    ensures { (p : Layers R.Entry R.Ops) (laws : Laws p R.HasSpelling R.lawful) (w : World R.Entry) (act : WorldStep R.Entry) →
        IsGood p R.lawful w → IsAllowed p R.HasSpelling R.lawful w act → IsGood p R.lawful (happens w act) }
{}

/// Databases with empty histories and no message are a good world.
pub fn fresh_is_good<R: Rules>()
    ensures { (p : Layers R.Entry R.Ops) (laws : Laws p R.HasSpelling R.lawful) (names : List Name) → IsGood p R.lawful (fresh_world names) }
{}

/// Whatever allowed steps are taken from a good world, or from a fresh one, the world is good.
pub fn always_good<R: Rules>()
    ensures from_good { (p : Layers R.Entry R.Ops) (laws : Laws p R.HasSpelling R.lawful) (w : World R.Entry) (acts : List (WorldStep R.Entry)) →
        IsGood p R.lawful w → AreAllowed p R.HasSpelling R.lawful w acts → IsGood p R.lawful (after_all w acts) }
    ensures from_fresh { (p : Layers R.Entry R.Ops) (laws : Laws p R.HasSpelling R.lawful) (names : List Name) (acts : List (WorldStep R.Entry)) →
        AreAllowed p R.HasSpelling R.lawful (fresh_world names) acts → IsGood p R.lawful (after_all (fresh_world names) acts) }
{}

/// Two takes of one partner that are allowed in a good world are one entry, whichever windows they come from.
pub fn one_take<R: Rules>()
    ensures { (p : Layers R.Entry R.Ops) (laws : Laws p R.HasSpelling R.lawful) → TakesAreOne p R.HasSpelling R.lawful }
{}

/// In a good world the bytes of every whole window from one database to another are the body of exactly the transactions that the
/// sender gives the receiver in that window, and the last of these ends it (an empty one ends where it begins). Where it begins no
/// later than the receiver has taken, and ends past that, some transaction may be taken from it.
pub fn whole_body<R: Rules>()
    ensures body { (p : Layers R.Entry R.Ops) (w : World R.Entry) (d user : Name) (prev upto : ℕ) (bytes : List ℕ) →
        IsGood p R.lawful w → HasAllFragments w.messages user d prev upto bytes →
        bytes ≡ p.encode (window prev upto (p.given user d (history w user))) }
    ensures last { (p : Layers R.Entry R.Ops) (w : World R.Entry) (d user : Name) (prev upto : ℕ) (bytes : List ℕ) →
        IsGood p R.lawful w → HasAllFragments w.messages user d prev upto bytes →
        top prev (offsets (window prev upto (p.given user d (history w user)))) ≡ upto }
    ensures taken { (p : Layers R.Entry R.Ops) (laws : Laws p R.HasSpelling R.lawful) → WholeWindowsGiveMore p R.HasSpelling R.lawful }
{}

/// In a good world the windows of a chain from one database to another have, without gap or overlap, all that the sender gives the
/// receiver from the chain's beginning to its end. So what is noted as sent was put.
pub fn chain_covers<R: Rules>()
    ensures covers { (p : Layers R.Entry R.Ops) (laws : Laws p R.HasSpelling R.lawful) (w : World R.Entry) (d user : Name) (prev upto : ℕ)
        (windows : List (ℕ × List ℕ)) → IsGood p R.lawful w → Chain w.messages d user prev upto windows →
        Covers p windows (window prev upto (p.given d user (history w d))) }
    ensures sent { (p : Layers R.Entry R.Ops) (laws : Laws p R.HasSpelling R.lawful) → WhatIsNotedWasPut p R.HasSpelling R.lawful }
{}

/// In a good world nobody has taken, and no message says, what lies past the end of the history that it is of.
pub fn nothing_passes<R: Rules>()
    ensures taken { (p : Layers R.Entry R.Ops) (laws : Laws p R.HasSpelling R.lawful) (w : World R.Entry) (d user : Name) → IsGood p R.lawful w →
        taken_end p.sees user (history w d) ≤ end_of p (history w user) }
    ensures upto { (p : Layers R.Entry R.Ops) (laws : Laws p R.HasSpelling R.lawful) (w : World R.Entry) (m : Message) → IsGood p R.lawful w →
        Contains w.messages m → m.upto.0 ≤ end_of p (history w m.from) }
    ensures confirm { (p : Layers R.Entry R.Ops) (laws : Laws p R.HasSpelling R.lawful) (w : World R.Entry) (m : Message) → IsGood p R.lawful w →
        Contains w.messages m → m.confirm.0 ≤ end_of p (history w m.to) }
    ensures ask { (p : Layers R.Entry R.Ops) (laws : Laws p R.HasSpelling R.lawful) (w : World R.Entry) (m : Message) → IsGood p R.lawful w →
        Contains w.messages m → m.ask_offset.0 ≤ end_of p (history w m.to) }
{}
