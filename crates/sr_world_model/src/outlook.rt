//! What a longer history leaves as it was.

ghost use Rattle.std.specs.Prelude.{◌≤◌, List, ◌++◌};
ghost use Rattle.sr_msgform.specs.declared.message.Message.{Message};
ghost use Rattle.sr_book.specs.Entries.{Name};
ghost use Rattle.sr_book.specs.Histories.{taken};
ghost use Rattle.sr_world_model.specs.Layers.{Layers, end_of};
ghost use Rattle.sr_world_model.specs.Inner.Layers.{Laws};
ghost use Rattle.sr_book.specs.Rising.{Rises, top, offsets};
ghost use Rattle.sr_world_model.specs.Truth.{IsTrueOf};

use crate::below::Rules;

/// What a history gives a user has rising offsets above 0, and ends within the history.
pub fn given_rises<R: Rules>()
    ensures rises { (p : Layers R.Entry R.Ops) (laws : Laws p R.HasSpelling R.lawful) (d user : Name) (es : List R.Entry) →
        Rises 0 (offsets (p.given d user es)) }
    ensures within { (p : Layers R.Entry R.Ops) (laws : Laws p R.HasSpelling R.lawful) (d user : Name) (es : List R.Entry) →
        top 0 (offsets (p.given d user es)) ≤ end_of p es }
{}

/// A message that is true of a history stays true of each longer one in which the offsets taken from its receiver rise.
pub fn true_longer<R: Rules>()
    ensures { (p : Layers R.Entry R.Ops) (laws : Laws p R.HasSpelling R.lawful) (d : Name) (es more : List R.Entry) (m : Message) →
        Rises 0 (offsets (taken p.sees m.to (es ++ more))) → IsTrueOf p d es m → IsTrueOf p d (es ++ more) m }
{}
