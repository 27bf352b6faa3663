//! The layers as they are keep what a world asks of them.

ghost use Rattle.std.specs.Prelude.{◌≡◌, ◌↔◌, ℕ, List, [], ◌∷◌, ◌++◌};
ghost use Rattle.sr_book.specs.Entries.{Name};
ghost use Rattle.sr_database_history.specs.Fitting.{Knows, Stored};
ghost use Rattle.sr_database_history.specs.Recorded.{Recorded};
ghost use Rattle.sr_logform.specs.declared.op.Op.{Op as AnOp};
ghost use Rattle.sr_world_model.specs.Layers.{end_of};
ghost use Rattle.sr_world_model.specs.Inner.Layers.{Laws};
ghost use Rattle.sr_world_model.specs.Machines.{state_of};
ghost use Rattle.sr_world_model.specs.Inner.Machines.{GrantLaws};
ghost use Rattle.sr_scan.specs.Given.{given_of};
ghost use Rattle.sr_database_history.specs.Folds as folds;
ghost use Rattle.sr_world.specs.Lawful.{IsLawful};
ghost use Rattle.sr_world.specs.Real.{machine, layers, HasSpelling, LawfulHistory};

use sr_world_model::Rules;

/// Stands for the entries of real databases and their rules.
pub struct Real;

impl Rules for Real {
    ghost Entry = { Recorded };

    ghost Ops = { List AnOp };

    ghost HasSpelling = { HasSpelling };

    ghost lawful = { LawfulHistory };
}

/// All that a world asks of the layers below it holds: an entry gives at most one transaction, which ends where it does; what a lawful
/// history gives has a spelling; no body is that of two lists of transactions; what a taken transaction comes to is settled by the history
/// before it; who is granted stays so, and what is taken and noted of a user stands behind his grant. And what the world sees of a history
/// is its end, its state and what it gives.
pub fn the_layers_keep_the_laws()
    ensures laws { Laws layers HasSpelling LawfulHistory }
    ensures grants { GrantLaws machine IsLawful Knows }
    ensures stored { (d : Name) (rs : List Recorded) → LawfulHistory d rs → Stored d rs }
    ensures given { (d user : Name) (rs : List Recorded) → layers.given d user rs ≡ given_of d rs user }
    ensures end { (rs : List Recorded) → end_of layers rs ≡ folds.end_of rs }
    ensures state { (d : Name) (rs : List Recorded) → state_of machine d rs ≡ folds.state_of d rs }
{}

/// A history is lawful where it has no entry; and with one entry more exactly where the shorter one is, and the entry keeps every rule in the
/// state and behind the offset that it leaves.
pub fn a_lawful_history_grows()
    ensures nothing { (d : Name) → LawfulHistory d [] }
    ensures one_more { (d : Name) (rs : List Recorded) (r : Recorded)
        → LawfulHistory d (rs ++ r ∷ []) ↔ (LawfulHistory d rs × IsLawful (folds.state_of d rs) (folds.end_of rs) r) }
{}
