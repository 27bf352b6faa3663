//! What the triggers of a conflict leave. The function does nothing: it carries the law as its clause.

ghost use Rattle.std.specs.Prelude.{◌≡◌, ℕ, List, Some};
ghost use Rattle.sr_base.specs.declared.value.Value.{Value as Cell};
ghost use Rattle.sr_exec_fits.specs.Rows.{IsRow};
ghost use Rattle.sr_resolve_triggers.specs.Firing.{fired};
ghost use Rattle.sr_resolve_triggers.specs.Inner.Laws.{IsLeft};
ghost use Rattle.sr_resolve_triggers.specs.Bindings.{UpdateConflict};
ghost use Rattle.sr_resolve_triggers.specs.declared.fired.Fired.{Fired as Left};

/// What triggers leave of a row that fits its table fits, and stands under the same key; what they insert fits the rows; and each row that
/// was there stays.
pub fn what_triggers_leave_fits()
    ensures left { (base : UpdateConflict) (differing : List (List ℕ)) (new : List Cell) (f : Left) → IsRow base.table.columns new
        → fired base differing new ≡ Some f → IsLeft base new f }
{}
