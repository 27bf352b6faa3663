//! A world of real databases that goes, so that no law of worlds and no condition of a step is empty.

ghost use Rattle.std.specs.Prelude.{◌≡◌, [], ◌∷◌, length, map, pos, Some};
ghost use Rattle.sr_base.specs.declared.value.Value.TheVariants.{Int as IntCell};
ghost use Rattle.sr_book.specs.Histories.{taken as taken_from, book_of};
ghost use Rattle.sr_database_history.specs.Folds.{state_of};
ghost use Rattle.sr_database_history.specs.Inner.Sample.{cons, r1, table_t, table_u};
ghost use Rattle.sr_world_model.specs.Layers.{end_of};
ghost use Rattle.sr_world_model.specs.Worlds.{history};
ghost use Rattle.sr_msgform.specs.declared.message.Message.{Message};
ghost use Rattle.sr_rows.specs.Marks.{rows_of_table};
ghost use Rattle.sr_catalog_schema.specs.Members.{table_name};
ghost use Rattle.sr_world.specs.Real.{layers, IsGoodWorld};
ghost use Rattle.sr_world.specs.Real.{AreRunsIn};
ghost use Rattle.sr_world.specs.Inner.Real.{AreSteps};
ghost use Rattle.sr_world.specs.Inner.Sample.{real_world, real_runs, real_acts, reached, r2, first_row};
ghost use Rattle.sr_world.specs.Inner.Sample.{gave_insert, gave_slim, gave_statement, gave_update, gave_other, gave_back};
ghost use Rattle.sr_world.specs.Inner.Sample.{lost, for_r2, second, resent, answer, returned};

use crate::layers::Real;
use sr_world_model::{always_good, runs_good};

/// Three databases, eight runs, 44 steps. cons has a table and publishes it whole to r1, and its key alone to r2; it commits a row, and then
/// synchronizes r2 and passes a statement on to it. r1 never finds the window with the row but only the next one: it asks, cons notes the
/// ask and sends both again as one window, r1 takes the first transaction of it, updates the row, and takes the second, an update from
/// above. What r1 committed meets another value at cons, where no trigger stands, so the value of r1 is put in its place; cons gives that
/// back, and r1 takes it. They are runs, each step is allowed, and the world is then good; each has taken all that its partner gives it,
/// r1 and cons have one row, and the books tell what was sent, confirmed, asked for and raised. The ends of histories and the lengths of
/// bodies are reckoned by hand from the layouts.
pub fn a_real_world_goes()
    ensures runs { AreRunsIn real_world real_runs }
    ensures steps { length real_acts ≡ 44 }
    ensures allowed { AreSteps real_world real_acts }
    ensures good { IsGoodWorld reached }
    ensures given { layers.given cons r1 (history reached cons) ≡ gave_insert ∷ gave_update ∷ gave_back ∷ [] }
    ensures taken { taken_from layers.sees cons (history reached r1) ≡ gave_insert ∷ gave_update ∷ gave_back ∷ [] }
    ensures given_to_r2 { layers.given cons r2 (history reached cons) ≡ gave_slim ∷ gave_statement ∷ [] }
    ensures taken_by_r2 { taken_from layers.sees cons (history reached r2) ≡ gave_slim ∷ gave_statement ∷ [] }
    ensures given_by_r1 { layers.given r1 cons (history reached r1) ≡ gave_other ∷ [] }
    ensures taken_by_cons { taken_from layers.sees r1 (history reached cons) ≡ gave_other ∷ [] }
    ensures ends_of_cons { end_of layers (history reached cons) ≡ 831 }
    ensures ends_of_r1 { end_of layers (history reached r1) ≡ 603 }
    ensures ends_of_r2 { end_of layers (history reached r2) ≡ 250 }
    ensures row_at_cons { rows_of_table (state_of cons (history reached cons)).rows table_t (IntCell (pos 1) ∷ []) ≡ Some (first_row 6) }
    ensures row_at_r1 { rows_of_table (state_of r1 (history reached r1)).rows table_t (IntCell (pos 1) ∷ []) ≡ Some (first_row 6) }
    ensures tables_of_r2 { map table_name (state_of r2 (history reached r2)).catalog.tables ≡ table_t ∷ table_u ∷ [] }
    ensures sent { (book_of layers.sees r1 (history reached cons)).log_sent ≡ 801 }
    ensures confirmed { (book_of layers.sees r1 (history reached cons)).confirm_sent ≡ 612 }
    ensures asked { (book_of layers.sees r1 (history reached cons)).resend_count ≡ 1 }
    ensures raised { (book_of layers.sees cons (history reached r1)).rereceive_count ≡ 1 }
    ensures bodies { map (λ (m : Message). length m.fragment) (lost ∷ for_r2 ∷ second ∷ resent ∷ answer ∷ returned ∷ []) ≡ 34 ∷ 101 ∷ 43 ∷ 77 ∷ 43 ∷ 43 ∷ [] }
{
    always_good::<Real>();
    runs_good::<Real>();
}
