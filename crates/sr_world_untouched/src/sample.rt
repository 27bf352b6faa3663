//! Keys of a real world that are untouched, so that the law of untouched keys is not empty.

ghost use Rattle.std.specs.Prelude.{◌≡◌, Some};
ghost use Rattle.sr_database_history.specs.Folds.{state_of};
ghost use Rattle.sr_database_history.specs.Inner.Sample.{cons, r1, table_t};
ghost use Rattle.sr_world_model.specs.Worlds.{history};
ghost use Rattle.sr_rows.specs.Marks.{rows_of_table};
ghost use Rattle.sr_world_untouched.specs.Inner.Sample.{first_key, when_synced, when_inserted, whole_table, slim_table, whole_subscribed_table, slim_subscribed_table};
ghost use Rattle.sr_world_untouched.specs.Untouched.{IsUntouched};
ghost use Rattle.sr_world.specs.Real.{IsGoodWorld};
ghost use Rattle.sr_world.specs.Inner.Sample.{r2, first_row, slim_row};

use sr_world::{a_real_world_goes, every_step_keeps_a_world_good};

/// In the sample's world the key of its row is untouched at r2 since cons synchronized it, once r2 has taken that; and at r1 since the START for it,
/// once r1 has taken the row that cons committed then. Both hold what they see of the row.
pub fn keys_are_untouched()
    ensures synced { IsUntouched when_synced r2 cons first_key slim_subscribed_table slim_table }
    ensures started { IsUntouched when_inserted r1 cons first_key whole_subscribed_table whole_table }
    ensures good_when_synced { IsGoodWorld when_synced }
    ensures good_when_inserted { IsGoodWorld when_inserted }
    ensures row_of_r2 { rows_of_table (state_of r2 (history when_synced r2)).rows table_t first_key ≡ Some slim_row }
    ensures row_of_r1 { rows_of_table (state_of r1 (history when_inserted r1)).rows table_t first_key ≡ Some (first_row 5) }
{
    every_step_keeps_a_world_good();
    a_real_world_goes();
}
