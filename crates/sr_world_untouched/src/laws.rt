//! What a database below makes of what the one above shows it: row by row, and at each key that it did not touch. Each function does nothing: it
//! carries a law as its clause.

ghost use Rattle.std.specs.Prelude.{◌≡◌, ℕ, List, Some, map, zip};
ghost use Rattle.sr_base.specs.declared.value.Value.{Value as Cell};
ghost use Rattle.sr_exec_fits.specs.Rows.{IsRow};
ghost use Rattle.sr_database_history.specs.Recorded.{Recorded};
ghost use Rattle.sr_logform.specs.Rules.{AreDistinct};
ghost use Rattle.sr_world_model.specs.Worlds.{World};
ghost use Rattle.sr_publish.specs.Inner.Laws.{HasKey};
ghost use Rattle.sr_resolve.specs.Named.{fitted_key};
ghost use Rattle.sr_catalog_schema.specs.Members.{column_name, key_names};
ghost use Rattle.sr_catalog_schema.specs.declared.table.Column.{Column as AColumn};
ghost use Rattle.sr_catalog_schema.specs.declared.table.Table.{Table as ATable};
ghost use Rattle.sr_world_untouched.specs.Agreeing.{HasColumns, HasShown};
ghost use Rattle.sr_world_untouched.specs.Inner.Agreeing.{InsertsShown, UpdatesToShown, held_in};
ghost use Rattle.sr_world_untouched.specs.Untouched.{KeysAgree};
ghost use Rattle.sr_world.specs.Real.{IsGoodWorld};

/// What a view shows is inserted below as it stands, with NULL in no column where none may be, under the key of the values that it shows.
pub fn an_insert_from_above_agrees()
    ensures row { (columns : List AColumn) (t : ATable) (shown : List Cell) → AreDistinct (map column_name columns)
        → HasColumns columns t → IsRow columns shown → InsertsShown columns t shown }
{}

/// The columns that differ in two rows that a view shows are updated below to what it shows then, with NULL in no column where none may be.
pub fn an_update_from_above_agrees()
    ensures row { (columns : List AColumn) (t : ATable) (before after row : List Cell) → AreDistinct (map column_name columns)
        → HasColumns columns t → IsRow columns after → HasShown t.columns columns before row
        → UpdatesToShown columns t before after row }
{}

/// The key of the values that a view shows is fitted below as it stands.
pub fn a_key_from_above_is_fitted()
    ensures key { (columns : List AColumn) (t : ATable) (shown : List Cell) → HasColumns columns t → IsRow columns shown → HasKey t
        → fitted_key t (zip (key_names t) (map (held_in columns shown) (key_names t))) ≡ Some (map (held_in columns shown) (key_names t)) }
{}

/// In a good world, at each key of a table that is untouched below since a synchronization that has the table, or since a START behind which the
/// view has no row there, the database below holds exactly the row of the view of the one above, as of the last transaction that it took: the
/// same values in the columns of the article, or no row on both sides. Nothing is said of keys that it touched.
pub fn untouched_keys_agree()
    ensures agree { (w : World Recorded) → IsGoodWorld w → KeysAgree w }
{}
