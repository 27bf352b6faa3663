//! A small history that may stand in a log, so that no law of histories is empty.

ghost use Rattle.std.specs.Prelude.{◌≡◌, ◌∷◌, [], map, pos, Some};
ghost use Rattle.sr_base.specs.declared.value.Value.TheVariants.{Int as IntCell, Null as NullCell};
ghost use Rattle.sr_rows.specs.Marks.{rows_of_table};
ghost use Rattle.sr_catalog_schema.specs.Members.{table_name};
ghost use Rattle.sr_database_history.specs.Fitting.{Stored};
ghost use Rattle.sr_database_history.specs.Folds.{state_of, end_of, books_of};
ghost use Rattle.sr_database_history.specs.Inner.Sample.{cons, r1, table_t, row, sample};

/// It has an entry of every kind, a transaction that was taken with an outcome of every kind and an Exec that ran, a table dropped here and
/// one dropped elsewhere only. Its end is reckoned by hand from the layout of entries: 70, 23, 23, 28, 195, 29, 29 and 5 bytes, and five more for each.
pub fn a_history_may_stand()
    ensures stands { Stored cons sample }
    ensures ends { end_of sample ≡ 442 }
    ensures updated { rows_of_table (state_of cons sample).rows table_t (IntCell (pos 1) ∷ []) ≡ Some (row 1 (IntCell (pos 7))) }
    ensures came { rows_of_table (state_of cons sample).rows table_t (IntCell (pos 2) ∷ []) ≡ Some (row 2 NullCell) }
    ensures tables { map table_name (state_of cons sample).catalog.tables ≡ table_t ∷ [] }
    ensures received { (books_of r1 sample).log_received ≡ 15 }
    ensures taken { (books_of r1 sample).receive_count ≡ 1 }
    ensures raised { (books_of r1 sample).rereceive_count ≡ 1 }
{}
