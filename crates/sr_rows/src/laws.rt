//! What the rows of a table as a list are.

ghost use Rattle.std.specs.Prelude.{◌≡◌, ℕ, List, None};
ghost use Rattle.std.specs.FinMap.{find};
ghost use Rattle.sr_base.specs.declared.value.Value.{Value as Cell};
ghost use Rattle.sr_base.specs.Order.{key_cmp};
ghost use Rattle.sr_rows.specs.Marks.{RowMap, rows_of_table};
ghost use Rattle.sr_rows.specs.Walks.{table_rows};
ghost use Rattle.sr_rows.specs.Inner.Walks.{past, Rises};

/// The list of a table's rows has exactly the rows that are held, its keys rise, and all of it comes after no key: so going on
/// with `Rows::next` from `None` gives each row of the table once, in the order of the keys.
pub fn a_table_is_walked_in_the_order_of_its_keys()
    ensures held { (rows : RowMap) (table : List ℕ) (key : List Cell) → rows_of_table rows table key ≡ find key_cmp key (table_rows rows table) }
    ensures ascending { (rows : RowMap) (table : List ℕ) → Rises key_cmp (table_rows rows table) }
    ensures all { (rows : RowMap) (table : List ℕ) → past None (table_rows rows table) ≡ table_rows rows table }
{}
