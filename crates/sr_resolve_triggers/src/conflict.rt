use sr_base::Value;
use sr_catalog::{Catalog, Table};
use sr_rows::Rows;

/// An update that met another value than it took for the stored one: the catalog and the rows before it, its table, the row that is stored,
/// and the row of the values that it took for the stored ones, NULL where it names none or one that does not fit.
#[derive(Clone, Copy)]
pub struct Conflict<'a> {
    pub catalog: &'a Catalog,
    pub rows: &'a Rows,
    pub table: &'a Table,
    pub stored: &'a [Value],
    pub remote: &'a [Value],
}
