use sr_base::{Name, Offset, Seq};
use sr_book::Book;
use sr_catalog::Catalog;
use sr_rows::Rows;

/// What a database holds at an offset of its log: its catalog, its rows, and a book for each user, in order of grant.
#[derive(Drop)]
pub struct State {
    pub offset: Offset,
    pub catalog: Catalog,
    pub rows: Rows,
    pub books: Seq<(Name, Book)>,
}
