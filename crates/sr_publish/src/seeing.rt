//! What a user sees of a row.

ghost use Rattle.std.specs.Prelude.{◌≡◌, IfOk};
ghost use Rattle.sr_publish.specs.Views.{seen};

use crate::table_view::TableView;
use sr_base::{Name, NoMemory, Row};
use sr_catalog::Catalog;
use std::alloc::Global;

/// What a user sees of a row of a table: the values of the columns of the article by which he has the table, in article order.
///
/// `None` exactly where his view lacks the row: where the table is not there or the row does not fit it; where no started subscription
/// of his has the table; where WHERE is not true; and where SUBSCRIBE BY gives the row to none of his subscriptions. NULL is equal to
/// nothing there, and a subscription without a value has no row of an article with SUBSCRIBE BY; without SUBSCRIBE BY the value is not
/// looked at.
///
/// It takes a pass or two over the subscriptions of the catalog. Whoever asks of many rows makes a `TableView` once.
pub fn sees(
    alloc: Global,
    catalog: &Catalog,
    user: &Name,
    table: &Name,
    row: &Row,
) -> Result<Option<Row>, NoMemory>
    ensures sees { IfOk result (λ found. found ≡ seen catalog.now user.now table.now row.now) }
{
    match TableView::of(alloc, catalog, user, table)? {
        None => Ok(None),
        Some(view) => {
            let seen = view.sees(alloc, row);
            drop(view);
            seen
        }
    }
}
