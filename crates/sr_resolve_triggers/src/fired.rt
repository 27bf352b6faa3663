use sr_base::{Row, Seq};
use sr_logform::Change;

/// What the triggers that a conflict fires leave: the rows that they have inserted, in order, and the row that is to stand.
#[derive(Drop)]
pub struct Fired {
    pub inserts: Seq<Change>,
    pub new: Row,
}
