use sr_base::{Row, Value};

/// Rows that are updated and not noted yet: as they stood, and the values that come in their place, row after row.
#[derive(Drop)]
pub(crate) struct Pending {
    pub(crate) olds: Vec<Row>,
    pub(crate) values: Vec<Value>,
}
