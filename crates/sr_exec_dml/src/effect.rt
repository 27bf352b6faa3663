use sr_base::Row;

/// What becomes of a row in a statement.
#[derive(Drop)]
pub(crate) enum RowEffect {
    /// It stays as it is.
    Stays,
    /// It is deleted.
    Goes,
    /// It is updated.
    Becomes(Row),
}
