/// What a database has set for itself, beside what it has created.
#[derive(Clone, Copy, PartialEq, Eq)]
pub struct Options {
    /// Whether what is given to the user above carries the old value of every column.
    pub verifies: bool,
}
