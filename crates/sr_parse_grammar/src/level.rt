/// A level of operators that are read from left to right, loosest first.
#[derive(Clone, Copy)]
pub enum Level {
    Or,
    And,
    Sum,
    Product,
}
