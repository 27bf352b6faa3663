use sr_base::{Copied, NoMemory};
use std::alloc::Global;

/// An operator of one operand.
#[derive(Clone, Copy, PartialEq, Eq)]
pub enum Unary {
    /// `NOT a`
    Not,
    /// `a IS NULL`
    IsNull,
    /// `a IS NOT NULL`
    IsNotNull,
    /// `-a`
    Negate,
}

/// An operator of two operands, loosest first.
#[derive(Clone, Copy, PartialEq, Eq)]
pub enum Binary {
    /// `a OR b`
    Or,
    /// `a AND b`
    And,
    /// `a = b`
    Equal,
    /// `a <> b`
    Unequal,
    /// `a < b`
    Less,
    /// `a <= b`
    AtMost,
    /// `a > b`
    Greater,
    /// `a >= b`
    AtLeast,
    /// `a + b`
    Add,
    /// `a - b`
    Subtract,
    /// `a * b`
    Multiply,
}

impl Copied for Unary {
    fn copy(&self, _alloc: Global) -> Result<Unary, NoMemory> {
        Ok(*self)
    }
}

impl Copied for Binary {
    fn copy(&self, _alloc: Global) -> Result<Binary, NoMemory> {
        Ok(*self)
    }
}
