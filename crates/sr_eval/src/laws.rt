//! Laws of the meaning of expressions. Each is the contract of a function that does nothing.

ghost use Rattle.sr_eval.specs.Inner.Laws.{HaveTheirClass, PlainHaveValues, AndIsBoth, AndNeedsBoth, NullEqualsNothing, ResolvedMeanTheSame};

/// Over a row that fits, an expression of class number, text or date has a value of that class, or NULL, or none. One of
/// class any has NULL, or none. A condition has a truth, or none.
pub fn a_value_is_of_its_class()
    ensures class { HaveTheirClass }
{}

/// An expression without arithmetic always has a value.
pub fn without_arithmetic_there_is_a_value()
    ensures value { PlainHaveValues }
{}

/// `a AND b` is true exactly where `a` and `b` are, and has a value exactly where both have one.
pub fn and_holds_where_both_hold()
    ensures held { AndIsBoth }
    ensures value { AndNeedsBoth }
{}

/// An equation with NULL on a side is never true.
pub fn null_equals_nothing()
    ensures never { NullEqualsNothing }
{}

/// An expression whose names are resolved gives what it gives by its names.
pub fn a_resolved_expression_means_the_same()
    ensures same { ResolvedMeanTheSame }
{}
