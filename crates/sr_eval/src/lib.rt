//! The meaning of expressions over a row, or over a combination of rows: values, truths of three values, and numbers that pass their type's end.
//!
//! It stands on sr_base and sr_ast. An expression is evaluated where the values lie; only the answer of `eval` is copied. An expression that
//! is evaluated over many rows has its names resolved first, once. The contracts that matter most are those of `eval`, `holds` and `resolve`.
#![tactic(auto)]

mod bound;
mod comparison;
mod evaluation;
mod fault;
mod judging;
mod laws;
mod meaning;
mod number;
mod resolved;
mod resolved_meaning;
mod truth;
mod untyped;
mod values;
mod worth;

pub use bound::Bound;
pub use comparison::is_null;
pub use evaluation::{eval, holds, holds_plain};
pub use fault::EvalFault;
pub use laws::{
    a_resolved_expression_means_the_same, a_value_is_of_its_class, and_holds_where_both_hold,
    null_equals_nothing, without_arithmetic_there_is_a_value,
};
pub use resolved::{Boxed, Resolved, resolve};
pub use resolved_meaning::{is_resolved_true, resolved_value};
pub use untyped::{is_true_over, value_over};
pub use values::{Values, value_at_place};
