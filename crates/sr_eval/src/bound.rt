use sr_ast::Scope;
use sr_base::Value;

/// The columns that an expression may name, and a row's values of them, one each.
///
/// Several of them are a combination of rows, as of a join, or of the rows and variables of a trigger. A name means the first
/// column of that name, in the order of the sources.
#[derive(Clone, Copy)]
pub struct Bound<'a> {
    pub scope: &'a Scope,
    pub values: &'a [Value],
}
