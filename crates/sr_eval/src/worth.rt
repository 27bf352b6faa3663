ghost use Rattle.std.specs.Prelude.{◌≡◌};
ghost use Rattle.sr_eval.specs.Meanings.{cell_of, truth_of};
ghost use Rattle.sr_eval.specs.Inner.Worths.{meant};

use crate::truth::Truth;
use sr_base::Value;

/// What an expression gives over a row.
#[derive(Drop)]
pub enum Worth<'a> {
    /// A value that the row or the expression holds.
    Held(&'a Value),
    /// A value that was made: a number or NULL.
    Made(Value),
    /// A truth.
    Judged(Truth),
}

impl Worth<'_> {
    /// The value, where one is needed. A truth is none: `null` stands for it.
    pub fn cell<'a>(&'a self, null: &'a Value) -> &'a Value
        requires { null.now ≡ Value.Null }
        ensures cell { result.now ≡ cell_of (meant self.now) }
    {
        match self {
            Worth::Held(value) => value,
            Worth::Made(value) => value,
            Worth::Judged(_) => null,
        }
    }

    /// The truth, where one is needed. NULL is unknown.
    pub fn truth(&self) -> Truth
        ensures truth { result ≡ truth_of (meant self.now) }
    {
        match self {
            Worth::Held(_) | Worth::Made(_) => Truth::Unknown,
            Worth::Judged(truth) => *truth,
        }
    }
}
