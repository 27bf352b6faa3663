ghost use Rattle.std.specs.Prelude.{◌≡◌};
ghost use Rattle.sr_eval.specs.Truths.{known, not_of, and_of, or_of};

/// A truth of three values.
#[derive(Clone, Copy, PartialEq, Eq)]
pub enum Truth {
    True,
    False,
    Unknown,
}

impl Truth {
    /// The truth of a test.
    pub fn known(test: bool) -> Truth
        ensures { result ≡ known test }
    {
        if test { Truth::True } else { Truth::False }
    }

    /// NOT: unknown stays unknown.
    pub fn negation(self) -> Truth
        ensures { result ≡ not_of self }
    {
        match self {
            Truth::True => Truth::False,
            Truth::False => Truth::True,
            Truth::Unknown => Truth::Unknown,
        }
    }

    /// AND: false where one is false, and true where both are true.
    pub fn and(self, other: Truth) -> Truth
        ensures { result ≡ and_of self other }
    {
        match (self, other) {
            (Truth::True, other) => other,
            (Truth::False, _) => Truth::False,
            (Truth::Unknown, Truth::False) => Truth::False,
            (Truth::Unknown, _) => Truth::Unknown,
        }
    }

    /// OR: true where one is true, and false where both are false.
    pub fn or(self, other: Truth) -> Truth
        ensures { result ≡ or_of self other }
    {
        match (self, other) {
            (Truth::True, _) => Truth::True,
            (Truth::False, other) => other,
            (Truth::Unknown, Truth::True) => Truth::True,
            (Truth::Unknown, _) => Truth::Unknown,
        }
    }
}
