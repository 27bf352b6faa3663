//! What the layers below are: of which kind their entries and ops are, which transactions have a spelling, and when a history keeps every rule.
//!
//! Each may be anything, and a rule any fact: each function of this crate that has `R: Rules` or `F: StepRules` holds of every one.
//! A layer that joins the real ones has a type without data that stands for them, writes the `impl` for it, and calls the function at that type.

ghost use Rattle.std.specs.Prelude.{ℕ, List};
ghost use Rattle.sr_book.specs.Entries.{Name};

/// The entries of databases, the spelling of what they give, and the rules of their histories.
pub trait Rules {
    /// What an entry is.
    ghost Entry: { Type 0 };

    /// What the ops of a transaction are.
    ghost Ops: { Type 0 };

    /// Each field of a transaction fits its place in a message's body.
    ghost HasSpelling: { (ℕ × Ops) → Type 0 };

    /// The history of a database of this name keeps every rule of the layers below.
    ghost lawful: { Name → List Entry → Type 0 };
}

/// The same for histories that are read one entry after the other, each by the state that those before it leave.
pub trait StepRules {
    /// What the entries of a history come to.
    ghost State: { Type 0 };

    /// What an entry is.
    ghost Entry: { Type 0 };

    /// What the ops of a transaction are.
    ghost Ops: { Type 0 };

    /// Each field of a transaction fits its place in a message's body.
    ghost HasSpelling: { (ℕ × Ops) → Type 0 };

    /// An entry keeps every rule, in this state and after this offset.
    ghost Fits: { State → ℕ → Entry → Type 0 };

    /// What is so of every state on the way.
    ghost Holds: { State → Type 0 };

    /// In this state the user is granted.
    ghost Knows: { State → Name → Type 0 };
}
