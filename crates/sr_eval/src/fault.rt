use std::alloc::AllocError;

/// Why an expression has no answer.
#[derive(Clone, Copy, PartialEq, Eq)]
pub enum EvalFault {
    /// A number passes the end of its type.
    Overflow,
    /// There is no memory for the value.
    Memory,
}

impl From<AllocError> for EvalFault {
    ghost use Rattle.std.specs.Prelude.{◌≡◌};
    ghost use Rattle.sr_eval.specs.declared.fault.EvalFault.TheVariants.{Memory};

    ghost from_gives = { λ _ e. e ≡ Memory };

    fn from(_refused: AllocError) -> EvalFault {
        EvalFault::Memory
    }
}
