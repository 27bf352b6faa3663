use std::alloc::AllocError;

/// Why a survey was given up.
#[derive(Clone, Copy, Debug)]
pub enum GivenUp {
    /// There was no memory.
    Memory,
    /// With an entry more it would have listed more places than it may.
    Places,
}

impl From<AllocError> for GivenUp {
    ghost use Rattle.std.specs.Prelude.{◌≡◌};
    ghost use Rattle.sr_survey.specs.declared.given_up.GivenUp.TheVariants.{Memory};

    ghost from_gives = { λ _ e. e ≡ Memory };

    fn from(_refused: AllocError) -> GivenUp {
        GivenUp::Memory
    }
}
