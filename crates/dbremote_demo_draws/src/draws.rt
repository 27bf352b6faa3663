ghost use Rattle.std.specs.Prelude.{◌≡◌};
ghost use Rattle.dbremote_demo_draws.specs.Draws.{next_state, number_of};

use std::marker::Model;

/// Numbers that are drawn one after the other, the same ones for a seed each time. Contracts see the state.
///
/// A draw multiplies the state by 6364136223846793005 and adds 1442695040888963407, modulo 2^64; the number is the state's upper 31 bits.
#[derive(Drop)]
pub struct Draws {
    state: u64,
}

impl Model for Draws {
    ghost use Rattle.std.specs.Prelude.{ℕ};

    ghost Value = { ℕ };

    ghost view = { λ d. d.state };
}

impl Draws {
    /// No number was drawn so far.
    pub fn new(seed: u64) -> Draws
        ensures state { result ≡ seed }
    {
        Draws { state: seed }
    }

    /// The next number, below 2^31.
    #[tactic(auto, unfolding(crate::specs::Draws::next_state))]
    pub fn next(&mut self) -> u32
        ensures state { self.new ≡ next_state self.old }
        ensures number { result ≡ number_of self.new }
    {
        self.state = self
            .state
            .wrapping_mul(6364136223846793005)
            .wrapping_add(1442695040888963407);
        (self.state / 8589934592) as u32
    }
}
