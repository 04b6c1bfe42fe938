// The draws.

ghost use Rattle.std.specs.Prelude.{◌≡◌, ◌<◌, ◌+◌, ℕ};
ghost use Rattle.cc_gen.specs.Draws.{state, draw};

/// A linear congruential generator, at one of its states.
#[derive(Drop)]
pub(crate) struct Draws {
    state: u64,
}

impl Draws {
    #[tactic(auto, unfolding(crate::specs::Draws::state))]
    pub(crate) fn from_seed(seed: u64) -> Draws
        ensures { result.state ≡ state seed 0 }
    {
        Draws { state: seed }
    }

    /// The next draw as a number below `k`, from the upper bits of its state.
    pub(crate) fn draw(&mut self, k: u32) -> u32
        requires { 0 < k }
        ensures state { (seed n : ℕ) → self.old.state ≡ state seed n → self.new.state ≡ state seed (n + 1) }
        ensures value { (seed n : ℕ) → self.old.state ≡ state seed n → result ≡ draw seed n k }
        ensures below { result < k }
    {
        self.state = self
            .state
            .wrapping_mul(6_364_136_223_846_793_005)
            .wrapping_add(1_442_695_040_888_963_407);
        ((self.state >> 33) as u32) % k
    }
}
