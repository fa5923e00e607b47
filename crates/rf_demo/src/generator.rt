//! Numbers that are drawn one after another.

ghost use Rattle.std.specs.Prelude.{◌≡◌, ◌<◌};
ghost use Rattle.rf_demo.specs.Draws.{drawn, next_state};

/// A state from which numbers are drawn.
#[derive(Clone, Copy)]
pub struct Generator {
    pub state: u64,
}

impl Generator {
    /// Draws a number below `below`.
    #[tactic(auto, using(crate::proofs::Draws::stepped))]
    pub fn draw(&mut self, below: u64) -> u64
        requires { 0 < below }
        ensures state { self.new.state ≡ next_state self.old.state }
        ensures drawn { result ≡ drawn below self.new.state }
        ensures within { result < below }
    {
        self.state = self
            .state
            .wrapping_mul(6_364_136_223_846_793_005)
            .wrapping_add(1_442_695_040_888_963_407);
        (self.state >> 33) % below
    }
}
