//! Numbers that are drawn, one after the other.
ghost use Rattle.std.specs.Prelude.{◌≡◌, ◌<◌};
ghost use Rattle.load_plan.specs.Draws.{next, given_below};

/// Draws from a number to begin with: the same number gives the same draws.
#[derive(Clone, Copy, Debug, PartialEq, Eq)]
pub struct Draws {
    /// The last state, at first the number.
    pub state: u64,
}

impl Draws {
    /// Nothing is drawn yet.
    pub fn new(number: u32) -> Draws
        ensures { result.state ≡ number }
    {
        Draws {
            state: u64::from(number),
        }
    }

    /// Draws a number below this one.
    #[tactic(auto, unfolding(crate::specs::Draws::next, crate::specs::Draws::given_below))]
    pub fn draw(&mut self, below: u16) -> u16
        requires { 0 < below }
        ensures state { self.new.state ≡ next self.old.state }
        ensures drawn { result ≡ given_below below (next self.old.state) }
        ensures small { result < below }
    {
        self.state = self
            .state
            .wrapping_mul(6_364_136_223_846_793_005)
            .wrapping_add(1_442_695_040_888_963_407);
        (self.state / 8_589_934_592 % u64::from(below)) as u16
    }
}
