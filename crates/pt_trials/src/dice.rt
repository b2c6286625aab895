ghost use Rattle.std.specs.Prelude.{◌<◌};

/// Random numbers.
#[derive(Drop)]
pub struct Dice {
    /// The state from which the next throws come.
    pub state: u64,
}

impl Dice {
    /// A number below `sides`.
    pub fn throw(&mut self, sides: u32) -> u32
        requires { 0 < sides }
        ensures { result < sides }
    {
        self.state = self
            .state
            .wrapping_mul(6_364_136_223_846_793_005)
            .wrapping_add(1_442_695_040_888_963_407);
        let high = (self.state >> 33) as u32;
        high % sides
    }
}
