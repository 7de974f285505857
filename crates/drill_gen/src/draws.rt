ghost use Rattle.std.specs.Prelude.{◌≡◌, ◌*◌, ◌+◌};
ghost use Rattle.drill_gen.specs.Drill.{seeded, next_state, after_draws, draw_from, address};

/// Numbers from 0 to 65,535 that look random and depend on the seed alone: the high bits of a linear
/// congruential generator.
#[derive(Drop)]
pub struct Draws {
    state: u32,
}

impl Draws {
    /// The numbers of a seed.
    pub fn new(seed: u64) -> Draws
        ensures { result.state ≡ seeded seed }
    {
        Draws {
            state: (seed % 2_147_483_648) as u32,
        }
    }

    /// The next number.
    pub fn draw(&mut self) -> u16
        ensures next { self.new.state ≡ next_state self.old.state }
        ensures drawn { result ≡ draw_from self.old.state 0 }
    {
        let next = (u64::from(self.state) * 1_103_515_245 + 12_345) % 2_147_483_648;
        self.state = next as u32;
        (next / 32_768) as u16
    }

    /// An address from the next two numbers, its high half first.
    pub fn address(&mut self) -> u32
        ensures next { self.new.state ≡ after_draws self.old.state 2 }
        ensures drawn { result ≡ address (draw_from self.old.state 0) (draw_from self.old.state 1) }
    {
        let high = self.draw();
        let low = self.draw();
        u32::from(high) * 65_536 + u32::from(low)
    }
}
