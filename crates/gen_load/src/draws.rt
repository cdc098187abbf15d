ghost use Rattle.std.specs.Prelude.{◌≡◌, ◌<◌, ◌^◌};
ghost use Rattle.gen_load.specs.Draws.{next_number, drawn};

/// The numbers of a linear congruential generator, of which each draw takes one.
#[derive(Drop)]
pub struct Draws {
    pub number: u32,
    ghost in_range: { number < 2 ^ 31 },
}

impl Draws {
    /// A number from 0 up to `below`.
    pub fn draw(&mut self, below: u32) -> u32
        requires { 0 < below }
        ensures number { self.new.number ≡ next_number self.old.number }
        ensures value { result ≡ drawn below self.new.number }
    {
        let next = (u64::from(self.number) * 1_103_515_245 + 12_345) % 2_147_483_648;
        self.number = next as u32;
        self.number / 65_536 % below
    }
}
