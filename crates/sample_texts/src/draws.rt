//! The numbers of a sample.

ghost use Rattle.std.specs.Prelude.{◌≡◌, ◌<◌};
ghost use Rattle.sample_texts.specs.Draws as spec;

/// Where the numbers of a sample stand.
#[derive(Clone, Copy)]
pub struct Draws {
    pub x: u64,
}

impl Draws {
    // The next number, below this bound.
    #[tactic(auto, unfolding(crate::specs::Draws::next, crate::specs::Draws::value))]
    pub fn below(&mut self, bound: usize) -> usize
        requires { 0 < bound }
        ensures value { result ≡ spec.drawn bound (spec.next self.old.x) }
        ensures range { result < bound }
        ensures next { self.new.x ≡ spec.next self.old.x }
    {
        self.x = ((self.x as u128 * 1_103_515_245 + 12_345) % 2_147_483_648) as u64;
        (self.x / 65536) as usize % bound
    }
}
