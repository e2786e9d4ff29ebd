ghost use Rattle.std.specs.Prelude.{◌<◌};

// A linear congruential generator: the same sequence for each store.
#[derive(Clone, Copy)]
pub struct Dice {
    state: u32,
}

impl Dice {
    pub(crate) fn new() -> Dice {
        Dice { state: 20_261 }
    }

    pub(crate) fn word(&mut self) -> u32 {
        self.state = self
            .state
            .wrapping_mul(1_664_525)
            .wrapping_add(1_013_904_223);
        self.state
    }

    // A number below another, from the upper bits.
    pub(crate) fn below(&mut self, n: u32) -> u32
        requires { 0 < n }
        ensures { result < n }
    {
        (self.word() >> 16) % n
    }

    // One of about fifty keys, so that calls meet each other; the last of them are too high.
    pub(crate) fn key(&mut self) -> usize {
        let n = self.below(50) as usize;
        if n < 42 { n * 24 } else { 978 + n }
    }
}
