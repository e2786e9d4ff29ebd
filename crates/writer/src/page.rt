ghost use Rattle.std.specs.Prelude.{decimal};
ghost use Rattle.writer.specs.Pages.{Puts};

use crate::lent::{Full, Lent};
use itoa::Buffer;

// A lent buffer for text.
pub type Page<'a> = Lent<'a, u8>;

impl<'a> Page<'a> {
    // Adds a number below 256 in decimal. One digit goes by itself, since a trace has little else.
    #[tactic(auto, using(crate::proofs::Digits::decimal_one))]
    pub fn put_number(&mut self, number: u8) -> Result<(), Full>
        ensures { Puts result (decimal number) self.old self.new }
    {
        if number < 10 {
            return self.put(&[b'0' + number]);
        }
        let mut digits = Buffer::new();
        self.put(digits.format(number).as_bytes())
    }
}
