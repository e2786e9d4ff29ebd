ghost use Rattle.std.specs.Prelude.{◌≡◌};
ghost use Rattle.base.specs.Refusals.{rank};

use crate::reasons::Layer;

impl Layer {
    // The number by which manuals and programs name the layer.
    pub fn number(self) -> u8
        ensures { result ≡ rank self }
    {
        self as u8
    }
}
