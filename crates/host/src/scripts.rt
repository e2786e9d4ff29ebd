ghost use Rattle.std.specs.Prelude.{◌≡◌};
ghost use Rattle.host.specs.Calls.{script_number};

use crate::calls::Script;

impl Script {
    // The number by which rules and trace lines name the script.
    pub fn number(self) -> u8
        ensures { result ≡ script_number self }
    {
        self as u8
    }
}
