ghost use Rattle.std.specs.Prelude.{◌≡◌};
ghost use Rattle.host.specs.Calls.{action_number};

use crate::calls::Action;

impl Action {
    // The number by which rules and trace lines name the action.
    pub fn number(self) -> u8
        ensures { result ≡ action_number self }
    {
        self as u8
    }
}
