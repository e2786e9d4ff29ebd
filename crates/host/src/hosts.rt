ghost use Rattle.std.specs.Prelude.{◌≡◌};
ghost use Rattle.host.specs.Hosts.{Meaning, Ran, works};

use crate::calls::Call;
use crate::line::Status;

// What runs the scripts. The core knows of it only its meaning.
pub trait Host {
    ghost meaning: { Self → Meaning };

    // Runs the call and answers how it ended.
    fn run(&mut self, call: Call) -> Status
        ensures { Ran (meaning self.old) call result (meaning self.new) };

    // The latest call that was run.
    fn latest(&self) -> Option<Call>
        ensures { result ≡ (meaning self.now).latest };

    // How many calls were run, modulo 2^64.
    fn count(&self) -> u64
        ensures { result ≡ (meaning self.now).count };
}

// Whether a script that ended so did its work. Nothing else judges a status.
pub fn works(status: Status) -> bool
    ensures { result ≡ works status }
{
    status == 0
}
