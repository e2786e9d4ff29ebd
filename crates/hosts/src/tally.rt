ghost use Rattle.std.specs.Prelude.{◌≡◌};
ghost use Rattle.hosts.specs.Tallies.{fresh, counted};

use host::Call;

// What every host remembers of its runs.
#[derive(Clone, Copy)]
pub struct Tally {
    pub(crate) latest: Option<Call>,
    // modulo 2^64
    pub(crate) count: u64,
}

impl Tally {
    pub(crate) fn new() -> Tally
        ensures { result ≡ fresh }
    {
        Tally {
            latest: None,
            count: 0,
        }
    }

    // One run more.
    pub(crate) fn add(&mut self, call: Call)
        ensures { self.new ≡ counted self.old call }
    {
        self.latest = Some(call);
        self.count = self.count.wrapping_add(1);
    }
}
