ghost use Rattle.std.specs.Prelude.{◌≡◌, ℕ};
ghost use Rattle.host.specs.declared.calls.Call.{Call};
ghost use Rattle.host.specs.Hosts.{Ran};
ghost use Rattle.hosts.specs.Tallies.{fresh, told};

use crate::tally::Tally;
use host::{Call, Host, Status};

// What a host answers, whatever it remembers of its runs.
pub trait Answers {
    // what it is made of
    type Source;

    // as it is made
    ghost start: { Self.Source → Self };

    // the status that each call would get now
    ghost gives: { Self → Call → ℕ };

    // what it is after a call
    ghost after: { Self → Call → Self };

    fn start(source: Self::Source) -> Self
        ensures { result ≡ start source };

    fn answer(&mut self, call: Call) -> Status
        ensures gives { result ≡ gives self.old call }
        ensures after { self.new ≡ after self.old call };
}

// A host that gives these answers, and counts its runs.
#[derive(Drop)]
pub struct Tallied<A> {
    pub(crate) answers: A,
    pub(crate) tally: Tally,
}

impl<A: Answers> Tallied<A> {
    // A host that has run nothing.
    pub fn new(source: A::Source) -> Tallied<A>
        ensures answers { result.answers ≡ A.start source }
        ensures start { result.tally ≡ fresh }
    {
        Tallied {
            answers: A::start(source),
            tally: Tally::new(),
        }
    }
}

impl<A: Answers> Host for Tallied<A> {
    ghost meaning = { told A.gives };

    fn run(&mut self, call: Call) -> Status
        ensures ran { Ran (told A.gives self.old) call result (told A.gives self.new) }
        ensures after { self.new.answers ≡ A.after self.old.answers call }
    {
        self.tally.add(call);
        self.answers.answer(call)
    }

    fn latest(&self) -> Option<Call> {
        self.tally.latest
    }

    fn count(&self) -> u64 {
        self.tally.count
    }
}
