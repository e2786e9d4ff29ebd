ghost use Rattle.std.specs.Prelude.{◌≡◌};
ghost use Rattle.hosts.specs.Meanings.{covers, matches, ruled, Opened};

use crate::tables::{Rule, Rules};
use crate::tallied::Answers;
use base::{Reason, Refusal};
use host::{Call, Status};

// Whether a number of a rule stands for this script or action.
fn covers(number: u8, own: u8) -> bool
    ensures { result ≡ covers number own }
{
    number == 0 || number == own
}

impl Rule {
    fn matches(self, call: Call) -> bool
        ensures { result ≡ matches self call }
    {
        covers(self.script, call.script.number()) && covers(self.action, call.action.number())
    }
}

// What the rules say of the call.
fn ruled(rules: &[Rule], call: Call) -> Status
    ensures { result ≡ ruled rules.now call }
{
    for rule in rules {
        if rule.matches(call) {
            return rule.status;
        }
    }
    0
}

impl<'a> Rules<'a> {
    // These rules; refused where there are more than 32.
    pub fn new(rules: &'a [Rule]) -> Result<Rules<'a>, Refusal>
        ensures { Opened result rules.now }
    {
        if rules.len() > 32 {
            return Err(Refusal::in_words(Reason::OutsideLimits, 0));
        }
        Ok(Rules { list: rules })
    }
}

impl<'a> Answers for Rules<'a> {
    type Source = Rules<'a>;

    ghost start = { λ rules. rules };

    ghost gives = { λ rules. ruled rules.list.now };

    ghost after = { λ rules c. rules };

    fn start(source: Rules<'a>) -> Rules<'a> {
        source
    }

    fn answer(&mut self, call: Call) -> Status {
        ruled(self.list, call)
    }
}
