ghost use Rattle.std.specs.Prelude.{slice_index};
ghost use Rattle.hosts.specs.Meanings.{given_after};

use crate::tables::Statuses;
use crate::tallied::Answers;
use host::{Call, Status};

impl<'a> Answers for Statuses<'a> {
    type Source = &'a [Status];

    ghost start = { λ statuses. record { list = statuses; given = 0 } };

    ghost gives = { λ s c. slice_index s.list.now s.given };

    ghost after = { λ s c. record s { given = given_after s.list.now s.given } };

    fn start(source: &'a [Status]) -> Statuses<'a> {
        Statuses {
            list: source,
            given: 0,
        }
    }

    fn answer(&mut self, _call: Call) -> Status {
        let Some(status) = self.list.get(self.given) else {
            return 0;
        };
        self.given += 1;
        *status
    }
}
