ghost use Rattle.std.specs.Prelude.{drop};
ghost use Rattle.hosts.specs.Meanings.{played, mark_after};

use crate::tables::Playback;
use crate::tallied::Answers;
use host::{Call, Line, Status};

// The answer to a call that is not the next one.
const STRANGE: Status = 127;

impl<'a> Answers for Playback<'a> {
    type Source = &'a [Line];

    ghost start = { λ lines. record { lines = lines; mark = 0 } };

    ghost gives = { λ p. played (drop p.mark p.lines.now) };

    ghost after = { λ p c. record p { mark = mark_after p.lines.now p.mark c } };

    fn start(source: &'a [Line]) -> Playback<'a> {
        Playback {
            lines: source,
            mark: 0,
        }
    }

    fn answer(&mut self, call: Call) -> Status {
        let Some(line) = self.lines.get(self.mark) else {
            return STRANGE;
        };
        if !line.tells(call) {
            return STRANGE;
        }
        self.mark += 1;
        line.status
    }
}
