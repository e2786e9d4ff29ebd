ghost use Rattle.std.specs.Prelude.{◌≡◌, ◌==◌};
ghost use Rattle.host.specs.Calls.{script_number, action_number};
ghost use Rattle.host.specs.Hosts.{call_line};
ghost use Rattle.host.specs.Rows.{argument_if, argument_rows, line_if, sound, same_row, same_argument, same_call, tells};

use crate::calls::{Action, Argument, Call, Script};
use crate::line::{ArgumentRow, Line};
use base::{Name, ShortText, Version};

impl ArgumentRow {
    // The argument in a plain row; nothing exactly where its version is not allowed.
    fn argument(&self) -> Option<Argument<Version>>
        ensures { argument_rows result ≡ argument_if self.now }
    {
        match self {
            ArgumentRow::Version(row) => {
                let version = Version::from_row(*row)?;
                Some(Argument::Version(version))
            }
            ArgumentRow::Null => Some(Argument::Null),
            ArgumentRow::Nothing => Some(Argument::Nothing),
        }
    }
}

impl Line {
    // The call that the line tells of; nothing exactly where its name or a version is not allowed.
    #[tactic(auto, using(crate::proofs::Checks::calls))]
    pub fn call(&self) -> Option<Call>
        ensures { call_line result self.now.status ≡ line_if self.now }
    {
        let name = Name::from_row(self.name)?;
        let version = Version::from_row(self.version)?;
        let argument = self.argument.argument()?;
        Some(Call {
            name,
            version,
            script: self.script,
            action: self.action,
            argument,
        })
    }

    // Whether a call can have left this line.
    #[tactic(auto, using(crate::proofs::Checks::sound_is))]
    pub(crate) fn is_sound(&self) -> bool
        ensures { result ≡ sound self.now }
    {
        self.call().is_some()
    }

    // Whether the line tells of this call.
    pub fn tells(&self, call: Call) -> bool
        ensures { result ≡ tells self.now call }
    {
        *self == Line::new(call, self.status)
    }
}
