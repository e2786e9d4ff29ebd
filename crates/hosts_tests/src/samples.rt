use base::{Name, Version};
use host::{Action, Argument, Call, Script};

// The call of a package `base-files`, version 12.4, with this script, action and argument.
fn call(script: Script, action: Action, argument: Argument<Version>) -> Option<Call> {
    Some(Call {
        name: Name::new(b"base-files")?,
        version: Version::new(b"12.4")?,
        script,
        action,
        argument,
    })
}

#[derive(Clone, Copy)]
pub struct Samples {
    // postinst configure, with the null argument
    pub configure: Call,
    // prerm remove
    pub remove: Call,
    // prerm upgrade, to version 13~rc1
    pub upgrade: Call,
}

pub(crate) fn sample_calls() -> Option<Samples> {
    let new = Version::new(b"13~rc1")?;
    Some(Samples {
        configure: call(Script::Postinst, Action::Configure, Argument::Null)?,
        remove: call(Script::Prerm, Action::Remove, Argument::Nothing)?,
        upgrade: call(Script::Prerm, Action::Upgrade, Argument::Version(new))?,
    })
}
