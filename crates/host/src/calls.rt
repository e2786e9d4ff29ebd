use base::{Name, Version};

// A package's four maintainer scripts. Their numbers are given by `script_number` of specs/Calls.antt.
#[derive(Clone, Copy, PartialEq, Eq, Debug)]
pub enum Script {
    Preinst = 1,
    Postinst = 2,
    Prerm = 3,
    Postrm = 4,
}

// What a script is asked to do. The numbers are given by `action_number` of specs/Calls.antt.
#[derive(Clone, Copy, PartialEq, Eq, Debug)]
pub enum Action {
    Install = 1,
    Upgrade = 2,
    Configure = 3,
    Remove = 4,
    Purge = 5,
    AbortInstall = 6,
    AbortUpgrade = 7,
    AbortRemove = 8,
    FailedUpgrade = 9,
}

// What stands behind the action, with a `Version` in it or its plain row.
#[derive(Clone, Copy, PartialEq, Eq, Debug)]
pub enum Argument<V> {
    // another version of the package
    Version(V),
    // an argument that is there and empty: there was never a version
    Null,
    // no argument
    Nothing,
}

// One script call: whose script it is, and what it is asked.
#[derive(Clone, Copy)]
pub struct Call {
    pub name: Name,
    // the version whose script it is
    pub version: Version,
    pub script: Script,
    pub action: Action,
    pub argument: Argument<Version>,
}
