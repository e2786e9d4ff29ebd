ghost use Rattle.base.specs.declared.texts.TextKind.{TextKind};
ghost use Rattle.base.specs.declared.texts.TextKind.TheVariants.{Name, Version};

use crate::texts::TextKind;

// A kind of text as a type: what tells a name from a version before the program runs.
pub trait Kind {
    ghost KIND: { TextKind };

    const KIND: TextKind;
}

pub struct NameKind;

pub struct VersionKind;

impl Kind for NameKind {
    ghost KIND = { Name };

    const KIND: TextKind = TextKind::Name;
}

impl Kind for VersionKind {
    ghost KIND = { Version };

    const KIND: TextKind = TextKind::Version;
}
