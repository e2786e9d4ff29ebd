ghost use Rattle.std.specs.Prelude.{◌≡◌, true};
ghost use Rattle.package.specs.Wares.{ready};

use crate::items::Items;
use base::FileKind;

// A file of a package. Its content is a part of the package's words.
#[derive(Clone, Copy)]
pub struct File<'a> {
    pub kind: FileKind,
    pub path: u8,
    pub content: &'a [u32],
}

// The files of a package from some place on. They have no fault, so each is handed out.
#[derive(Drop)]
pub struct Files<'a> {
    pub(crate) items: Items<'a>,
    ghost sound: { ready items ≡ true },
}
