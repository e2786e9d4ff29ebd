ghost use Rattle.std.specs.Prelude.{◌≡◌};
ghost use Rattle.base.specs.Named.{text};
ghost use Rattle.base.specs.Texts.{before};

use crate::kinds::{NameKind, VersionKind};
use crate::text::Text;

// A package name.
pub type Name = Text<NameKind>;

// A package version. It has no order here: that of versions is not the one of their bytes.
pub type Version = Text<VersionKind>;

impl Text<NameKind> {
    // Whether this name comes first: by bytes, a prefix before what it begins.
    pub fn before(&self, other: &Name) -> bool
        ensures { result ≡ before (text self.now) (text other.now) }
    {
        self.row.before(&other.row)
    }
}
