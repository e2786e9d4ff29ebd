ghost use Rattle.std.specs.Prelude.{◌≡◌};
ghost use Rattle.base.specs.Named.{row_in};
ghost use Rattle.status.specs.Rows.{unnoted, noting, noted_row};

use crate::rows::Noted;
use base::{ShortText, Version};

impl Noted {
    // No version.
    pub fn none() -> Noted
        ensures { result ≡ unnoted }
    {
        Noted {
            there: false,
            text: ShortText { bytes: [0; 16] },
        }
    }

    pub fn of(version: Version) -> Noted
        ensures { result ≡ noting version.row }
    {
        Noted {
            there: true,
            text: version.row(),
        }
    }

    // The version, if one is noted and its text is allowed.
    pub fn version(&self) -> Option<Version>
        ensures { row_in result ≡ noted_row self.now }
    {
        self.there.then_some(self.text).and_then(Version::from_row)
    }
}
