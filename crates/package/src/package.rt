ghost use Rattle.std.specs.Prelude.{◌≡◌, true};
ghost use Rattle.base.specs.Named.{text};
ghost use Rattle.package.specs.Accepted.{accepts, files_place};
ghost use Rattle.package.specs.Packages.{name_in, version_in};

use base::{Name, Version};

// A package that was read: its name and version, the words that it was read from, and where in them the files begin.
#[derive(Clone, Copy)]
pub struct Package<'a> {
    pub name: Name,
    pub version: Version,
    pub(crate) words: &'a [u32],
    pub(crate) first_file: usize,
    ghost accepted: { accepts words.now ≡ true },
    ghost named: { text name ≡ name_in words.now },
    ghost versioned: { text version ≡ version_in words.now },
    ghost placed: { first_file ≡ files_place words.now },
}
