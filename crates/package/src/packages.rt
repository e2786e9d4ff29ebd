ghost use Rattle.std.specs.Prelude.{◌≡◌, ◌≤◌, length};
ghost use Rattle.std.specs.Iterator.{YieldsFirstBy, item_count};
ghost use Rattle.package.specs.Files.{ware_of, files_left, files_of};

use crate::files::{File, Files};
use crate::items::{Item, Items, Stage};
use crate::package::Package;

impl<'a> Package<'a> {
    // The files of the package, in the order of their paths.
    pub fn files(&self) -> Files<'a>
        ensures start { (result.items.words.now ≡ self.now.words.now) × (result.items.place ≡ self.now.first_file) × (result.items.stage ≡ Stage.Files 0 0) }
        ensures files { files_left result ≡ files_of self.now }
        ensures few { length (files_left result) ≤ 24 }
    {
        Files {
            items: Items {
                words: self.words,
                place: self.first_file,
                stage: Stage::Files { count: 0, floor: 0 },
            },
        }
    }
}

impl<'a> Iterator for Files<'a> {
    type Item = File<'a>;

    ghost next_gives = { YieldsFirstBy ware_of files_left };

    ghost remaining = { item_count files_left };

    fn next(&mut self) -> Option<File<'a>> {
        let Ok(step) = self.items.next() else {
            return None;
        };
        let Item::File(file) = step.item else {
            return None;
        };
        self.items = step.rest;
        Some(file)
    }
}
