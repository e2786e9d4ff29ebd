ghost use Rattle.std.specs.Prelude.{◌≡◌, Some, MatchResult};
ghost use Rattle.package.specs.Checks.{refusal};
ghost use Rattle.package.specs.Items.{due_at, left_from, part_of, part_words, told};
ghost use Rattle.package.specs.Accepted.{package_refusal, name_refusal};
ghost use Rattle.package.specs.Readings.{Alone, Naming, Parted, Reading};

use crate::gather::spelled;
use crate::items::{Item, Items, Stage};
use crate::package::Package;
use crate::parts::Parts;
use base::{Name, Refusal};

impl Items<'_> {
    // The first fault from here on: of the items up to the last one due, and of what stands behind it.
    // By recursion, as the definition of that fault goes: each call is one line of it.
    fn finish(&self) -> Result<(), Refusal>
        ensures { told result ≡ refusal (due_at self.now.stage) self.now.place (left_from self.now) }
    {
        if let Stage::Done = self.stage {
            return self.nothing_left();
        }
        let step = self.next()?;
        step.rest.finish()
    }
}

// The words of a text that an item holds, or no words.
fn text_words<'a>(item: Item<'a>) -> &'a [u32]
    ensures { result.now ≡ part_words (part_of item.entry) }
{
    match item {
        Item::Name(text) => text,
        Item::Version(text) => text,
        Item::File(file) => file.content,
        Item::End => &[],
    }
}

// The parts of a package, or the first fault of its words.
fn read_parts(words: &[u32]) -> Result<Parts<'_>, Refusal>
    ensures { MatchResult result (λ p. Parted words.now p.name.now p.version.now p.first_file) (λ e. package_refusal words.now ≡ Some e) }
{
    let named = Items::of_package(words).next()?;
    let versioned = named.rest.next()?;
    versioned.rest.finish()?;
    let name = text_words(named.item);
    let version = text_words(versioned.item);
    Ok(Parts {
        name,
        version,
        first_file: versioned.rest.place,
    })
}

// The package in these words, or their first fault.
pub fn read_package(words: &[u32]) -> Result<Package<'_>, Refusal>
    ensures { MatchResult result (λ p. Reading words.now p) (λ e. package_refusal words.now ≡ Some e) }
{
    let parts = read_parts(words)?;
    let name = spelled(parts.name).unwrap();
    let version = spelled(parts.version).unwrap();
    Ok(Package {
        name,
        version,
        words,
        first_file: parts.first_file,
    })
}

// The words of a name alone, or their first fault.
fn read_alone(words: &[u32]) -> Result<&[u32], Refusal>
    ensures { MatchResult result (λ p. Alone words.now p.now) (λ e. name_refusal words.now ≡ Some e) }
{
    let named = Items::of_name(words).next()?;
    named.rest.finish()?;
    Ok(text_words(named.item))
}

// The name in words that hold a name alone, or their first fault.
pub fn read_name(words: &[u32]) -> Result<Name, Refusal>
    ensures { MatchResult result (λ n. Naming words.now n) (λ e. name_refusal words.now ≡ Some e) }
{
    let text = read_alone(words)?;
    Ok(spelled(text).unwrap())
}
