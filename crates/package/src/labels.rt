ghost use Rattle.std.specs.Prelude.{◌≡◌, Decides, Some, MatchOption, MatchResult};
ghost use Rattle.package.specs.Accepted.{package_refusal};
ghost use Rattle.package.specs.Labels.{Bears, Labelling, label_of};

use crate::items::{Items, Stage};
use crate::label::Label;
use crate::package::Package;
use crate::reading::read_package;
use base::Refusal;

impl Package<'_> {
    // The package without its words, to be kept when they are changed, moved or let go.
    #[tactic(auto, using(crate::proofs::Placed::reading_of))]
    pub fn label(&self) -> Label
        ensures is { result ≡ label_of self.now }
        ensures labelling { Labelling self.now.words.now result }
    {
        Label {
            name: self.name,
            version: self.version,
            first_file: self.first_file,
        }
    }
}

impl Label {
    // The files of the package, in words that are handed in. The reader checks everything again, so that other words than
    // those that were read do no harm.
    pub fn files<'a>(&self, words: &'a [u32]) -> Items<'a>
        ensures { (result.words.now ≡ words.now) × (result.place ≡ self.now.first_file) × (result.stage ≡ Stage.Files 0 0) }
    {
        Items {
            words,
            place: self.first_file,
            stage: Stage::Files { count: 0, floor: 0 },
        }
    }

    // Whether a package has the label's name and version.
    fn is_of(&self, new: &Package<'_>) -> bool
        ensures { Decides result ((new.now.name ≡ self.now.name) × (new.now.version ≡ self.now.version)) }
    {
        new.name == self.name && new.version == self.version
    }

    // The package again, if the words that are handed in bear its name and version. They are read anew, so that words with
    // a fault, or of another package, are not taken for its own.
    pub fn package<'a>(&self, words: &'a [u32]) -> Option<Package<'a>>
        ensures { MatchOption result (Bears words.now self.now → ⊥) (λ p. Bears words.now self.now × (p.words.now ≡ words.now) × (p.name ≡ self.now.name) × (p.version ≡ self.now.version)) }
    {
        match read_package(words) {
            Ok(new) if self.is_of(&new) => Some(new),
            _ => None,
        }
    }
}

// The label of the package in these words, or their first fault. The words are free again once it is read.
pub fn read_label(words: &[u32]) -> Result<Label, Refusal>
    ensures { MatchResult result (λ l. Labelling words.now l) (λ e. package_refusal words.now ≡ Some e) }
{
    Ok(read_package(words)?.label())
}
