ghost use Rattle.std.specs.Prelude.{◌≡◌, Decides};
ghost use Rattle.encoding.specs.Laws.{AcceptedIsEncoded, EncodedIsAccepted, NameIsEncoded, NameIsAccepted, NameWords, PackageWords};

use package::{read_name, read_package};

// The law, stated by its contract: words are accepted exactly where they are the encoding of a package within the rules,
// or of a name; and what is read from them is what was encoded, so that there are no two readings.
pub fn encoding_law()
    ensures encoded { AcceptedIsEncoded }
    ensures accepted { EncodedIsAccepted }
    ensures name_encoded { NameIsEncoded }
    ensures name_accepted { NameIsAccepted }
{}

// Whether these words are a package within the rules.
pub fn is_package(words: &[u32]) -> bool
    ensures { Decides result (PackageWords words.now) }
{
    read_package(words).is_ok()
}

// Whether these words are a name alone.
pub fn is_name(words: &[u32]) -> bool
    ensures { Decides result (NameWords words.now) }
{
    read_name(words).is_ok()
}
