ghost use Rattle.base.specs.Named.{Name, Version, ToldByText, Telling, EqualityDecides};
ghost use Rattle.base.specs.declared.texts.ShortText.{ShortText};

use crate::{names as named, texts as rows};

// A law, stated by its contract: equal bytes are equal values, so a name or a version is told by its text alone.
pub fn told_by_text()
    ensures { ToldByText }
{}

// A law, stated by its contract: `==` of rows, names and versions decides whether the values are equal, also for a caller
// that has it through a bound or a reference and so knows only what it computes.
pub fn equality_decides()
    ensures by_bytes { EqualityDecides }
    ensures rows { Telling ShortText ⟦<rows::ShortText as PartialEq>⟧.eq }
    ensures names { Telling Name ⟦<named::Name as PartialEq>⟧.eq }
    ensures versions { Telling Version ⟦<named::Version as PartialEq>⟧.eq }
{}
