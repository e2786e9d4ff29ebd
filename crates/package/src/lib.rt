// Packages as lists of words: the items in them, and whole packages.
#![tactic(auto)]

mod checks;
mod files;
mod gather;
mod items;
mod label;
mod labels;
mod package;
mod packages;
mod parts;
mod reader;
mod reading;
mod rules;
mod texts;
mod word;

pub use files::{File, Files};
pub use items::{Item, Items, Stage, Step};
pub use label::Label;
pub use labels::read_label;
pub use package::Package;
pub use reading::{read_name, read_package};
pub use rules::TextRule;
