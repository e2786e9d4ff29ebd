// Tables at work: packages by name, and owned paths by number.
#![tactic(auto)]

mod directory;
mod rows;
mod tens;
#[cfg(test)]
mod tests;

pub use directory::Directory;
pub use rows::{Owner, Record};
pub use tens::Tens;
