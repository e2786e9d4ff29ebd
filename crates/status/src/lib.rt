// The rows of the status database: what is recorded of a package, and who owns a path.
#![tactic(auto)]

mod laws;
mod noted;
mod rows;

pub use laws::empty_tables;
pub use rows::{Flag, Noted, Owned, Record, State};
