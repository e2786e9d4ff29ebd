// Ordered tables over lent memory, for every kind of row with an ordered key.
#![tactic(auto)]

mod key;
mod keys;
mod laws;
mod shifts;
mod table;

pub use key::{Element, Key};
pub use laws::one_key;
pub use table::{Refused, Table};
