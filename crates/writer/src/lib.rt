// Lent memory that is filled from its first item on: with text, piece by piece, or with one item after the other.
#![tactic(auto)]

mod items;
mod lent;
mod page;

pub use lent::{Full, Lent};
pub use page::Page;
