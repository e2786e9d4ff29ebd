// Package files: how words lie in a file, and the line that tells why words were refused.
#![tactic(auto)]

mod layout;
mod telling;

pub use layout::{bytes_of, words_in};
pub use telling::Told;
