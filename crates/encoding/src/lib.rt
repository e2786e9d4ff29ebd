// What lists of words are packages: the law of the encoding.
#![tactic(auto)]

mod laws;

pub use laws::{encoding_law, is_name, is_package};
