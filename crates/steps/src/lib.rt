// What a call does to files, path by path, over any store.
#![tactic(auto)]

mod carrying;
mod files;
mod labelled;
mod owning;
mod pass;
mod path_set;
mod path_sets;
mod sides;
mod token;
mod tokens;

pub use carrying::carried_paths;
pub use files::Laid;
pub use labelled::{labelled_paths, lay_labelled};
pub use owning::{pass_owned, same_name};
pub use pass::{Pass, Unwind};
pub use path_set::PathSet;
pub use sides::{discard, lay, pass_over, put_back};
pub use token::{Before, Past};
pub use tokens::lay_all;
