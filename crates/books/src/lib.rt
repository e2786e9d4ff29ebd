// The books of a station: the records of packages, the owners of paths, and the trace of script calls.
#![tactic(auto)]

mod books;
mod changes;
mod disowning;
mod labelled;
mod lookups;
mod owning;
mod rows;
mod survey;
mod surveying;

pub use books::Books;
pub use survey::Survey;
