// What the four calls of a station are, and what each comes to: the plans that the station's contracts cite.
#![tactic(auto)]

mod calls;
mod outcomes;

pub use calls::{Operation, Outcome, Report, Request};
pub use outcomes::script_outcomes;
