#![tactic(auto)]

mod calls;
pub mod cells;
pub mod flat;
mod making;
mod taking;
