#![tactic(auto)]

pub mod blocks;
mod calls;
pub mod cells;
mod chains;
mod taking;
