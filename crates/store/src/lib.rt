#![tactic(auto)]

pub mod api;
pub mod keys;
pub mod paths;
pub mod side;
