// Hosts and the trace at work, on examples whose answers follow from the rules by hand.
#![tactic(auto)]

#[cfg(test)]
mod samples;
#[cfg(test)]
mod tests;
