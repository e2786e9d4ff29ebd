// Script hosts that run nothing: by rules, by a transcript, by a list of answers.
#![tactic(auto)]

mod answers;
mod rules;
mod tables;
mod tallied;
mod tally;
mod transcripts;

pub use tables::{AnswerList, Playback, Rule, RuleTable, Rules, Statuses, Transcript};
pub use tallied::{Answers, Tallied};
