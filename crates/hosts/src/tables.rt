use crate::tallied::Tallied;
use host::{Line, Status};

// Calls of this script and this action get this status. Number 0 stands for every script, or every action.
// The numbers stay bytes: any byte is allowed as input, and one that names nothing matches nothing.
#[derive(Clone, Copy)]
pub struct Rule {
    pub script: u8,
    pub action: u8,
    pub status: Status,
}

// A list of at most 32 rules.
#[derive(Clone, Copy)]
pub struct Rules<'a> {
    pub(crate) list: &'a [Rule],
}

// Lines that are played back, from the one at the mark on.
#[derive(Drop)]
pub struct Playback<'a> {
    pub(crate) lines: &'a [Line],
    pub(crate) mark: usize,
}

// Statuses that are given in turn, and how many were.
#[derive(Drop)]
pub struct Statuses<'a> {
    pub(crate) list: &'a [Status],
    pub(crate) given: usize,
}

// A host that answers by the first rule that matches, and 0 where none does.
pub type RuleTable<'a> = Tallied<Rules<'a>>;

// A host that plays lines back: the call that the line at the mark tells of gets its status, any other 127.
pub type Transcript<'a> = Tallied<Playback<'a>>;

// A host that gives the statuses of a list in turn, whatever is asked, and 0 behind its end.
pub type AnswerList<'a> = Tallied<Statuses<'a>>;
