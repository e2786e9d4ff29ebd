// Script calls, what a script host is, and the trace of what was run.
#![tactic(auto)]

mod actions;
mod asking;
mod calls;
mod hosts;
mod laws;
mod line;
mod rows;
mod scripts;
mod trace;
mod writing;

pub use asking::{ask, ask_at};
pub use calls::{Action, Argument, Call, Script};
pub use hosts::{Host, works};
pub use laws::tells_its_call;
pub use line::{ArgumentRow, Line, Status};
pub use trace::Trace;
pub use writer::Full;
pub use writing::write_trace;
