ghost use Rattle.std.specs.Prelude.{◌≡◌};
ghost use Rattle.host.specs.Hosts.{line, argument_row, Asked, Keeps};
ghost use Rattle.host.specs.Counted.{AskedAt};

use crate::calls::{Argument, Call};
use crate::hosts::Host;
use crate::line::{ArgumentRow, Line, Status};
use crate::trace::Trace;
use base::Version;

impl Argument<Version> {
    // The argument as plain data.
    pub fn row(&self) -> ArgumentRow
        ensures { result ≡ argument_row self.now }
    {
        match self {
            Argument::Version(version) => ArgumentRow::Version(version.row()),
            Argument::Null => ArgumentRow::Null,
            Argument::Nothing => ArgumentRow::Nothing,
        }
    }
}

impl Line {
    // The line that tells of this call and its status.
    pub fn new(call: Call, status: Status) -> Line
        ensures { result ≡ line call status }
    {
        Line {
            name: call.name.row(),
            version: call.version.row(),
            script: call.script,
            action: call.action,
            argument: call.argument.row(),
            status,
        }
    }
}

// Runs the call and adds its line to the trace. Where there is no room for a line, nothing is run and nothing changes.
pub fn ask<H: Host>(host: &mut H, trace: &mut Trace, call: Call) -> Option<Status>
    ensures asked { Asked call result (H.meaning host.old) (H.meaning host.new) trace.old trace.new }
    ensures kept { Keeps result host.old host.new }
{
    if trace.free() == 0 {
        return None;
    }
    let status = host.run(call);
    let line = Line::new(call, status);
    trace.add(line).unwrap();
    Some(status)
}

// The same for a trace that is kept as rows and a count of them, which may be any: where no row is behind so many, nothing is
// run and nothing changes.
pub fn ask_at<H: Host>(
    host: &mut H,
    rows: &mut [Line],
    used: &mut usize,
    call: Call,
) -> Option<Status>
    ensures asked { AskedAt call result (H.meaning host.old) (H.meaning host.new) rows.old used.old rows.new used.new }
    ensures kept { Keeps result host.old host.new }
{
    let mut trace = Trace::new(rows);
    trace.set_count(*used).ok()?;
    let status = ask(host, &mut trace, call)?;
    *used = trace.count();
    Some(status)
}
