ghost use Rattle.host.specs.Rows.{TellsItsCall};

// A law, stated by its contract: a line tells of a call exactly where it is that call's line.
pub fn tells_its_call()
    ensures { TellsItsCall }
{}
