use crate::line::Line;
use writer::Lent;

// Lent memory whose first lines, as many as are counted, tell of the calls that were run. The rows behind them are free.
pub type Trace<'a> = Lent<'a, Line>;
