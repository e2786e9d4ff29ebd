ghost use Rattle.table.specs.Order.{OneKey};

// A law, stated by its contract: paths that meet are equal, and so are names.
// So the row that a table finds for a path or a name has that very path or name.
pub fn one_key()
    ensures { OneKey }
{}
