ghost use Rattle.std.specs.Prelude.{[]};
ghost use Rattle.status.specs.Tables.{Kept};

// A law, stated by its contract: tables without rows are well-formed.
pub fn empty_tables()
    ensures { Kept [] [] }
{}
