ghost use Rattle.plans.specs.Outcomes.{ScriptOutcomes};

// A law, stated by its contract: how a call ends, by how its scripts answer in the order of the calls (S works, F fails).
// From Installed an upgrade ends SSS Unpacked, FFS Installed, FFF Half-Configured, SFSS Installed, SFF Half-Installed and
// SSFFSSS Installed; a fresh install FS leaves no record; a remove from Installed FS ends Installed.
pub fn script_outcomes()
    ensures { ScriptOutcomes }
{}
