// Reads packages whose answers follow from the rules by hand, and says whether each came out so.
// Place and layer of a refusal: the index of the word, and 1 for number 2, else 2.
#![tactic(auto)]

mod accepted;
mod early;
mod limits;
mod names;
mod orders;
mod samples;
mod tally;
mod wrong;

use anyhow::anyhow;
use tally::Tally;

fn run(rt: &HostRuntime) -> anyhow::Result<bool> {
    let heap = rt.alloc();
    let mut tally = Tally::new();
    accepted::all(&mut tally, heap)?;
    early::all(&mut tally, heap)?;
    wrong::all(&mut tally, heap)?;
    limits::all(&mut tally, heap)?;
    orders::all(&mut tally, heap)?;
    names::all(&mut tally);
    let cases = tally.cases;
    match tally.wrong {
        None => println!(rt; "{cases} cases, all as expected")?,
        Some(title) => println!(rt; "{cases} cases, not as expected: {title}")?,
    }
    Ok(tally.wrong.is_none())
}

fn main(rt: HostRuntime) -> anyhow::Result<()> {
    if run(&rt)? {
        Ok(())
    } else {
        Err(anyhow!("a case came out otherwise"))
    }
}
