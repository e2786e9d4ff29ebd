#![tactic(auto)]

mod client;
mod dice;
mod drive;
mod model;
mod pass;

use crate::drive::{Tally, all_agree, drive, rounds};
use crate::model::Model;
use block_store::blocks::{BlockStore, CHAINS};
use block_store::cells::{Block, Chain};
use flat_store::cells::{Entry, Slot};
use flat_store::flat::FlatStore;
use store::api::Store;
use store::keys::KEYS;

// How many calls each store gets.
const CALLS: u32 = 8000;

// Of its puts more than this must be admitted, and more than this refused for want of units, or the run shows little.
const OFTEN: u32 = 500;

fn report(rt: &HostRuntime, name: &str, tally: Tally, kept: bool) -> anyhow::Result<()> {
    let calls = tally.calls;
    match tally.differences {
        0 => println!(rt; "{name}: {calls} calls, no difference")?,
        n => println!(rt; "{name}: {calls} calls, {n} differences")?,
    }
    let often = tally.admitted > OFTEN && tally.refused > OFTEN;
    println!(rt; "{name}: over 500 puts admitted, over 500 refused for want of units: {often}")?;
    println!(rt; "{name}: set aside, put, put back, discard: {kept}")?;
    Ok(())
}

fn trial<S: Store>(
    rt: &HostRuntime,
    name: &str,
    store: &mut S,
    units: usize,
) -> anyhow::Result<Model> {
    let mut model = Model::new(rt.alloc(), S::block_len(), units)?;
    let tally = drive(store, &mut model, CALLS);
    let kept = rounds(store, &mut model);
    report(rt, name, tally, kept)?;
    Ok(model)
}

fn taken_up(rt: &HostRuntime, name: &str, whole: bool, same: bool) -> anyhow::Result<()> {
    println!(rt; "{name}: whole: {whole}, taken up as it was left: {same}")?;
    Ok(())
}

fn refused(rt: &HostRuntime, name: &str, damage: Option<usize>) -> anyhow::Result<()> {
    println!(rt; "{name}: a file under two keys, damaged at {damage:?}")?;
    Ok(())
}

// Each is taken up again as it was left; where two keys have one file, it is refused at the second. Two functions, since the
// two images lend different memory, and no trait speaks of images.
fn flat_again(
    rt: &HostRuntime,
    dir: &mut [Entry; KEYS],
    slots: &mut [Slot],
    model: &Model,
) -> anyhow::Result<()> {
    let whole = FlatStore::damage(dir, slots).is_none();
    let same = all_agree(&FlatStore::take_up(dir, slots), model);
    taken_up(rt, "flat image", whole, same)?;
    dir[1001] = dir[1000];
    refused(rt, "flat image", FlatStore::damage(dir, slots))
}

fn blocks_again(
    rt: &HostRuntime,
    dir: &mut [Chain; CHAINS],
    blocks: &mut [Block],
    model: &Model,
) -> anyhow::Result<()> {
    let whole = BlockStore::damage(dir, blocks).is_none();
    let same = all_agree(&BlockStore::take_up(dir, blocks), model);
    taken_up(rt, "block store", whole, same)?;
    dir[1001] = dir[1000];
    refused(rt, "block store", BlockStore::damage(dir, blocks))
}

fn main(rt: HostRuntime) -> anyhow::Result<()> {
    let mut dir = [Entry::EMPTY; KEYS];
    let mut slots = [Slot::BLANK; 6];
    let mut flat = FlatStore::format(&mut dir, &mut slots);
    let model = trial(&rt, "flat image", &mut flat, 6)?;
    flat_again(&rt, &mut dir, &mut slots, &model)?;
    let mut chains = [Chain::EMPTY; CHAINS];
    let mut blocks = [Block::BLANK; 24];
    let mut chained = BlockStore::format(&mut chains, &mut blocks);
    let model = trial(&rt, "block store", &mut chained, 24)?;
    blocks_again(&rt, &mut chains, &mut blocks, &model)?;
    Ok(())
}
