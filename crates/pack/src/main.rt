// Makes a package file from a description.
#![tactic(auto)]

mod description;
mod encode;
mod lines;
mod mistakes;
mod packing;
mod quoted;

use anyhow::anyhow;
use packing::pack;
use std::{env, fs};
use wordfile::bytes_of;

// Packs the description in one file into another; whether that was done.
fn pack_file(rt: &HostRuntime, source: &str, target: &str) -> anyhow::Result<bool> {
    let heap = rt.alloc();
    let text = match fs::read_to_string(rt, source) {
        Ok(text) => text,
        Err(error) => {
            eprintln!(rt; "{source}: cannot be read: {error}")?;
            return Ok(false);
        }
    };
    let words = match pack(heap, text.as_str()) {
        Ok(words) => words,
        Err(fault) => {
            eprintln!(rt; "{source}: {fault}")?;
            return Ok(false);
        }
    };
    if let Err(error) = fs::write(rt, target, bytes_of(heap, words.as_slice())?.as_slice()) {
        eprintln!(rt; "{target}: cannot be written: {error}")?;
        return Ok(false);
    }
    let count = words.len();
    println!(rt; "wrote {target}: {count} words")?;
    Ok(true)
}

fn run(rt: &HostRuntime) -> anyhow::Result<bool> {
    let paths: Vec<String> = env::args(rt)?.skip(1).collect(rt.alloc())?;
    let [source, target] = paths.as_slice() else {
        eprintln!(rt; "usage: pack DESCRIPTION OUTPUT")?;
        return Ok(false);
    };
    pack_file(rt, source.as_str(), target.as_str())
}

fn main(rt: HostRuntime) -> anyhow::Result<()> {
    if run(&rt)? {
        Ok(())
    } else {
        Err(anyhow!("no package was made"))
    }
}
