// Prints what package files hold, or why they are refused.
#![tactic(auto)]

mod listing;

use anyhow::anyhow;
use listing::listing;
use package::read_package;
use std::alloc::Global;
use std::{env, fs};
use wordfile::{Told, words_in};

// What is said of a file: what its package holds, or why it holds none.
type Finding = Result<String, String>;

// What is said of words.
fn judge(heap: Global, words: &[u32]) -> anyhow::Result<Finding> {
    match read_package(words) {
        Ok(package) => Ok(Ok(listing(heap, &package, words)?)),
        Err(refusal) => {
            let told = Told(refusal);
            Ok(Err(format!(in heap; "{told}")?))
        }
    }
}

// What is said of a file with these bytes.
fn judge_bytes(heap: Global, path: &str, bytes: &[u8]) -> anyhow::Result<Finding> {
    match words_in(heap, bytes)? {
        Some(words) => judge(heap, words.as_slice()),
        None => {
            let n = bytes.len();
            Ok(Err(format!(in heap; "{path}: {n} bytes are no whole number of 4-byte words")?))
        }
    }
}

fn inspect(rt: &HostRuntime, path: &str) -> anyhow::Result<Finding> {
    let heap = rt.alloc();
    match fs::read(rt, path) {
        Ok(bytes) => judge_bytes(heap, path, bytes.as_slice()),
        Err(error) => Ok(Err(format!(in heap; "{path}: cannot be read: {error}")?)),
    }
}

// Inspects each file; whether all of them hold packages.
fn run(rt: &HostRuntime) -> anyhow::Result<bool> {
    let paths: Vec<String> = env::args(rt)?.skip(1).collect(rt.alloc())?;
    if paths.is_empty() {
        eprintln!(rt; "usage: inspect FILE..")?;
        return Ok(false);
    }
    let mut sound = true;
    for path in paths.iter() {
        if paths.len() > 1 {
            println!(rt; "{path}:")?;
        }
        let finding = inspect(rt, path.as_str())?;
        sound = sound && finding.is_ok();
        let (Ok(text) | Err(text)) = finding;
        rt.println(&text)?;
    }
    Ok(sound)
}

fn main(rt: HostRuntime) -> anyhow::Result<()> {
    if run(&rt)? {
        Ok(())
    } else {
        Err(anyhow!("not every file holds a package"))
    }
}
