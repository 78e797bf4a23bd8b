//! Reads equations from `bench.eq` and a recording from `bench.trc` in the current folder, and prints the list of
//! their run, or the line of a refusal.

#![tactic(auto)]

use listing::list;
use std::fs::File;
use std::io;
use std::io::{ErrorKind, Read, Write};

const TEXT_FILE: &str = "bench.eq";

const RECORDING_FILE: &str = "bench.trc";

/// One byte more than is accepted, so that a text that is too long is seen to be.
const TEXT_LIMIT: u64 = 4_097;

const RECORDING_LIMIT: u64 = 65_537;

/// The first `limit` bytes of a file, and none where there is no such file.
fn read_at_most(rt: &HostRuntime, path: &str, limit: u64) -> io::Result<Vec<u8>> {
    let mut bytes = Vec::new(rt.alloc());
    match File::open(rt, path) {
        Ok(file) => {
            file.take(limit).read_to_end(&mut bytes)?;
        }
        Err(e) if e.kind() == ErrorKind::NotFound => {}
        Err(e) => return Err(e),
    }
    Ok(bytes)
}

fn run(rt: &HostRuntime) -> anyhow::Result<()> {
    let text = read_at_most(rt, TEXT_FILE, TEXT_LIMIT)?;
    let recording = read_at_most(rt, RECORDING_FILE, RECORDING_LIMIT)?;
    let printed = list(rt.alloc(), &text, &recording)?;
    rt.stdout().write_all(printed.as_bytes())?;
    Ok(())
}

fn main(rt: HostRuntime) -> anyhow::Result<()> {
    run(&rt)
}
