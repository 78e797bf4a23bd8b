//! Prints the list of each case in `cases.txt`. A case stands on three lines: its name, its text and its recording,
//! the latter two in hexadecimal.

#![tactic(auto)]

mod hex;

use crate::hex::decode;
use listing::list;
use std::fs;
use std::io::Write;

const CASES_FILE: &str = "cases.txt";

/// Takes one line of a case. Its last line has the list printed. A line of another sort is skipped.
fn take_line(rt: &HostRuntime, line: &str, text: &mut Vec<u8>) -> anyhow::Result<()> {
    if line.starts_with("case ") {
        rt.println(line)?;
    } else if let Some(digits) = line.strip_prefix("text") {
        *text = decode(rt.alloc(), digits)?;
    } else if let Some(digits) = line.strip_prefix("trc") {
        let recording = decode(rt.alloc(), digits)?;
        let printed = list(rt.alloc(), text, &recording)?;
        rt.stdout().write_all(printed.as_bytes())?;
    }
    Ok(())
}

fn run(rt: &HostRuntime) -> anyhow::Result<()> {
    let cases = fs::read_to_string(rt, CASES_FILE)?;
    let mut text = Vec::new(rt.alloc());
    for line in cases.lines() {
        take_line(rt, line, &mut text)?;
    }
    Ok(())
}

fn main(rt: HostRuntime) -> anyhow::Result<()> {
    run(&rt)
}
