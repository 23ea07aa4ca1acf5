//! Tests of declarations, by the public calls: rows of the input, each a language, a source, and the printed declarations with the
//! diagnostics.
#![tactic(auto)]

mod answer;
mod ranges;

use crate::answer::answer;
use std::io::Read;
use test_rows::{Row, Tally};

fn main(rt: HostRuntime) -> anyhow::Result<()> {
    let alloc = rt.alloc();
    let mut input = String::new(alloc);
    let mut reader = rt.reader();
    reader.read_to_string(&mut input)?;
    let mut tally = Tally::new(alloc);
    for line in input.as_str().lines() {
        if !line.is_empty() && !line.starts_with('#') {
            let row = Row::of(alloc, line)?;
            let got = answer(alloc, &row)?;
            tally.add(alloc, &row, got.as_str())?;
        }
    }
    print!(rt; "{}", tally.told(alloc)?.as_str())?;
    Ok(())
}
