//! Tests of the forms in a program, by the public call: rows of the input, each a language, letters for the forms that are
//! chosen, a source and what is wanted of it.
#![tactic(auto)]

mod answer;

use crate::answer::answer;
use std::io::Read;
use test_rows::{Row, Tally};

fn main(rt: HostRuntime) -> anyhow::Result<()> {
    let alloc = rt.alloc();
    let mut input = String::new(alloc);
    let mut reader = rt.reader();
    reader.read_to_string(&mut input)?;
    let mut tally = Tally::new(alloc);
    for line in input.as_str().lines() {
        if !line.is_empty() && !line.starts_with('#') {
            let row = Row::of(alloc, line)?;
            let got = answer(alloc, &row)?;
            tally.add(alloc, &row, got.as_str())?;
        }
    }
    print!(rt; "{}", tally.told(alloc)?.as_str())?;
    Ok(())
}
