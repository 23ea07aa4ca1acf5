//! Tests of `graph_policy`: rows of the input, each a pattern, a text and whether it matches.
#![tactic(auto)]

use graph_policy::matches;
use std::io::Read;
use test_rows::{Row, Tally};

fn main(rt: HostRuntime) -> anyhow::Result<()> {
    let alloc = rt.alloc();
    let mut input = String::new(alloc);
    let mut reader = rt.reader();
    reader.read_to_string(&mut input)?;
    let mut tally = Tally::new(alloc);
    for line in input.as_str().lines() {
        if !line.is_empty() && !line.starts_with('#') {
            let row = Row::of(alloc, line)?;
            tally.add(alloc, &row, answer(&row))?;
        }
    }
    print!(rt; "{}", tally.told(alloc)?.as_str())?;
    Ok(())
}

fn answer(row: &Row) -> &'static str {
    if matches(row.at(1), row.at(2)) {
        "yes"
    } else {
        "no"
    }
}
