//! Prints the plain trees of texts that `read_program` answers, a line each (`src/line.rt`). The texts of the input are separated by U+0001; the
//! first character of each is its mode: `m` a module, `s` a script, `w` a module in `Wide`.
#![tactic(auto)]

mod line;

use crate::line::line_of;
use std::io::Read;

fn main(rt: HostRuntime) -> anyhow::Result<()> {
    let alloc = rt.alloc();
    let mut input = String::new(alloc);
    let mut reader = rt.reader();
    reader.read_to_string(&mut input)?;
    for text in input.as_str().split('\u{1}') {
        println!(rt; "{}", line_of(alloc, text)?.as_str())?;
    }
    Ok(())
}
