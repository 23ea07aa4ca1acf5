//! Prints where the nodes of plain trees of TypeScript are that `read_program` answers, a line for each text (`src/line.rt`). The
//! texts of the input are separated by U+0001; the first character of each is its mode: `m` a module, `s` a script. After `l` come
//! pieces of a text, whose short lists are tried (`src/lists.rt`).
#![tactic(auto)]

mod line;
mod lists;

use crate::line::line_of;
use crate::lists::lines_of;
use std::io::Read;

fn main(rt: HostRuntime) -> anyhow::Result<()> {
    let alloc = rt.alloc();
    let mut input = String::new(alloc);
    let mut reader = rt.reader();
    reader.read_to_string(&mut input)?;
    for text in input.as_str().split('\u{1}') {
        let lines = match text.strip_prefix('l') {
            Some(words) => lines_of(alloc, words)?,
            None => line_of(alloc, text)?,
        };
        println!(rt; "{}", lines.as_str())?;
    }
    Ok(())
}
