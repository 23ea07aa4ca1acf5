//! Prints what `lex_tokens` answers: of all short texts over some alphabets a sum for each row of 512 of them
//! (`src/short.rt`), and of each text of the input, between U+0001, a line.
#![tactic(auto)]

mod line;
mod short;

use crate::line::line_of;
use crate::short::{ALPHABETS, sums_of};
use std::io::Read;

fn main(rt: HostRuntime) -> anyhow::Result<()> {
    let alloc = rt.alloc();
    for alphabet in ALPHABETS.iter() {
        print!(rt; "{}", sums_of(alloc, alphabet)?.as_str())?;
    }
    let mut input = String::new(alloc);
    let mut reader = rt.reader();
    reader.read_to_string(&mut input)?;
    for text in input.as_str().split('\u{1}') {
        println!(rt; "{}", line_of(alloc, text)?.as_str())?;
    }
    Ok(())
}
