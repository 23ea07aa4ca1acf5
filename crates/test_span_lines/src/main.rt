//! Prints the kind and the range of one node of each text, in a line. The texts of the input are separated by U+0001; the
//! first character of each says which node of its first item is meant (`place` of `test_node_spans`): `i` the item, `j` the
//! first statement of a script.
#![tactic(auto)]

mod line;

use crate::line::line_of;
use std::io::Read;

fn main(rt: HostRuntime) -> anyhow::Result<()> {
    let alloc = rt.alloc();
    let mut input = String::new(alloc);
    let mut reader = rt.reader();
    reader.read_to_string(&mut input)?;
    for text in input.as_str().split('\u{1}') {
        println!(rt; "{}", line_of(alloc, text)?.as_str())?;
    }
    Ok(())
}
