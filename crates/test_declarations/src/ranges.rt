//! The ranges of bodies of overloads, in the order of the text.

use base::Range;
use deno_ast::ParsedSource;
use deno_dts::ModulePublicRanges;
use std::alloc::{AllocError, Global};

/// The ranges that are bodies of overloads, of all ranges of the text.
pub fn ranges_of(
    alloc: Global,
    parsed: &ParsedSource,
    ranges: &ModulePublicRanges,
) -> Result<String, AllocError> {
    let mut out = String::new(alloc);
    let end = parsed.end();
    for start in 0..end {
        add_from(alloc, &mut out, ranges, start, end)?;
    }
    Ok(out)
}

fn add_from(
    alloc: Global,
    out: &mut String,
    ranges: &ModulePublicRanges,
    start: usize,
    last: usize,
) -> Result<(), AllocError> {
    for before in start..last {
        let end = before + 1;
        if ranges.is_impl_with_overloads(&Range { start, end }) {
            out.push_str(format!(in alloc; "{start}-{end}\n")?.as_str())?;
        }
    }
    Ok(())
}
