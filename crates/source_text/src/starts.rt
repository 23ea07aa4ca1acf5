//! The table of line starts.
ghost use Rattle.std.specs.Prelude.{IfOk};
ghost use Rattle.source_text.specs.Table.{IsTable};

use std::alloc::{AllocError, Global};

/// Where each line of the text starts.
pub fn line_starts(alloc: Global, text: &str) -> Result<Vec<usize>, AllocError>
    ensures { IfOk result (λ starts. IsTable text.now starts.items) }
{
    let mut starts = Vec::new(alloc);
    starts.push(0)?;
    for (place, byte) in text.as_bytes().iter().enumerate() {
        if *byte == b'\n' {
            starts.push(place + 1)?;
        }
    }
    Ok(starts)
}
