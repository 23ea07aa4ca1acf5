//! What one answer of a loader makes of one specifier, by the URL Standard and the parser.
ghost use Rattle.std.specs.Prelude.{None, Some, IfOk};
ghost use Rattle.graph_entry.specs.Specifier.{text_of};
ghost use Rattle.graph_entry.specs.Analysed.{Analysed};

use crate::analyzer::analyzer::ParserModuleAnalyzer;
use graph_entry::{DefaultResolver, Entry, LoadAnswer, analyse_by, analyse_unasked_by};
use std::alloc::{AllocError, Global};
use url::Url;

/// The entry of the specifier, where a loader gave this answer for it.
pub fn analyse(alloc: Global, specifier: &Url, answer: LoadAnswer) -> Result<Entry, AllocError>
    ensures { IfOk result (λ made. Analysed (text_of specifier.now) (Some answer) made) }
{
    analyse_by(
        alloc,
        &DefaultResolver,
        &ParserModuleAnalyzer,
        specifier,
        answer,
    )
}

/// The entry of a specifier that no loader is asked for: what a `data:` URL holds, or else the package that the
/// specifier names.
pub fn analyse_unasked(alloc: Global, specifier: &Url) -> Result<Entry, AllocError>
    ensures { IfOk result (λ made. Analysed (text_of specifier.now) None made) }
{
    analyse_unasked_by(alloc, &DefaultResolver, &ParserModuleAnalyzer, specifier)
}
