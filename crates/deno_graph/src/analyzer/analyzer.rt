//! What reads sources: the parser.
ghost use Rattle.graph_entry.specs.Specifier.{text_of};
ghost use Rattle.graph_entry.specs.Reading.{ReadsSource, IsAnalysis};
ghost use Rattle.graph_entry.specs.ReadingLaws.{reads_once};

use graph_entry::{AnalyzeFault, ModuleAnalyzer, ModuleInfo};
use media_type::MediaType;
use parse_diagnostic::ParseFault;
use source_sites::read_sites;
use source_text::SourceText;
use std::alloc::Global;
use url::Url;

/// Reads by `read_sites` of `source_sites`: no typed tree is built.
#[derive(Clone, Copy, Drop)]
pub struct ParserModuleAnalyzer;

impl ModuleAnalyzer for ParserModuleAnalyzer {
    ghost reads = { λ _. ReadsSource };

    fn analyze(
        &self,
        alloc: Global,
        specifier: &Url,
        text: &SourceText,
        media_type: MediaType,
    ) -> Result<ModuleInfo, AnalyzeFault> {
        read_source(alloc, specifier, text, media_type)
    }

    ghost once = { λ _. reads_once };
}

// By the text alone.
fn read_source(
    alloc: Global,
    specifier: &Url,
    text: &SourceText,
    media_type: MediaType,
) -> Result<ModuleInfo, AnalyzeFault>
    ensures { IsAnalysis (ReadsSource (text_of specifier.now) media_type text.now) result }
{
    match read_sites(alloc, specifier, text, media_type) {
        Ok(sites) => Ok(ModuleInfo { sites }),
        Err(ParseFault::Diagnostic(fault)) => Err(AnalyzeFault::Parse(fault)),
        Err(ParseFault::OutOfMemory) => Err(AnalyzeFault::OutOfMemory),
    }
}
