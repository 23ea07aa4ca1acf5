//! What reads sources.
ghost use Rattle.std.specs.Prelude.{List, ℕ};
ghost use Rattle.media_type.specs.declared.media_type.MediaType.{MediaType as Media};
ghost use Rattle.graph_entry.specs.Specifier.{text_of};
ghost use Rattle.graph_entry.specs.Reading.{Sites, IsAnalysis, IsFunction};

use base::Items;
use es_site::Site;
use media_type::MediaType;
use parse_diagnostic::ParseDiagnostic;
use source_text::SourceText;
use std::alloc::Global;
use url::Url;

/// What a source names.
#[derive(Debug, Drop)]
pub struct ModuleInfo {
    pub sites: Items<Site>,
}

/// Why a source isn't analysed.
#[derive(Debug, Drop)]
pub enum AnalyzeFault {
    Parse(ParseDiagnostic),
    OutOfMemory,
}

/// Reads sources.
pub trait ModuleAnalyzer {
    /// The sites of a source at a specifier, or what is wrong with it. The range of a `Syntax` fault is left free (`told`).
    ghost reads: { Self → List ℕ → Media → List ℕ → Sites → Type 0 };

    /// The meaning, or that memory ran out. The text has no byte order mark to be taken off.
    fn analyze(
        &self,
        alloc: Global,
        specifier: &Url,
        text: &SourceText,
        media_type: MediaType,
    ) -> Result<ModuleInfo, AnalyzeFault>
        ensures analysed { IsAnalysis (reads self.now (text_of specifier.now) media_type text.now) result };

    // It is a function of the call's arguments.
    ghost once: { (analyzer : Self) → IsFunction (reads analyzer) };
}
