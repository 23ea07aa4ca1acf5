//! An analyser that finds nothing.
ghost use Rattle.std.specs.Prelude.{◌≡◌, Ok, []};

use base::Items;
use graph_entry::{AnalyzeFault, MediaType, ModuleAnalyzer, ModuleInfo};
use source_text::SourceText;
use std::alloc::Global;
use url::Url;

/// Finds no sites.
#[derive(Drop)]
pub struct Blind;

impl ModuleAnalyzer for Blind {
    ghost use Rattle.std.proofs.Common.{◌∙◌, sym};

    ghost reads = { λ _ s media text sites. sites ≡ Ok [] };

    fn analyze(
        &self,
        alloc: Global,
        specifier: &Url,
        text: &SourceText,
        media_type: MediaType,
    ) -> Result<ModuleInfo, AnalyzeFault> {
        let _ = specifier;
        let _ = text;
        let _ = media_type;
        Ok(ModuleInfo {
            sites: Items::new(alloc),
        })
    }

    ghost once = { λ _ s media text a b is so. is ∙ sym so };
}
