//! What reads sources, by choice with further forms of naming a module, and by choice in languages with more forms.
ghost use Rattle.std.specs.Prelude.{false, IfOk};
ghost use Rattle.std.specs.Result.{IfErr};
ghost use Rattle.url.specs.Parts.{serialize};
ghost use Rattle.graph_entry.specs.Specifier.{text_of};
ghost use Rattle.graph_entry.specs.Reading.{ReadsSource, IsAnalysis};
ghost use Rattle.source_reading.specs.Tree.{language_of as own_language, modes_of};
ghost use Rattle.source_reading.specs.Fault.{IsFaultIn, Refuses};
ghost use Rattle.es_forms.specs.Chosen.{is_any};
ghost use Rattle.forms_analyzer.specs.Forms.{HasForms, HasBy, ReadsAs, ReadsElse, ReadsWhere, ReadsBy};
ghost use Rattle.forms_analyzer.specs.Laws.{reads_by_once};

use crate::forms::read_forms;
use crate::language::full_language;
use base::Items;
use es_forms::Forms;
use es_site::Site;
use grammar_theory::Lang;
use graph_entry::{AnalyzeFault, ModuleAnalyzer, ModuleInfo};
use media_type::MediaType;
use parse_diagnostic::{ParseDiagnostic, ParseFault};
use source_sites::{language_of, read_sites, read_sites_in};
use source_text::SourceText;
use std::alloc::Global;
use url::Url;

/// Reads the sites of a source, and after them those of the forms that are chosen.
#[derive(Clone, Copy, Drop)]
pub struct FormsAnalyzer {
    pub forms: Forms,
    /// A source that is no program in its media type's language is read in one with more forms, such as `<a>b`.
    pub all_forms: bool,
}

impl ModuleAnalyzer for FormsAnalyzer {
    ghost reads = { λ it. ReadsBy it.forms it.all_forms };

    fn analyze(
        &self,
        alloc: Global,
        specifier: &Url,
        text: &SourceText,
        media_type: MediaType,
    ) -> Result<ModuleInfo, AnalyzeFault> {
        if self.all_forms {
            return in_either(alloc, specifier, text, self.forms, media_type);
        }
        in_own(alloc, specifier, text, self.forms, media_type)
    }

    ghost once = { λ it. reads_by_once it.forms it.all_forms };
}

fn in_own(
    alloc: Global,
    specifier: &Url,
    text: &SourceText,
    chosen: Forms,
    media_type: MediaType,
) -> Result<ModuleInfo, AnalyzeFault>
    ensures { IsAnalysis (ReadsWhere (is_any chosen) chosen false (text_of specifier.now) media_type text.now) result }
{
    if chosen.is_any() {
        return with_more(alloc, specifier, text, chosen, media_type);
    }
    own_sites(alloc, specifier, text, media_type)
}

fn with_more(
    alloc: Global,
    specifier: &Url,
    text: &SourceText,
    chosen: Forms,
    media_type: MediaType,
) -> Result<ModuleInfo, AnalyzeFault>
    ensures { IsAnalysis (ReadsAs (HasForms chosen) (text_of specifier.now) media_type text.now) result }
{
    let lang = language_of(media_type);
    match read_forms(alloc, specifier, text, chosen, lang, media_type) {
        Ok(sites) => Ok(ModuleInfo { sites }),
        Err(ParseFault::Diagnostic(fault)) => Err(AnalyzeFault::Parse(fault)),
        Err(ParseFault::OutOfMemory) => Err(AnalyzeFault::OutOfMemory),
    }
}

fn own_sites(
    alloc: Global,
    specifier: &Url,
    text: &SourceText,
    media_type: MediaType,
) -> Result<ModuleInfo, AnalyzeFault>
    ensures { IsAnalysis (ReadsSource (text_of specifier.now) media_type text.now) result }
{
    match read_sites(alloc, specifier, text, media_type) {
        Ok(sites) => Ok(ModuleInfo { sites }),
        Err(ParseFault::Diagnostic(fault)) => Err(AnalyzeFault::Parse(fault)),
        Err(ParseFault::OutOfMemory) => Err(AnalyzeFault::OutOfMemory),
    }
}

// The sites of a source in this language, and after them those of the forms where any is chosen.
fn read_by(
    alloc: Global,
    specifier: &Url,
    text: &SourceText,
    chosen: Forms,
    lang: Lang,
    media_type: MediaType,
) -> Result<Items<Site>, ParseFault>
    ensures found { IfOk result (HasBy (is_any chosen) chosen lang media_type text.now) }
    ensures refused { IfErr result (Refuses (IsFaultIn (serialize specifier.now) lang (modes_of media_type) text.now)) }
{
    if chosen.is_any() {
        return read_forms(alloc, specifier, text, chosen, lang, media_type);
    }
    read_sites_in(alloc, specifier, text, lang, media_type)
}

fn in_either(
    alloc: Global,
    specifier: &Url,
    text: &SourceText,
    chosen: Forms,
    media_type: MediaType,
) -> Result<ModuleInfo, AnalyzeFault>
    ensures { IsAnalysis (ReadsElse (HasBy (is_any chosen) chosen) (text_of specifier.now) media_type text.now) result }
{
    let lang = language_of(media_type);
    match read_by(alloc, specifier, text, chosen, lang, media_type) {
        Ok(sites) => Ok(ModuleInfo { sites }),
        Err(ParseFault::Diagnostic(fault)) => in_full(
            alloc, specifier, text, chosen, media_type, fault,
        ),
        Err(ParseFault::OutOfMemory) => Err(AnalyzeFault::OutOfMemory),
    }
}

// Of a source that has this fault in its media type's language.
fn in_full(
    alloc: Global,
    specifier: &Url,
    text: &SourceText,
    chosen: Forms,
    media_type: MediaType,
    fault: ParseDiagnostic,
) -> Result<ModuleInfo, AnalyzeFault>
    requires { IsFaultIn (serialize specifier.now) (own_language media_type) (modes_of media_type) text.now fault }
    ensures { IsAnalysis (ReadsElse (HasBy (is_any chosen) chosen) (text_of specifier.now) media_type text.now) result }
{
    let lang = full_language(media_type);
    match read_by(alloc, specifier, text, chosen, lang, media_type) {
        Ok(sites) => Ok(ModuleInfo { sites }),
        Err(ParseFault::Diagnostic(_other)) => Err(AnalyzeFault::Parse(fault)),
        Err(ParseFault::OutOfMemory) => Err(AnalyzeFault::OutOfMemory),
    }
}
