//! Specifiers that no loader is asked for.
ghost use Rattle.std.specs.Prelude.{◌≡◌, None, Ok, IfOk};
ghost use Rattle.data_specifier.specs.Data.{data_of};
ghost use Rattle.graph_entry.specs.Specifier.{text_of};
ghost use Rattle.graph_entry.specs.Ways.{kind_ways_by};
ghost use Rattle.graph_entry.specs.Analysed.{AnalysedBy, OfData, OfPackage};

use crate::analysis::analyse_as;
use crate::analyzer::ModuleAnalyzer;
use crate::entry::{Entry, ModuleError};
use crate::kind_resolver::KindResolver;
use crate::resolution::read_again;
use base::SharedBytes;
use data_specifier::{DataError, DataModule, parse_data_text};
use lexical_path::begins;
use media_type::MediaType;
use package_ref::{PackageError, parse_package_ref};
use std::alloc::{AllocError, Global};
use url::Url;

/// The entry of a specifier that no loader is asked for, by a resolver and an analyser: what a `data:` URL holds, or else the
/// package that the specifier names.
#[tactic(auto, unfolding(crate::specs::Analysed::AnalysedBy, crate::specs::Specifier::text_of))]
pub fn analyse_unasked_by<R: KindResolver, M: ModuleAnalyzer>(
    alloc: Global,
    resolver: &R,
    analyzer: &M,
    specifier: &Url,
) -> Result<Entry, AllocError>
    ensures { IfOk result (λ made. AnalysedBy (kind_ways_by (R.resolving_by_kind resolver.now) (M.reads analyzer.now))
        (text_of specifier.now) None made) }
{
    if begins(specifier.as_str(), "data:") {
        analyse_data(alloc, resolver, analyzer, specifier)
    } else {
        analyse_package(alloc, specifier)
    }
}

#[tactic(auto, unfolding(crate::specs::Specifier::text_of))]
fn analyse_data<R: KindResolver, M: ModuleAnalyzer>(
    alloc: Global,
    resolver: &R,
    analyzer: &M,
    specifier: &Url,
) -> Result<Entry, AllocError>
    ensures { IfOk result (OfData (kind_ways_by (R.resolving_by_kind resolver.now) (M.reads analyzer.now))
        (text_of specifier.now) (data_of (text_of specifier.now))) }
{
    match parse_data_text(alloc, specifier.as_str()) {
        Ok(held) => analyse_held(alloc, resolver, analyzer, specifier, held),
        Err(DataError::OutOfMemory) => Err(AllocError),
        Err(error) => Ok(Entry::Error(ModuleError::DataUrl(error))),
    }
}

// The media type that is held stands for a content type.
fn analyse_held<R: KindResolver, M: ModuleAnalyzer>(
    alloc: Global,
    resolver: &R,
    analyzer: &M,
    specifier: &Url,
    held: DataModule,
) -> Result<Entry, AllocError>
    ensures { IfOk result (OfData (kind_ways_by (R.resolving_by_kind resolver.now) (M.reads analyzer.now))
        (text_of specifier.now) (Ok held)) }
{
    let base = read_again(alloc, specifier)?;
    let media_type = MediaType::Unknown.with_content_type(alloc, held.mime.as_str())?;
    let bytes = SharedBytes::from_vec(held.body.into_vec())?;
    analyse_as(
        alloc, resolver, analyzer, specifier, &base, media_type, bytes,
    )
}

#[tactic(auto, unfolding(crate::specs::Specifier::text_of))]
fn analyse_package(alloc: Global, specifier: &Url) -> Result<Entry, AllocError>
    ensures { IfOk result (OfPackage (text_of specifier.now)) }
{
    match parse_package_ref(alloc, specifier) {
        Ok(package) => Ok(Entry::Package(package)),
        Err(PackageError::NotAReference) => Ok(Entry::Error(ModuleError::PackageReference)),
        Err(PackageError::OutOfMemory) => Err(AllocError),
    }
}
