//! The names of modules in a folder.
ghost use Rattle.std.specs.Prelude.{◌≡◌, ◌≤◌, ◌^◌, ◌∷◌, [], ◌++◌, length, None, Some, IfOk, OnOk};
ghost use Rattle.std.specs.Option.{option_copied};
ghost use Rattle.std.specs.Result.{result_ok};
ghost use Rattle.url.specs.Parser.{parse_url};
ghost use Rattle.graph_entry.specs.Specifier.{text_of};
ghost use Rattle.graph_builder.specs.Graph.{IsAscending};
ghost use Rattle.graph_builder.specs.ByText.{number_of, value_at};
ghost use Rattle.graph_vendor.specs.Names as spec;

use base::Text;
use graph_builder::ModuleGraph;
use graph_entry::{Entry, MediaType, Module};
use graph_tables::specifier_table::Numbered;
use itoa::Buffer;
use std::alloc::{AllocError, Global};
use url::{ParseError, Url};

/// What a module is named in a folder.
#[derive(Drop)]
pub struct NewName {
    /// The name of its file.
    pub file_name: Text,
    /// The specifier that this joins to at the folder, if it is one.
    pub target: Option<Url>,
}

/// The new names of the graph's modules.
pub fn names_of(
    alloc: Global,
    graph: &ModuleGraph,
    base: &Url,
) -> Result<Numbered<NewName>, AllocError>
    ensures names { IfOk result (λ names. names ≡ spec.names_in base.now graph.now.entries) }
    ensures ascending { IsAscending graph.now.entries }
    ensures few { IfOk result (λ names. length names ≤ 2 ^ 63) }
{
    let mut names = Numbered::new(alloc);
    for (specifier, entry) in graph.entries()? {
        if let Entry::Module(module) = entry {
            let name = name_of(alloc, base, names.len(), media_of(module))?;
            add_name(&mut names, specifier, name)?;
        }
    }
    Ok(names)
}

// Gives the next number to a specifier that has none.
#[tactic(auto, unfolding(graph_entry::specs::Specifier::text_of))]
fn add_name(names: &mut Numbered<NewName>, specifier: &Url, name: NewName) -> Result<(), AllocError>
    requires { number_of names.old (text_of specifier.now) ≡ None }
    ensures { OnOk result (names.new ≡ names.old ++ (specifier.now, name) ∷ []) }
{
    names.push(specifier.clone()?, name)
}

// The name of the module with this number.
fn name_of(
    alloc: Global,
    base: &Url,
    number: usize,
    media: MediaType,
) -> Result<NewName, AllocError>
    ensures file { IfOk result (λ name. name.file_name ≡ spec.file_name number media) }
    ensures target { IfOk result (λ name. name.target
        ≡ result_ok (parse_url (Some base.now) (spec.file_name number media))) }
{
    let file_name = file_name(alloc, number, media)?;
    let target = joined(base, file_name.as_str())?;
    Ok(NewName { file_name, target })
}

#[tactic(auto, unfolding(crate::specs::Names::file_name))]
fn file_name(alloc: Global, number: usize, media: MediaType) -> Result<Text, AllocError>
    ensures { IfOk result (λ name. name ≡ spec.file_name number media) }
{
    let mut name = String::new(alloc);
    let mut digits = Buffer::new();
    name.push_str("m")?;
    name.push_str(digits.format(number))?;
    name.push_str(".")?;
    name.push_str(extension(media))?;
    Ok(Text::from_string(name))
}

// The specifier that a file's name joins to at the folder.
fn joined(base: &Url, name: &str) -> Result<Option<Url>, AllocError>
    ensures { IfOk result (λ url. url ≡ result_ok (parse_url (Some base.now) name.now)) }
{
    match base.join(name) {
        Ok(url) => Ok(Some(url)),
        Err(ParseError::OutOfMemory | ParseError::Overflow) => Err(AllocError),
        Err(_) => Ok(None),
    }
}

/// The media type of a module.
pub fn media_of(held: &Module) -> MediaType
    ensures { result ≡ spec.media_of held.now }
{
    match held {
        Module::Js(module) => module.media_type,
        Module::Json(_) => MediaType::Json,
        Module::Wasm(_) => MediaType::Wasm,
    }
}

fn extension(media: MediaType) -> &'static str
    ensures { result.now ≡ spec.extension media }
{
    match media {
        MediaType::TypeScript => "ts",
        MediaType::Mts => "mts",
        MediaType::Cts => "cts",
        MediaType::Tsx => "tsx",
        MediaType::Dts => "d.ts",
        MediaType::Dmts => "d.mts",
        MediaType::Dcts => "d.cts",
        MediaType::JavaScript => "js",
        MediaType::Mjs => "mjs",
        MediaType::Cjs => "cjs",
        MediaType::Jsx => "jsx",
        MediaType::Json => "json",
        MediaType::Wasm => "wasm",
        _ => "",
    }
}

/// The new name of the module at a specifier, if there is one.
#[tactic(auto, unfolding(graph_entry::specs::Specifier::text_of))]
pub fn name_at<'a>(names: &'a Numbered<NewName>, specifier: &Url) -> Option<&'a NewName>
    ensures { option_copied result ≡ value_at names.now (text_of specifier.now) }
{
    match names.number(specifier) {
        Some(number) => names.value(number),
        None => None,
    }
}

/// The new specifier of the module at a specifier.
pub fn target_at<'a>(names: &'a Numbered<NewName>, specifier: &Url) -> Option<&'a Url>
    ensures { option_copied result ≡ spec.target_at names.now (text_of specifier.now) }
{
    match name_at(names, specifier) {
        Some(name) => name.target.as_ref(),
        None => None,
    }
}
