//! Exports, before their types are looked up (WebAssembly Core, "Export Section").

ghost use Rattle.std.specs.Prelude.{◌≡◌, map, refl};
ghost use Rattle.std.proofs.lemmas.List.{map_push};
ghost use Rattle.wasm_dep_analyzer.specs.Reading.{Gives, GivesInRoom};
ghost use Rattle.wasm_dep_analyzer.specs.Values.{all_items};
ghost use Rattle.wasm_dep_analyzer.specs.Exports.{Listed, export_kind_of, export_at, listed, has_function, has_global};
ghost use Rattle.wasm_dep_analyzer.specs.Exports as spec;

use crate::error::ParseError;
use crate::values::{ReadItem, read_items, read_name, read_u8, read_u32};
use std::alloc::Global;

/// What is exported.
#[derive(Clone, Copy, Debug, PartialEq, Eq)]
pub enum ExportKind {
    Function,
    Table,
    Memory,
    Global,
    Tag,
    Unknown,
}

/// An export as the section has it.
#[derive(Clone, Copy)]
pub struct ExportItem<'a> {
    pub name: &'a str,
    pub kind: ExportKind,
    pub index: u32,
}

/// The exports of a module, and whether functions and globals are among them.
#[derive(Drop)]
pub struct Exports<'a> {
    pub items: Vec<ExportItem<'a>>,
    pub functions: bool,
    pub globals: bool,
    ghost shows_function: { functions ≡ has_function (map listed items.items) },
    ghost shows_global: { globals ≡ has_global (map listed items.items) },
}

fn export_kind(byte: u8) -> ExportKind
    ensures { result ≡ export_kind_of byte }
{
    match byte {
        0 => ExportKind::Function,
        1 => ExportKind::Table,
        2 => ExportKind::Memory,
        3 => ExportKind::Global,
        4 => ExportKind::Tag,
        _ => ExportKind::Unknown,
    }
}

#[tactic(auto, unfolding(crate::specs::Exports::export_at))]
fn read_export<'a>(input: &'a [u8]) -> Result<(ExportItem<'a>, &'a [u8]), ParseError>
    ensures { Gives (λ read. (listed read.0, read.1.now)) result (export_at input.now) }
{
    let (name, rest) = read_name(input)?;
    let (byte, rest) = read_u8(rest)?;
    let (index, rest) = read_u32(rest)?;
    let kind = export_kind(byte);
    Ok((ExportItem { name, kind, index }, rest))
}

/// Reads exports.
#[derive(Clone, Copy)]
struct ExportItems;

impl<'a> ReadItem<'a> for ExportItems {
    type Item = ExportItem<'a>;

    ghost Shown = { Listed };

    ghost show = { listed };

    ghost show_all = { map listed };

    ghost shows_more = { λ items last. map_push listed items last };

    ghost item = { λ _. export_at };

    #[tactic(auto, using(crate::proofs::LoopLemmas::fault_is))]
    fn read(&self, input: &'a [u8]) -> Result<(ExportItem<'a>, &'a [u8]), ParseError> {
        read_export(input)
    }

    ghost shows_none = { refl };
}

fn is_function(export: &ExportItem) -> bool
    ensures { result ≡ spec.is_function (listed export.now) }
{
    matches!(export.kind, ExportKind::Function)
}

fn is_global(export: &ExportItem) -> bool
    ensures { result ≡ spec.is_global (listed export.now) }
{
    matches!(export.kind, ExportKind::Global)
}

// Whether a function is among the exports.
fn has_function(exports: &[ExportItem]) -> bool
    ensures { result ≡ has_function (map listed exports.now) }
{
    exports.iter().any(|export| is_function(export))
}

// Whether a global is among the exports.
fn has_global(exports: &[ExportItem]) -> bool
    ensures { result ≡ has_global (map listed exports.now) }
{
    exports.iter().any(|export| is_global(export))
}

/// The exports of an export section.
#[tactic(auto, unfolding(crate::specs::Values::all_items, crate::specs::Values::vector_at))]
pub fn export_section<'a>(alloc: Global, payload: &'a [u8]) -> Result<Exports<'a>, ParseError>
    ensures { GivesInRoom (λ exports. map listed exports.items.items) result (all_items export_at payload.now) }
{
    let (count, rest) = read_u32(payload)?;
    let (items, _) = read_items(alloc, &ExportItems, count, rest)?;
    let functions = has_function(&items);
    let globals = has_global(&items);
    Ok(Exports {
        items,
        functions,
        globals,
    })
}
