//! Imports and their types (WebAssembly Core, "Types" and "Import Section").

ghost use Rattle.std.specs.Prelude.{◌≡◌, ◌-◌, length, map, refl};
ghost use Rattle.std.proofs.lemmas.List.{map_push};
ghost use Rattle.wasm_dep_analyzer.specs.Reading.{Gives, GivesInRoom};
ghost use Rattle.wasm_dep_analyzer.specs.Values.{all_items};
ghost use Rattle.wasm_dep_analyzer.specs.Imports.{Imported, import_at, imported};
ghost use Rattle.wasm_dep_analyzer.specs.Types.{value_type_of, value_type_at, maximum_at, limits_at, mutability_of, global_type_at, table_at, tag_at, function_at, memory_at, global_at, import_type_of, import_type_at};

use crate::deps::Import;
use crate::error::ParseError;
use crate::types::{GlobalType, ImportType, Limits, MemoryType, TableType, TagType, ValueType};
use crate::values::{ReadItem, read_items, read_name, read_u8, read_u32};
use base::Range;
use std::alloc::Global;

/// The value type of a byte.
fn value_type(byte: u8) -> ValueType
    ensures { result ≡ value_type_of byte }
{
    match byte {
        0x7F => ValueType::I32,
        0x7E => ValueType::I64,
        0x7D => ValueType::F32,
        0x7C => ValueType::F64,
        _ => ValueType::Unknown,
    }
}

/// A value type.
#[tactic(auto, unfolding(crate::specs::Types::value_type_at))]
pub fn read_value_type(input: &[u8]) -> Result<(ValueType, &[u8]), ParseError>
    ensures { Gives (λ read. (read.0, read.1.now)) result (value_type_at input.now) }
{
    let (byte, rest) = read_u8(input)?;
    Ok((value_type(byte), rest))
}

#[tactic(auto, unfolding(crate::specs::Types::maximum_at))]
fn read_maximum(flag: u8, input: &[u8]) -> Result<(Option<u32>, &[u8]), ParseError>
    ensures { Gives (λ read. (read.0, read.1.now)) result (maximum_at flag input.now) }
{
    if flag % 2 == 0 {
        return Ok((None, input));
    }
    let (maximum, rest) = read_u32(input)?;
    Ok((Some(maximum), rest))
}

#[tactic(auto, unfolding(crate::specs::Types::limits_at))]
fn read_limits(input: &[u8]) -> Result<(Limits, &[u8]), ParseError>
    ensures { Gives (λ read. (read.0, read.1.now)) result (limits_at input.now) }
{
    let (flag, rest) = read_u8(input)?;
    let (initial, rest) = read_u32(rest)?;
    let (maximum, rest) = read_maximum(flag, rest)?;
    Ok((Limits { initial, maximum }, rest))
}

fn mutability(flag: u8) -> Result<bool, ParseError>
    ensures { Gives (λ mutability. mutability) result (mutability_of flag) }
{
    match flag {
        0 => Ok(false),
        1 => Ok(true),
        _ => Err(ParseError::InvalidMutabilityFlag(flag)),
    }
}

/// A value type, and whether it may be written.
#[tactic(auto, unfolding(crate::specs::Types::global_type_at))]
pub fn read_global_type(input: &[u8]) -> Result<(GlobalType, &[u8]), ParseError>
    ensures { Gives (λ read. (read.0, read.1.now)) result (global_type_at input.now) }
{
    let (value_type, rest) = read_value_type(input)?;
    let (flag, rest) = read_u8(rest)?;
    let mutability = mutability(flag)?;
    Ok((
        GlobalType {
            value_type,
            mutability,
        },
        rest,
    ))
}

#[tactic(auto, unfolding(crate::specs::Types::table_at))]
fn read_table(input: &[u8]) -> Result<(ImportType, &[u8]), ParseError>
    ensures { Gives (λ read. (read.0, read.1.now)) result (table_at input.now) }
{
    let (element_type, rest) = read_u8(input)?;
    if element_type != 0x70 {
        return Err(ParseError::UnknownElementType(element_type));
    }
    let (limits, rest) = read_limits(rest)?;
    Ok((
        ImportType::Table(TableType {
            element_type,
            limits,
        }),
        rest,
    ))
}

#[tactic(auto, unfolding(crate::specs::Types::tag_at))]
fn read_tag(input: &[u8]) -> Result<(ImportType, &[u8]), ParseError>
    ensures { Gives (λ read. (read.0, read.1.now)) result (tag_at input.now) }
{
    let (kind, rest) = read_u8(input)?;
    if kind != 0 {
        return Err(ParseError::UnknownTagKind(kind));
    }
    let (type_index, rest) = read_u32(rest)?;
    Ok((ImportType::Tag(TagType { kind, type_index }), rest))
}

#[tactic(auto, unfolding(crate::specs::Types::function_at))]
fn read_function(input: &[u8]) -> Result<(ImportType, &[u8]), ParseError>
    ensures { Gives (λ read. (read.0, read.1.now)) result (function_at input.now) }
{
    let (type_number, rest) = read_u32(input)?;
    Ok((ImportType::Function(type_number), rest))
}

#[tactic(auto, unfolding(crate::specs::Types::memory_at))]
fn read_memory(input: &[u8]) -> Result<(ImportType, &[u8]), ParseError>
    ensures { Gives (λ read. (read.0, read.1.now)) result (memory_at input.now) }
{
    let (limits, rest) = read_limits(input)?;
    Ok((ImportType::Memory(MemoryType { limits }), rest))
}

#[tactic(auto, unfolding(crate::specs::Types::global_at))]
fn read_global(input: &[u8]) -> Result<(ImportType, &[u8]), ParseError>
    ensures { Gives (λ read. (read.0, read.1.now)) result (global_at input.now) }
{
    let (global, rest) = read_global_type(input)?;
    Ok((ImportType::Global(global), rest))
}

/// A kind byte, and the import type of that kind.
#[tactic(auto, unfolding(crate::specs::Types::import_type_at))]
fn read_import_type(input: &[u8]) -> Result<(ImportType, &[u8]), ParseError>
    ensures { Gives (λ read. (read.0, read.1.now)) result (import_type_at input.now) }
{
    let (kind, rest) = read_u8(input)?;
    match kind {
        0 => read_function(rest),
        1 => read_table(rest),
        2 => read_memory(rest),
        3 => read_global(rest),
        4 => read_tag(rest),
        _ => Err(ParseError::UnknownImportType(kind)),
    }
}

#[tactic(auto, unfolding(crate::specs::Imports::import_at))]
fn read_import<'a>(end: usize, input: &'a [u8]) -> Result<(Import<'a>, &'a [u8]), ParseError>
    ensures { Gives (λ read. (imported read.0, read.1.now)) result (import_at end input.now) }
{
    let (module, rest) = read_name(input)?;
    let module_end = end.saturating_sub(rest.len());
    let module_range = Range {
        start: module_end.saturating_sub(module.len()),
        end: module_end,
    };
    let (name, rest) = read_name(rest)?;
    let (import_type, rest) = read_import_type(rest)?;
    Ok((
        Import {
            name,
            module,
            module_range,
            import_type,
        },
        rest,
    ))
}

/// Reads imports in a payload that ends at `end`.
#[derive(Clone, Copy)]
struct Imports {
    end: usize,
}

impl<'a> ReadItem<'a> for Imports {
    type Item = Import<'a>;

    ghost Shown = { Imported };

    ghost show = { imported };

    ghost show_all = { map imported };

    ghost shows_more = { λ items last. map_push imported items last };

    ghost item = { λ reader. import_at reader.end };

    #[tactic(auto, using(crate::proofs::LoopLemmas::fault_is))]
    fn read(&self, input: &'a [u8]) -> Result<(Import<'a>, &'a [u8]), ParseError> {
        read_import(self.end, input)
    }

    ghost shows_none = { refl };
}

/// The imports of an import section, whose payload ends at `end`.
#[tactic(auto, unfolding(crate::specs::Values::all_items, crate::specs::Values::vector_at))]
pub fn import_section<'a>(
    alloc: Global,
    end: usize,
    payload: &'a [u8],
) -> Result<Vec<Import<'a>>, ParseError>
    ensures { GivesInRoom (λ imports. map imported imports.items) result (all_items (import_at end) payload.now) }
{
    let (count, rest) = read_u32(payload)?;
    let (imports, _) = read_items(alloc, &Imports { end }, count, rest)?;
    Ok(imports)
}
