//! The types of a module's functions and globals (WebAssembly Core, "Type Section", "Function Section" and
//! "Global Section").

ghost use Rattle.std.specs.Prelude.{◌≡◌, ℕ, length, refl};
ghost use Rattle.wasm_dep_analyzer.specs.declared.types.ValueType.{ValueType};
ghost use Rattle.wasm_dep_analyzer.specs.declared.types.FunctionSignature.{FunctionSignature};
ghost use Rattle.wasm_dep_analyzer.specs.declared.types.GlobalType.{GlobalType};
ghost use Rattle.wasm_dep_analyzer.specs.Reading.{Gives, GivesInRoom};
ghost use Rattle.wasm_dep_analyzer.specs.Values.{u32_at, vector_at};
ghost use Rattle.wasm_dep_analyzer.specs.Types.{value_type_at, signature_at};
ghost use Rattle.wasm_dep_analyzer.specs.Module.{own_items, behind_end, global_at};

use crate::error::ParseError;
use crate::imports::{read_global_type, read_value_type};
use crate::types::{FunctionSignature, GlobalType, ValueType};
use crate::values::{ReadItem, read_items, read_u8, read_u32};
use base::Items;
use std::alloc::Global;

/// Reads value types.
#[derive(Clone, Copy)]
struct ValueTypes;

impl<'a> ReadItem<'a> for ValueTypes {
    type Item = ValueType;

    ghost Shown = { ValueType };

    ghost show = { λ x. x };

    ghost show_all = { λ xs. xs };

    ghost shows_more = { λ items last. refl };

    ghost item = { λ _. value_type_at };

    #[tactic(auto, using(crate::proofs::LoopLemmas::fault_is))]
    fn read(&self, input: &'a [u8]) -> Result<(ValueType, &'a [u8]), ParseError> {
        read_value_type(input)
    }

    ghost shows_none = { refl };
}

/// A count and so many value types.
#[tactic(auto, unfolding(crate::specs::Values::vector_at))]
fn value_types(alloc: Global, input: &[u8]) -> Result<(Items<ValueType>, &[u8]), ParseError>
    ensures { GivesInRoom (λ read. (read.0, read.1.now)) result (vector_at value_type_at input.now) }
{
    let (count, rest) = read_u32(input)?;
    let (items, rest) = read_items(alloc, &ValueTypes, count, rest)?;
    Ok((Items::from_vec(items), rest))
}

#[tactic(auto, unfolding(crate::specs::Types::signature_at))]
fn read_signature(alloc: Global, input: &[u8]) -> Result<(FunctionSignature, &[u8]), ParseError>
    ensures { GivesInRoom (λ read. (read.0, read.1.now)) result (signature_at input.now) }
{
    let (mark, rest) = read_u8(input)?;
    if mark != 0x60 {
        return Err(ParseError::InvalidTypeIndicator(mark));
    }
    let (params, rest) = value_types(alloc, rest)?;
    let (returns, rest) = value_types(alloc, rest)?;
    Ok((FunctionSignature { params, returns }, rest))
}

/// Reads function types.
#[derive(Clone, Copy)]
struct Signatures {
    alloc: Global,
}

impl<'a> ReadItem<'a> for Signatures {
    type Item = FunctionSignature;

    ghost Shown = { FunctionSignature };

    ghost show = { λ x. x };

    ghost show_all = { λ xs. xs };

    ghost shows_more = { λ items last. refl };

    ghost item = { λ _. signature_at };

    #[tactic(auto, using(crate::proofs::LoopLemmas::fault_is))]
    fn read(&self, input: &'a [u8]) -> Result<(FunctionSignature, &'a [u8]), ParseError> {
        read_signature(self.alloc, input)
    }

    ghost shows_none = { refl };
}

/// The function types of a type section.
#[tactic(auto, unfolding(crate::specs::Module::own_items, crate::specs::Values::all_items, crate::specs::Values::vector_at))]
pub fn type_section(alloc: Global, payload: &[u8]) -> Result<Vec<FunctionSignature>, ParseError>
    ensures { GivesInRoom (λ items. items.items) result (own_items signature_at payload.now) }
{
    if payload.is_empty() {
        return Ok(Vec::new(alloc));
    }
    let (count, rest) = read_u32(payload)?;
    let (items, _) = read_items(alloc, &Signatures { alloc }, count, rest)?;
    Ok(items)
}

/// Reads numbers.
#[derive(Clone, Copy)]
struct Numbers;

impl<'a> ReadItem<'a> for Numbers {
    type Item = u32;

    ghost Shown = { ℕ };

    ghost show = { λ x. x };

    ghost show_all = { λ xs. xs };

    ghost shows_more = { λ items last. refl };

    ghost item = { λ _. u32_at };

    #[tactic(auto, using(crate::proofs::LoopLemmas::fault_is))]
    fn read(&self, input: &'a [u8]) -> Result<(u32, &'a [u8]), ParseError> {
        read_u32(input)
    }

    ghost shows_none = { refl };
}

/// The type numbers of a function section.
#[tactic(auto, unfolding(crate::specs::Module::own_items, crate::specs::Values::all_items, crate::specs::Values::vector_at))]
pub fn function_section(alloc: Global, payload: &[u8]) -> Result<Vec<u32>, ParseError>
    ensures { GivesInRoom (λ items. items.items) result (own_items u32_at payload.now) }
{
    if payload.is_empty() {
        return Ok(Vec::new(alloc));
    }
    let (count, rest) = read_u32(payload)?;
    let (items, _) = read_items(alloc, &Numbers, count, rest)?;
    Ok(items)
}

/// The bytes after the first 0B, with which an initialiser ends.
fn skip_initialiser(input: &[u8]) -> Result<&[u8], ParseError>
    ensures { Gives (λ rest. rest.now) result (behind_end input.now) }
{
    let mut rest = input;
    'bytes: loop {
        let (byte, after) = read_u8(rest)?;
        rest = after;
        if byte == 0x0B {
            return Ok(rest);
        }
    }
}

#[tactic(auto, unfolding(crate::specs::Module::global_at))]
fn read_global(input: &[u8]) -> Result<(GlobalType, &[u8]), ParseError>
    ensures { Gives (λ read. (read.0, read.1.now)) result (global_at input.now) }
{
    let (global, rest) = read_global_type(input)?;
    let rest = skip_initialiser(rest)?;
    Ok((global, rest))
}

/// Reads globals.
#[derive(Clone, Copy)]
struct Globals;

impl<'a> ReadItem<'a> for Globals {
    type Item = GlobalType;

    ghost Shown = { GlobalType };

    ghost show = { λ x. x };

    ghost show_all = { λ xs. xs };

    ghost shows_more = { λ items last. refl };

    ghost item = { λ _. global_at };

    #[tactic(auto, using(crate::proofs::LoopLemmas::fault_is))]
    fn read(&self, input: &'a [u8]) -> Result<(GlobalType, &'a [u8]), ParseError> {
        read_global(input)
    }

    ghost shows_none = { refl };
}

/// The types of a global section.
#[tactic(auto, unfolding(crate::specs::Module::own_items, crate::specs::Values::all_items, crate::specs::Values::vector_at))]
pub fn global_section(alloc: Global, payload: &[u8]) -> Result<Vec<GlobalType>, ParseError>
    ensures { GivesInRoom (λ items. items.items) result (own_items global_at payload.now) }
{
    if payload.is_empty() {
        return Ok(Vec::new(alloc));
    }
    let (count, rest) = read_u32(payload)?;
    let (items, _) = read_items(alloc, &Globals, count, rest)?;
    Ok(items)
}
