//! The modules of a bundle, of which no two have one specifier.
ghost use Rattle.std.specs.Prelude.{◌≡◌, [], ◌∷◌, ◌++◌, None, length, map, decimal, codes, IfOk, OnOk};
ghost use Rattle.serde_json.specs.View.{view, items_view};
ghost use Rattle.serde_json.specs.Find.{get};
ghost use Rattle.import_map.specs.json_reading.Reading.{under, there};
ghost use Rattle.graph_entry.specs.Specifier.{text_of};
ghost use Rattle.graph_builder.specs.ByText.{keys_at, number_of};
ghost use Rattle.graph_bundle.specs.Bundle as spec;

use crate::module::module_in;
use base::{Items, Text};
use graph_entry::LoadAnswer;
use graph_tables::specifier_table::Numbered;
use import_map::json_reading::{Reading, pointer, under, under_number};
use indexmap::IndexSet;
use serde_json::Value;
use std::alloc::{AllocError, Global};
use url::Url;

/// The modules, each with its specifier.
pub fn modules_at(alloc: Global, value: &Value) -> Result<Reading<Numbered<LoadAnswer>>, AllocError>
    ensures { IfOk result (λ r. r ≡ under (codes "modules") (there spec.modules_of (get (codes "modules") (view value.now)))) }
{
    match value.get("modules") {
        Some(modules) => {
            let reading = modules_in(alloc, modules)?;
            under(alloc, "modules", reading)
        }
        None => Ok(Err(pointer(alloc, "modules", "")?)),
    }
}

fn modules_in(alloc: Global, value: &Value) -> Result<Reading<Numbered<LoadAnswer>>, AllocError>
    ensures { IfOk result (λ r. r ≡ spec.modules_of (view value.now)) }
{
    match value.as_array() {
        Some(values) => each_module(alloc, values.as_slice()),
        None => Ok(Err(Text::new(alloc))),
    }
}

fn each_module(alloc: Global, values: &[Value]) -> Result<Reading<Numbered<LoadAnswer>>, AllocError>
    ensures { IfOk result (λ r. r ≡ spec.modules_from [] 0 (map view values.now)) }
{
    let mut modules = with_room(alloc, values.len())?;
    for value in values {
        match next_module(alloc, &modules, value)? {
            Ok(module) => add(&mut modules, module)?,
            Err(at) => return Ok(Err(at)),
        }
    }
    Ok(Ok(modules))
}

/// No modules, and room for so many.
fn with_room(alloc: Global, count: usize) -> Result<Numbered<LoadAnswer>, AllocError>
    ensures { IfOk result (λ modules. modules ≡ []) }
{
    let specifiers = IndexSet::with_capacity(alloc, count)?;
    let answers = Items::from_vec(Vec::with_capacity(alloc, count)?);
    Ok(Numbered::from_parts(specifiers, answers))
}

/// The module that a value describes, after these modules.
fn next_module(
    alloc: Global,
    modules: &Numbered<LoadAnswer>,
    value: &Value,
) -> Result<Reading<(Url, LoadAnswer)>, AllocError>
    ensures { IfOk result (λ r. r ≡ under (decimal (length modules.now))
        (spec.module_after (keys_at modules.now) (view value.now))) }
{
    let reading = module_in(alloc, modules, value)?;
    under_number(alloc, modules.len(), reading)
}

/// Adds a module, whose specifier no earlier one has.
#[tactic(auto, unfolding(graph_entry::specs::Specifier::text_of))]
fn add(modules: &mut Numbered<LoadAnswer>, new: (Url, LoadAnswer)) -> Result<(), AllocError>
    requires { number_of modules.old (text_of new.0) ≡ None }
    ensures { OnOk result (modules.new ≡ modules.old ++ new ∷ []) }
{
    let (specifier, answer) = new;
    modules.push(specifier, answer)
}
