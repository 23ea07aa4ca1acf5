//! The text of a bundle of so many modules.
ghost use Rattle.std.specs.Prelude.{◌≡◌, ◌+◌, ◌<◌, ◌≤◌, OnOk, IfOk, string_bytes, decimal};
ghost use Rattle.json.specs.Print.{quoted};
ghost use Rattle.made_bundle.specs.Made.{Adds, made_text, module_text, module_json, modules_upto, module_front, specifier_json, text_json, child_line, back_line, declared, value_line, assigned};

use serde_json::Value;
use std::alloc::{AllocError, Global};

/// The most modules that are made.
pub const MOST_MODULES: u32 = 100_000;

/// The bundle of so many modules, as compact JSON and a line end.
#[tactic(auto, unfolding(crate::specs::Made::made_text))]
pub fn make_bundle(alloc: Global, count: u32) -> Result<String, AllocError>
    requires { count ≤ MOST_MODULES }
    ensures { IfOk result (λ text. string_bytes text ≡ made_text count) }
{
    let mut out = String::new(alloc);
    out.push_str("{\"limit\":")?;
    add_number(alloc, &mut out, count)?;
    out.push_str(",\"modules\":[")?;
    add_modules(alloc, &mut out, count)?;
    out.push_str("],\"roots\":[\"file:///m/0.ts\"]}\n")?;
    Ok(out)
}

fn add_modules(alloc: Global, out: &mut String, count: u32) -> Result<(), AllocError>
    requires { count ≤ MOST_MODULES }
    ensures { OnOk result (Adds out.old out.new (modules_upto count count)) }
{
    for number in 0..count {
        if number > 0 {
            out.push_str(",")?;
        }
        add_module(alloc, out, count, number)?;
    }
    Ok(())
}

#[tactic(auto, unfolding(crate::specs::Made::module_json))]
fn add_module(alloc: Global, out: &mut String, count: u32, number: u32) -> Result<(), AllocError>
    requires among { number < count }
    requires few { count ≤ MOST_MODULES }
    ensures { OnOk result (Adds out.old out.new (module_json count number)) }
{
    let text = text_of(alloc, count, number)?;
    add_specifier(alloc, out, number)?;
    add_text(alloc, out, text)
}

#[tactic(auto, unfolding(crate::specs::Made::specifier_json))]
fn add_specifier(alloc: Global, out: &mut String, number: u32) -> Result<(), AllocError>
    ensures { OnOk result (Adds out.old out.new (specifier_json number)) }
{
    add_front(out)?;
    add_number(alloc, out, number)?;
    out.push_str(".ts\"")
}

#[tactic(auto, unfolding(crate::specs::Made::module_front))]
fn add_front(out: &mut String) -> Result<(), AllocError>
    ensures { OnOk result (Adds out.old out.new module_front) }
{
    out.push_str("{\"specifier\":\"file:///m/")
}

#[tactic(auto, unfolding(crate::specs::Made::text_json))]
fn add_text(alloc: Global, out: &mut String, text: String) -> Result<(), AllocError>
    ensures { OnOk result (Adds out.old out.new (text_json (string_bytes text))) }
{
    out.push_str(",\"text\":")?;
    add_quoted(alloc, out, text)?;
    out.push_str("}")
}

/// The text of a module: it imports the two below it, the first one back, and has a value.
#[tactic(auto, unfolding(crate::specs::Made::module_text))]
fn text_of(alloc: Global, count: u32, number: u32) -> Result<String, AllocError>
    requires among { number < count }
    requires few { count ≤ MOST_MODULES }
    ensures { IfOk result (λ text. string_bytes text ≡ module_text count number) }
{
    let mut text = String::new(alloc);
    add_child(alloc, &mut text, count, 2 * number + 1)?;
    add_child(alloc, &mut text, count, 2 * number + 2)?;
    add_back(&mut text, number)?;
    add_value(alloc, &mut text, number)?;
    Ok(text)
}

#[tactic(auto, unfolding(crate::specs::Made::child_line))]
fn add_child(alloc: Global, text: &mut String, count: u32, child: u32) -> Result<(), AllocError>
    ensures { OnOk result (Adds text.old text.new (child_line count child)) }
{
    if child >= count {
        return Ok(());
    }
    text.push_str("import \"./")?;
    add_number(alloc, text, child)?;
    text.push_str(".ts\";\n")
}

#[tactic(auto, unfolding(crate::specs::Made::back_line))]
fn add_back(text: &mut String, number: u32) -> Result<(), AllocError>
    ensures { OnOk result (Adds text.old text.new (back_line number)) }
{
    if number == 0 {
        return Ok(());
    }
    text.push_str("import(\"./0.ts\");\n")
}

#[tactic(auto, unfolding(crate::specs::Made::value_line))]
fn add_value(alloc: Global, text: &mut String, number: u32) -> Result<(), AllocError>
    ensures { OnOk result (Adds text.old text.new (value_line number)) }
{
    add_declared(text)?;
    add_number(alloc, text, number)?;
    add_assigned(alloc, text, number)
}

#[tactic(auto, unfolding(crate::specs::Made::declared))]
fn add_declared(text: &mut String) -> Result<(), AllocError>
    ensures { OnOk result (Adds text.old text.new declared) }
{
    text.push_str("export const v")
}

#[tactic(auto, unfolding(crate::specs::Made::assigned))]
fn add_assigned(alloc: Global, text: &mut String, number: u32) -> Result<(), AllocError>
    ensures { OnOk result (Adds text.old text.new (assigned number)) }
{
    text.push_str(" = ")?;
    add_number(alloc, text, number)?;
    text.push_str(";\n")
}

fn add_number(alloc: Global, out: &mut String, number: u32) -> Result<(), AllocError>
    ensures { OnOk result (Adds out.old out.new (decimal number)) }
{
    let digits = format!(in alloc; "{number}")?;
    out.push_str(digits.as_str())
}

/// Adds the text as a JSON string.
fn add_quoted(alloc: Global, out: &mut String, text: String) -> Result<(), AllocError>
    ensures { OnOk result (Adds out.old out.new (quoted (string_bytes text))) }
{
    let value = Value::String(text);
    let quoted = value.to_string(alloc)?;
    out.push_str(quoted.as_str())
}
