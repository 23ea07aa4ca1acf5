//! `Object.defineProperty(exports, name, descriptor)`, by the name and the descriptor.

ghost use Rattle.std.specs.Prelude.{◌≡◌, IfOk, OnOk};
ghost use Rattle.es_bound_names.specs.Cuts.{IsCut};
ghost use Rattle.cjs_facts.specs.Looks.{named};
ghost use Rattle.cjs_facts.specs.Exports.{define, is_safe};
ghost use Rattle.cjs_looks.specs.Seen.{look_of, name_at, text_at};
ghost use Rattle.cjs_calls.specs.Getters.{IsSafe, PropsLook, Defines};

use crate::getter::{first_get, got_look, is_safe_get};
use cjs_facts::Found;
use cjs_looks::Look;
use cjs_looks::steps::{module_value, string_value};
use es_literal::LiteralValue;
use es_syntax::Siblings;
use es_token::Token;
use std::alloc::{AllocError, Global};

/// Whether a descriptor with these properties has a getter, if any, that only returns what is harmless.
#[tactic(auto, using(crate::proofs::Describes::safe_props, crate::proofs::Describes::safe_nothing))]
fn is_safe(
    alloc: Global,
    text: &str,
    tokens: &[Token],
    props: &Option<Siblings<'_>>,
) -> Result<bool, AllocError>
    requires { IsCut text.now tokens.now }
    ensures { IfOk result (λ is. IsSafe text.now tokens.now props.now is) }
{
    match props {
        Some(row) => {
            let got = first_get(alloc, text, tokens, row)?;
            Ok(is_safe_get(text, tokens, &got))
        }
        None => Ok(false),
    }
}

/// What the getter of a descriptor with these properties only returns.
#[tactic(auto, using(crate::proofs::Describes::look_props, crate::proofs::Describes::look_nothing))]
fn props_look(
    alloc: Global,
    text: &str,
    tokens: &[Token],
    props: &Option<Siblings<'_>>,
) -> Result<Look, AllocError>
    requires { IsCut text.now tokens.now }
    ensures { IfOk result (λ told. PropsLook text.now tokens.now props.now (look_of text.now tokens.now told)) }
{
    match props {
        Some(row) => {
            let got = first_get(alloc, text, tokens, row)?;
            Ok(got_look(text, tokens, &got))
        }
        None => Ok(Look::Other),
    }
}

/// With a string as the name: an export, or an unsafe getter.
#[tactic(auto, using(crate::proofs::Describes::defines_export, crate::proofs::Describes::defines_unsafe, crate::proofs::Describes::defines_absent))]
fn define_text(
    found: &mut Found,
    text: &str,
    tokens: &[Token],
    name: u32,
    props: &Option<Siblings<'_>>,
) -> Result<(), AllocError>
    requires { IsCut text.now tokens.now }
    ensures { OnOk result (Defines text.now tokens.now props.now (text_at text.now tokens.now name) found.old found.new) }
{
    let alloc = found.allocator();
    let is = is_safe(alloc, text, tokens, props)?;
    match string_value(alloc, text, tokens, name)? {
        Some(
            LiteralValue {
                text: value,
                lone: _,
            },
        ) => {
            if is {
                return found.add_export(value);
            }
            found.add_unsafe_getter(value)
        }
        None => Ok(()),
    }
}

/// With a name as the name: what is exported again.
#[tactic(auto, using(crate::proofs::Describes::defines_module, crate::proofs::Describes::defines_no_module))]
fn define_key(
    found: &mut Found,
    text: &str,
    tokens: &[Token],
    name: u32,
    props: &Option<Siblings<'_>>,
) -> Result<(), AllocError>
    requires { IsCut text.now tokens.now }
    ensures { OnOk result (Defines text.now tokens.now props.now (named (name_at text.now tokens.now name)) found.old found.new) }
{
    let look = props_look(found.allocator(), text, tokens, props)?;
    match module_value(text, tokens, found.vars.as_slice(), name, look)? {
        Some(module_name) => found.add_reexport(module_name),
        None => Ok(()),
    }
}

/// What looks so is the name.
#[tactic(auto, using(crate::proofs::Describes::defines_required, crate::proofs::Describes::defines_member, crate::proofs::Describes::defines_other))]
pub fn define(
    found: &mut Found,
    text: &str,
    tokens: &[Token],
    name: Look,
    props: &Option<Siblings<'_>>,
) -> Result<(), AllocError>
    requires { IsCut text.now tokens.now }
    ensures { OnOk result (Defines text.now tokens.now props.now (look_of text.now tokens.now name) found.old found.new) }
{
    match name {
        Look::Text(at) => define_text(found, text, tokens, at, props),
        Look::Named(at) => define_key(found, text, tokens, at, props),
        Look::Member(_, _) => Ok(()),
        Look::Requires(_) => Ok(()),
        Look::Other => Ok(()),
    }
}
