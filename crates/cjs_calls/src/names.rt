//! The names and the modules of properties.

ghost use Rattle.std.specs.Prelude.{◌≡◌, IfOk, OnOk};
ghost use Rattle.es_bound_names.specs.Cuts.{IsCut};
ghost use Rattle.cjs_facts.specs.Looks.{name_by};
ghost use Rattle.cjs_facts.specs.Exports.{named_found, spread_found};
ghost use Rattle.cjs_looks.specs.Seen.{look_of};

use base::Text;
use cjs_facts::Found;
use cjs_looks::Look;
use cjs_looks::steps::{name_value, plain_value};
use es_token::Token;
use std::alloc::{AllocError, Global};

/// What names a property: a word, or a string without lone surrogate.
#[tactic(auto, using(crate::proofs::NameForms::name_text, crate::proofs::NameForms::name_required))]
fn key_value(
    alloc: Global,
    text: &str,
    tokens: &[Token],
    name: Look,
) -> Result<Option<Text>, AllocError>
    requires { IsCut text.now tokens.now }
    ensures { IfOk result (λ value. value ≡ name_by (look_of text.now tokens.now name)) }
{
    match name {
        Look::Named(at) => {
            let value = name_value(alloc, text, tokens, at)?;
            Ok(Some(value))
        }
        Look::Text(at) => {
            let value = plain_value(alloc, text, tokens, at)?;
            Ok(value)
        }
        Look::Member(_, _) => Ok(None),
        Look::Requires(_) => Ok(None),
        Look::Other => Ok(None),
    }
}

/// What a property adds that is named so: an export, or an unsafe getter.
pub fn named_property(
    found: &mut Found,
    text: &str,
    tokens: &[Token],
    name: Look,
    is_export: bool,
) -> Result<(), AllocError>
    requires { IsCut text.now tokens.now }
    ensures { OnOk result (found.new ≡ named_found (name_by (look_of text.now tokens.now name)) is_export found.old) }
{
    match key_value(found.allocator(), text, tokens, name)? {
        Some(name) => {
            if is_export {
                return found.add_export(name);
            }
            found.add_unsafe_getter(name)
        }
        None => Ok(()),
    }
}

/// What `...` adds before what looks so.
#[tactic(auto, using(crate::proofs::NameForms::spread_text, crate::proofs::NameForms::spread_value, crate::proofs::NameForms::spread_nothing))]
pub fn spread(found: &mut Found, text: &str, tokens: &[Token], look: Look) -> Result<(), AllocError>
    requires { IsCut text.now tokens.now }
    ensures { OnOk result (found.new ≡ spread_found (look_of text.now tokens.now look) found.old) }
{
    match look {
        Look::Requires(at) => match plain_value(found.allocator(), text, tokens, at)? {
            Some(name) => found.add_reexport(name),
            None => Ok(()),
        },
        Look::Named(_) => Ok(()),
        Look::Text(_) => Ok(()),
        Look::Member(_, _) => Ok(()),
        Look::Other => Ok(()),
    }
}
