//! Declarators.

ghost use Rattle.std.specs.Prelude.{◌≡◌, OnOk, Some, option_map, slice_get};
ghost use Rattle.es_view_expressions.specs.pattern.Marked.{ident};
ghost use Rattle.es_lowering.specs.Value.{optional, expr_at};
ghost use Rattle.es_syntax.specs.Held.{held, valued};
ghost use Rattle.es_syntax.specs.Roles.{declarator_in, expr_in, marked_in, pat_in};
ghost use Rattle.es_bound_names.specs.Cuts.{IsCut};
ghost use Rattle.cjs_looks.specs.Seen.{name_at};
ghost use Rattle.cjs_calls.specs.Binds.{Binds, Declares, Marks, Bounds};

use cjs_facts::Found;
use cjs_looks::look_at;
use cjs_looks::steps::bind;
use es_syntax::{Item, Siblings};
use es_token::Token;
use es_view_expressions::pattern::{Marked, Pat, marked_at, pat_at};
use es_view_statements::decl::{Declarator, declarator_at};
use std::alloc::AllocError;

/// A name that is bound to a value.
#[tactic(auto, using(crate::proofs::Binds::value_bound))]
fn bind_value(
    found: &mut Found,
    text: &str,
    tokens: &[Token],
    name: u32,
    value: &Item<'_>,
) -> Result<(), AllocError>
    requires { IsCut text.now tokens.now }
    ensures { OnOk result (Binds (name_at text.now tokens.now name) (expr_in (valued text.now tokens.now value.now)) found.old found.new) }
{
    let look = look_at(text, tokens, value);
    bind(found, text, tokens, name, look)
}

/// A pattern that is bound to a value.
#[tactic(auto, using(crate::proofs::Binds::ident_bound, crate::proofs::Binds::array_bound, crate::proofs::Binds::object_bound, crate::proofs::Binds::rest_bound, crate::proofs::Binds::default_bound, crate::proofs::Binds::target_bound, crate::proofs::Unknown::pattern_unknown, crate::proofs::Unknown::pattern_none))]
fn pat_bound(
    found: &mut Found,
    text: &str,
    tokens: &[Token],
    name: &Item<'_>,
    value: &Item<'_>,
) -> Result<(), AllocError>
    requires { IsCut text.now tokens.now }
    ensures { OnOk result (Declares (pat_in (valued text.now tokens.now name.now)) (option_map Some (expr_in (valued text.now tokens.now value.now))) found.old found.new) }
{
    match pat_at(name) {
        Some(Pat::Ident(token)) => bind_value(found, text, tokens, token, value),
        Some(Pat::Array { .. }) => Ok(()),
        Some(Pat::Object(_)) => Ok(()),
        Some(Pat::Rest(_)) => Ok(()),
        Some(Pat::Default { .. }) => Ok(()),
        Some(Pat::Target(_)) => Ok(()),
        Some(Pat::Broken) => Ok(()),
        None => Ok(()),
    }
}

/// A name that is bound to a value, which may be absent.
#[tactic(auto, using(crate::proofs::Binds::name_valued, crate::proofs::Binds::name_alone))]
fn name_bound(
    found: &mut Found,
    text: &str,
    tokens: &[Token],
    name: u32,
    value: &Siblings<'_>,
) -> Result<(), AllocError>
    requires { IsCut text.now tokens.now }
    ensures { OnOk result (Marks (ident text.now (slice_get tokens.now name)) (optional expr_at (held text.now tokens.now value.now.entries.now)) found.old found.new) }
{
    match value.split() {
        Some((value, _)) => bind_value(found, text, tokens, name, &value),
        None => Ok(()),
    }
}

/// A pattern with a type or without that is bound to a value, which may be absent.
#[tactic(auto, using(crate::proofs::Binds::marked_array, crate::proofs::Binds::marked_object, crate::proofs::Unknown::marked_unknown, crate::proofs::Unknown::marked_none))]
fn marked_bound(
    found: &mut Found,
    text: &str,
    tokens: &[Token],
    name: &Item<'_>,
    value: &Siblings<'_>,
) -> Result<(), AllocError>
    requires { IsCut text.now tokens.now }
    ensures { OnOk result (Marks (marked_in (valued text.now tokens.now name.now)) (optional expr_at (held text.now tokens.now value.now.entries.now)) found.old found.new) }
{
    match marked_at(name) {
        Some(Marked::Ident(token)) => name_bound(found, text, tokens, token, value),
        Some(Marked::Array { .. }) => Ok(()),
        Some(Marked::Object(_)) => Ok(()),
        Some(Marked::Broken) => Ok(()),
        None => Ok(()),
    }
}

/// What a declarator adds.
#[tactic(auto, using(crate::proofs::Binds::assigned_bound, crate::proofs::Binds::typed_bound, crate::proofs::Binds::alone_bound, crate::proofs::Unknown::declarator_unknown, crate::proofs::Unknown::declarator_none))]
pub fn bound(
    found: &mut Found,
    text: &str,
    tokens: &[Token],
    it: &Item<'_>,
) -> Result<(), AllocError>
    requires { IsCut text.now tokens.now }
    ensures { OnOk result (Bounds (declarator_in (valued text.now tokens.now it.now)) found.old found.new) }
{
    match declarator_at(it) {
        Some(Declarator::Assigned { name, value }) => pat_bound(found, text, tokens, &name, &value),
        Some(Declarator::Typed { name, value, .. }) => {
            marked_bound(found, text, tokens, &name, &value)
        }
        Some(Declarator::Pattern(_)) => Ok(()),
        Some(Declarator::Broken) => Ok(()),
        None => Ok(()),
    }
}
