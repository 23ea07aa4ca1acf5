//! The getter of a descriptor: its property `get`.

ghost use Rattle.std.specs.Prelude.{Some, ◌≡◌, IfOk};
ghost use Rattle.es_lowering.specs.Value.{as_group, turns, prop_at};
ghost use Rattle.es_syntax.specs.Held.{held, valued};
ghost use Rattle.es_bound_names.specs.Cuts.{IsCut};
ghost use Rattle.cjs_facts.specs.Looks.{name_by};
ghost use Rattle.cjs_facts.specs.Exports.{is_get};
ghost use Rattle.cjs_looks.specs.Seen.{look_of};
ghost use Rattle.cjs_looks.specs.objects.Properties.{IsProperty};
ghost use Rattle.cjs_calls.specs.Getters.{Gets, IsSafeGet, GotLook};

use cjs_looks::objects::{Property, property_at, returned_by, returns_harmless};
use cjs_looks::steps::says;
use cjs_looks::{Body, Key, Look, look_at, spells};
use es_syntax::{Item, Siblings};
use es_token::Token;
use std::alloc::{AllocError, Global};

/// What the property in a turn is.
#[tactic(auto, using(cjs_looks::proofs::Unknown::property_absent))]
pub fn prop_turn<'a>(text: &str, tokens: &[Token], turn: &Item<'a>) -> Property<'a>
    ensures { IsProperty text.now tokens.now result (prop_at (as_group (valued text.now tokens.now turn.now)) 0) }
{
    match turn.group().part(0) {
        Some(prop) => property_at(text, tokens, &prop),
        None => Property {
            name: Look::Other,
            is_export: false,
            function: None,
            spread: None,
        },
    }
}

/// Whether a property that is named by what looks so is `get`.
#[tactic(auto, using(crate::proofs::Getters::get_text, crate::proofs::Getters::get_required))]
fn is_get(alloc: Global, text: &str, tokens: &[Token], name: Look) -> Result<bool, AllocError>
    requires { IsCut text.now tokens.now }
    ensures { IfOk result (λ is. is ≡ is_get (name_by (look_of text.now tokens.now name))) }
{
    match name {
        Look::Named(at) => Ok(spells(text, tokens, at, "get")),
        Look::Text(at) => {
            let is = says(alloc, text, tokens, Key::Quoted(at), "get")?;
            Ok(is)
        }
        Look::Member(_, _) => Ok(false),
        Look::Requires(_) => Ok(false),
        Look::Other => Ok(false),
    }
}

/// The function of the first property `get`; the outer none where there is no such property.
#[tactic(auto, using(crate::proofs::Getters::gets_all, crate::proofs::Getters::gets_next, crate::proofs::Getters::gets_here, crate::proofs::Getters::gets_done))]
pub fn first_get<'a>(
    alloc: Global,
    text: &str,
    tokens: &[Token],
    props: &Siblings<'a>,
) -> Result<Option<Option<Body<'a>>>, AllocError>
    requires { IsCut text.now tokens.now }
    ensures { IfOk result (λ got. Gets text.now tokens.now got (turns (λ turn. prop_at turn 0) (held text.now tokens.now props.now.entries.now))) }
{
    let mut row = *props;
    while let Some((turn, rest)) = row.split() {
        let property = prop_turn(text, tokens, &turn);
        if is_get(alloc, text, tokens, property.name)? {
            return Ok(Some(property.function));
        }
        row = rest;
    }
    Ok(None)
}

/// Whether there is no `get`, or one that only returns what is harmless.
#[tactic(auto, using(crate::proofs::Getters::safe_none, crate::proofs::Getters::safe_no_function, crate::proofs::Getters::safe_function))]
pub fn is_safe_get(text: &str, tokens: &[Token], got: &Option<Option<Body<'_>>>) -> bool
    ensures { IsSafeGet text.now tokens.now got.now result }
{
    match got {
        None => true,
        Some(None) => false,
        Some(Some(body)) => returns_harmless(text, tokens, body),
    }
}

/// What a body only returns, by its look.
#[tactic(auto, using(crate::proofs::Getters::look_returned, crate::proofs::Getters::look_nothing))]
fn body_look(text: &str, tokens: &[Token], body: &Body<'_>) -> Look
    ensures { GotLook text.now tokens.now (Some (Some body.now)) (look_of text.now tokens.now result) }
{
    match returned_by(body) {
        Some(expr) => look_at(text, tokens, &expr),
        None => Look::Other,
    }
}

/// What the function of `get` only returns.
#[tactic(auto, using(crate::proofs::Getters::look_none, crate::proofs::Getters::look_no_function))]
pub fn got_look(text: &str, tokens: &[Token], got: &Option<Option<Body<'_>>>) -> Look
    ensures { GotLook text.now tokens.now got.now (look_of text.now tokens.now result) }
{
    match got {
        None => Look::Other,
        Some(None) => Look::Other,
        Some(Some(body)) => body_look(text, tokens, body),
    }
}
