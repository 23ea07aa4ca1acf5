//! The names that patterns bind.

ghost use Rattle.std.specs.Prelude.{◌≡◌, ◌<◌, ℕ, List, length, false, IfSome};
ghost use Rattle.std.specs.List.{flat_map};
ghost use Rattle.base.specs.declared.range.Range.{Range};
ghost use Rattle.es_ast.specs.declared.ts.ts.TsPart.{TsPart};
ghost use Rattle.std.specs.Prelude.{Bool, Option};
ghost use Rattle.es_token.specs.declared.token.Token.{Token as Tok};
ghost use Rattle.es_ast.specs.declared.ast.Pat.TheVariants as vPat;
ghost use Rattle.es_lowering.specs.Value.{part, group, as_group, turns, pat_at, pat_prop_at};
ghost use Rattle.es_lowering.specs.Expressions.{element_of, elements};
ghost use Rattle.es_syntax.specs.Held.{held, valued, there, first_in};
ghost use Rattle.es_syntax.specs.Roles.{pat_in, marked_in, pat_prop_in};
ghost use Rattle.es_bound_names.specs.Names.{bound_names, prop_names};
ghost use Rattle.es_bound_names.specs.Adds.{Adds};
ghost use Rattle.es_bound_names.specs.Cuts.{IsCut};

use crate::names::Names;
use es_syntax::{Item, Siblings};
use es_token::Token;
use es_view_expressions::pattern::{Marked, Pat, PatProp, marked_at, pat_at, pat_prop_at};

/// The first part of the group that is first in a turn, and what follows it.
fn element_in<'a>(turn: &Item<'a>) -> Option<(Item<'a>, Siblings<'a>)>
    ensures value { (x : List ℕ) (ts : List Tok) → group (as_group (valued x ts turn.now)) 0 ≡ first_in x ts result }
    ensures below { IfSome result (λ p. length p.0.parts.entries.now < length turn.now.parts.entries.now) }
{
    turn.group().group_at(0).split()
}

/// The first part of a turn.
pub fn part_in<'a>(turn: &Item<'a>) -> Option<Item<'a>>
    ensures value { (x : List ℕ) (ts : List Tok) → part (as_group (valued x ts turn.now)) 0 ≡ there x ts result }
    ensures below { IfSome result (λ t. length t.parts.entries.now < length turn.now.parts.entries.now) }
{
    turn.group().part(0)
}

/// The names that a pattern binds, after those found before.
#[cycle(walk)]
#[tactic(auto, using(crate::proofs::Forms::adds_name, crate::proofs::Forms::adds_array, crate::proofs::Forms::adds_object, crate::proofs::Forms::adds_rest, crate::proofs::Forms::adds_default, crate::proofs::Forms::adds_target, crate::proofs::Lists::adds_nothing, crate::proofs::Others::pat_unknown))]
pub fn pat_names(out: &mut Names, text: &str, tokens: &[Token], it: &Item<'_>)
    requires { IsCut text.now tokens.now }
    ensures before { out.new.failed ≡ false → out.old.failed ≡ false }
    ensures adds { out.new.failed ≡ false → Adds bound_names out.old.found out.new.found (pat_in (valued text.now tokens.now it.now)) }
{
    match pat_at(it) {
        Some(Pat::Ident(token)) => out.token(text, tokens, token),
        Some(Pat::Array { from: _, elems }) => element_names(out, text, tokens, &elems),
        Some(Pat::Object(props)) => props_names(out, text, tokens, &props),
        Some(Pat::Rest(arg)) => pat_names(out, text, tokens, &arg),
        Some(Pat::Default { left, right: _ }) => pat_names(out, text, tokens, &left),
        Some(Pat::Target(_)) => {}
        Some(Pat::Broken) => {}
        None => {}
    }
}

/// The names that the elements of an array bind.
#[cycle(walk)]
#[tactic(auto, using(crate::proofs::Elements::elements_all, crate::proofs::Elements::elements_next, crate::proofs::Elements::elements_done))]
fn element_names(out: &mut Names, text: &str, tokens: &[Token], elems: &Siblings<'_>)
    requires { IsCut text.now tokens.now }
    ensures before { out.new.failed ≡ false → out.old.failed ≡ false }
    ensures adds { out.new.failed ≡ false → (at : ℕ) → Adds (flat_map bound_names) out.old.found out.new.found (elements vPat.Hole pat_at tokens.now at (held text.now tokens.now elems.now.entries.now)) }
{
    let mut row = *elems;
    while let Some((turn, rest)) = row.split() {
        element_name(out, text, tokens, &turn);
        row = rest;
    }
}

/// The names that an element of an array binds, which may be none.
#[cycle(walk)]
#[tactic(auto, using(crate::proofs::Elements::adds_hole, crate::proofs::Elements::adds_element))]
fn element_name(out: &mut Names, text: &str, tokens: &[Token], turn: &Item<'_>)
    requires { IsCut text.now tokens.now }
    ensures before { out.new.failed ≡ false → out.old.failed ≡ false }
    ensures adds { out.new.failed ≡ false → (at : ℕ) → Adds bound_names out.old.found out.new.found (element_of vPat.Hole pat_at tokens.now at (group (as_group (valued text.now tokens.now turn.now)) 0)) }
{
    match element_in(turn) {
        Some((element, _)) => pat_names(out, text, tokens, &element),
        None => {}
    }
}

/// The names that the properties of an object pattern bind.
#[cycle(walk)]
#[tactic(auto, using(crate::proofs::Lists::turns_all, crate::proofs::Lists::turns_next, crate::proofs::Lists::turns_done))]
fn props_names(out: &mut Names, text: &str, tokens: &[Token], props: &Siblings<'_>)
    requires { IsCut text.now tokens.now }
    ensures before { out.new.failed ≡ false → out.old.failed ≡ false }
    ensures adds { out.new.failed ≡ false → Adds (flat_map prop_names) out.old.found out.new.found (turns (λ turn. pat_prop_at turn 0) (held text.now tokens.now props.now.entries.now)) }
{
    let mut row = *props;
    while let Some((turn, rest)) = row.split() {
        prop_turn(out, text, tokens, &turn);
        row = rest;
    }
}

/// The names that the property in a turn binds.
#[cycle(walk)]
#[tactic(auto, using(crate::proofs::Lists::adds_nothing))]
fn prop_turn(out: &mut Names, text: &str, tokens: &[Token], turn: &Item<'_>)
    requires { IsCut text.now tokens.now }
    ensures before { out.new.failed ≡ false → out.old.failed ≡ false }
    ensures adds { out.new.failed ≡ false → Adds prop_names out.old.found out.new.found (pat_prop_at (as_group (valued text.now tokens.now turn.now)) 0) }
{
    match part_in(turn) {
        Some(prop) => prop_names(out, text, tokens, &prop),
        None => {}
    }
}

/// The names that a property of an object pattern binds.
#[cycle(walk)]
#[tactic(auto, using(crate::proofs::Forms::adds_rest_prop, crate::proofs::Forms::adds_key_value, crate::proofs::Forms::adds_shorthand, crate::proofs::Lists::adds_nothing, crate::proofs::Others::prop_unknown))]
fn prop_names(out: &mut Names, text: &str, tokens: &[Token], it: &Item<'_>)
    requires { IsCut text.now tokens.now }
    ensures before { out.new.failed ≡ false → out.old.failed ≡ false }
    ensures adds { out.new.failed ≡ false → Adds prop_names out.old.found out.new.found (pat_prop_in (valued text.now tokens.now it.now)) }
{
    match pat_prop_at(it) {
        Some(PatProp::Rest(arg)) => pat_names(out, text, tokens, &arg),
        Some(
            PatProp::KeyValue {
                key: _,
                pat,
                value: _,
            },
        ) => pat_names(out, text, tokens, &pat),
        Some(PatProp::Shorthand { name, value: _ }) => out.token(text, tokens, name),
        Some(PatProp::Broken) => {}
        None => {}
    }
}

/// The names bound by a pattern that may have `?` or a type after it.
#[tactic(auto, using(crate::proofs::Forms::adds_marked_name, crate::proofs::Forms::adds_marked_array, crate::proofs::Forms::adds_marked_object, crate::proofs::Lists::adds_nothing, crate::proofs::Others::marked_unknown))]
pub fn marked_names(out: &mut Names, text: &str, tokens: &[Token], it: &Item<'_>)
    requires { IsCut text.now tokens.now }
    ensures before { out.new.failed ≡ false → out.old.failed ≡ false }
    ensures adds { out.new.failed ≡ false → (mark : Bool) (ty : Option TsPart) (r : Range) → Adds (λ pat. bound_names (pat mark ty r)) out.old.found out.new.found (marked_in (valued text.now tokens.now it.now)) }
{
    match marked_at(it) {
        Some(Marked::Ident(token)) => out.token(text, tokens, token),
        Some(Marked::Array { from: _, elems }) => element_names(out, text, tokens, &elems),
        Some(Marked::Object(props)) => props_names(out, text, tokens, &props),
        Some(Marked::Broken) => {}
        None => {}
    }
}
