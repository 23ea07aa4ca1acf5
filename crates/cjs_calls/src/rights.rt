//! The right side of `exports = a` and `module.exports = a`.

ghost use Rattle.std.specs.Prelude.{◌≡◌, ◌<◌, length, IfSome, IfNone, OnOk};
ghost use Rattle.es_lowering.specs.Value.{as_group, turns, prop_at};
ghost use Rattle.es_syntax.specs.Held.{held, valued};
ghost use Rattle.es_syntax.specs.Roles.{expr_in};
ghost use Rattle.es_bound_names.specs.Cuts.{IsCut};
ghost use Rattle.cjs_facts.specs.Exports.{props_found};
ghost use Rattle.cjs_looks.specs.Odd.{All};
ghost use Rattle.cjs_looks.specs.Kinds.{IsAssignment};
ghost use Rattle.cjs_calls.specs.Rights.{Adds, AddsProps, OneFound, Spreads, IsLast, LastOf, Rights};

use crate::getter::prop_turn;
use crate::names::{named_property, spread};
use cjs_facts::Found;
use cjs_looks::objects::Property;
use cjs_looks::steps::set_exports;
use cjs_looks::{Kind, kind_at, look_at};
use es_syntax::{Item, Siblings};
use es_token::Token;
use std::alloc::AllocError;

/// What a property adds by what follows `...`.
#[tactic(auto, using(crate::proofs::RightForms::spreads_some, crate::proofs::RightForms::spreads_none))]
fn spread_of(
    found: &mut Found,
    text: &str,
    tokens: &[Token],
    it: &Option<Item<'_>>,
) -> Result<(), AllocError>
    requires { IsCut text.now tokens.now }
    ensures { OnOk result (Spreads text.now tokens.now it.now found.old found.new) }
{
    match it {
        Some(expr) => {
            let look = look_at(text, tokens, expr);
            spread(found, text, tokens, look)
        }
        None => Ok(()),
    }
}

/// What a property adds.
#[tactic(auto, using(crate::proofs::RightForms::property_adds))]
fn property_found(
    found: &mut Found,
    text: &str,
    tokens: &[Token],
    property: &Property<'_>,
) -> Result<(), AllocError>
    requires { IsCut text.now tokens.now }
    ensures { OnOk result (OneFound text.now tokens.now property.now found.old found.new) }
{
    named_property(found, text, tokens, property.name, property.is_export)?;
    spread_of(found, text, tokens, &property.spread)
}

/// What the property in a turn adds.
#[tactic(auto, using(crate::proofs::RightForms::turn_found))]
fn turn_found(
    found: &mut Found,
    text: &str,
    tokens: &[Token],
    turn: &Item<'_>,
) -> Result<(), AllocError>
    requires { IsCut text.now tokens.now }
    ensures { OnOk result (Adds (prop_at (as_group (valued text.now tokens.now turn.now)) 0) found.old found.new) }
{
    let property = prop_turn(text, tokens, turn);
    property_found(found, text, tokens, &property)
}

/// What the properties of an object add, which are turns.
#[tactic(auto, using(crate::proofs::RightForms::props_all, crate::proofs::RightForms::props_next, crate::proofs::RightForms::props_done))]
fn props_found(
    found: &mut Found,
    text: &str,
    tokens: &[Token],
    props: &Siblings<'_>,
) -> Result<(), AllocError>
    requires { IsCut text.now tokens.now }
    ensures { OnOk result (AddsProps (turns (λ turn. prop_at turn 0) (held text.now tokens.now props.now.entries.now)) found.old found.new) }
{
    let mut row = *props;
    while let Some((turn, rest)) = row.split() {
        turn_found(found, text, tokens, &turn)?;
        row = rest;
    }
    Ok(())
}

/// The right side, where an expression is an assignment by `=`.
#[tactic(auto, using(crate::proofs::RightForms::ends_plain, crate::proofs::RightForms::ends_object, crate::proofs::RightForms::ends_paren, crate::proofs::RightForms::ends_number, crate::proofs::RightForms::ends_sequence, crate::proofs::RightForms::ends_spread, crate::proofs::RightForms::ends_function))]
fn right_side<'a>(text: &str, tokens: &[Token], it: &Item<'a>) -> Option<Item<'a>>
    ensures value { IfSome result (λ right. All (IsAssignment (expr_in (valued text.now tokens.now right))) (expr_in (valued text.now tokens.now it.now))) }
    ensures ends { IfNone result (All IsLast (expr_in (valued text.now tokens.now it.now))) }
    ensures below { IfSome result (λ right. length right.parts.entries.now < length it.now.parts.entries.now) }
{
    match kind_at(text, tokens, it) {
        Kind::Assigned(right) => Some(right),
        Kind::Plain(_) => None,
        Kind::Object(_) => None,
        Kind::Paren(_) => None,
        Kind::Number(_) => None,
        Kind::Sequence { .. } => None,
        Kind::Spread => None,
        Kind::Function(_) => None,
    }
}

/// The last right side of `a = b = c`; the expression itself where it is no assignment.
#[tactic(auto, using(crate::proofs::RightForms::last_all, crate::proofs::RightForms::last_next))]
fn last_right<'a>(text: &str, tokens: &[Token], it: &Item<'a>) -> Item<'a>
    ensures last { LastOf (expr_in (valued text.now tokens.now it.now)) (expr_in (valued text.now tokens.now result)) }
    ensures ends { All IsLast (expr_in (valued text.now tokens.now result)) }
{
    let mut last = *it;
    while let Some(right) = right_side(text, tokens, &last) {
        last = right;
    }
    last
}

/// What `exports = a` adds, where `a` is no assignment.
#[tactic(auto, using(crate::proofs::RightForms::rights_plain, crate::proofs::RightForms::rights_object, crate::proofs::RightForms::rights_paren, crate::proofs::RightForms::rights_number, crate::proofs::RightForms::rights_sequence, crate::proofs::RightForms::rights_spread, crate::proofs::RightForms::rights_function, crate::proofs::RightForms::rights_assigned))]
fn right_found(
    found: &mut Found,
    text: &str,
    tokens: &[Token],
    it: &Item<'_>,
) -> Result<(), AllocError>
    requires cut { IsCut text.now tokens.now }
    requires ends { All IsLast (expr_in (valued text.now tokens.now it.now)) }
    ensures { OnOk result (Rights (expr_in (valued text.now tokens.now it.now)) found.old found.new) }
{
    match kind_at(text, tokens, it) {
        Kind::Object(props) => props_found(found, text, tokens, &props),
        Kind::Plain(look) => set_exports(found, text, tokens, look),
        Kind::Paren(_) => Ok(()),
        Kind::Number(_) => Ok(()),
        Kind::Sequence { .. } => Ok(()),
        Kind::Spread => Ok(()),
        Kind::Function(_) => Ok(()),
        Kind::Assigned(_) => Ok(()),
    }
}

/// What `exports = a` adds.
#[tactic(auto, using(crate::proofs::RightForms::rights_last))]
pub fn exports_found(
    found: &mut Found,
    text: &str,
    tokens: &[Token],
    it: &Item<'_>,
) -> Result<(), AllocError>
    requires { IsCut text.now tokens.now }
    ensures { OnOk result (Rights (expr_in (valued text.now tokens.now it.now)) found.old found.new) }
{
    let last = last_right(text, tokens, it);
    right_found(found, text, tokens, &last)
}
