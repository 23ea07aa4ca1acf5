//! Arguments.

ghost use Rattle.es_lowering.specs.Value.{as_group};
ghost use Rattle.es_lowering.specs.Expressions.{argument};
ghost use Rattle.es_syntax.specs.Held.{valued};
ghost use Rattle.es_syntax.specs.Roles.{expr_in};
ghost use Rattle.cjs_calls.specs.Calls.{HasProps};

use cjs_looks::{Kind, kind_at};
use es_syntax::{Item, Siblings};
use es_token::Token;

/// Whether an expression doesn't follow `...`, with its properties, if it is an object.
#[tactic(auto, using(crate::proofs::ArgumentForms::props_plain, crate::proofs::ArgumentForms::props_object, crate::proofs::ArgumentForms::props_paren, crate::proofs::ArgumentForms::props_number, crate::proofs::ArgumentForms::props_sequence, crate::proofs::ArgumentForms::props_spread, crate::proofs::ArgumentForms::props_function, crate::proofs::ArgumentForms::props_assigned))]
fn props_at<'a>(text: &str, tokens: &[Token], it: &Item<'a>) -> Option<Option<Siblings<'a>>>
    ensures { HasProps text.now tokens.now result (expr_in (valued text.now tokens.now it.now)) }
{
    match kind_at(text, tokens, it) {
        Kind::Object(props) => Some(Some(props)),
        Kind::Spread => None,
        Kind::Plain(_) => Some(None),
        Kind::Paren(_) => Some(None),
        Kind::Number(_) => Some(None),
        Kind::Sequence { .. } => Some(None),
        Kind::Function(_) => Some(None),
        Kind::Assigned(_) => Some(None),
    }
}

/// Whether an argument doesn't follow `...`, with its properties, if it is an object.
#[tactic(auto, using(crate::proofs::ArgumentForms::described_spread, crate::proofs::ArgumentForms::described, crate::proofs::ArgumentForms::described_absent))]
pub fn descriptor<'a>(text: &str, tokens: &[Token], turn: &Item<'a>) -> Option<Option<Siblings<'a>>>
    ensures { HasProps text.now tokens.now result (argument tokens.now (as_group (valued text.now tokens.now turn.now))) }
{
    let parts = turn.group();
    if parts.has(0) {
        return None;
    }
    match parts.part(1) {
        Some(expr) => props_at(text, tokens, &expr),
        None => None,
    }
}
