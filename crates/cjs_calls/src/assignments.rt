//! Assignments by `=`.

ghost use Rattle.std.specs.Prelude.{◌≡◌, OnOk, option_map};
ghost use Rattle.es_ast.specs.declared.ast.Pat.TheVariants as vPat;
ghost use Rattle.es_syntax.specs.Held.{valued};
ghost use Rattle.es_syntax.specs.Views.{IsNone};
ghost use Rattle.es_view_expressions.specs.pattern.Pat.{patterns};
ghost use Rattle.es_syntax.specs.Roles.{expr_in, pat_in};
ghost use Rattle.es_bound_names.specs.Cuts.{IsCut};
ghost use Rattle.cjs_looks.specs.Seen.{look_of, object_of, key_of};
ghost use Rattle.cjs_calls.specs.Assigns.{Members, Targets, Assigns};

use crate::rights::exports_found;
use cjs_facts::Found;
use cjs_looks::steps::{exports_like, is_exports_object, set_key};
use cjs_looks::{Key, Look, Object, look_at, spells};
use es_syntax::{Item, What};
use es_token::Token;
use es_view_expressions::pattern::{Pat, pat_at};
use std::alloc::AllocError;

/// `exports.a = b`, by the object and the key.
#[tactic(auto, using(crate::proofs::Assigns::member_set, crate::proofs::Assigns::member_passed))]
fn set_member(
    found: &mut Found,
    text: &str,
    tokens: &[Token],
    object: Object,
    key: Key,
    right: &Item<'_>,
) -> Result<(), AllocError>
    requires { IsCut text.now tokens.now }
    ensures { OnOk result (Members (object_of text.now tokens.now object) (key_of text.now tokens.now key) (expr_in (valued text.now tokens.now right.now)) found.old found.new) }
{
    let is = is_exports_object(found.allocator(), text, tokens, object)?;
    if is {
        let look = look_at(text, tokens, right);
        return set_key(found, text, tokens, key, look);
    }
    Ok(())
}

/// What an assignment to what looks so adds.
#[tactic(auto, using(crate::proofs::Assigns::name_set, crate::proofs::Assigns::name_passed, crate::proofs::Assigns::exports_set, crate::proofs::Assigns::key_set, crate::proofs::Assigns::text_passed, crate::proofs::Assigns::required_passed, crate::proofs::Assigns::other_passed))]
fn set(
    found: &mut Found,
    text: &str,
    tokens: &[Token],
    target: Look,
    right: &Item<'_>,
) -> Result<(), AllocError>
    requires { IsCut text.now tokens.now }
    ensures { OnOk result (Targets (look_of text.now tokens.now target) (expr_in (valued text.now tokens.now right.now)) found.old found.new) }
{
    match target {
        Look::Named(name) => {
            if spells(text, tokens, name, "exports") {
                return exports_found(found, text, tokens, right);
            }
            Ok(())
        }
        Look::Member(object, key) => {
            let is = exports_like(found.allocator(), text, tokens, target)?;
            if is {
                return exports_found(found, text, tokens, right);
            }
            set_member(found, text, tokens, object, key, right)
        }
        Look::Text(_) => Ok(()),
        Look::Requires(_) => Ok(()),
        Look::Other => Ok(()),
    }
}

/// What an assignment to an expression adds.
#[tactic(auto, using(crate::proofs::Assigns::expr_assigned))]
pub fn assigned(
    found: &mut Found,
    text: &str,
    tokens: &[Token],
    left: &Item<'_>,
    right: &Item<'_>,
) -> Result<(), AllocError>
    requires { IsCut text.now tokens.now }
    ensures { OnOk result (Assigns (option_map vPat.Expr (expr_in (valued text.now tokens.now left.now))) (expr_in (valued text.now tokens.now right.now)) found.old found.new) }
{
    let look = look_at(text, tokens, left);
    set(found, text, tokens, look, right)
}

/// What an assignment to what is no pattern adds: to an expression in its place, or nothing.
#[tactic(auto, using(crate::proofs::Unknown::role_assigned, crate::proofs::Unknown::role_absent, crate::proofs::Unknown::leaf_assigned, crate::proofs::Unknown::node_assigned, crate::proofs::Unknown::parts_assigned, crate::proofs::Unknown::lean_assigned))]
fn target_assigned(
    found: &mut Found,
    text: &str,
    tokens: &[Token],
    left: &Item<'_>,
    right: &Item<'_>,
) -> Result<(), AllocError>
    requires cut { IsCut text.now tokens.now }
    requires other { IsNone patterns left.now.what }
    ensures { OnOk result (Assigns (pat_in (valued text.now tokens.now left.now)) (expr_in (valued text.now tokens.now right.now)) found.old found.new) }
{
    match left.what {
        What::Role(_) => match left.parts.part(0) {
            Some(expr) => assigned(found, text, tokens, &expr, right),
            None => Ok(()),
        },
        What::Leaf => Ok(()),
        What::Node(_) => Ok(()),
        What::Parts => Ok(()),
        What::Lean(_) => Ok(()),
    }
}

/// What an assignment to a pattern adds, which may be an expression.
#[tactic(auto, unfolding(es_view_expressions::specs::pattern::Pat::target), using(crate::proofs::Assigns::ident_assigned, crate::proofs::Assigns::array_assigned, crate::proofs::Assigns::object_assigned, crate::proofs::Assigns::rest_assigned, crate::proofs::Assigns::default_assigned, crate::proofs::Unknown::none_assigned))]
pub fn pattern_assigned(
    found: &mut Found,
    text: &str,
    tokens: &[Token],
    left: &Item<'_>,
    right: &Item<'_>,
) -> Result<(), AllocError>
    requires { IsCut text.now tokens.now }
    ensures { OnOk result (Assigns (pat_in (valued text.now tokens.now left.now)) (expr_in (valued text.now tokens.now right.now)) found.old found.new) }
{
    match pat_at(left) {
        Some(Pat::Target(expr)) => assigned(found, text, tokens, &expr, right),
        Some(Pat::Ident(_)) => Ok(()),
        Some(Pat::Array { .. }) => Ok(()),
        Some(Pat::Object(_)) => Ok(()),
        Some(Pat::Rest(_)) => Ok(()),
        Some(Pat::Default { .. }) => Ok(()),
        Some(Pat::Broken) => Ok(()),
        None => target_assigned(found, text, tokens, left, right),
    }
}
