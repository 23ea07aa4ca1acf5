//! Declarators of `var`, `let` and `const`.

ghost use Rattle.std.specs.Prelude.{◌≡◌, OnOk};
ghost use Rattle.es_lowering.specs.Value.{as_group, turns, declarator_at as declarator_there};
ghost use Rattle.es_syntax.specs.Held.{held, valued};
ghost use Rattle.es_bound_names.specs.Cuts.{IsCut};
ghost use Rattle.cjs_calls.specs.Binds.{Bounds};
ghost use Rattle.cjs_table.specs.Facts.{bound_of, bound_all};
ghost use Rattle.cjs_table.specs.Left.{Gives};

use cjs_calls::bound;
use cjs_facts::Found;
use es_syntax::{Item, Siblings};
use es_token::Token;
use std::alloc::AllocError;

/// What the declarator in a turn adds.
#[tactic(auto, using(crate::proofs::BoundForms::absent_bound))]
fn bound_turn(
    found: &mut Found,
    text: &str,
    tokens: &[Token],
    turn: &Item<'_>,
) -> Result<(), AllocError>
    requires { IsCut text.now tokens.now }
    ensures { OnOk result (Bounds (declarator_there (as_group (valued text.now tokens.now turn.now)) 0) found.old found.new) }
{
    match turn.group().part(0) {
        Some(it) => bound(found, text, tokens, &it),
        None => Ok(()),
    }
}

/// What declarators add, which are turns.
#[tactic(auto, using(crate::proofs::BoundForms::bound_start, crate::proofs::BoundForms::bound_next, crate::proofs::BoundForms::bound_done))]
fn bound_turns(
    found: &mut Found,
    text: &str,
    tokens: &[Token],
    all: &Siblings<'_>,
) -> Result<(), AllocError>
    requires { IsCut text.now tokens.now }
    ensures { OnOk result (Gives (bound_all (turns (λ turn. declarator_there turn 0) (held text.now tokens.now all.now.entries.now))) found.old found.new) }
{
    let mut row = *all;
    while let Some((turn, rest)) = row.split() {
        bound_turn(found, text, tokens, &turn)?;
        row = rest;
    }
    Ok(())
}

/// What the declarators with these parts add, before the parts of any.
#[tactic(auto, using(crate::proofs::BoundForms::bound_more, crate::proofs::BoundForms::bound_none))]
pub fn bound_parts(
    found: &mut Found,
    text: &str,
    tokens: &[Token],
    parts: &Siblings<'_>,
) -> Result<(), AllocError>
    requires { IsCut text.now tokens.now }
    ensures { OnOk result (Gives (bound_of (held text.now tokens.now parts.now.entries.now)) found.old found.new) }
{
    match parts.part(1) {
        Some(first) => {
            bound(found, text, tokens, &first)?;
            bound_turns(found, text, tokens, &parts.group_at(2))?;
            Ok(())
        }
        None => Ok(()),
    }
}
