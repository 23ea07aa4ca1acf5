//! The facts that a node is itself.

ghost use Rattle.std.specs.Prelude.{◌≡◌, ℕ, List, OnOk};
ghost use Rattle.es_syntax.specs.Held.{held};
ghost use Rattle.es_bound_names.specs.Cuts.{IsCut};
ghost use Rattle.cjs_table.specs.Facts.{act_of, is_equal, has_facts, told_of, assigned_of, pattern_assigned_of};
ghost use Rattle.cjs_table.specs.Left.{Gives};

use crate::bound::bound_parts;
use crate::chain::calls;
use cjs_calls::{assigned, pattern_assigned};
use cjs_facts::Found;
use cjs_looks::token_at;
use es_grammar::NodeKind;
use es_syntax::Siblings;
use es_token::{Token, TokenKind};
use std::alloc::AllocError;

/// What a node is itself.
#[derive(Clone, Copy)]
pub enum Act {
    /// The declarators of `var`, `let` and `const`.
    Bound,
    /// The calls of a chain.
    Calls,
    /// An assignment.
    Assigned,
    /// An assignment to a pattern.
    PatternAssigned,
}

pub fn act_of(label: NodeKind) -> Option<Act>
    ensures { result ≡ act_of label }
{
    match label {
        NodeKind::Variables => Some(Act::Bound),
        NodeKind::Chain => Some(Act::Calls),
        NodeKind::Assignment => Some(Act::Assigned),
        NodeKind::PatternAssignment => Some(Act::PatternAssigned),
        _ => None,
    }
}

/// Whether the sign behind the first part is `=`.
fn is_equal(tokens: &[Token], parts: &Siblings<'_>) -> bool
    ensures { (x : List ℕ) → is_equal tokens.now (held x tokens.now parts.now.entries.now) ≡ result }
{
    match parts.part(0) {
        Some(left) => match left.place() {
            Some((_, behind)) => match token_at(tokens, behind) {
                Some(token) => token.kind() == TokenKind::Equal,
                None => false,
            },
            None => false,
        },
        None => false,
    }
}

/// Whether a node with these parts has facts.
pub fn has_facts(tokens: &[Token], act: Act, parts: &Siblings<'_>) -> bool
    ensures { (x : List ℕ) → has_facts tokens.now act (held x tokens.now parts.now.entries.now) ≡ result }
{
    match act {
        Act::Assigned => is_equal(tokens, parts),
        Act::Bound => true,
        Act::Calls => true,
        Act::PatternAssigned => true,
    }
}

/// What an assignment by `=` with these parts adds.
#[tactic(auto, using(crate::proofs::Given::assigned_gives, crate::proofs::Given::assigned_no_left, crate::proofs::Given::assigned_no_right))]
fn equal_assigned(
    found: &mut Found,
    text: &str,
    tokens: &[Token],
    parts: &Siblings<'_>,
) -> Result<(), AllocError>
    requires { IsCut text.now tokens.now }
    ensures { OnOk result (Gives (assigned_of (held text.now tokens.now parts.now.entries.now)) found.old found.new) }
{
    match parts.part(0) {
        Some(left) => match parts.part(2) {
            Some(right) => {
                assigned(found, text, tokens, &left, &right)?;
                Ok(())
            }
            None => Ok(()),
        },
        None => Ok(()),
    }
}

/// What an assignment to a pattern with these parts adds.
#[tactic(auto, using(crate::proofs::Given::pattern_gives, crate::proofs::Given::pattern_no_left, crate::proofs::Given::pattern_no_right))]
fn pattern_set(
    found: &mut Found,
    text: &str,
    tokens: &[Token],
    parts: &Siblings<'_>,
) -> Result<(), AllocError>
    requires { IsCut text.now tokens.now }
    ensures { OnOk result (Gives (pattern_assigned_of (held text.now tokens.now parts.now.entries.now)) found.old found.new) }
{
    match parts.part(0) {
        Some(left) => match parts.part(1) {
            Some(right) => {
                pattern_assigned(found, text, tokens, &left, &right)?;
                Ok(())
            }
            None => Ok(()),
        },
        None => Ok(()),
    }
}

/// What a node with these parts adds itself.
pub fn add_own(
    found: &mut Found,
    text: &str,
    tokens: &[Token],
    act: Act,
    parts: &Siblings<'_>,
) -> Result<(), AllocError>
    requires { IsCut text.now tokens.now }
    ensures { OnOk result ((start : ℕ) → Gives (told_of act start (held text.now tokens.now parts.now.entries.now)) found.old found.new) }
{
    match act {
        Act::Bound => {
            bound_parts(found, text, tokens, parts)?;
            Ok(())
        }
        Act::Calls => {
            calls(found, text, tokens, parts)?;
            Ok(())
        }
        Act::Assigned => {
            equal_assigned(found, text, tokens, parts)?;
            Ok(())
        }
        Act::PatternAssigned => {
            pattern_set(found, text, tokens, parts)?;
            Ok(())
        }
    }
}
