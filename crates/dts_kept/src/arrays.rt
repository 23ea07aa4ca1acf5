//! Which types stay, or get `readonly` in front, where the value is frozen.

ghost use Rattle.std.specs.Prelude.{◌≡◌, ◌<◌, ℕ, List, length, true, false, not, IfSome, slice_get};
ghost use Rattle.base.specs.declared.range.Range.{Range};
ghost use Rattle.es_token.specs.declared.token.Token.{Token as Tok};
ghost use Rattle.es_token.specs.declared.token.TokenKind.TheVariants as k;
ghost use Rattle.es_lowering.specs.Types.{array_types, type_operator};
ghost use Rattle.es_syntax.specs.Held.{held, token_there};
ghost use Rattle.dts_draft.specs.Drafts.{is_kind};
ghost use Rattle.dts_kept.specs.Kept.{FrozenArray, FrozenOperator, Indexes};

use dts_draft::is_kind;
use es_syntax::Siblings;
use es_token::{Token, TokenKind};

/// Whether the last brackets are empty, where there are further ones.
#[tactic(auto, using(crate::proofs::ArrayLemmas::indexes_none, crate::proofs::ArrayLemmas::indexes_next))]
fn is_last_empty(others: &Siblings<'_>, before: bool) -> bool
    ensures { (x : List ℕ) (ts : List Tok) → Indexes ts before result (held x ts others.now.entries.now) }
{
    let mut empty = before;
    let mut row = *others;
    while let Some((turn, rest)) = row.split() {
        empty = !turn.group().has(0);
        row = rest;
    }
    empty
}

/// Whether a type with brackets after it is an array.
#[tactic(auto, using(crate::proofs::ArrayLemmas::brackets))]
pub(crate) fn is_array(parts: &Siblings<'_>) -> bool
    ensures { (x : List ℕ) (ts : List Tok) (r : Range) → FrozenArray result (array_types ts r (held x ts parts.now.entries.now)) }
{
    is_last_empty(&parts.group_at(2), !parts.has(1))
}

/// Whether a type stands after `readonly`.
#[tactic(auto, using(crate::proofs::ArrayLemmas::operator_word, crate::proofs::ArrayLemmas::no_word))]
pub(crate) fn is_readonly(tokens: &[Token], parts: &Siblings<'_>) -> bool
    ensures { (x : List ℕ) (r : Range) → FrozenOperator result (type_operator tokens.now r (held x tokens.now parts.now.entries.now)) }
{
    match parts.token_at(0) {
        Some(word) => is_kind(tokens, word, TokenKind::ReadonlyWord),
        None => false,
    }
}
