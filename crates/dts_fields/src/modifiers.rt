//! Modifiers of fields.

ghost use Rattle.std.specs.Prelude.{◌≡◌, false, ℕ, List};
ghost use Rattle.es_token.specs.declared.token.Token.{Token as Tok};
ghost use Rattle.es_token.specs.declared.token.TokenKind.TheVariants as k;
ghost use Rattle.es_lowering.specs.Value.{as_group};
ghost use Rattle.es_lowering.specs.Texts.{token_at};
ghost use Rattle.es_syntax.specs.Held.{held, valued};
ghost use Rattle.dts_draft.specs.Drafts.{is_kind as is_of_kind, state_of};
ghost use Rattle.dts_fields.specs.Fields.{TurnUndeclares, UndeclaredGroup, Undeclares};

use dts_draft::{Draft, is_kind};
use es_syntax::{Item, Siblings};
use es_token::{Token, TokenKind};

/// Writes a modifier that isn't `declare`.
fn undeclared_turn(out: &mut Draft, tokens: &[Token], turn: &Item<'_>)
    ensures before { out.new.failed ≡ false → out.old.failed ≡ false }
    ensures state { state_of out.new ≡ state_of out.old }
    ensures written { out.new.failed ≡ false → (x : List ℕ) → TurnUndeclares x tokens.now out.old.row out.new.row (valued x tokens.now turn.now) }
{
    match turn.group().token_at(0) {
        Some(at) => {
            if is_kind(tokens, at, TokenKind::DeclareWord) {
                out.dropped(at, at.saturating_add(1));
            } else {
                out.keep_there(turn);
            }
        }
        None => out.fail(),
    }
}

/// Writes all modifiers but `declare`.
#[tactic(auto, using(crate::proofs::ModifierLemmas::undeclares_all, crate::proofs::ModifierLemmas::undeclares_done))]
fn undeclared_turns(out: &mut Draft, tokens: &[Token], modifiers: &Siblings<'_>)
    ensures before { out.new.failed ≡ false → out.old.failed ≡ false }
    ensures state { state_of out.new ≡ state_of out.old }
    ensures written { out.new.failed ≡ false → (x : List ℕ) → Undeclares x tokens.now out.old.row out.new.row (held x tokens.now modifiers.now.entries.now) }
{
    let mut row = *modifiers;
    while let Some((turn, rest)) = row.split() {
        undeclared_turn(out, tokens, &turn);
        row = rest;
    }
}

/// Writes modifiers without `declare`, as a group.
pub(crate) fn undeclared(out: &mut Draft, tokens: &[Token], modifiers: &Siblings<'_>)
    ensures before { out.new.failed ≡ false → out.old.failed ≡ false }
    ensures state { state_of out.new ≡ state_of out.old }
    ensures written { out.new.failed ≡ false → (x : List ℕ) → UndeclaredGroup x tokens.now out.old.row out.new.row (held x tokens.now modifiers.now.entries.now) }
{
    let group = out.open();
    undeclared_turns(out, tokens, modifiers);
    out.close_group(group);
}
