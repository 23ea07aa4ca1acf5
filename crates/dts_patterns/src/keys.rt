//! Keys of patterns as keys of types.

ghost use Rattle.std.specs.Prelude.{◌≡◌, false, ℕ, List, slice_get};
ghost use Rattle.es_syntax.specs.Held.{valued};
ghost use Rattle.es_syntax.specs.Roles.{key_in};
ghost use Rattle.es_view_expressions.specs.member.Key as key_view;
ghost use Rattle.dts_rules.specs.Rules.{Env};
ghost use Rattle.dts_draft.specs.Drafts.{state_of};
ghost use Rattle.dts_patterns.specs.Patterns.{IsKey};

use dts_draft::{Draft, is_kind};
use es_grammar::NodeKind;
use es_syntax::Item;
use es_token::{Token, TokenKind};
use es_view_expressions::member::{Key, key_at};

/// A number, which a BigInt isn't.
#[tactic(auto, using(crate::proofs::KeyLemmas::number_written, crate::proofs::KeyLemmas::number_none))]
fn number_key(out: &mut Draft, tokens: &[Token], at: u32) -> bool
    ensures before { out.new.failed ≡ false → out.old.failed ≡ false }
    ensures state { state_of out.new ≡ state_of out.old }
    ensures written { out.new.failed ≡ false → (env : Env) (x : List ℕ) → IsKey env x tokens.now out.old.row out.new.row result (key_view.number x (slice_get tokens.now at)) }
{
    if is_kind(tokens, at, TokenKind::Number) {
        out.leaf_node(NodeKind::NumberKeyOfType, at);
        return true;
    }
    false
}

/// Writes a key, and answers whether it is a word, a string or a number: of another one nothing is written.
#[tactic(auto, using(crate::proofs::KeyLemmas::word_written, crate::proofs::KeyLemmas::str_written, crate::proofs::KeyLemmas::computed_none, crate::proofs::KeyLemmas::private_none))]
pub fn pattern_key(out: &mut Draft, tokens: &[Token], key: &Item<'_>) -> bool
    ensures before { out.new.failed ≡ false → out.old.failed ≡ false }
    ensures state { state_of out.new ≡ state_of out.old }
    ensures written { out.new.failed ≡ false → (env : Env) (x : List ℕ) → IsKey env x tokens.now out.old.row out.new.row result (key_in (valued x tokens.now key.now)) }
{
    match key_at(key) {
        Some(Key::Word(at)) => {
            out.leaf_node(NodeKind::WordKeyOfType, at);
            true
        }
        Some(Key::Str(at)) => {
            out.leaf_node(NodeKind::StrKeyOfType, at);
            true
        }
        Some(Key::Number(at)) => number_key(out, tokens, at),
        Some(Key::Computed(_)) => false,
        Some(Key::Private(_)) => false,
        Some(Key::Broken) => {
            out.fail();
            false
        }
        None => {
            out.fail();
            false
        }
    }
}
