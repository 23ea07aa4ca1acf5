//! Words, strings, regular expressions, templates.

ghost use Rattle.std.specs.Prelude.{◌≡◌, false, true, ℕ, List, [], ◌∷◌, Option, Bool, slice_get};
ghost use Rattle.es_token.specs.declared.token.Token.{Token as Tok};
ghost use Rattle.es_grammar.specs.declared.rows.NodeKind.TheVariants as l;
ghost use Rattle.es_lowering.specs.Value as value;
ghost use Rattle.es_lowering.specs.Texts.{span_of};
ghost use Rattle.es_lowering.specs.Lowering.{packed};
ghost use Rattle.es_syntax.specs.Held.{node_of};
ghost use Rattle.es_changed.specs.declared.entry.Word.TheVariants as word;
ghost use Rattle.es_view_expressions.specs.expr.Primary as primary;
ghost use Rattle.dts_rules.specs.Rules.{Env};
ghost use Rattle.dts_draft.specs.Drafts.{state_of};
ghost use Rattle.dts_draft.specs.Written.{IfThere};
ghost use Rattle.dts_leaves.specs.Leaves.{HasType, IsTemplate, OwnOrWide};

use dts_draft::{Draft, is_kind};
use es_changed::{Form, Word};
use es_grammar::NodeKind;
use es_token::{Token, TokenKind};

/// The word of this number, in a node from one token up to another one: `null`, `true`, `false` have a type, `this` has none.
#[tactic(auto, using(crate::proofs::Words::null_has, crate::proofs::Words::true_has, crate::proofs::Words::false_has, crate::proofs::Words::other_has_none))]
pub fn word_type(
    out: &mut Draft,
    tokens: &[Token],
    at: u32,
    from: u32,
    to: u32,
    literal: bool,
) -> bool
    ensures before { out.new.failed ≡ false → out.old.failed ≡ false }
    ensures state { state_of out.new ≡ state_of out.old }
    ensures written { out.new.failed ≡ false → (env : Env) (x : List ℕ) → IfThere (HasType env x tokens.now literal result out.old.row out.new.row) (primary.word (span_of tokens.now from to) (slice_get tokens.now at)) }
{
    if is_kind(tokens, at, TokenKind::NullWord) {
        out.word(Word::Null);
        return true;
    }
    if is_kind(tokens, at, TokenKind::TrueWord) {
        bool_type(out, at, from, to, literal);
        return true;
    }
    if is_kind(tokens, at, TokenKind::FalseWord) {
        bool_type(out, at, from, to, literal);
        return true;
    }
    false
}

/// `true` or `false`, or `boolean`.
#[tactic(auto, using(crate::proofs::Words::own_by, crate::proofs::Words::wide_by))]
fn bool_type(out: &mut Draft, at: u32, from: u32, to: u32, literal: bool)
    ensures before { out.new.failed ≡ false → out.old.failed ≡ false }
    ensures state { state_of out.new ≡ state_of out.old }
    ensures written { out.new.failed ≡ false → (x : List ℕ) (ts : List Tok) → OwnOrWide x ts literal out.old.row out.new.row (node_of x ts l.WordType from to (packed (value.token at ∷ []))) word.Boolean }
{
    if literal {
        out.gone(from);
        out.token_node(NodeKind::WordType, at, from, to);
    } else {
        out.word(Word::Boolean);
    }
}

/// A string.
#[tactic(auto, using(crate::proofs::Words::str_own, crate::proofs::Words::str_wide))]
pub fn str_type(out: &mut Draft, at: u32, literal: bool)
    ensures before { out.new.failed ≡ false → out.old.failed ≡ false }
    ensures state { state_of out.new ≡ state_of out.old }
    ensures written { out.new.failed ≡ false → (env : Env) (x : List ℕ) (ts : List Tok) → IfThere (HasType env x ts literal true out.old.row out.new.row) (primary.str x (slice_get ts at)) }
{
    if literal {
        out.gone(at);
        out.leaf_node(NodeKind::StrType, at);
    } else {
        out.word(Word::String);
    }
}

/// A regular expression.
#[tactic(auto, using(crate::proofs::Words::regexp_has))]
pub fn regexp_type(out: &mut Draft)
    ensures before { out.new.failed ≡ false → out.old.failed ≡ false }
    ensures state { state_of out.new ≡ state_of out.old }
    ensures written { out.new.failed ≡ false → (env : Env) (x : List ℕ) (ts : List Tok) (literal : Bool) (token : Option Tok) → IfThere (HasType env x ts literal true out.old.row out.new.row) (primary.regexp x token) }
{
    out.bare(Form::RegExp, 0, 0);
}

/// A template.
#[tactic(auto, using(crate::proofs::Words::template_has))]
pub fn template_type(out: &mut Draft)
    ensures before { out.new.failed ≡ false → out.old.failed ≡ false }
    ensures state { state_of out.new ≡ state_of out.old }
    ensures written { out.new.failed ≡ false → (env : Env) (x : List ℕ) (ts : List Tok) (literal : Bool) → IsTemplate env x ts literal out.old.row out.new.row }
{
    out.word(Word::String);
}
