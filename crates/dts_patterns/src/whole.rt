//! Patterns that may have `?` or a type after them.

ghost use Rattle.std.specs.Prelude.{◌≡◌, false, ℕ, List};
ghost use Rattle.es_lowering.specs.Texts.{span_of};
ghost use Rattle.es_syntax.specs.Held.{held, valued};
ghost use Rattle.es_syntax.specs.Roles.{marked_in};
ghost use Rattle.es_view_expressions.specs.pattern.Marked as marked_view;
ghost use Rattle.dts_rules.specs.Rules.{Env};
ghost use Rattle.dts_draft.specs.Drafts.{state_of};
ghost use Rattle.dts_draft.specs.Written.{IfThere};
ghost use Rattle.dts_patterns.specs.Patterns.{IsMarked};

use crate::names::name_pattern;
use crate::patterns::{array_pattern, object_pattern};
use dts_draft::Draft;
use es_syntax::{Item, Siblings};
use es_token::Token;
use es_view_expressions::pattern::{Marked, marked_at};

/// A pattern, where the text continues with it, over all up to this token: what follows its own tokens is dropped.
#[tactic(auto, using(crate::proofs::WholeLemmas::name_marked))]
pub fn whole_pattern(out: &mut Draft, tokens: &[Token], it: &Item<'_>, to: u32)
    ensures before { out.new.failed ≡ false → out.old.failed ≡ false }
    ensures state { state_of out.new ≡ state_of out.old }
    ensures written { out.new.failed ≡ false → (env : Env) (x : List ℕ) → IfThere (IsMarked env x tokens.now out.old.row out.new.row (span_of tokens.now it.now.from to)) (marked_in (valued x tokens.now it.now)) }
{
    match marked_at(it) {
        Some(Marked::Ident(at)) => name_pattern(out, at),
        Some(Marked::Array { from, elems }) => whole_array(out, tokens, it, from, &elems, to),
        Some(Marked::Object(props)) => whole_object(out, tokens, it, &props, to),
        Some(Marked::Broken) => out.fail(),
        None => out.fail(),
    }
}

/// An array that begins at this token, which is that of its node.
fn whole_array(
    out: &mut Draft,
    tokens: &[Token],
    it: &Item<'_>,
    from: u32,
    elems: &Siblings<'_>,
    to: u32,
)
    ensures before { out.new.failed ≡ false → out.old.failed ≡ false }
    ensures state { state_of out.new ≡ state_of out.old }
    ensures written { out.new.failed ≡ false → (env : Env) (x : List ℕ) → IfThere (IsMarked env x tokens.now out.old.row out.new.row (span_of tokens.now it.now.from to)) (marked_view.array tokens.now from (held x tokens.now elems.now.entries.now)) }
{
    if from == it.from {
        out.gone(it.from);
        array_pattern(out, tokens, elems, it.from, it.to, to);
    } else {
        out.fail();
    }
}

/// An object.
fn whole_object(out: &mut Draft, tokens: &[Token], it: &Item<'_>, props: &Siblings<'_>, to: u32)
    ensures before { out.new.failed ≡ false → out.old.failed ≡ false }
    ensures state { state_of out.new ≡ state_of out.old }
    ensures written { out.new.failed ≡ false → (env : Env) (x : List ℕ) → IfThere (IsMarked env x tokens.now out.old.row out.new.row (span_of tokens.now it.now.from to)) (marked_view.object (held x tokens.now props.now.entries.now)) }
{
    out.gone(it.from);
    object_pattern(out, tokens, props, it.from, it.to, to);
}
