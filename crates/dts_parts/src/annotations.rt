//! Types after a pattern.

ghost use Rattle.std.specs.Prelude.{◌≡◌, false, ℕ, List, [], ◌∷◌, option_map, IfSome};
ghost use Rattle.es_token.specs.declared.token.Token.{Token as Tok};
ghost use Rattle.es_lexer.specs.Reads.{ReadsTokens};
ghost use Rattle.es_ast.specs.declared.ts.ts.TsPart.TheVariants as vPart;
ghost use Rattle.es_lowering.specs.Value.{behind, nil, optional, type_at};
ghost use Rattle.es_lowering.specs.Lowering.{packed};
ghost use Rattle.es_lowering.specs.TypeNames.{behind_in};
ghost use Rattle.es_syntax.specs.Held.{held, valued};
ghost use Rattle.es_syntax.specs.Roles.{expr_in};
ghost use Rattle.es_changed.specs.declared.entry.Form.TheVariants as form;
ghost use Rattle.es_changed.specs.Formed.{formed};
ghost use Rattle.es_changed.specs.Shape.{Writes};
ghost use Rattle.dts_rules.specs.Made.{any_type};
ghost use Rattle.dts_rules.specs.Rules as rules;
ghost use Rattle.dts_draft.specs.Drafts.{state_of};
ghost use Rattle.dts_draft.specs.Written.{IfThere};
ghost use Rattle.dts_names.specs.Names.{Knows};
ghost use Rattle.dts_parts.specs.Groups.{Annotated, DefaultGroup, KeptGroup, TypeGroup};

use dts_draft::Draft;
use dts_enums::keep_parts;
use dts_names::Env;
use dts_rules::FoundKind;
use dts_types::{Ask, infer_or_any};
use es_changed::{Change, Form, Word};
use es_expr_spans::expr_range;
use es_syntax::{Item, Siblings, What};

/// The token after a part; none where it is a list.
pub fn end_of(it: &Item<'_>) -> Option<u32>
    ensures { IfSome result (λ n. (x : List ℕ) (ts : List Tok) → behind (valued x ts it.now) ≡ n) }
{
    match it.what {
        What::Node(_) => Some(it.to),
        What::Leaf => it.from.checked_add(1),
        What::Role(_) => None,
        What::Parts => None,
        What::Lean(_) => None,
    }
}

/// The token after a part that may be absent, or this one.
pub fn end_in(row: &Siblings<'_>, before: u32) -> Option<u32>
    ensures { IfSome result (λ n. (x : List ℕ) (ts : List Tok) → behind_in (held x ts row.now.entries.now) before ≡ n) }
{
    match row.split() {
        Some((it, _)) => end_of(&it),
        None => Some(before),
    }
}

/// A mark, as a group.
pub(crate) fn optional_group(out: &mut Draft)
    ensures before { out.new.failed ≡ false → out.old.failed ≡ false }
    ensures state { state_of out.new ≡ state_of out.old }
    ensures written { out.new.failed ≡ false → (x : List ℕ) (ts : List Tok) → Writes x ts out.old.row out.new.row (packed (formed x ts form.Optional 0 0 nil ∷ []) ∷ []) }
{
    let group = out.open();
    out.bare(Form::Optional, 0, 0);
    out.close_group(group);
}

/// A group of the program, as it is.
#[tactic(auto, using(crate::proofs::GroupLemmas::kept_group))]
pub fn kept_group(out: &mut Draft, parts: &Siblings<'_>)
    ensures before { out.new.failed ≡ false → out.old.failed ≡ false }
    ensures state { state_of out.new ≡ state_of out.old }
    ensures written { out.new.failed ≡ false → (x : List ℕ) (ts : List Tok) → KeptGroup x ts out.old.row out.new.row (held x ts parts.now.entries.now) }
{
    let group = out.open();
    keep_parts(out, parts);
    out.close_group(group);
}

/// `any` after a pattern, which ends at this token.
#[tactic(auto, using(crate::proofs::GroupLemmas::any_group))]
pub fn any_group(out: &mut Draft, to: u32)
    ensures before { out.new.failed ≡ false → out.old.failed ≡ false }
    ensures state { state_of out.new ≡ state_of out.old }
    ensures written { out.new.failed ≡ false → (x : List ℕ) (ts : List Tok) → Annotated x ts out.old.row out.new.row to any_type }
{
    let group = out.open();
    let place = out.open();
    out.word(Word::Any);
    out.close(place, Change::Form(Form::Annotation), to, to);
    out.close_group(group);
}

/// The type of a default after a pattern, which ends at this token, or `any` with a diagnostic.
fn default_group(out: &mut Draft, env: &Env<'_>, right: &Item<'_>, to: u32)
    requires { ReadsTokens env.now.text.now env.now.tokens.now }
    ensures before { out.new.failed ≡ false → out.old.failed ≡ false }
    ensures written { out.new.failed ≡ false → (by : rules.Env) → Knows env.now by → IfThere (DefaultGroup env.now.text.now env.now.tokens.now by out.old out.new to) (expr_in (valued env.now.text.now env.now.tokens.now right.now)) }
{
    let group = out.open();
    let place = out.open();
    let wide = Ask {
        literal: false,
        readonly: false,
        frozen: false,
    };
    let range = expr_range(env.tokens, right);
    infer_or_any(
        out,
        env,
        right,
        wide,
        FoundKind::UnableToInferTypeFallbackAny,
        range,
    );
    out.close(place, Change::Form(Form::Annotation), to, to);
    out.close_group(group);
}

/// The type of a pattern with a default: its own, or that of its default.
pub(crate) fn type_group(
    out: &mut Draft,
    env: &Env<'_>,
    name: &Item<'_>,
    mark: &Siblings<'_>,
    ty: &Siblings<'_>,
    right: &Item<'_>,
)
    requires { ReadsTokens env.now.text.now env.now.tokens.now }
    ensures before { out.new.failed ≡ false → out.old.failed ≡ false }
    ensures written { out.new.failed ≡ false → (by : rules.Env) → Knows env.now by → IfThere (λ a. IfThere (TypeGroup env.now.text.now env.now.tokens.now by out.old out.new (held env.now.text.now env.now.tokens.now ty.now.entries.now) (behind_in (held env.now.text.now env.now.tokens.now mark.now.entries.now) (behind (valued env.now.text.now env.now.tokens.now name.now))) a) (expr_in (valued env.now.text.now env.now.tokens.now right.now))) (option_map (λ ty. option_map vPart.TypeAnn ty) (optional type_at (held env.now.text.now env.now.tokens.now ty.now.entries.now))) }
{
    match ty.split() {
        Some(_) => kept_group(out, ty),
        None => default_after(out, env, name, mark, right),
    }
}

/// The type of a default after a pattern and its mark.
fn default_after(
    out: &mut Draft,
    env: &Env<'_>,
    name: &Item<'_>,
    mark: &Siblings<'_>,
    right: &Item<'_>,
)
    requires { ReadsTokens env.now.text.now env.now.tokens.now }
    ensures before { out.new.failed ≡ false → out.old.failed ≡ false }
    ensures written { out.new.failed ≡ false → (by : rules.Env) → Knows env.now by → IfThere (DefaultGroup env.now.text.now env.now.tokens.now by out.old out.new (behind_in (held env.now.text.now env.now.tokens.now mark.now.entries.now) (behind (valued env.now.text.now env.now.tokens.now name.now)))) (expr_in (valued env.now.text.now env.now.tokens.now right.now)) }
{
    match end_of(name) {
        Some(next) => match end_in(mark, next) {
            Some(to) => default_group(out, env, right, to),
            None => out.fail(),
        },
        None => out.fail(),
    }
}
