//! Types of names by their values.

ghost use Rattle.std.specs.Prelude.{◌≡◌, false, ℕ, List, Some};
ghost use Rattle.es_token.specs.declared.token.Token.{Token as Tok};
ghost use Rattle.es_lexer.specs.Reads.{ReadsTokens};
ghost use Rattle.es_syntax.specs.Held.{valued};
ghost use Rattle.es_syntax.specs.Roles.{expr_in};
ghost use Rattle.dts_rules.specs.declared.found.FoundKind.TheVariants as kind;
ghost use Rattle.dts_rules.specs.Made.{any_type};
ghost use Rattle.dts_rules.specs.Rules as rules;
ghost use Rattle.dts_rules.specs.Rules.{note};
ghost use Rattle.dts_draft.specs.Drafts.{state_of};
ghost use Rattle.dts_draft.specs.Written.{IfThere};
ghost use Rattle.dts_names.specs.Names.{Knows};
ghost use Rattle.dts_parts.specs.Groups.{Annotated};
ghost use Rattle.dts_variables.specs.Declarators.{value_of, Typed};
ghost use Rattle.dts_variables.specs.Steps.{TypedBy};

use base::Range;
use dts_draft::Draft;
use dts_names::Env;
use dts_parts::any_group;
use dts_rules::FoundKind;
use dts_types::{Ask, infer_or_any};
use es_changed::{Change, Form};
use es_syntax::Item;

/// The type of a value, or `any` with a diagnostic at this range, behind a name that ends at this token.
fn inferred_group(out: &mut Draft, env: &Env<'_>, value: &Item<'_>, range: Range, to: u32)
    requires { ReadsTokens env.now.text.now env.now.tokens.now }
    ensures before { out.new.failed ≡ false → out.old.failed ≡ false }
    ensures written { out.new.failed ≡ false → (by : rules.Env) → Knows env.now by → IfThere (λ e. Typed env.now.text.now env.now.tokens.now by out.old out.new to range (Some e)) (expr_in (valued env.now.text.now env.now.tokens.now value.now)) }
{
    let group = out.open();
    let place = out.open();
    let fixed = Ask {
        literal: false,
        readonly: true,
        frozen: false,
    };
    infer_or_any(
        out,
        env,
        value,
        fixed,
        FoundKind::UnableToInferTypeFallbackAny,
        range,
    );
    out.close(place, Change::Form(Form::Annotation), to, to);
    out.close_group(group);
}

/// `any` with a diagnostic at this range, behind a name that ends at this token.
fn unknown_group(out: &mut Draft, range: Range, to: u32)
    ensures before { out.new.failed ≡ false → out.old.failed ≡ false }
    ensures noted { out.new.failed ≡ false → state_of out.new ≡ note kind.UnableToInferTypeFallbackAny range (state_of out.old) }
    ensures written { out.new.failed ≡ false → (x : List ℕ) (ts : List Tok) → Annotated x ts out.old.row out.new.row to any_type }
{
    out.note(FoundKind::UnableToInferTypeFallbackAny, range);
    any_group(out, to);
}

/// The type of a name of this range, which ends at this token, by its value.
pub(crate) fn value_group(
    out: &mut Draft,
    env: &Env<'_>,
    value: Option<Item<'_>>,
    range: Range,
    to: u32,
)
    requires { ReadsTokens env.now.text.now env.now.tokens.now }
    ensures before { out.new.failed ≡ false → out.old.failed ≡ false }
    ensures written { out.new.failed ≡ false → TypedBy env.now out.old out.new to range (value_of env.now.text.now env.now.tokens.now value.entry) }
{
    match value {
        Some(it) => inferred_group(out, env, &it, range, to),
        None => unknown_group(out, range, to),
    }
}
