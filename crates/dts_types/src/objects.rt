//! The types of objects.

ghost use Rattle.std.specs.Prelude.{◌≡◌, ◌<◌, ◌||◌, false, true, ℕ, List, Option, length, slice_get, IfSome};
ghost use Rattle.base.specs.declared.range.Range.{Range as ARange};
ghost use Rattle.es_token.specs.declared.token.Token.{Token as Tok};
ghost use Rattle.es_lexer.specs.Reads.{ReadsTokens};
ghost use Rattle.es_lowering.specs.Value.{as_group, part, prop_at, turns};
ghost use Rattle.es_lowering.specs.Texts.{span_of};
ghost use Rattle.es_syntax.specs.Held.{held, valued, there};
ghost use Rattle.es_syntax.specs.Roles.{expr_in, key_in, prop_in, type_member_in};
ghost use Rattle.es_view_expressions.specs.expr.Primary as primary;
ghost use Rattle.es_view_expressions.specs.member.Prop as prop_view;
ghost use Rattle.dts_rules.specs.Rules as rules;
ghost use Rattle.dts_draft.specs.Drafts.{state_of};
ghost use Rattle.dts_draft.specs.Written.{IfThere};
ghost use Rattle.dts_names.specs.Names.{Knows};
ghost use Rattle.dts_types.specs.Types.{prop_step, property_form, InTurn, Inferred, PropTurned};

use crate::arrays::is_fixed;
use crate::ask::Ask;
use crate::exprs::infer_or_any;
use base::Range;
use dts_draft::Draft;
use dts_keys::type_key;
use dts_names::{Env, name_type};
use dts_rules::FoundKind;
use es_changed::Form;
use es_expr_spans::{expr_range, span_of};
use es_grammar::NodeKind;
use es_syntax::{Item, Siblings};
use es_token::Token;
use es_view_expressions::member::{Prop, prop_at};

/// The type of an object with these properties.
#[cycle(types)]
pub(crate) fn object_type(out: &mut Draft, env: &Env<'_>, props: &Siblings<'_>, ask: Ask) -> bool
    requires { ReadsTokens env.now.text.now env.now.tokens.now }
    ensures before { out.new.failed ≡ false → out.old.failed ≡ false }
    ensures written { out.new.failed ≡ false → (r : ARange) → Inferred env.now ask out.old out.new result (primary.object r (held env.now.text.now env.now.tokens.now props.now.entries.now)) }
{
    let place = out.open();
    all_props(out, env, props, ask);
    out.close_form(place, Form::Members);
    true
}

/// The members that these properties are.
#[cycle(types)]
fn all_props(out: &mut Draft, env: &Env<'_>, props: &Siblings<'_>, ask: Ask)
    requires { ReadsTokens env.now.text.now env.now.tokens.now }
    ensures before { out.new.failed ≡ false → out.old.failed ≡ false }
    ensures written { out.new.failed ≡ false → (by : rules.Env) → Knows env.now by → IfThere (InTurn env.now.text.now env.now.tokens.now type_member_in (prop_step by ask) out.old out.new) (turns (λ turn. prop_at turn 0) (held env.now.text.now env.now.tokens.now props.now.entries.now)) }
{
    let mut row = *props;
    while let Some((turn, rest)) = row.split() {
        prop_turn(out, env, &turn, ask);
        row = rest;
    }
}

/// The first part of a turn.
pub(crate) fn part_in<'a>(turn: &Item<'a>) -> Option<Item<'a>>
    ensures value { (x : List ℕ) (ts : List Tok) → part (as_group (valued x ts turn.now)) 0 ≡ there x ts result }
    ensures below { IfSome result (λ t. length t.parts.entries.now < length turn.now.parts.entries.now) }
{
    turn.group().part(0)
}

/// The property in a turn.
#[cycle(types)]
fn prop_turn(out: &mut Draft, env: &Env<'_>, turn: &Item<'_>, ask: Ask)
    requires { ReadsTokens env.now.text.now env.now.tokens.now }
    ensures before { out.new.failed ≡ false → out.old.failed ≡ false }
    ensures written { out.new.failed ≡ false → PropTurned env.now ask out.old out.new (prop_at (as_group (valued env.now.text.now env.now.tokens.now turn.now)) 0) }
{
    match part_in(turn) {
        Some(it) => prop(out, env, &it, ask),
        None => out.fail(),
    }
}

/// A property: a member, or none.
#[cycle(types)]
fn prop(out: &mut Draft, env: &Env<'_>, it: &Item<'_>, ask: Ask)
    requires { ReadsTokens env.now.text.now env.now.tokens.now }
    ensures before { out.new.failed ≡ false → out.old.failed ≡ false }
    ensures written { out.new.failed ≡ false → PropTurned env.now ask out.old out.new (prop_in (valued env.now.text.now env.now.tokens.now it.now)) }
{
    match prop_at(it) {
        Some(Prop::KeyValue { key, value }) => key_value(
            out, env, it.from, it.to, &key, &value, ask,
        ),
        Some(Prop::Shorthand(at)) => shorthand(out, env, at, ask),
        Some(Prop::Spread(_)) => out.note(
            FoundKind::UnableToInferTypeFromSpread,
            span_of(env.tokens, it.from, it.to),
        ),
        Some(
            Prop::Method {
                is_async: _,
                is_generator: _,
                key: _,
                params: _,
                body: _,
            },
        ) => out.note(
            FoundKind::UnableToInferTypeFromProp,
            span_of(env.tokens, it.from, it.to),
        ),
        Some(
            Prop::Accessor {
                sign: _,
                key: _,
                params: _,
                body: _,
            },
        ) => out.note(
            FoundKind::UnableToInferTypeFromProp,
            span_of(env.tokens, it.from, it.to),
        ),
        Some(
            Prop::TypedMethod {
                is_async: _,
                is_generator: _,
                key: _,
                signature: _,
                body: _,
            },
        ) => out.note(
            FoundKind::UnableToInferTypeFromProp,
            span_of(env.tokens, it.from, it.to),
        ),
        Some(
            Prop::TypedAccessor {
                sign: _,
                key: _,
                signature: _,
                body: _,
            },
        ) => out.note(
            FoundKind::UnableToInferTypeFromProp,
            span_of(env.tokens, it.from, it.to),
        ),
        Some(Prop::Broken) => out.fail(),
        None => out.fail(),
    }
}

/// The form of a property, `readonly` or not.
fn property_form(ask: Ask) -> Form
    ensures { result ≡ property_form (ask.readonly || ask.frozen) }
{
    if is_fixed(ask) {
        return Form::ReadonlyProperty;
    }
    Form::Property
}

/// `a: b`, in a node from one token up to another one.
#[cycle(types)]
fn key_value(
    out: &mut Draft,
    env: &Env<'_>,
    from: u32,
    to: u32,
    key: &Item<'_>,
    value: &Item<'_>,
    ask: Ask,
)
    requires { ReadsTokens env.now.text.now env.now.tokens.now }
    ensures before { out.new.failed ≡ false → out.old.failed ≡ false }
    ensures written { out.new.failed ≡ false → PropTurned env.now ask out.old out.new (prop_view.key_value (span_of env.now.tokens.now from to) (key_in (valued env.now.text.now env.now.tokens.now key.now)) (expr_in (valued env.now.text.now env.now.tokens.now value.now))) }
{
    let place = out.open();
    if !type_key(out, env.tokens, key) {
        out.back_to(place);
        out.note(
            FoundKind::UnableToInferTypeFromProp,
            span_of(env.tokens, from, to),
        );
        return;
    }
    let inside = Ask {
        literal: ask.literal,
        readonly: ask.readonly,
        frozen: false,
    };
    let range = expr_range(env.tokens, value);
    infer_or_any(
        out,
        env,
        value,
        inside,
        FoundKind::UnableToInferTypeFallbackAny,
        range,
    );
    out.close_form(place, property_form(ask));
}

/// The bytes of a token.
pub(crate) fn token_range(tokens: &[Token], at: u32) -> Range
    ensures { IfSome (slice_get tokens.now at) (λ t. result ≡ t.range) }
{
    match tokens.get(at as usize) {
        Some(token) => token.range(),
        None => Range { start: 0, end: 0 },
    }
}

/// `a`
fn shorthand(out: &mut Draft, env: &Env<'_>, at: u32, ask: Ask)
    requires { ReadsTokens env.now.text.now env.now.tokens.now }
    ensures before { out.new.failed ≡ false → out.old.failed ≡ false }
    ensures written { out.new.failed ≡ false → PropTurned env.now ask out.old out.new (prop_view.shorthand env.now.text.now (slice_get env.now.tokens.now at)) }
{
    let place = out.open();
    out.gone(at);
    out.leaf_node(NodeKind::WordKeyOfType, at);
    if name_type(out, env, at, ask.literal) {
        out.close_form(place, property_form(ask));
        return;
    }
    out.back_to(place);
    out.note(
        FoundKind::UnableToInferTypeFromProp,
        token_range(env.tokens, at),
    );
}
