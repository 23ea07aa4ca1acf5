//! Parameters of functions as parameters of their types.

ghost use Rattle.std.specs.Prelude.{◌≡◌, ◌<◌, ◌+◌, ◌-◌, false, true, ℕ, List, [], ◌∷◌, Bool, Option, Some, option_map, length, slice_get, IfSome};
ghost use Rattle.base.specs.declared.range.Range.{Range as ARange};
ghost use Rattle.es_token.specs.declared.token.Token.{Token as Tok};
ghost use Rattle.es_ast.specs.declared.ts.leaf.Ident.{Ident as AnIdent};
ghost use Rattle.es_ast.specs.declared.ts.ts.TsPart.{TsPart};
ghost use Rattle.es_ast.specs.declared.leaf.Modifiers.{Modifiers};
ghost use Rattle.es_ast.specs.declared.ts.ts.TsPart.TheVariants as vPart;
ghost use Rattle.es_ast.specs.declared.ast.Pat.{out-Pat};
ghost use Rattle.es_ast.specs.declared.ast.Pat.TheVariants as vPat;
ghost use Rattle.es_ast.specs.declared.ast.ClassMember.TheOpen.{Pat-F};
ghost use Rattle.es_site.specs.Parts.{Whole};
ghost use Rattle.es_lexer.specs.Reads.{ReadsTokens};
ghost use Rattle.es_lowering.specs.Value.{as_group, behind, first_of, is_there, nil, option_list, optional, param_at, turns, type_at};
ghost use Rattle.es_lowering.specs.Texts.{ident_of, span_of};
ghost use Rattle.es_lowering.specs.Lowering.{packed};
ghost use Rattle.es_lowering.specs.Functions.{name_param, param_of, rest_at, rest_of};
ghost use Rattle.es_lowering.specs.TypeNames.{behind_in};
ghost use Rattle.es_lowering.specs.TypedParts.{param_by, typed_rest_at, typed_rest_of};
ghost use Rattle.es_syntax.specs.Held.{held, valued};
ghost use Rattle.es_syntax.specs.Roles.{expr_in, fn_param_in, marked_in, param_in, params_in, pat_in};
ghost use Rattle.es_changed.specs.declared.entry.Form.TheVariants as form;
ghost use Rattle.es_changed.specs.Formed.{formed};
ghost use Rattle.es_changed.specs.Shape.{Writes};
ghost use Rattle.es_view_statements.specs.param.Param as param_view;
ghost use Rattle.es_view_statements.specs.param.Params as params_view;
ghost use Rattle.dts_rules.specs.Rules as rules;
ghost use Rattle.dts_draft.specs.Drafts.{state_of};
ghost use Rattle.dts_draft.specs.Written.{IfThere};
ghost use Rattle.dts_names.specs.Names.{Knows};
ghost use Rattle.dts_types.specs.Types.{param_step, default_step, AreParams, InTurn, Turned, ParamTurned, ParamsBy};
ghost use Rattle.dts_types.specs.Params.{Annotates, Marks, DefaultTyped, IsSimple};

use crate::ask::Ask;
use crate::exprs::infer;
use crate::objects::part_in;
use dts_draft::Draft;
use dts_names::Env;
use dts_patterns::{name_pattern, pattern, whole_pattern};
use es_changed::{Change, Form};
use es_syntax::{Item, Siblings, What};
use es_token::Token;
use es_view_expressions::pattern::{Marked, Pat, marked_at, pat_at};
use es_view_statements::param::{Param, Params, param_at, params_at};

/// The token after a part; none where it is a list.
fn end_of(it: &Item<'_>) -> Option<u32>
    ensures { IfSome result (λ n. (x : List ℕ) (ts : List Tok) → behind (valued x ts it.now) ≡ n) }
{
    match it.what {
        What::Node(_) => Some(it.to),
        What::Leaf => it.from.checked_add(1),
        What::Role(_) => None,
        What::Parts => None,
        What::Lean(_) => None,
    }
}

/// The token after a part that may be absent, or this one.
fn end_in(row: &Siblings<'_>, before: u32) -> Option<u32>
    ensures { IfSome result (λ n. (x : List ℕ) (ts : List Tok) → behind_in (held x ts row.now.entries.now) before ≡ n) }
{
    match row.split() {
        Some((it, _)) => end_of(&it),
        None => Some(before),
    }
}

/// Where a part begins and ends; none where it is no node.
fn place_of(it: &Item<'_>) -> Option<(u32, u32)>
    ensures from { IfSome result (λ p. p.0 ≡ it.now.from) }
    ensures place { IfSome result (λ p. (x : List ℕ) (ts : List Tok) → (first_of (valued x ts it.now) ≡ p.0) × (behind (valued x ts it.now) ≡ p.1)) }
{
    match it.what {
        What::Node(_) => Some((it.from, it.to)),
        What::Leaf => None,
        What::Role(_) => None,
        What::Parts => None,
        What::Lean(_) => None,
    }
}

/// The number of the next token.
fn next_of(at: u32) -> Option<u32>
    ensures { IfSome result (λ n. n ≡ at + 1) }
{
    at.checked_add(1)
}

/// A name as the only parameter.
pub(crate) fn name_params(out: &mut Draft, at: u32)
    ensures before { out.new.failed ≡ false → out.old.failed ≡ false }
    ensures written { out.new.failed ≡ false → (by : rules.Env) (x : List ℕ) (ts : List Tok) → IfThere (λ t. AreParams x ts by out.old out.new (name_param x t ∷ [])) (slice_get ts at) }
{
    let list = out.open();
    one_name(out, at);
    out.close_form(list, Form::Parameters);
}

/// A name as a parameter.
fn one_name(out: &mut Draft, at: u32)
    ensures before { out.new.failed ≡ false → out.old.failed ≡ false }
    ensures written { out.new.failed ≡ false → (by : rules.Env) (x : List ℕ) (ts : List Tok) → IfThere (λ t. Turned x ts fn_param_in (param_step by) out.old out.new (name_param x t)) (slice_get ts at) }
{
    match next_of(at) {
        Some(to) => name_up_to(out, at, to),
        None => out.fail(),
    }
}

/// The same up to this token.
fn name_up_to(out: &mut Draft, at: u32, to: u32)
    ensures before { out.new.failed ≡ false → out.old.failed ≡ false }
    ensures written { out.new.failed ≡ false → (by : rules.Env) (x : List ℕ) (ts : List Tok) → IfThere (λ t. span_of ts at to ≡ t.range → Turned x ts fn_param_in (param_step by) out.old out.new (name_param x t)) (slice_get ts at) }
{
    let place = out.open();
    name_pattern(out, at);
    out.absent();
    out.absent();
    out.close(place, Change::Form(Form::Param), at, to);
}

/// The parameters of the type of a function.
#[cycle(types)]
pub(crate) fn params_type(out: &mut Draft, env: &Env<'_>, params: &Item<'_>)
    requires { ReadsTokens env.now.text.now env.now.tokens.now }
    ensures before { out.new.failed ≡ false → out.old.failed ≡ false }
    ensures written { out.new.failed ≡ false → ParamsBy env.now out.old out.new (params_in (valued env.now.text.now env.now.tokens.now params.now)) }
{
    match params_at(params) {
        Some(Params::Plain { all, rest }) => plain_params(out, env, &all, &rest),
        Some(Params::Typed { all, rest }) => typed_params(out, env, &all, &rest),
        Some(Params::Signature(inner)) => params_type(out, env, &inner),
        Some(Params::Broken) => out.fail(),
        None => out.fail(),
    }
}

/// Parameters, and what follows `...` or none.
#[cycle(types)]
fn plain_params(out: &mut Draft, env: &Env<'_>, all: &Siblings<'_>, rest: &Siblings<'_>)
    requires { ReadsTokens env.now.text.now env.now.tokens.now }
    ensures before { out.new.failed ≡ false → out.old.failed ≡ false }
    ensures written { out.new.failed ≡ false → ParamsBy env.now out.old out.new (params_view.plain env.now.tokens.now (held env.now.text.now env.now.tokens.now all.now.entries.now) (held env.now.text.now env.now.tokens.now rest.now.entries.now)) }
{
    let list = out.open();
    all_params(out, env, all);
    plain_rest(out, env.tokens, rest);
    out.close_form(list, Form::Parameters);
}

/// The same of TypeScript.
#[cycle(types)]
fn typed_params(out: &mut Draft, env: &Env<'_>, all: &Siblings<'_>, rest: &Siblings<'_>)
    requires { ReadsTokens env.now.text.now env.now.tokens.now }
    ensures before { out.new.failed ≡ false → out.old.failed ≡ false }
    ensures written { out.new.failed ≡ false → ParamsBy env.now out.old out.new (params_view.typed env.now.tokens.now (held env.now.text.now env.now.tokens.now all.now.entries.now) (held env.now.text.now env.now.tokens.now rest.now.entries.now)) }
{
    let list = out.open();
    all_params(out, env, all);
    typed_rest(out, env.tokens, rest);
    out.close_form(list, Form::Parameters);
}

/// The parameters in these turns.
#[cycle(types)]
fn all_params(out: &mut Draft, env: &Env<'_>, all: &Siblings<'_>)
    requires { ReadsTokens env.now.text.now env.now.tokens.now }
    ensures before { out.new.failed ≡ false → out.old.failed ≡ false }
    ensures written { out.new.failed ≡ false → (by : rules.Env) → Knows env.now by → IfThere (InTurn env.now.text.now env.now.tokens.now fn_param_in (param_step by) out.old out.new) (turns (λ turn. param_at turn 0) (held env.now.text.now env.now.tokens.now all.now.entries.now)) }
{
    let mut row = *all;
    while let Some((turn, rest)) = row.split() {
        param_turn(out, env, &turn);
        row = rest;
    }
}

/// The parameter in a turn.
#[cycle(types)]
fn param_turn(out: &mut Draft, env: &Env<'_>, turn: &Item<'_>)
    requires { ReadsTokens env.now.text.now env.now.tokens.now }
    ensures before { out.new.failed ≡ false → out.old.failed ≡ false }
    ensures written { out.new.failed ≡ false → ParamTurned env.now out.old out.new (param_at (as_group (valued env.now.text.now env.now.tokens.now turn.now)) 0) }
{
    match part_in(turn) {
        Some(it) => param(out, env, &it),
        None => out.fail(),
    }
}

/// A parameter; none where its default has no type.
#[cycle(types)]
fn param(out: &mut Draft, env: &Env<'_>, it: &Item<'_>)
    requires { ReadsTokens env.now.text.now env.now.tokens.now }
    ensures before { out.new.failed ≡ false → out.old.failed ≡ false }
    ensures written { out.new.failed ≡ false → ParamTurned env.now out.old out.new (param_in (valued env.now.text.now env.now.tokens.now it.now)) }
{
    match param_at(it) {
        Some(Param::Default { left, right }) => default_param(out, env, &left, &right),
        Some(Param::This { word, ty, value }) => this_param(
            out, env, it.from, it.to, &word, &ty, &value,
        ),
        Some(
            Param::Property {
                modifiers: _,
                name,
                mark,
                ty,
                value,
            },
        ) => tailed_param(out, env, it.from, it.to, &name, &mark, &ty, &value),
        Some(
            Param::Marked {
                name,
                mark,
                ty,
                value,
            },
        ) => tailed_param(out, env, it.from, it.to, &name, &mark, &ty, &value),
        Some(Param::Pattern(node)) => pattern_param(out, env, it.from, it.to, &node),
        Some(Param::Broken) => out.fail(),
        None => out.fail(),
    }
}

/// `a = b`
#[cycle(types)]
fn default_param(out: &mut Draft, env: &Env<'_>, left: &Item<'_>, right: &Item<'_>)
    requires { ReadsTokens env.now.text.now env.now.tokens.now }
    ensures before { out.new.failed ≡ false → out.old.failed ≡ false }
    ensures written { out.new.failed ≡ false → (r : ARange) → ParamTurned env.now out.old out.new (param_view.default r (pat_in (valued env.now.text.now env.now.tokens.now left.now)) (expr_in (valued env.now.text.now env.now.tokens.now right.now))) }
{
    default_of(out, env, left, right);
}

/// A pattern with a default.
#[cycle(types)]
fn default_of(out: &mut Draft, env: &Env<'_>, left: &Item<'_>, right: &Item<'_>)
    requires { ReadsTokens env.now.text.now env.now.tokens.now }
    ensures before { out.new.failed ≡ false → out.old.failed ≡ false }
    ensures written { out.new.failed ≡ false → (by : rules.Env) → Knows env.now by → IfThere (λ l. IfThere (Turned env.now.text.now env.now.tokens.now fn_param_in (default_step by (out-Pat l)) out.old out.new) (expr_in (valued env.now.text.now env.now.tokens.now right.now))) (pat_in (valued env.now.text.now env.now.tokens.now left.now)) }
{
    match pat_at(left) {
        Some(Pat::Ident(at)) => named_default(out, env, at, right),
        Some(Pat::Array { from: _, elems: _ }) => made_default(out, env, right),
        Some(Pat::Object(_)) => made_default(out, env, right),
        Some(Pat::Rest(_)) => made_default(out, env, right),
        Some(Pat::Default { left: _, right: _ }) => made_default(out, env, right),
        Some(Pat::Target(_)) => made_default(out, env, right),
        Some(Pat::Broken) => out.fail(),
        None => out.fail(),
    }
}

/// A pattern that may have a type, with a default.
#[cycle(types)]
fn default_marked(out: &mut Draft, env: &Env<'_>, name: &Item<'_>, right: &Item<'_>)
    requires { ReadsTokens env.now.text.now env.now.tokens.now }
    ensures before { out.new.failed ≡ false → out.old.failed ≡ false }
    ensures written { out.new.failed ≡ false → (by : rules.Env) → Knows env.now by → IfThere (λ m. (mark : Bool) (ty : Option TsPart) (r : ARange) → IfThere (Turned env.now.text.now env.now.tokens.now fn_param_in (default_step by (out-Pat (m mark ty r))) out.old out.new) (expr_in (valued env.now.text.now env.now.tokens.now right.now))) (marked_in (valued env.now.text.now env.now.tokens.now name.now)) }
{
    match marked_at(name) {
        Some(Marked::Ident(at)) => named_default(out, env, at, right),
        Some(Marked::Array { from: _, elems: _ }) => made_default(out, env, right),
        Some(Marked::Object(_)) => made_default(out, env, right),
        Some(Marked::Broken) => out.fail(),
        None => out.fail(),
    }
}

/// A name with a default: it has the type of that.
#[cycle(types)]
fn named_default(out: &mut Draft, env: &Env<'_>, at: u32, right: &Item<'_>)
    requires { ReadsTokens env.now.text.now env.now.tokens.now }
    ensures before { out.new.failed ≡ false → out.old.failed ≡ false }
    ensures written { out.new.failed ≡ false → (by : rules.Env) → Knows env.now by → (id : AnIdent) (ty : Option TsPart) (span : ARange) → option_map (ident_of env.now.text.now) (slice_get env.now.tokens.now at) ≡ Some (rules.marked false id) → IfThere (Turned env.now.text.now env.now.tokens.now fn_param_in (default_step by (Pat-F.Pat::Ident id ty span)) out.old out.new) (expr_in (valued env.now.text.now env.now.tokens.now right.now)) }
{
    let place = out.open();
    name_pattern(out, at);
    if !default_type(out, env, right) {
        out.back_to(place);
        return;
    }
    out.close_form(place, Form::Param);
}

/// Any other pattern with a default: a made name, which is drawn after its type is known.
#[cycle(types)]
fn made_default(out: &mut Draft, env: &Env<'_>, right: &Item<'_>)
    requires { ReadsTokens env.now.text.now env.now.tokens.now }
    ensures before { out.new.failed ≡ false → out.old.failed ≡ false }
    ensures written { out.new.failed ≡ false → (by : rules.Env) → Knows env.now by → (left : Whole Pat-F) → rules.is_name by left ≡ false → IfThere (Turned env.now.text.now env.now.tokens.now fn_param_in (default_step by left) out.old out.new) (expr_in (valued env.now.text.now env.now.tokens.now right.now)) }
{
    let place = out.open();
    let name = out.open();
    if !default_type(out, env, right) {
        out.back_to(place);
        return;
    }
    let number = out.draw();
    out.name_at(name, number);
    out.close_form(place, Form::Param);
}

/// No mark, and the type of a default; where it has none, what was written is to be taken back.
#[cycle(types)]
fn default_type(out: &mut Draft, env: &Env<'_>, right: &Item<'_>) -> bool
    requires { ReadsTokens env.now.text.now env.now.tokens.now }
    ensures before { out.new.failed ≡ false → out.old.failed ≡ false }
    ensures written { out.new.failed ≡ false → (by : rules.Env) → Knows env.now by → IfThere (DefaultTyped by env.now.text.now env.now.tokens.now out.old out.new result) (expr_in (valued env.now.text.now env.now.tokens.now right.now)) }
{
    out.absent();
    let group = out.open();
    let place = out.open();
    let wide = Ask {
        literal: false,
        readonly: false,
        frozen: false,
    };
    if !infer(out, env, right, wide) {
        return false;
    }
    out.close_form(place, Form::Annotation);
    out.close_group(group);
    true
}

/// `this`, with its type; with a default a made name.
#[cycle(types)]
fn this_param(
    out: &mut Draft,
    env: &Env<'_>,
    from: u32,
    to: u32,
    word: &Item<'_>,
    ty: &Siblings<'_>,
    value: &Siblings<'_>,
)
    requires { ReadsTokens env.now.text.now env.now.tokens.now }
    ensures before { out.new.failed ≡ false → out.old.failed ≡ false }
    ensures written { out.new.failed ≡ false → ParamTurned env.now out.old out.new (param_view.this env.now.tokens.now (span_of env.now.tokens.now from to) (valued env.now.text.now env.now.tokens.now word.now) (held env.now.text.now env.now.tokens.now ty.now.entries.now) (held env.now.text.now env.now.tokens.now value.now.entries.now)) }
{
    match value.split() {
        Some((right, _)) => made_default(out, env, &right),
        None => plain_this(out, from, to, word, ty),
    }
}

/// `this`, with its type or without, in a node from one token up to another one.
fn plain_this(out: &mut Draft, from: u32, to: u32, word: &Item<'_>, ty: &Siblings<'_>)
    ensures before { out.new.failed ≡ false → out.old.failed ≡ false }
    ensures written { out.new.failed ≡ false → (by : rules.Env) (x : List ℕ) (ts : List Tok) → IfThere (λ a. (modifiers : Modifiers) → Turned x ts fn_param_in (param_step by) out.old out.new (param_by modifiers (span_of ts from to) (vPat.This a (span_of ts (first_of (valued x ts word.now)) (behind_in (held x ts ty.now.entries.now) (behind (valued x ts word.now))))))) (option_map (λ ty. option_map vPart.TypeAnn ty) (optional type_at (held x ts ty.now.entries.now))) }
{
    match token_place(word) {
        Some((first, next)) => match end_in(ty, next) {
            Some(end) => this_up_to(out, from, to, first, next, end, ty),
            None => out.fail(),
        },
        None => out.fail(),
    }
}

/// The number of a token, and the one after it; none where it is no token.
fn token_place(it: &Item<'_>) -> Option<(u32, u32)>
    ensures { IfSome result (λ p. (x : List ℕ) (ts : List Tok) → (first_of (valued x ts it.now) ≡ p.0) × (behind (valued x ts it.now) ≡ p.1)) }
{
    match it.what {
        What::Leaf => match it.from.checked_add(1) {
            Some(next) => Some((it.from, next)),
            None => None,
        },
        What::Node(_) => None,
        What::Role(_) => None,
        What::Parts => None,
        What::Lean(_) => None,
    }
}

/// `this` from its token up to where its type ends.
fn this_up_to(
    out: &mut Draft,
    from: u32,
    to: u32,
    first: u32,
    next: u32,
    end: u32,
    ty: &Siblings<'_>,
)
    ensures before { out.new.failed ≡ false → out.old.failed ≡ false }
    ensures written { out.new.failed ≡ false → (by : rules.Env) (x : List ℕ) (ts : List Tok) → IfThere (λ a. (modifiers : Modifiers) → Turned x ts fn_param_in (param_step by) out.old out.new (param_by modifiers (span_of ts from to) (vPat.This a (span_of ts first end)))) (option_map (λ ty. option_map vPart.TypeAnn ty) (optional type_at (held x ts ty.now.entries.now))) }
{
    let place = out.open();
    out.gone(first);
    let pattern = out.open();
    out.dropped(next, end);
    out.close(pattern, Change::Form(Form::ThisPattern), first, end);
    out.absent();
    annotation(out, ty);
    out.close(place, Change::Form(Form::Param), from, to);
}

/// A pattern with its mark, its type and its default, each of which may be absent, in a node from one token up to another one.
#[cycle(types)]
fn tailed_param(
    out: &mut Draft,
    env: &Env<'_>,
    from: u32,
    to: u32,
    name: &Item<'_>,
    mark: &Siblings<'_>,
    ty: &Siblings<'_>,
    value: &Siblings<'_>,
)
    requires { ReadsTokens env.now.text.now env.now.tokens.now }
    ensures before { out.new.failed ≡ false → out.old.failed ≡ false }
    ensures written { out.new.failed ≡ false → (by : rules.Env) → Knows env.now by → (span : ARange) → IfThere (λ pat. (modifiers : Modifiers) → Turned env.now.text.now env.now.tokens.now fn_param_in (param_step by) out.old out.new (param_by modifiers (span_of env.now.tokens.now from to) pat)) (param_view.tailed (span_of env.now.tokens.now (first_of (valued env.now.text.now env.now.tokens.now name.now)) (behind_in (held env.now.text.now env.now.tokens.now ty.now.entries.now) (behind_in (held env.now.text.now env.now.tokens.now mark.now.entries.now) (behind (valued env.now.text.now env.now.tokens.now name.now))))) span (marked_in (valued env.now.text.now env.now.tokens.now name.now)) (held env.now.text.now env.now.tokens.now mark.now.entries.now) (held env.now.text.now env.now.tokens.now ty.now.entries.now) (held env.now.text.now env.now.tokens.now value.now.entries.now)) }
{
    match value.split() {
        Some((right, _)) => default_marked(out, env, name, &right),
        None => marked_param(out, env.tokens, from, to, name, mark, ty),
    }
}

/// The same without a default.
fn marked_param(
    out: &mut Draft,
    tokens: &[Token],
    from: u32,
    to: u32,
    name: &Item<'_>,
    mark: &Siblings<'_>,
    ty: &Siblings<'_>,
)
    ensures before { out.new.failed ≡ false → out.old.failed ≡ false }
    ensures written { out.new.failed ≡ false → (by : rules.Env) (x : List ℕ) → IfThere (λ m. IfThere (λ a. (modifiers : Modifiers) → Turned x tokens.now fn_param_in (param_step by) out.old out.new (param_by modifiers (span_of tokens.now from to) (m (is_there (held x tokens.now mark.now.entries.now)) a (span_of tokens.now (first_of (valued x tokens.now name.now)) (behind_in (held x tokens.now ty.now.entries.now) (behind_in (held x tokens.now mark.now.entries.now) (behind (valued x tokens.now name.now)))))))) (option_map (λ ty. option_map vPart.TypeAnn ty) (optional type_at (held x tokens.now ty.now.entries.now)))) (marked_in (valued x tokens.now name.now)) }
{
    match place_of(name) {
        Some((_, next)) => match end_in(mark, next) {
            Some(behind_mark) => match end_in(ty, behind_mark) {
                Some(end) => marked_up_to(out, tokens, from, to, name, end, mark, ty),
                None => out.fail(),
            },
            None => out.fail(),
        },
        None => out.fail(),
    }
}

/// The same, where the pattern with its mark and its type ends before this token.
fn marked_up_to(
    out: &mut Draft,
    tokens: &[Token],
    from: u32,
    to: u32,
    name: &Item<'_>,
    end: u32,
    mark: &Siblings<'_>,
    ty: &Siblings<'_>,
)
    ensures before { out.new.failed ≡ false → out.old.failed ≡ false }
    ensures written { out.new.failed ≡ false → (by : rules.Env) (x : List ℕ) → IfThere (λ m. IfThere (λ a. (modifiers : Modifiers) → Turned x tokens.now fn_param_in (param_step by) out.old out.new (param_by modifiers (span_of tokens.now from to) (m (is_there (held x tokens.now mark.now.entries.now)) a (span_of tokens.now name.now.from end)))) (option_map (λ ty. option_map vPart.TypeAnn ty) (optional type_at (held x tokens.now ty.now.entries.now)))) (marked_in (valued x tokens.now name.now)) }
{
    let place = out.open();
    whole_pattern(out, tokens, name, end);
    mark_group(out, mark);
    annotation(out, ty);
    out.close(place, Change::Form(Form::Param), from, to);
}

/// A mark or none, as a group.
fn mark_group(out: &mut Draft, mark: &Siblings<'_>)
    ensures before { out.new.failed ≡ false → out.old.failed ≡ false }
    ensures state { state_of out.new ≡ state_of out.old }
    ensures written { out.new.failed ≡ false → (x : List ℕ) (ts : List Tok) → Marks x ts out.old.row out.new.row (held x ts mark.now.entries.now) }
{
    match mark.split() {
        Some(_) => optional_group(out),
        None => out.absent(),
    }
}

/// A mark, as a group.
fn optional_group(out: &mut Draft)
    ensures before { out.new.failed ≡ false → out.old.failed ≡ false }
    ensures state { state_of out.new ≡ state_of out.old }
    ensures written { out.new.failed ≡ false → (x : List ℕ) (ts : List Tok) → Writes x ts out.old.row out.new.row (packed (formed x ts form.Optional 0 0 nil ∷ []) ∷ []) }
{
    let group = out.open();
    out.bare(Form::Optional, 0, 0);
    out.close_group(group);
}

/// The type of a parameter or none, as a group.
fn annotation(out: &mut Draft, ty: &Siblings<'_>)
    ensures before { out.new.failed ≡ false → out.old.failed ≡ false }
    ensures state { state_of out.new ≡ state_of out.old }
    ensures written { out.new.failed ≡ false → (x : List ℕ) (ts : List Tok) → Annotates x ts out.old.row out.new.row (held x ts ty.now.entries.now) }
{
    match ty.split() {
        Some((ty, _)) => annotation_group(out, &ty),
        None => out.absent(),
    }
}

/// A type after `:`, as a group.
fn annotation_group(out: &mut Draft, ty: &Item<'_>)
    ensures before { out.new.failed ≡ false → out.old.failed ≡ false }
    ensures state { state_of out.new ≡ state_of out.old }
    ensures written { out.new.failed ≡ false → (x : List ℕ) (ts : List Tok) → Writes x ts out.old.row out.new.row (packed (formed x ts form.Annotation 0 0 (packed (valued x ts ty.now ∷ [])) ∷ []) ∷ []) }
{
    let group = out.open();
    let place = out.open();
    out.keep(ty);
    out.close_form(place, Form::Annotation);
    out.close_group(group);
}

/// A pattern alone, in a node from one token up to another one.
#[cycle(types)]
fn pattern_param(out: &mut Draft, env: &Env<'_>, from: u32, to: u32, node: &Item<'_>)
    requires { ReadsTokens env.now.text.now env.now.tokens.now }
    ensures before { out.new.failed ≡ false → out.old.failed ≡ false }
    ensures written { out.new.failed ≡ false → ParamTurned env.now out.old out.new (option_map (param_of (span_of env.now.tokens.now from to)) (pat_in (valued env.now.text.now env.now.tokens.now node.now))) }
{
    match pat_at(node) {
        Some(Pat::Ident(_)) => simple_param(out, env.tokens, from, to, node),
        Some(Pat::Array { from: _, elems: _ }) => simple_param(out, env.tokens, from, to, node),
        Some(Pat::Object(_)) => simple_param(out, env.tokens, from, to, node),
        Some(Pat::Default { left, right }) => default_of(out, env, &left, &right),
        Some(Pat::Rest(_)) => out.fail(),
        Some(Pat::Target(_)) => out.fail(),
        Some(Pat::Broken) => out.fail(),
        None => out.fail(),
    }
}

/// A name, an array or an object as a parameter.
fn simple_param(out: &mut Draft, tokens: &[Token], from: u32, to: u32, node: &Item<'_>)
    ensures before { out.new.failed ≡ false → out.old.failed ≡ false }
    ensures written { out.new.failed ≡ false → (by : rules.Env) (x : List ℕ) → IfThere (λ pat. IsSimple by pat → Turned x tokens.now fn_param_in (param_step by) out.old out.new (param_of (span_of tokens.now from to) pat)) (pat_in (valued x tokens.now node.now)) }
{
    let place = out.open();
    out.gone(node.from);
    pattern(out, tokens, node);
    out.absent();
    out.absent();
    out.close(place, Change::Form(Form::Param), from, to);
}

/// The last parameter, after `...`, or none.
fn plain_rest(out: &mut Draft, tokens: &[Token], rest: &Siblings<'_>)
    ensures before { out.new.failed ≡ false → out.old.failed ≡ false }
    ensures written { out.new.failed ≡ false → (by : rules.Env) (x : List ℕ) → IfThere (λ p. InTurn x tokens.now fn_param_in (param_step by) out.old out.new (option_list p)) (optional (rest_at tokens.now) (held x tokens.now rest.now.entries.now)) }
{
    match rest.split() {
        Some((pat, _)) => plain_rest_param(out, tokens, &pat),
        None => {}
    }
}

/// A pattern after `...`.
fn plain_rest_param(out: &mut Draft, tokens: &[Token], pat: &Item<'_>)
    ensures before { out.new.failed ≡ false → out.old.failed ≡ false }
    ensures written { out.new.failed ≡ false → (by : rules.Env) (x : List ℕ) → IfThere (λ p. Turned x tokens.now fn_param_in (param_step by) out.old out.new (rest_of (span_of tokens.now (first_of (valued x tokens.now pat.now) - 1) (behind (valued x tokens.now pat.now))) p)) (pat_in (valued x tokens.now pat.now)) }
{
    match place_of(pat) {
        Some((from, to)) => {
            let place = out.open();
            out.gone(from);
            pattern(out, tokens, pat);
            out.absent();
            out.absent();
            out.close(
                place,
                Change::Form(Form::RestParam),
                from.saturating_sub(1),
                to,
            );
        }
        None => out.fail(),
    }
}

/// The last parameter of TypeScript, after `...`, or none.
fn typed_rest(out: &mut Draft, tokens: &[Token], rest: &Siblings<'_>)
    ensures before { out.new.failed ≡ false → out.old.failed ≡ false }
    ensures written { out.new.failed ≡ false → (by : rules.Env) (x : List ℕ) → IfThere (λ p. InTurn x tokens.now fn_param_in (param_step by) out.old out.new (option_list p)) (optional (typed_rest_at tokens.now) (held x tokens.now rest.now.entries.now)) }
{
    match rest.split() {
        Some((pat, _)) => typed_rest_param(out, tokens, &pat, &rest.group_at(1)),
        None => {}
    }
}

/// A pattern after `...`, with its type or without.
fn typed_rest_param(out: &mut Draft, tokens: &[Token], pat: &Item<'_>, ty: &Siblings<'_>)
    ensures before { out.new.failed ≡ false → out.old.failed ≡ false }
    ensures written { out.new.failed ≡ false → (by : rules.Env) (x : List ℕ) → IfThere (λ p. IfThere (λ a. Turned x tokens.now fn_param_in (param_step by) out.old out.new (typed_rest_of (span_of tokens.now (first_of (valued x tokens.now pat.now) - 1) (behind_in (held x tokens.now ty.now.entries.now) (behind (valued x tokens.now pat.now)))) p a)) (option_map (λ ty. option_map vPart.TypeAnn ty) (optional type_at (held x tokens.now ty.now.entries.now)))) (pat_in (valued x tokens.now pat.now)) }
{
    match place_of(pat) {
        Some((from, next)) => match end_in(ty, next) {
            Some(to) => rest_up_to(out, tokens, pat, from, to, ty),
            None => out.fail(),
        },
        None => out.fail(),
    }
}

/// The same from its first token up to this one.
fn rest_up_to(
    out: &mut Draft,
    tokens: &[Token],
    pat: &Item<'_>,
    from: u32,
    to: u32,
    ty: &Siblings<'_>,
)
    ensures before { out.new.failed ≡ false → out.old.failed ≡ false }
    ensures written { out.new.failed ≡ false → (by : rules.Env) (x : List ℕ) → IfThere (λ p. IfThere (λ a. Turned x tokens.now fn_param_in (param_step by) out.old out.new (typed_rest_of (span_of tokens.now (from - 1) to) p a)) (option_map (λ ty. option_map vPart.TypeAnn ty) (optional type_at (held x tokens.now ty.now.entries.now)))) (pat_in (valued x tokens.now pat.now)) }
{
    let place = out.open();
    out.gone(from);
    pattern(out, tokens, pat);
    out.absent();
    annotation(out, ty);
    out.close(
        place,
        Change::Form(Form::RestParam),
        from.saturating_sub(1),
        to,
    );
}
