//! Parameters of functions that lose their body.

ghost use Rattle.std.specs.Prelude.{◌≡◌, false, true, ℕ, List, [], ◌∷◌, IfSome, option_map, slice_get};
ghost use Rattle.base.specs.declared.range.Range.{Range as ARange};
ghost use Rattle.es_token.specs.declared.token.Token.{Token as Tok};
ghost use Rattle.es_ast.specs.declared.ast.Pat.TheVariants as vPat;
ghost use Rattle.es_lexer.specs.Reads.{ReadsTokens};
ghost use Rattle.es_lowering.specs.Value.{Value, behind, more, nil};
ghost use Rattle.es_lowering.specs.Texts.{span_of};
ghost use Rattle.es_lowering.specs.Functions.{param_of, plain};
ghost use Rattle.es_lowering.specs.TypedParts.{modifiers_in};
ghost use Rattle.es_lowering.specs.TypeNames.{behind_in};
ghost use Rattle.es_syntax.specs.Held.{held, valued};
ghost use Rattle.es_syntax.specs.Roles.{expr_in, marked_in, param_in, pat_in};
ghost use Rattle.es_view_expressions.specs.pattern.Marked as marked_view;
ghost use Rattle.dts_rules.specs.Rules as rules;
ghost use Rattle.es_changed.specs.Shape.{Writes};
ghost use Rattle.dts_draft.specs.Drafts.{state_of};
ghost use Rattle.dts_draft.specs.Written.{IfThere};
ghost use Rattle.dts_names.specs.Names.{Knows};
ghost use Rattle.dts_parts.specs.Params.{param_rule, default_param_of, Made, MadeOf, DefaultTailed, DefaultMade, AnyTailed, AnyMade, TailedParam, PropertyParam, Changes, NoName};
ghost use Rattle.dts_parts.specs.Steps.{ParamMade};

use crate::annotations::{any_group, end_in, end_of, kept_group, optional_group, type_group};
use crate::patterns::{is_property, own_pattern};
use dts_draft::Draft;
use dts_names::Env;
use dts_rules::FoundKind;
use es_grammar::NodeKind;
use es_syntax::{Item, Siblings};
use es_token::Token;
use es_view_expressions::pattern::{Marked, Pat, marked_at, pat_at};
use es_view_statements::param::{Param, param_at};

/// A pattern with a default, which goes: the pattern becomes optional, and has its own type or that of the default.
fn default_tail(
    out: &mut Draft,
    env: &Env<'_>,
    to: u32,
    name: &Item<'_>,
    mark: &Siblings<'_>,
    ty: &Siblings<'_>,
    right: &Item<'_>,
)
    requires { ReadsTokens env.now.text.now env.now.tokens.now }
    ensures before { out.new.failed ≡ false → out.old.failed ≡ false }
    ensures written { out.new.failed ≡ false → (by : rules.Env) → Knows env.now by → DefaultTailed env.now.text.now env.now.tokens.now by out.old out.new (valued env.now.text.now env.now.tokens.now name.now) (held env.now.text.now env.now.tokens.now mark.now.entries.now) (held env.now.text.now env.now.tokens.now ty.now.entries.now) (expr_in (valued env.now.text.now env.now.tokens.now right.now)) }
{
    out.keep_there(name);
    optional_group(out);
    type_group(out, env, name, mark, ty, right);
    out.gone(to);
    out.absent();
}

/// The token of this number.
fn token_at(tokens: &[Token], at: u32) -> Option<Token>
    ensures { result ≡ slice_get tokens.now at }
{
    tokens.get(at as usize).copied()
}

/// A name without a type and a default, where it ends with its mark before this token: it is `any`.
fn any_up_to(out: &mut Draft, env: &Env<'_>, name: &Item<'_>, at: u32, mark: &Siblings<'_>, to: u32)
    ensures before { out.new.failed ≡ false → out.old.failed ≡ false }
    ensures written { out.new.failed ≡ false → behind_in (held env.now.text.now env.now.tokens.now mark.now.entries.now) (behind (valued env.now.text.now env.now.tokens.now name.now)) ≡ to → (by : rules.Env) → AnyTailed env.now.text.now env.now.tokens.now by out.old out.new at (valued env.now.text.now env.now.tokens.now name.now) (held env.now.text.now env.now.tokens.now mark.now.entries.now) }
{
    match token_at(env.tokens, at) {
        Some(token) => {
            out.keep_there(name);
            kept_group(out, mark);
            out.dropped(to, to);
            out.note(FoundKind::UnableToInferTypeFallbackAny, token.range());
            any_group(out, to);
            out.absent();
        }
        None => out.fail(),
    }
}

/// The same, wherever it ends.
fn any_tail(out: &mut Draft, env: &Env<'_>, name: &Item<'_>, at: u32, mark: &Siblings<'_>)
    ensures before { out.new.failed ≡ false → out.old.failed ≡ false }
    ensures written { out.new.failed ≡ false → (by : rules.Env) → AnyTailed env.now.text.now env.now.tokens.now by out.old out.new at (valued env.now.text.now env.now.tokens.now name.now) (held env.now.text.now env.now.tokens.now mark.now.entries.now) }
{
    match end_of(name) {
        Some(next) => match end_in(mark, next) {
            Some(to) => any_up_to(out, env, name, at, mark, to),
            None => out.fail(),
        },
        None => out.fail(),
    }
}

/// A parameter with a default, in a node from one token up to another one.
fn marked_default(
    out: &mut Draft,
    env: &Env<'_>,
    from: u32,
    to: u32,
    name: &Item<'_>,
    mark: &Siblings<'_>,
    ty: &Siblings<'_>,
    right: &Item<'_>,
)
    requires { ReadsTokens env.now.text.now env.now.tokens.now }
    ensures before { out.new.failed ≡ false → out.old.failed ≡ false }
    ensures written { out.new.failed ≡ false → (by : rules.Env) → Knows env.now by → DefaultMade env.now.text.now env.now.tokens.now by out.old out.new plain (span_of env.now.tokens.now from to) (valued env.now.text.now env.now.tokens.now name.now) (held env.now.text.now env.now.tokens.now mark.now.entries.now) (held env.now.text.now env.now.tokens.now ty.now.entries.now) (expr_in (valued env.now.text.now env.now.tokens.now right.now)) }
{
    let place = out.open();
    default_tail(out, env, to, name, mark, ty, right);
    out.close_node(place, NodeKind::MarkedParameter, from, to);
}

/// The same after modifiers.
fn property_default(
    out: &mut Draft,
    env: &Env<'_>,
    from: u32,
    to: u32,
    modifiers: &Siblings<'_>,
    name: &Item<'_>,
    mark: &Siblings<'_>,
    ty: &Siblings<'_>,
    right: &Item<'_>,
)
    requires { ReadsTokens env.now.text.now env.now.tokens.now }
    ensures before { out.new.failed ≡ false → out.old.failed ≡ false }
    ensures written { out.new.failed ≡ false → (by : rules.Env) → Knows env.now by → Changes env.now.text.now env.now.tokens.now by (held env.now.text.now env.now.tokens.now modifiers.now.entries.now) (valued env.now.text.now env.now.tokens.now name.now) → IfThere (λ m. DefaultMade env.now.text.now env.now.tokens.now by out.old out.new m (span_of env.now.tokens.now from to) (valued env.now.text.now env.now.tokens.now name.now) (held env.now.text.now env.now.tokens.now mark.now.entries.now) (held env.now.text.now env.now.tokens.now ty.now.entries.now) (expr_in (valued env.now.text.now env.now.tokens.now right.now))) (modifiers_in env.now.tokens.now plain (held env.now.text.now env.now.tokens.now modifiers.now.entries.now)) }
{
    let place = out.open();
    kept_group(out, modifiers);
    default_tail(out, env, to, name, mark, ty, right);
    out.close_node(place, NodeKind::PropertyParameter, from, to);
}

/// A name without a type and a default as a parameter, in a node from one token up to another one.
fn marked_any(
    out: &mut Draft,
    env: &Env<'_>,
    from: u32,
    to: u32,
    at: u32,
    name: &Item<'_>,
    mark: &Siblings<'_>,
)
    ensures before { out.new.failed ≡ false → out.old.failed ≡ false }
    ensures written { out.new.failed ≡ false → (by : rules.Env) → AnyMade env.now.text.now env.now.tokens.now by out.old out.new plain (span_of env.now.tokens.now from to) at (valued env.now.text.now env.now.tokens.now name.now) (held env.now.text.now env.now.tokens.now mark.now.entries.now) }
{
    let place = out.open();
    any_tail(out, env, name, at, mark);
    out.close_node(place, NodeKind::MarkedParameter, from, to);
}

/// The same after modifiers.
fn property_any(
    out: &mut Draft,
    env: &Env<'_>,
    from: u32,
    to: u32,
    modifiers: &Siblings<'_>,
    at: u32,
    name: &Item<'_>,
    mark: &Siblings<'_>,
)
    ensures before { out.new.failed ≡ false → out.old.failed ≡ false }
    ensures written { out.new.failed ≡ false → (by : rules.Env) → IfThere (λ m. AnyMade env.now.text.now env.now.tokens.now by out.old out.new m (span_of env.now.tokens.now from to) at (valued env.now.text.now env.now.tokens.now name.now) (held env.now.text.now env.now.tokens.now mark.now.entries.now)) (modifiers_in env.now.tokens.now plain (held env.now.text.now env.now.tokens.now modifiers.now.entries.now)) }
{
    let place = out.open();
    kept_group(out, modifiers);
    any_tail(out, env, name, at, mark);
    out.close_node(place, NodeKind::PropertyParameter, from, to);
}

/// No parts.
fn nothing() -> Siblings<'static>
    ensures { (x : List ℕ) (ts : List Tok) → held x ts result.entries.now ≡ nil }
{
    Siblings { entries: &[] }
}

/// A pattern without a mark and a type, with a default.
fn default_own(
    out: &mut Draft,
    env: &Env<'_>,
    from: u32,
    to: u32,
    left: &Item<'_>,
    right: &Item<'_>,
)
    requires { ReadsTokens env.now.text.now env.now.tokens.now }
    ensures before { out.new.failed ≡ false → out.old.failed ≡ false }
    ensures written { out.new.failed ≡ false → (by : rules.Env) → Knows env.now by → (span : ARange) → IfThere (λ l. IfThere (λ e. MadeOf env.now.text.now env.now.tokens.now by out.old out.new plain (span_of env.now.tokens.now from to) (vPat.Assign l e span)) (expr_in (valued env.now.text.now env.now.tokens.now right.now))) (pat_in (valued env.now.text.now env.now.tokens.now left.now)) }
{
    if !own_pattern(left) {
        out.fail();
        return;
    }
    marked_default(out, env, from, to, left, &nothing(), &nothing(), right);
}

/// `a = b`
fn default_param(out: &mut Draft, env: &Env<'_>, it: &Item<'_>, left: &Item<'_>, right: &Item<'_>)
    requires { ReadsTokens env.now.text.now env.now.tokens.now }
    ensures before { out.new.failed ≡ false → out.old.failed ≡ false }
    ensures written { out.new.failed ≡ false → (by : rules.Env) → Knows env.now by → (span : ARange) → param_in (valued env.now.text.now env.now.tokens.now it.now) ≡ default_param_of (span_of env.now.tokens.now it.now.from it.now.to) span (pat_in (valued env.now.text.now env.now.tokens.now left.now)) (expr_in (valued env.now.text.now env.now.tokens.now right.now)) → IfThere (Made env.now.text.now env.now.tokens.now param_in (param_rule by) out.old out.new) (param_in (valued env.now.text.now env.now.tokens.now it.now)) }
{
    match pat_at(left) {
        Some(Pat::Ident(_)) => default_own(out, env, it.from, it.to, left, right),
        Some(Pat::Array { from: _, elems: _ }) => default_own(
            out, env, it.from, it.to, left, right,
        ),
        Some(Pat::Object(_)) => default_own(out, env, it.from, it.to, left, right),
        Some(Pat::Rest(_)) => out.keep_there(it),
        Some(Pat::Default { left: _, right: _ }) => out.keep_there(it),
        Some(Pat::Target(_)) => out.keep_there(it),
        Some(Pat::Broken) => out.fail(),
        None => out.fail(),
    }
}

/// A name alone.
fn name_param(out: &mut Draft, env: &Env<'_>, it: &Item<'_>, node: &Item<'_>)
    ensures before { out.new.failed ≡ false → out.old.failed ≡ false }
    ensures written { out.new.failed ≡ false → (by : rules.Env) → IfThere (Made env.now.text.now env.now.tokens.now param_in (param_rule by) out.old out.new) (option_map (param_of (span_of env.now.tokens.now it.now.from it.now.to)) (pat_in (valued env.now.text.now env.now.tokens.now node.now))) }
{
    if !own_pattern(node) {
        out.fail();
        return;
    }
    match marked_at(node) {
        Some(Marked::Ident(at)) => marked_any(out, env, it.from, it.to, at, node, &nothing()),
        Some(Marked::Array { from: _, elems: _ }) => out.fail(),
        Some(Marked::Object(_)) => out.fail(),
        Some(Marked::Broken) => out.fail(),
        None => out.fail(),
    }
}

/// A pattern alone.
fn pattern_param(out: &mut Draft, env: &Env<'_>, it: &Item<'_>, node: &Item<'_>)
    requires { ReadsTokens env.now.text.now env.now.tokens.now }
    ensures before { out.new.failed ≡ false → out.old.failed ≡ false }
    ensures written { out.new.failed ≡ false → (by : rules.Env) → Knows env.now by → param_in (valued env.now.text.now env.now.tokens.now it.now) ≡ option_map (param_of (span_of env.now.tokens.now it.now.from it.now.to)) (pat_in (valued env.now.text.now env.now.tokens.now node.now)) → IfThere (Made env.now.text.now env.now.tokens.now param_in (param_rule by) out.old out.new) (param_in (valued env.now.text.now env.now.tokens.now it.now)) }
{
    match pat_at(node) {
        Some(Pat::Ident(_)) => name_param(out, env, it, node),
        Some(Pat::Array { from: _, elems: _ }) => out.keep_there(it),
        Some(Pat::Object(_)) => out.keep_there(it),
        Some(Pat::Rest(_)) => out.keep_there(it),
        Some(Pat::Default { left, right }) => default_param(out, env, it, &left, &right),
        Some(Pat::Target(_)) => out.keep_there(it),
        Some(Pat::Broken) => out.fail(),
        None => out.fail(),
    }
}

/// A pattern with a mark and neither a type nor a default.
fn bare_param(out: &mut Draft, env: &Env<'_>, it: &Item<'_>, name: &Item<'_>, mark: &Siblings<'_>)
    ensures before { out.new.failed ≡ false → out.old.failed ≡ false }
    ensures written { out.new.failed ≡ false → (by : rules.Env) (span : ARange) (ty value : Value) → ty ≡ nil → value ≡ nil → param_in (valued env.now.text.now env.now.tokens.now it.now) ≡ TailedParam env.now.text.now env.now.tokens.now plain (span_of env.now.tokens.now it.now.from it.now.to) span (valued env.now.text.now env.now.tokens.now name.now) (held env.now.text.now env.now.tokens.now mark.now.entries.now) ty value → IfThere (Made env.now.text.now env.now.tokens.now param_in (param_rule by) out.old out.new) (param_in (valued env.now.text.now env.now.tokens.now it.now)) }
{
    match marked_at(name) {
        Some(Marked::Ident(at)) => marked_any(out, env, it.from, it.to, at, name, mark),
        Some(Marked::Array { from: _, elems: _ }) => out.keep_there(it),
        Some(Marked::Object(_)) => out.keep_there(it),
        Some(Marked::Broken) => out.fail(),
        None => out.fail(),
    }
}

/// A pattern with its mark, its type and its default, each of which may be absent.
fn tailed_param(
    out: &mut Draft,
    env: &Env<'_>,
    it: &Item<'_>,
    name: &Item<'_>,
    mark: &Siblings<'_>,
    ty: &Siblings<'_>,
    value: &Siblings<'_>,
)
    requires { ReadsTokens env.now.text.now env.now.tokens.now }
    ensures before { out.new.failed ≡ false → out.old.failed ≡ false }
    ensures written { out.new.failed ≡ false → (by : rules.Env) → Knows env.now by → (span : ARange) → param_in (valued env.now.text.now env.now.tokens.now it.now) ≡ TailedParam env.now.text.now env.now.tokens.now plain (span_of env.now.tokens.now it.now.from it.now.to) span (valued env.now.text.now env.now.tokens.now name.now) (held env.now.text.now env.now.tokens.now mark.now.entries.now) (held env.now.text.now env.now.tokens.now ty.now.entries.now) (held env.now.text.now env.now.tokens.now value.now.entries.now) → IfThere (Made env.now.text.now env.now.tokens.now param_in (param_rule by) out.old out.new) (param_in (valued env.now.text.now env.now.tokens.now it.now)) }
{
    match value.split() {
        Some((right, _)) => marked_default(out, env, it.from, it.to, name, mark, ty, &right),
        None => match ty.split() {
            Some(_) => out.keep_there(it),
            None => bare_param(out, env, it, name, mark),
        },
    }
}

/// The same after modifiers, without a type and a default.
fn bare_property(
    out: &mut Draft,
    env: &Env<'_>,
    it: &Item<'_>,
    modifiers: &Siblings<'_>,
    name: &Item<'_>,
    mark: &Siblings<'_>,
)
    ensures before { out.new.failed ≡ false → out.old.failed ≡ false }
    ensures written { out.new.failed ≡ false → (by : rules.Env) (span : ARange) (ty value : Value) → ty ≡ nil → value ≡ nil → param_in (valued env.now.text.now env.now.tokens.now it.now) ≡ PropertyParam env.now.text.now env.now.tokens.now (span_of env.now.tokens.now it.now.from it.now.to) span (held env.now.text.now env.now.tokens.now modifiers.now.entries.now) (valued env.now.text.now env.now.tokens.now name.now) (held env.now.text.now env.now.tokens.now mark.now.entries.now) ty value → IfThere (Made env.now.text.now env.now.tokens.now param_in (param_rule by) out.old out.new) (param_in (valued env.now.text.now env.now.tokens.now it.now)) }
{
    match marked_at(name) {
        Some(Marked::Ident(at)) => property_any(
            out, env, it.from, it.to, modifiers, at, name, mark,
        ),
        Some(Marked::Array { from: _, elems: _ }) => out.keep_there(it),
        Some(Marked::Object(_)) => out.keep_there(it),
        Some(Marked::Broken) => out.fail(),
        None => out.fail(),
    }
}

/// An array or an object with a default after modifiers: it stays if it is a property of the class.
fn pattern_property(
    out: &mut Draft,
    env: &Env<'_>,
    it: &Item<'_>,
    modifiers: &Siblings<'_>,
    name: &Item<'_>,
    mark: &Siblings<'_>,
    ty: &Siblings<'_>,
    right: &Item<'_>,
)
    requires { ReadsTokens env.now.text.now env.now.tokens.now }
    ensures before { out.new.failed ≡ false → out.old.failed ≡ false }
    ensures written { out.new.failed ≡ false → (by : rules.Env) → Knows env.now by → NoName env.now.text.now env.now.tokens.now by (valued env.now.text.now env.now.tokens.now name.now) → (span : ARange) (value vs : Value) → value ≡ more (valued env.now.text.now env.now.tokens.now right.now) vs → param_in (valued env.now.text.now env.now.tokens.now it.now) ≡ PropertyParam env.now.text.now env.now.tokens.now (span_of env.now.tokens.now it.now.from it.now.to) span (held env.now.text.now env.now.tokens.now modifiers.now.entries.now) (valued env.now.text.now env.now.tokens.now name.now) (held env.now.text.now env.now.tokens.now mark.now.entries.now) (held env.now.text.now env.now.tokens.now ty.now.entries.now) value → IfThere (Made env.now.text.now env.now.tokens.now param_in (param_rule by) out.old out.new) (param_in (valued env.now.text.now env.now.tokens.now it.now)) }
{
    if is_property(env.tokens, modifiers) {
        out.keep_there(it);
    } else {
        property_default(out, env, it.from, it.to, modifiers, name, mark, ty, right);
    }
}

/// A property of the class with a default.
fn defaulted_property(
    out: &mut Draft,
    env: &Env<'_>,
    it: &Item<'_>,
    modifiers: &Siblings<'_>,
    name: &Item<'_>,
    mark: &Siblings<'_>,
    ty: &Siblings<'_>,
    right: &Item<'_>,
)
    requires { ReadsTokens env.now.text.now env.now.tokens.now }
    ensures before { out.new.failed ≡ false → out.old.failed ≡ false }
    ensures written { out.new.failed ≡ false → (by : rules.Env) → Knows env.now by → (span : ARange) (value vs : Value) → value ≡ more (valued env.now.text.now env.now.tokens.now right.now) vs → param_in (valued env.now.text.now env.now.tokens.now it.now) ≡ PropertyParam env.now.text.now env.now.tokens.now (span_of env.now.tokens.now it.now.from it.now.to) span (held env.now.text.now env.now.tokens.now modifiers.now.entries.now) (valued env.now.text.now env.now.tokens.now name.now) (held env.now.text.now env.now.tokens.now mark.now.entries.now) (held env.now.text.now env.now.tokens.now ty.now.entries.now) value → IfThere (Made env.now.text.now env.now.tokens.now param_in (param_rule by) out.old out.new) (param_in (valued env.now.text.now env.now.tokens.now it.now)) }
{
    match marked_at(name) {
        Some(Marked::Ident(_)) => property_default(
            out, env, it.from, it.to, modifiers, name, mark, ty, right,
        ),
        Some(Marked::Array { from: _, elems: _ }) => pattern_property(
            out, env, it, modifiers, name, mark, ty, right,
        ),
        Some(Marked::Object(_)) => pattern_property(out, env, it, modifiers, name, mark, ty, right),
        Some(Marked::Broken) => out.fail(),
        None => out.fail(),
    }
}

/// A property of the class.
fn property_param(
    out: &mut Draft,
    env: &Env<'_>,
    it: &Item<'_>,
    modifiers: &Siblings<'_>,
    name: &Item<'_>,
    mark: &Siblings<'_>,
    ty: &Siblings<'_>,
    value: &Siblings<'_>,
)
    requires { ReadsTokens env.now.text.now env.now.tokens.now }
    ensures before { out.new.failed ≡ false → out.old.failed ≡ false }
    ensures written { out.new.failed ≡ false → (by : rules.Env) → Knows env.now by → (span : ARange) → param_in (valued env.now.text.now env.now.tokens.now it.now) ≡ PropertyParam env.now.text.now env.now.tokens.now (span_of env.now.tokens.now it.now.from it.now.to) span (held env.now.text.now env.now.tokens.now modifiers.now.entries.now) (valued env.now.text.now env.now.tokens.now name.now) (held env.now.text.now env.now.tokens.now mark.now.entries.now) (held env.now.text.now env.now.tokens.now ty.now.entries.now) (held env.now.text.now env.now.tokens.now value.now.entries.now) → IfThere (Made env.now.text.now env.now.tokens.now param_in (param_rule by) out.old out.new) (param_in (valued env.now.text.now env.now.tokens.now it.now)) }
{
    match value.split() {
        Some((right, _)) => defaulted_property(out, env, it, modifiers, name, mark, ty, &right),
        None => match ty.split() {
            Some(_) => out.keep_there(it),
            None => bare_property(out, env, it, modifiers, name, mark),
        },
    }
}

/// A parameter as its declaration has it: without its default, optional where it had one, and with a type.
pub fn param(out: &mut Draft, env: &Env<'_>, it: &Item<'_>)
    requires { ReadsTokens env.now.text.now env.now.tokens.now }
    ensures before { out.new.failed ≡ false → out.old.failed ≡ false }
    ensures written { out.new.failed ≡ false → ParamMade env.now out.old out.new (param_in (valued env.now.text.now env.now.tokens.now it.now)) }
{
    match param_at(it) {
        Some(Param::Default { left, right }) => default_param(out, env, it, &left, &right),
        Some(
            Param::This {
                word: _,
                ty: _,
                value: _,
            },
        ) => out.keep_there(it),
        Some(
            Param::Property {
                modifiers,
                name,
                mark,
                ty,
                value,
            },
        ) => property_param(out, env, it, &modifiers, &name, &mark, &ty, &value),
        Some(
            Param::Marked {
                name,
                mark,
                ty,
                value,
            },
        ) => tailed_param(out, env, it, &name, &mark, &ty, &value),
        Some(Param::Pattern(node)) => pattern_param(out, env, it, &node),
        Some(Param::Broken) => out.fail(),
        None => out.fail(),
    }
}
