//! Declarators.

ghost use Rattle.std.specs.Prelude.{◌≡◌, false, ℕ, List, slice_get};
ghost use Rattle.es_token.specs.declared.token.Token.{Token as Tok};
ghost use Rattle.es_lexer.specs.Reads.{ReadsTokens};
ghost use Rattle.es_lowering.specs.Value.{expr_at, is_there, nil, optional};
ghost use Rattle.es_lowering.specs.Texts.{span_of};
ghost use Rattle.es_lowering.specs.Statements.{declarator};
ghost use Rattle.es_lowering.specs.TypedStatements.{typed_declarator};
ghost use Rattle.es_syntax.specs.declared.entry.What.TheVariants as vWhat;
ghost use Rattle.es_syntax.specs.Held.{held, valued};
ghost use Rattle.es_syntax.specs.Roles.{declarator_in, marked_in, pat_in};
ghost use Rattle.es_view_expressions.specs.pattern.Marked as marked_view;
ghost use Rattle.dts_variables.specs.Declarators.{declarator_with, named_pattern, value_of};
ghost use Rattle.dts_variables.specs.Steps.{DeclaratorBy};

use crate::names::{inferred_declarator, kept_declarator, noted_declarator};
use dts_draft::Draft;
use dts_names::Env;
use dts_parts::own_pattern;
use es_grammar::NodeKind;
use es_syntax::{Item, Siblings, What};
use es_view_expressions::pattern::{Marked, marked_at};

/// The first of these parts.
fn first_part<'a>(group: &Siblings<'a>) -> Option<Item<'a>>
    ensures { (x : List ℕ) (ts : List Tok) → optional expr_at (held x ts group.now.entries.now) ≡ value_of x ts result }
{
    match group.split() {
        Some((it, _)) => Some(it),
        None => None,
    }
}

/// No parts.
fn nothing() -> Siblings<'static>
    ensures { (x : List ℕ) (ts : List Tok) → held x ts result.entries.now ≡ nil }
{
    Siblings { entries: &[] }
}

/// A declarator of a name, which is this token: it keeps its type, or has that of its value.
fn name_declarator(
    out: &mut Draft,
    env: &Env<'_>,
    from: u32,
    to: u32,
    at: u32,
    name: &Item<'_>,
    mark: &Siblings<'_>,
    ty: &Siblings<'_>,
    value: Option<Item<'_>>,
)
    requires { ReadsTokens env.now.text.now env.now.tokens.now }
    ensures before { out.new.failed ≡ false → out.old.failed ≡ false }
    ensures written { out.new.failed ≡ false → marked_in (valued env.now.text.now env.now.tokens.now name.now) ≡ marked_view.ident env.now.text.now (slice_get env.now.tokens.now at) → DeclaratorBy env.now out.old out.new (declarator_with (span_of env.now.tokens.now from to) (is_there (held env.now.text.now env.now.tokens.now mark.now.entries.now)) (named_pattern env.now.tokens.now (valued env.now.text.now env.now.tokens.now name.now) (held env.now.text.now env.now.tokens.now ty.now.entries.now)) (value_of env.now.text.now env.now.tokens.now value.entry)) }
{
    match ty.split() {
        Some(_) => kept_declarator(out, from, to, name, mark, ty),
        None => inferred_declarator(out, env, from, to, at, name, mark, value),
    }
}

/// A declarator with this pattern, its mark, its type and its value, from one token up to another.
fn marked_declarator(
    out: &mut Draft,
    env: &Env<'_>,
    from: u32,
    to: u32,
    name: &Item<'_>,
    mark: &Siblings<'_>,
    ty: &Siblings<'_>,
    value: Option<Item<'_>>,
)
    requires { ReadsTokens env.now.text.now env.now.tokens.now }
    ensures before { out.new.failed ≡ false → out.old.failed ≡ false }
    ensures written { out.new.failed ≡ false → DeclaratorBy env.now out.old out.new (declarator_with (span_of env.now.tokens.now from to) (is_there (held env.now.text.now env.now.tokens.now mark.now.entries.now)) (named_pattern env.now.tokens.now (valued env.now.text.now env.now.tokens.now name.now) (held env.now.text.now env.now.tokens.now ty.now.entries.now)) (value_of env.now.text.now env.now.tokens.now value.entry)) }
{
    match marked_at(name) {
        Some(Marked::Ident(at)) => name_declarator(out, env, from, to, at, name, mark, ty, value),
        Some(Marked::Array { from: _, elems: _ }) => noted_declarator(
            out, env, from, to, name, mark, ty,
        ),
        Some(Marked::Object(_)) => noted_declarator(out, env, from, to, name, mark, ty),
        Some(Marked::Broken) => out.fail(),
        None => out.fail(),
    }
}

/// A declarator with this pattern and this value, without a mark and a type.
fn own_declarator(
    out: &mut Draft,
    env: &Env<'_>,
    from: u32,
    to: u32,
    name: &Item<'_>,
    value: Option<Item<'_>>,
)
    requires { ReadsTokens env.now.text.now env.now.tokens.now }
    ensures before { out.new.failed ≡ false → out.old.failed ≡ false }
    ensures written { out.new.failed ≡ false → DeclaratorBy env.now out.old out.new (declarator_with (span_of env.now.tokens.now from to) false (pat_in (valued env.now.text.now env.now.tokens.now name.now)) (value_of env.now.text.now env.now.tokens.now value.entry)) }
{
    if !own_pattern(name) {
        out.fail();
        return;
    }
    marked_declarator(out, env, from, to, name, &nothing(), &nothing(), value);
}

/// `a = b`
fn assigned_node(out: &mut Draft, env: &Env<'_>, from: u32, to: u32, parts: &Siblings<'_>)
    requires { ReadsTokens env.now.text.now env.now.tokens.now }
    ensures before { out.new.failed ≡ false → out.old.failed ≡ false }
    ensures written { out.new.failed ≡ false → DeclaratorBy env.now out.old out.new (declarator (span_of env.now.tokens.now from to) (held env.now.text.now env.now.tokens.now parts.now.entries.now)) }
{
    match parts.part(0) {
        Some(name) => match parts.part(1) {
            Some(value) => own_declarator(out, env, from, to, &name, Some(value)),
            None => out.fail(),
        },
        None => out.fail(),
    }
}

/// A declarator of TypeScript: its mark, its type and its value may be absent.
fn typed_node(out: &mut Draft, env: &Env<'_>, from: u32, to: u32, parts: &Siblings<'_>)
    requires { ReadsTokens env.now.text.now env.now.tokens.now }
    ensures before { out.new.failed ≡ false → out.old.failed ≡ false }
    ensures written { out.new.failed ≡ false → DeclaratorBy env.now out.old out.new (typed_declarator env.now.tokens.now (span_of env.now.tokens.now from to) (held env.now.text.now env.now.tokens.now parts.now.entries.now)) }
{
    match parts.part(0) {
        Some(name) => {
            let mark = parts.group_at(1);
            let ty = parts.group_at(2);
            let values = parts.group_at(3);
            let value = first_part(&values);
            marked_declarator(out, env, from, to, &name, &mark, &ty, value);
        }
        None => out.fail(),
    }
}

/// A declarator of this alternative.
fn declarator_node(out: &mut Draft, env: &Env<'_>, label: NodeKind, it: &Item<'_>)
    requires read { ReadsTokens env.now.text.now env.now.tokens.now }
    requires is { it.now.what ≡ vWhat.Node label }
    ensures before { out.new.failed ≡ false → out.old.failed ≡ false }
    ensures written { out.new.failed ≡ false → DeclaratorBy env.now out.old out.new (declarator_in (valued env.now.text.now env.now.tokens.now it.now)) }
{
    match label {
        NodeKind::Declarator => assigned_node(out, env, it.from, it.to, &it.parts),
        NodeKind::TypedDeclarator => typed_node(out, env, it.from, it.to, &it.parts),
        NodeKind::NamePattern => own_declarator(out, env, it.from, it.to, it, None),
        NodeKind::ArrayPattern => own_declarator(out, env, it.from, it.to, it, None),
        NodeKind::ObjectPattern => own_declarator(out, env, it.from, it.to, it, None),
        _ => out.fail(),
    }
}

/// A declarator as its declaration has it: without a value, and a name with a type.
pub(crate) fn declarator(out: &mut Draft, env: &Env<'_>, it: &Item<'_>)
    requires { ReadsTokens env.now.text.now env.now.tokens.now }
    ensures before { out.new.failed ≡ false → out.old.failed ≡ false }
    ensures written { out.new.failed ≡ false → DeclaratorBy env.now out.old out.new (declarator_in (valued env.now.text.now env.now.tokens.now it.now)) }
{
    match it.what {
        What::Node(label) => declarator_node(out, env, label, it),
        What::Leaf => out.fail(),
        What::Role(_) => out.fail(),
        What::Parts => out.fail(),
        What::Lean(_) => out.fail(),
    }
}
