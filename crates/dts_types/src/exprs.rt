//! The type of an expression.

ghost use Rattle.std.specs.Prelude.{◌≡◌, ◌<◌, ◌||◌, false, true, ℕ, List, Option, Some, length, IfSome};
ghost use Rattle.base.specs.declared.range.Range.{Range as ARange};
ghost use Rattle.es_token.specs.declared.token.Token.{Token as Tok};
ghost use Rattle.es_ast.specs.declared.ast.Expr.{Expr};
ghost use Rattle.es_lexer.specs.Reads.{ReadsTokens};
ghost use Rattle.es_syntax.specs.declared.entry.What.TheVariants as vWhat;
ghost use Rattle.es_syntax.specs.Held.{held, valued};
ghost use Rattle.es_syntax.specs.Roles.{expr_in};
ghost use Rattle.es_view_expressions.specs.operator.Operator as operator;
ghost use Rattle.es_lowering.specs.Value.{behind};
ghost use Rattle.dts_rules.specs.Rules as rules;
ghost use Rattle.dts_draft.specs.Drafts.{state_of};
ghost use Rattle.dts_draft.specs.Written.{IfThere};
ghost use Rattle.dts_names.specs.Names.{Knows};
ghost use Rattle.dts_operands.specs.Sources.{Decides};
ghost use Rattle.dts_types.specs.Types.{Infers, Inferred, OrAnyInferred};

use crate::arrays::array_type;
use crate::ask::Ask;
use crate::functions::function_type;
use crate::objects::object_type;
use base::Range;
use dts_draft::Draft;
use dts_kept::kept_type;
use dts_names::Env;
use dts_operands::{
    Callee, Sort, Source, cast, leaf_type, lean_turns, new_type, signed_type, sort_of, turned,
    value_of,
};
use dts_rules::FoundKind;
use es_changed::Word;
use es_grammar::NodeKind;
use es_syntax::{Item, Lean, Siblings, What};
use es_view_expressions::expr::{Primary, primary_at};
use es_view_expressions::operator::{Operator, chain_at, operator_at};

/// Writes the type of an expression, and answers whether it has one: where it has none, nothing is written. What no grammar makes
/// is reported as out of memory.
#[cycle(types)]
pub fn infer(out: &mut Draft, env: &Env<'_>, it: &Item<'_>, ask: Ask) -> bool
    requires read { ReadsTokens env.now.text.now env.now.tokens.now }
    ensures before { out.new.failed ≡ false → out.old.failed ≡ false }
    ensures written { out.new.failed ≡ false → Inferred env.now ask out.old out.new result (expr_in (valued env.now.text.now env.now.tokens.now it.now)) }
{
    match it.what {
        What::Node(label) => node_type(out, env, it, label, ask),
        What::Lean(lean) => lean_type(out, env, it, lean, ask),
        What::Leaf => {
            out.fail();
            false
        }
        What::Role(_) => {
            out.fail();
            false
        }
        What::Parts => {
            out.fail();
            false
        }
    }
}

/// Writes the type of an expression, or `any` with a diagnostic of this kind at this range. What no grammar makes is reported as
/// out of memory.
#[cycle(types)]
pub fn infer_or_any(
    out: &mut Draft,
    env: &Env<'_>,
    it: &Item<'_>,
    ask: Ask,
    kind: FoundKind,
    range: Range,
)
    requires read { ReadsTokens env.now.text.now env.now.tokens.now }
    requires plain { ask.frozen ≡ false }
    ensures before { out.new.failed ≡ false → out.old.failed ≡ false }
    ensures written { out.new.failed ≡ false → OrAnyInferred env.now kind range ask out.old out.new (expr_in (valued env.now.text.now env.now.tokens.now it.now)) }
{
    if infer(out, env, it, ask) {
        return;
    }
    out.note(kind, range);
    out.word(Word::Any);
}

/// The type of a node of this alternative.
#[cycle(types)]
#[tactic(auto, using(crate::proofs::TypeLemmas::unfrozen_at, crate::proofs::TypeLemmas::leaf_infers))]
fn node_type(out: &mut Draft, env: &Env<'_>, it: &Item<'_>, label: NodeKind, ask: Ask) -> bool
    requires read { ReadsTokens env.now.text.now env.now.tokens.now }
    requires is { it.now.what ≡ vWhat.Node label }
    ensures before { out.new.failed ≡ false → out.old.failed ≡ false }
    ensures written { out.new.failed ≡ false → Inferred env.now ask out.old out.new result (expr_in (valued env.now.text.now env.now.tokens.now it.now)) }
{
    match sort_of(label) {
        Sort::Leaf => {
            if ask.frozen {
                return false;
            }
            leaf_type(out, env, it, ask.literal)
        }
        Sort::Signed => {
            if ask.frozen {
                return false;
            }
            signed_type(out, env, it, ask.literal)
        }
        Sort::New => {
            if ask.frozen {
                return false;
            }
            new_type(out, env, it, ask.literal)
        }
        Sort::List => list_type(out, env, it, ask),
        Sort::Function => function_type(out, env, it, ask),
        Sort::Chain => chain_type(out, env, it, ask),
        Sort::Turned => turned_type(out, env, it, ask),
        Sort::Other => false,
    }
}

/// The type of an array or an object.
#[cycle(types)]
fn list_type(out: &mut Draft, env: &Env<'_>, it: &Item<'_>, ask: Ask) -> bool
    requires read { ReadsTokens env.now.text.now env.now.tokens.now }
    ensures before { out.new.failed ≡ false → out.old.failed ≡ false }
    ensures written { out.new.failed ≡ false → Inferred env.now ask out.old out.new result (expr_in (valued env.now.text.now env.now.tokens.now it.now)) }
{
    match primary_at(it) {
        Some(Primary::Array { from: _, elems }) => array_type(out, env, &elems, ask),
        Some(Primary::Object(props)) => object_type(out, env, &props, ask),
        Some(_) => {
            out.fail();
            false
        }
        None => {
            out.fail();
            false
        }
    }
}

/// The type of a chain: that of a value that `Object.freeze` is called with.
#[cycle(types)]
fn chain_type(out: &mut Draft, env: &Env<'_>, it: &Item<'_>, ask: Ask) -> bool
    requires read { ReadsTokens env.now.text.now env.now.tokens.now }
    ensures before { out.new.failed ≡ false → out.old.failed ≡ false }
    ensures written { out.new.failed ≡ false → Inferred env.now ask out.old out.new result (expr_in (valued env.now.text.now env.now.tokens.now it.now)) }
{
    match value_of(env, it) {
        Callee::Value(value) => {
            let frozen = Ask {
                literal: ask.literal,
                readonly: ask.readonly,
                frozen: true,
            };
            infer(out, env, &value, frozen)
        }
        Callee::Freeze => false,
        Callee::Neither => false,
        Callee::Object => {
            out.fail();
            false
        }
        Callee::Broken => {
            out.fail();
            false
        }
    }
}

/// The type of an expression with `as`, `satisfies` or an operator of their level after it, or with a type before it.
#[cycle(types)]
fn turned_type(out: &mut Draft, env: &Env<'_>, it: &Item<'_>, ask: Ask) -> bool
    requires read { ReadsTokens env.now.text.now env.now.tokens.now }
    ensures before { out.new.failed ≡ false → out.old.failed ≡ false }
    ensures written { out.new.failed ≡ false → Inferred env.now ask out.old out.new result (expr_in (valued env.now.text.now env.now.tokens.now it.now)) }
{
    match operator_at(it) {
        Some(Operator::TypedBinary { left, turn }) => left_type(out, env, &left, &turn, ask),
        Some(Operator::TypeAssertion { asserted, arg }) => cast_type(
            out, env, &asserted, &arg, ask,
        ),
        Some(_) => {
            out.fail();
            false
        }
        None => {
            out.fail();
            false
        }
    }
}

/// The type of this expression with this turn after it.
#[cycle(types)]
fn left_type(out: &mut Draft, env: &Env<'_>, left: &Item<'_>, turn: &Siblings<'_>, ask: Ask) -> bool
    requires read { ReadsTokens env.now.text.now env.now.tokens.now }
    ensures before { out.new.failed ≡ false → out.old.failed ≡ false }
    ensures written { out.new.failed ≡ false → (r : ARange) → Inferred env.now ask out.old out.new result (operator.turned env.now.tokens.now r (behind (valued env.now.text.now env.now.tokens.now left.now)) (expr_in (valued env.now.text.now env.now.tokens.now left.now)) (held env.now.text.now env.now.tokens.now turn.now.entries.now)) }
{
    let source = turned(env.tokens, Source::Operand { is_const: false }, turn);
    source_type(out, env, left, source, ask)
}

/// The type of this operand with a type or `const` before it.
#[cycle(types)]
fn cast_type(
    out: &mut Draft,
    env: &Env<'_>,
    before: &Siblings<'_>,
    arg: &Item<'_>,
    ask: Ask,
) -> bool
    requires read { ReadsTokens env.now.text.now env.now.tokens.now }
    ensures before { out.new.failed ≡ false → out.old.failed ≡ false }
    ensures written { out.new.failed ≡ false → (r : ARange) → Inferred env.now ask out.old out.new result (operator.asserted r (held env.now.text.now env.now.tokens.now before.now.entries.now) (expr_in (valued env.now.text.now env.now.tokens.now arg.now))) }
{
    let source = cast(before);
    source_type(out, env, arg, source, ask)
}

/// The type of left-associative nodes.
#[cycle(types)]
fn lean_type(out: &mut Draft, env: &Env<'_>, it: &Item<'_>, lean: Lean, ask: Ask) -> bool
    requires read { ReadsTokens env.now.text.now env.now.tokens.now }
    requires is { it.now.what ≡ vWhat.Lean lean }
    ensures before { out.new.failed ≡ false → out.old.failed ≡ false }
    ensures written { out.new.failed ≡ false → Inferred env.now ask out.old out.new result (expr_in (valued env.now.text.now env.now.tokens.now it.now)) }
{
    match lean {
        Lean::Binary => false,
        Lean::TypedBinary => match it.parts.split() {
            Some((first, turns)) => {
                let source = lean_turns(env.tokens, Source::Operand { is_const: false }, &turns);
                source_type(out, env, &first, source, ask)
            }
            None => {
                out.fail();
                false
            }
        },
    }
}

/// Whether one of these holds.
fn either(a: bool, b: bool) -> bool
    ensures { result ≡ (a || b) }
{
    a || b
}

/// How an operand is asked for, in what is `const` or not.
fn operand_ask(is_const: bool, ask: Ask) -> Ask
    ensures { result ≡ record { literal = is_const || ask.literal; readonly = is_const || ask.readonly; frozen = ask.frozen } }
{
    Ask {
        literal: either(is_const, ask.literal),
        readonly: either(is_const, ask.readonly),
        frozen: ask.frozen,
    }
}

/// The type that is decided so, by the first operand.
#[cycle(types)]
fn source_type(
    out: &mut Draft,
    env: &Env<'_>,
    first: &Item<'_>,
    source: Source<'_>,
    ask: Ask,
) -> bool
    requires read { ReadsTokens env.now.text.now env.now.tokens.now }
    ensures before { out.new.failed ≡ false → out.old.failed ≡ false }
    ensures written { out.new.failed ≡ false → (by : rules.Env) → Knows env.now by → (operand e : Expr) → expr_in (valued env.now.text.now env.now.tokens.now first.now) ≡ Some operand → Decides by env.now.text.now env.now.tokens.now operand source.entry e → Infers env.now.text.now env.now.tokens.now by ask out.old out.new result e }
{
    match source {
        Source::Operand { is_const } => { infer(out, env, first, operand_ask(is_const, ask)) }
        Source::Type(ty) => kept_type(out, env.tokens, &ty, ask.frozen),
        Source::Untyped => false,
        Source::Broken => {
            out.fail();
            false
        }
    }
}
