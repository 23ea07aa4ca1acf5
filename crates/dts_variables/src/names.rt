//! Patterns of declarators with their types.

ghost use Rattle.std.specs.Prelude.{◌≡◌, false, ℕ, List, [], slice_get, IfSome};
ghost use Rattle.es_token.specs.declared.token.Token.{Token as Tok};
ghost use Rattle.es_lexer.specs.Reads.{ReadsTokens};
ghost use Rattle.es_lowering.specs.Value.{behind, is_there};
ghost use Rattle.es_lowering.specs.Texts.{span_of};
ghost use Rattle.es_lowering.specs.TypeNames.{behind_in};
ghost use Rattle.es_syntax.specs.Held.{held, valued};
ghost use Rattle.es_changed.specs.Shape.{Writes};
ghost use Rattle.dts_rules.specs.declared.found.FoundKind.TheVariants as kind;
ghost use Rattle.dts_rules.specs.Rules as rules;
ghost use Rattle.dts_rules.specs.Rules.{note};
ghost use Rattle.dts_draft.specs.Drafts.{state_of};
ghost use Rattle.dts_draft.specs.Written.{IfThere};
ghost use Rattle.dts_names.specs.Names.{Knows};
ghost use Rattle.dts_variables.specs.Declarators.{named_pattern, value_of, Bare, NameMade};

use crate::types::value_group;
use dts_draft::Draft;
use dts_names::Env;
use dts_parts::{end_in, end_of, kept_group};
use dts_rules::FoundKind;
use es_expr_spans::span_of;
use es_grammar::NodeKind;
use es_syntax::{Item, Siblings};
use es_token::Token;

/// The token of this number.
fn token_at(tokens: &[Token], at: u32) -> Option<Token>
    ensures { result ≡ slice_get tokens.now at }
{
    tokens.get(at as usize).copied()
}

/// The token after a name, its mark and its type.
fn end_after(name: &Item<'_>, mark: &Siblings<'_>, ty: &Siblings<'_>) -> Option<u32>
    ensures { IfSome result (λ n. (x : List ℕ) (ts : List Tok) → behind_in (held x ts ty.now.entries.now) (behind_in (held x ts mark.now.entries.now) (behind (valued x ts name.now))) ≡ n) }
{
    let named = end_of(name)?;
    let marked = end_in(mark, named)?;
    end_in(ty, marked)
}

/// The tokens after a pattern, its mark and its type are dropped, up to this one.
fn dropped_after(out: &mut Draft, name: &Item<'_>, mark: &Siblings<'_>, ty: &Siblings<'_>, to: u32)
    ensures before { out.new.failed ≡ false → out.old.failed ≡ false }
    ensures state { state_of out.new ≡ state_of out.old }
    ensures written { out.new.failed ≡ false → (x : List ℕ) (ts : List Tok) → Writes x ts out.old.row out.new.row [] }
{
    match end_after(name, mark, ty) {
        Some(end) => out.dropped(end, to),
        None => out.fail(),
    }
}

/// Prints a mark, which ends here where there is none, before what is made.
fn made_after(out: &mut Draft, mark: &Siblings<'_>, end: u32)
    ensures before { out.new.failed ≡ false → out.old.failed ≡ false }
    ensures state { state_of out.new ≡ state_of out.old }
    ensures written { out.new.failed ≡ false → (x : List ℕ) (ts : List Tok) → Writes x ts out.old.row out.new.row [] }
{
    match end_in(mark, end) {
        Some(to) => out.dropped(to, to),
        None => out.fail(),
    }
}

/// A declarator from one token up to another, without a value: its pattern, its mark and its type stay as they are.
pub(crate) fn kept_declarator(
    out: &mut Draft,
    from: u32,
    to: u32,
    name: &Item<'_>,
    mark: &Siblings<'_>,
    ty: &Siblings<'_>,
)
    ensures before { out.new.failed ≡ false → out.old.failed ≡ false }
    ensures state { state_of out.new ≡ state_of out.old }
    ensures written { out.new.failed ≡ false → (x : List ℕ) (ts : List Tok) → IfThere (Bare x ts out.old.row out.new.row (span_of ts from to) (is_there (held x ts mark.now.entries.now))) (named_pattern ts (valued x ts name.now) (held x ts ty.now.entries.now)) }
{
    let place = out.open();
    out.keep_there(name);
    kept_group(out, mark);
    kept_group(out, ty);
    out.absent();
    dropped_after(out, name, mark, ty, to);
    out.close_node(place, NodeKind::TypedDeclarator, from, to);
}

/// The same with a diagnostic, as it has no name to which a type could belong.
pub(crate) fn noted_declarator(
    out: &mut Draft,
    env: &Env<'_>,
    from: u32,
    to: u32,
    name: &Item<'_>,
    mark: &Siblings<'_>,
    ty: &Siblings<'_>,
)
    ensures before { out.new.failed ≡ false → out.old.failed ≡ false }
    ensures noted { out.new.failed ≡ false → state_of out.new ≡ note kind.UnableToInferType (span_of env.now.tokens.now from to) (state_of out.old) }
    ensures written { out.new.failed ≡ false → (x : List ℕ) (ts : List Tok) → IfThere (Bare x ts out.old.row out.new.row (span_of ts from to) (is_there (held x ts mark.now.entries.now))) (named_pattern ts (valued x ts name.now) (held x ts ty.now.entries.now)) }
{
    let range = span_of(env.tokens, from, to);
    out.note(FoundKind::UnableToInferType, range);
    kept_declarator(out, from, to, name, mark, ty);
}

/// A name without a type, which ends at this token, with the type of its value.
fn inferred_up_to(
    out: &mut Draft,
    env: &Env<'_>,
    from: u32,
    to: u32,
    at: u32,
    name: &Item<'_>,
    mark: &Siblings<'_>,
    value: Option<Item<'_>>,
    end: u32,
)
    requires { ReadsTokens env.now.text.now env.now.tokens.now }
    ensures before { out.new.failed ≡ false → out.old.failed ≡ false }
    ensures written { out.new.failed ≡ false → behind (valued env.now.text.now env.now.tokens.now name.now) ≡ end → (by : rules.Env) → Knows env.now by → NameMade env.now.text.now env.now.tokens.now by out.old out.new (span_of env.now.tokens.now from to) at (valued env.now.text.now env.now.tokens.now name.now) (is_there (held env.now.text.now env.now.tokens.now mark.now.entries.now)) (value_of env.now.text.now env.now.tokens.now value.entry) }
{
    match token_at(env.tokens, at) {
        Some(token) => {
            let place = out.open();
            out.keep_there(name);
            kept_group(out, mark);
            made_after(out, mark, end);
            value_group(out, env, value, token.range(), end);
            out.absent();
            out.gone(to);
            out.close_node(place, NodeKind::TypedDeclarator, from, to);
        }
        None => out.fail(),
    }
}

/// A declarator from one token up to another, of a name without a type: it has the type of its value, and no value.
pub(crate) fn inferred_declarator(
    out: &mut Draft,
    env: &Env<'_>,
    from: u32,
    to: u32,
    at: u32,
    name: &Item<'_>,
    mark: &Siblings<'_>,
    value: Option<Item<'_>>,
)
    requires { ReadsTokens env.now.text.now env.now.tokens.now }
    ensures before { out.new.failed ≡ false → out.old.failed ≡ false }
    ensures written { out.new.failed ≡ false → (by : rules.Env) → Knows env.now by → NameMade env.now.text.now env.now.tokens.now by out.old out.new (span_of env.now.tokens.now from to) at (valued env.now.text.now env.now.tokens.now name.now) (is_there (held env.now.text.now env.now.tokens.now mark.now.entries.now)) (value_of env.now.text.now env.now.tokens.now value.entry) }
{
    match end_of(name) {
        Some(end) => inferred_up_to(out, env, from, to, at, name, mark, value, end),
        None => out.fail(),
    }
}
