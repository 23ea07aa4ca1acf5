//! `Symbol.a`

ghost use Rattle.std.specs.Prelude.{◌≡◌, ◌&&◌, ◌||◌, ◌<◌, not, true, false, ℕ, List, codes, bytes_eq, length, slice_get};
ghost use Rattle.base.specs.declared.range.Range.{Range};
ghost use Rattle.es_grammar.specs.declared.rows.NodeKind.TheVariants as l;
ghost use Rattle.es_lexer.specs.Reads.{ReadsTokens};
ghost use Rattle.es_lowering.specs.Value.{given, nil};
ghost use Rattle.es_lowering.specs.Texts.{property_of, span_of};
ghost use Rattle.es_lowering.specs.Lowering.{expr_of};
ghost use Rattle.es_syntax.specs.Held.{held, valued};
ghost use Rattle.es_syntax.specs.Roles.{expr_in, post_in};
ghost use Rattle.es_syntax.specs.Views.{is_one_of};
ghost use Rattle.es_view_expressions.specs.call.Call as call;
ghost use Rattle.es_view_expressions.specs.call.Post as post_view;
ghost use Rattle.dts_rules.specs.Rules.{is_one, symbols};
ghost use Rattle.dts_draft.specs.Written.{IfThere};
ghost use Rattle.dts_member_keys.specs.Looks.{naming, IsUnder, Looked, SymbolBy};

use crate::keys::MemberKey;
use crate::looks::Look;
use dts_draft::is_kind;
use dts_names::{Env, is_unresolved};
use es_grammar::NodeKind;
use es_syntax::{Item, Siblings, What};
use es_token::TokenKind;
use es_variables::ident_at;

/// Whether nodes of this alternative are names.
fn is_name(label: NodeKind) -> bool
    ensures { is_one_of naming label ≡ result }
{
    match label {
        NodeKind::Name => true,
        _ => false,
    }
}

/// Whether a name is `Symbol`, which nothing declares.
fn named_symbol(env: &Env<'_>, parts: &Siblings<'_>) -> bool
    requires { ReadsTokens env.now.text.now env.now.tokens.now }
    ensures { (from : ℕ) (r : Range) → SymbolBy env.now result (expr_of env.now.text.now env.now.tokens.now l.Name from r (held env.now.text.now env.now.tokens.now parts.now.entries.now)) }
{
    match parts.token_at(0) {
        Some(at) => is_unresolved(env, at, "Symbol"),
        None => false,
    }
}

/// The same of a node of such an alternative.
fn own_symbol(env: &Env<'_>, label: NodeKind, parts: &Siblings<'_>) -> bool
    requires { ReadsTokens env.now.text.now env.now.tokens.now }
    ensures { is_one_of naming label ≡ true → (from : ℕ) (r : Range) → SymbolBy env.now result (expr_of env.now.text.now env.now.tokens.now label from r (held env.now.text.now env.now.tokens.now parts.now.entries.now)) }
{
    match label {
        NodeKind::Name => named_symbol(env, parts),
        _ => false,
    }
}

/// Whether an expression is `Symbol`, which nothing declares.
fn is_symbol(env: &Env<'_>, it: &Item<'_>) -> bool
    requires { ReadsTokens env.now.text.now env.now.tokens.now }
    ensures { SymbolBy env.now result (expr_in (valued env.now.text.now env.now.tokens.now it.now)) }
{
    match it.what {
        What::Node(label) => {
            if is_name(label) {
                return own_symbol(env, label, &it.parts);
            }
            false
        }
        What::Lean(_) => false,
        What::Leaf => false,
        What::Role(_) => false,
        What::Parts => false,
    }
}

fn is_async_symbol(name: &str) -> bool
    ensures { result ≡ (bytes_eq (codes "asyncDispose") name.now || (bytes_eq (codes "asyncIterator") name.now || (bytes_eq (codes "dispose") name.now || bytes_eq (codes "hasInstance") name.now))) }
{
    "asyncDispose" == name || "asyncIterator" == name || "dispose" == name || "hasInstance" == name
}

fn is_matching_symbol(name: &str) -> bool
    ensures { result ≡ (bytes_eq (codes "isConcatSpreadable") name.now || (bytes_eq (codes "iterator") name.now || (bytes_eq (codes "match") name.now || bytes_eq (codes "matchAll") name.now))) }
{
    "isConcatSpreadable" == name || "iterator" == name || "match" == name || "matchAll" == name
}

fn is_text_symbol(name: &str) -> bool
    ensures { result ≡ (bytes_eq (codes "metadata") name.now || (bytes_eq (codes "replace") name.now || (bytes_eq (codes "search") name.now || bytes_eq (codes "species") name.now))) }
{
    "metadata" == name || "replace" == name || "search" == name || "species" == name
}

fn is_value_symbol(name: &str) -> bool
    ensures { result ≡ (bytes_eq (codes "split") name.now || (bytes_eq (codes "toPrimitive") name.now || (bytes_eq (codes "toStringTag") name.now || bytes_eq (codes "unscopables") name.now))) }
{
    "split" == name || "toPrimitive" == name || "toStringTag" == name || "unscopables" == name
}

fn either(a: bool, b: bool) -> bool
    ensures { result ≡ (a || b) }
{
    a || b
}

/// Whether this name after `Symbol.` is that of a known symbol.
fn is_known(name: &str) -> bool
    ensures { is_one symbols name.now ≡ result }
{
    let begins = is_async_symbol(name);
    let matches = is_matching_symbol(name);
    let texts = is_text_symbol(name);
    let values = is_value_symbol(name);
    let last = either(texts, values);
    let others = either(matches, last);
    either(begins, others)
}

/// Whether the token of this number is the name of a known symbol.
fn is_known_at(env: &Env<'_>, at: u32) -> bool
    requires { ReadsTokens env.now.text.now env.now.tokens.now }
    ensures { IfThere (λ m. (not m.0 && is_one symbols m.1.sym) ≡ result) (given (slice_get env.now.tokens.now at) (property_of env.now.text.now)) }
{
    if is_kind(env.tokens, at, TokenKind::PrivateName) {
        return false;
    }
    match ident_at(env.text, env.tokens, env.ids, at) {
        Some(id) => is_known(id.sym),
        None => false,
    }
}

/// A chain whose first further part is this name after a dot: a key, where it is a known symbol.
pub(crate) fn symbol_look<'a>(
    env: &Env<'_>,
    chain: &Item<'a>,
    base: &Item<'a>,
    first: &Item<'a>,
    at: u32,
) -> Look<'a>
    requires { ReadsTokens env.now.text.now env.now.tokens.now }
    ensures tells { (r : Range) → post_in (valued env.now.text.now env.now.tokens.now first.now) ≡ post_view.member env.now.text.now r (slice_get env.now.tokens.now at) → Looked env.now result (call.chained_of (span_of env.now.tokens.now chain.now.from chain.now.to) (expr_in (valued env.now.text.now env.now.tokens.now base.now)) (post_in (valued env.now.text.now env.now.tokens.now first.now)) nil) }
    ensures below { (n : ℕ) → IsUnder result n }
{
    if !is_known_at(env, at) {
        return Look::Key(MemberKey::Dropped);
    }
    if !is_symbol(env, base) {
        return Look::Key(MemberKey::Dropped);
    }
    Look::Key(MemberKey::Symbol {
        chain: *chain,
        base: *base,
        first: *first,
    })
}
