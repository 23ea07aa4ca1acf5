//! Which types are those of arrays.

ghost use Rattle.std.specs.Prelude.{◌≡◌, ◌<◌, ℕ, List, length, true, false, ◌&&◌, not, IfSome, bytes_eq, codes, slice_get};
ghost use Rattle.base.specs.declared.range.Range.{Range};
ghost use Rattle.es_token.specs.declared.token.Token.{Token as Tok};
ghost use Rattle.es_token.specs.declared.token.TokenKind.TheVariants as k;
ghost use Rattle.es_lexer.specs.Reads.{ReadsTokens};
ghost use Rattle.es_lowering.specs.Modules.{entity};
ghost use Rattle.es_lowering.specs.Lowering.{type_of};
ghost use Rattle.es_lowering.specs.Types.{array_types, type_operator};
ghost use Rattle.es_syntax.specs.Held.{held, valued, token_there};
ghost use Rattle.es_syntax.specs.Roles.{ts_type_in, entity_in};
ghost use Rattle.es_syntax.specs.Views.{is_one_of};
ghost use Rattle.dts_rules.specs.Sets.{is_array_name};
ghost use Rattle.dts_sets.specs.Forms.{array_labels, entity_labels, array_word, ArrayType, ArrayName, Indexes, is_word};

use es_grammar::NodeKind;
use es_syntax::{Item, Siblings, What};
use es_token::{Token, TokenKind};
use es_variables::{ScopeIds, ident_at};

/// Whether the token of this number is this word.
#[tactic(auto, using(crate::proofs::TypeLemmas::word_is, crate::proofs::TypeLemmas::no_word))]
pub(crate) fn is_word(tokens: &[Token], at: Option<u32>, word: TokenKind) -> bool
    ensures { result ≡ is_word word (token_there tokens.now at) }
{
    match at {
        Some(at) => match tokens.get(at as usize) {
            Some(token) => token.kind() == word,
            None => false,
        },
        None => false,
    }
}

/// Whether the name that this token is names arrays.
#[tactic(auto, using(crate::proofs::TypeLemmas::array_name, crate::proofs::TypeLemmas::no_name))]
fn is_array_word(text: &str, tokens: &[Token], ids: &ScopeIds, at: u32) -> bool
    requires { ReadsTokens text.now tokens.now }
    ensures { IfSome (slice_get tokens.now at) (λ t. array_word text.now t ≡ result) }
{
    match ident_at(text, tokens, ids, at) {
        Some(id) => id.sym == "Array" || id.sym == "ReadonlyArray",
        None => false,
    }
}

/// Whether a name with dots, which is in these parts, is that of arrays.
#[tactic(auto, using(crate::proofs::TypeLemmas::dotted, crate::proofs::TypeLemmas::no_left, crate::proofs::TypeLemmas::left_this, crate::proofs::TypeLemmas::left_name))]
fn is_array_path(text: &str, tokens: &[Token], ids: &ScopeIds, parts: &Siblings<'_>) -> bool
    requires { ReadsTokens text.now tokens.now }
    ensures { (r : Range) → ArrayName result (entity text.now tokens.now r (held text.now tokens.now parts.now.entries.now)) }
{
    if parts.has(1) {
        return false;
    }
    match parts.token_at(0) {
        Some(left) => {
            if is_word(tokens, Some(left), TokenKind::ThisWord) {
                return false;
            }
            is_array_word(text, tokens, ids, left)
        }
        None => false,
    }
}

/// Whether nodes of this alternative are names with dots.
fn is_entity_label(label: NodeKind) -> bool
    ensures { is_one_of entity_labels label ≡ result }
{
    match label {
        NodeKind::Entity => true,
        NodeKind::EntityOfType => true,
        _ => false,
    }
}

/// Whether a name with dots is that of arrays.
#[tactic(auto, using(crate::proofs::TypeLemmas::entity_there, crate::proofs::TypeLemmas::no_entity, crate::proofs::TypeLemmas::role_entity, crate::proofs::TypeLemmas::parts_entity, crate::proofs::TypeLemmas::lean_entity))]
fn is_array_entity(text: &str, tokens: &[Token], ids: &ScopeIds, it: &Item<'_>) -> bool
    requires { ReadsTokens text.now tokens.now }
    ensures { ArrayName result (entity_in (valued text.now tokens.now it.now)) }
{
    match it.what {
        What::Node(label) => {
            if !is_entity_label(label) {
                return false;
            }
            is_array_path(text, tokens, ids, &it.parts)
        }
        What::Leaf => false,
        What::Role(_) => false,
        What::Parts => false,
        What::Lean(_) => false,
    }
}

/// Whether the last of these brackets is empty; without any, whether the one before was.
#[tactic(auto, using(crate::proofs::TypeLemmas::indexes_none, crate::proofs::TypeLemmas::indexes_next))]
fn is_last_empty(others: &Siblings<'_>, before: bool) -> bool
    ensures { (x : List ℕ) (ts : List Tok) → Indexes ts before result (held x ts others.now.entries.now) }
{
    let mut empty = before;
    let mut row = *others;
    while let Some((turn, rest)) = row.split() {
        empty = !turn.group().has(0);
        row = rest;
    }
    empty
}

/// Whether a type with brackets after it is that of an array.
#[tactic(auto, using(crate::proofs::TypeLemmas::brackets))]
fn is_bracketed(parts: &Siblings<'_>) -> bool
    ensures { (x : List ℕ) (ts : List Tok) (r : Range) → ArrayType result (array_types ts r (held x ts parts.now.entries.now)) }
{
    is_last_empty(&parts.group_at(2), !parts.has(1))
}

/// Whether nodes of this alternative may be types of arrays.
fn is_array_label(label: NodeKind) -> bool
    ensures { is_one_of array_labels label ≡ result }
{
    match label {
        NodeKind::ArrayTypes => true,
        NodeKind::TupleType => true,
        NodeKind::TypeOperator => true,
        NodeKind::Reference => true,
        NodeKind::EntityOfType => true,
        _ => false,
    }
}

/// Whether a type after an operator, which is in these parts, is that of an array after `readonly`.
#[cycle(types)]
#[tactic(auto, using(crate::proofs::TypeLemmas::readonly_type, crate::proofs::TypeLemmas::other_operator, crate::proofs::TypeLemmas::no_operand))]
fn is_readonly_array(text: &str, tokens: &[Token], ids: &ScopeIds, parts: &Siblings<'_>) -> bool
    requires { ReadsTokens text.now tokens.now }
    ensures { (r : Range) → ArrayType result (type_operator tokens.now r (held text.now tokens.now parts.now.entries.now)) }
{
    match parts.part(1) {
        Some(ty) => {
            let inner = is_array_type(text, tokens, ids, &ty);
            let word = is_word(tokens, parts.token_at(0), TokenKind::ReadonlyWord);
            word && inner
        }
        None => false,
    }
}

/// Whether a type of such an alternative is that of an array.
#[cycle(types)]
#[tactic(auto, using(crate::proofs::TypeLemmas::tuple, crate::proofs::TypeLemmas::bracketed, crate::proofs::TypeLemmas::operator, crate::proofs::TypeLemmas::referenced, crate::proofs::TypeLemmas::no_reference, crate::proofs::TypeLemmas::named_type))]
fn own_type(
    text: &str,
    tokens: &[Token],
    ids: &ScopeIds,
    label: NodeKind,
    parts: &Siblings<'_>,
) -> bool
    requires { ReadsTokens text.now tokens.now }
    ensures { is_one_of array_labels label ≡ true → (r : Range) → ArrayType result (type_of text.now tokens.now label r (held text.now tokens.now parts.now.entries.now)) }
{
    match label {
        NodeKind::TupleType => true,
        NodeKind::ArrayTypes => is_bracketed(parts),
        NodeKind::TypeOperator => is_readonly_array(text, tokens, ids, parts),
        NodeKind::Reference => match parts.part(0) {
            Some(name) => is_array_entity(text, tokens, ids, &name),
            None => false,
        },
        NodeKind::EntityOfType => is_array_path(text, tokens, ids, parts),
        _ => false,
    }
}

/// Whether a type is that of an array: `a[]`, a tuple, `readonly` of such, `Array` or `ReadonlyArray`.
#[cycle(types)]
#[tactic(auto, using(crate::proofs::TypeLemmas::own, crate::proofs::TypeLemmas::other, crate::proofs::TypeLemmas::role_type, crate::proofs::TypeLemmas::parts_type, crate::proofs::TypeLemmas::lean_type))]
pub fn is_array_type(text: &str, tokens: &[Token], ids: &ScopeIds, it: &Item<'_>) -> bool
    requires { ReadsTokens text.now tokens.now }
    ensures { ArrayType result (ts_type_in (valued text.now tokens.now it.now)) }
{
    match it.what {
        What::Node(label) => {
            if !is_array_label(label) {
                return false;
            }
            own_type(text, tokens, ids, label, &it.parts)
        }
        What::Leaf => false,
        What::Role(_) => false,
        What::Parts => false,
        What::Lean(_) => false,
    }
}
