//! Names, literals, templates, arrays, objects, brackets.

ghost use Rattle.std.specs.Prelude.{◌≡◌, ℕ, List, IfSome, IfNone};
ghost use Rattle.base.specs.declared.range.Range.{Range};
ghost use Rattle.es_token.specs.declared.token.Token.{Token as Tok};
ghost use Rattle.es_lowering.specs.Expressions.{name, word, number, str, regexp, template, template_parts, parenthesized, array_literal, object_literal, spread};
ghost use Rattle.es_lowering.specs.Texts.{span_of};
ghost use Rattle.es_syntax.specs.Held.{held, valued};
ghost use Rattle.es_syntax.specs.Roles.{expr_in};
ghost use Rattle.es_syntax.specs.Views.{IsNone};
ghost use Rattle.es_view_expressions.specs.expr.Primary.{primaries, the_primary, IsBelow};

use es_grammar::NodeKind;
use es_syntax::{Item, Siblings, What};

/// A primary expression, with its parts in place. Numbers are those of tokens.
#[derive(Clone, Copy)]
pub enum Primary<'a> {
    Ident(u32),
    /// `this`, `null`, `true`, `false`.
    Word(u32),
    /// A number or a BigInt.
    Number(u32),
    Str(u32),
    RegExp(u32),
    /// A template without holes.
    Template(u32),
    /// Its first piece, what is in the first hole, the turns of a piece and what follows it, and its last piece.
    TemplateParts {
        head: u32,
        first: Item<'a>,
        others: Siblings<'a>,
        tail: u32,
    },
    /// `(a)`
    Paren(Item<'a>),
    /// Its first token, and its elements as turns.
    Array {
        from: u32,
        elems: Siblings<'a>,
    },
    /// Its properties as turns.
    Object(Siblings<'a>),
    /// `...a`
    Spread(Item<'a>),
    /// A part is not there: no expression.
    Broken,
}

/// A name.
#[tactic(auto, unfolding(es_lowering::specs::Expressions::name, crate::specs::expr::Primary::ident))]
fn name<'a>(parts: &Siblings<'a>) -> Primary<'a>
    ensures form { (x : List ℕ) (ts : List Tok) (r : Range) → name x ts (held x ts parts.now.entries.now) ≡ the_primary x ts r result }
    ensures below { IsBelow parts.now result }
{
    match parts.token_at(0) {
        Some(token) => Primary::Ident(token),
        None => Primary::Broken,
    }
}

/// `this`, `null`, `true`, `false`
#[tactic(auto, unfolding(es_lowering::specs::Expressions::word, crate::specs::expr::Primary::word))]
fn word<'a>(parts: &Siblings<'a>) -> Primary<'a>
    ensures form { (x : List ℕ) (ts : List Tok) (r : Range) → word ts r (held x ts parts.now.entries.now) ≡ the_primary x ts r result }
    ensures below { IsBelow parts.now result }
{
    match parts.token_at(0) {
        Some(token) => Primary::Word(token),
        None => Primary::Broken,
    }
}

/// A number or a BigInt.
#[tactic(auto, unfolding(es_lowering::specs::Expressions::number, crate::specs::expr::Primary::number))]
fn number<'a>(parts: &Siblings<'a>) -> Primary<'a>
    ensures form { (x : List ℕ) (ts : List Tok) (r : Range) → number x ts (held x ts parts.now.entries.now) ≡ the_primary x ts r result }
    ensures below { IsBelow parts.now result }
{
    match parts.token_at(0) {
        Some(token) => Primary::Number(token),
        None => Primary::Broken,
    }
}

/// A string literal.
#[tactic(auto, unfolding(es_lowering::specs::Expressions::str, crate::specs::expr::Primary::str))]
fn str<'a>(parts: &Siblings<'a>) -> Primary<'a>
    ensures form { (x : List ℕ) (ts : List Tok) (r : Range) → str x ts (held x ts parts.now.entries.now) ≡ the_primary x ts r result }
    ensures below { IsBelow parts.now result }
{
    match parts.token_at(0) {
        Some(token) => Primary::Str(token),
        None => Primary::Broken,
    }
}

/// A regular expression.
#[tactic(auto, unfolding(es_lowering::specs::Expressions::regexp, crate::specs::expr::Primary::regexp))]
fn regexp<'a>(parts: &Siblings<'a>) -> Primary<'a>
    ensures form { (x : List ℕ) (ts : List Tok) (r : Range) → regexp x ts (held x ts parts.now.entries.now) ≡ the_primary x ts r result }
    ensures below { IsBelow parts.now result }
{
    match parts.token_at(0) {
        Some(token) => Primary::RegExp(token),
        None => Primary::Broken,
    }
}

/// A template without holes.
#[tactic(auto, unfolding(es_lowering::specs::Expressions::template, crate::specs::expr::Primary::template))]
fn template<'a>(parts: &Siblings<'a>) -> Primary<'a>
    ensures form { (x : List ℕ) (ts : List Tok) (r : Range) → template x ts r (held x ts parts.now.entries.now) ≡ the_primary x ts r result }
    ensures below { IsBelow parts.now result }
{
    match parts.token_at(0) {
        Some(token) => Primary::Template(token),
        None => Primary::Broken,
    }
}

/// A template with holes.
#[tactic(auto, unfolding(es_lowering::specs::Expressions::template_parts, crate::specs::expr::Primary::template_parts))]
fn template_parts<'a>(parts: &Siblings<'a>) -> Primary<'a>
    ensures form { (x : List ℕ) (ts : List Tok) (r : Range) → template_parts x ts r (held x ts parts.now.entries.now) ≡ the_primary x ts r result }
    ensures below { IsBelow parts.now result }
{
    match parts.token_at(0) {
        Some(head) => match parts.part(1) {
            Some(first) => match parts.token_at(3) {
                Some(tail) => Primary::TemplateParts {
                    head,
                    first,
                    others: parts.group_at(2),
                    tail,
                },
                None => Primary::Broken,
            },
            None => Primary::Broken,
        },
        None => Primary::Broken,
    }
}

/// `(a)`
#[tactic(auto, unfolding(es_lowering::specs::Expressions::parenthesized, crate::specs::expr::Primary::paren))]
fn parenthesized<'a>(parts: &Siblings<'a>) -> Primary<'a>
    ensures form { (x : List ℕ) (ts : List Tok) (r : Range) → parenthesized r (held x ts parts.now.entries.now) ≡ the_primary x ts r result }
    ensures below { IsBelow parts.now result }
{
    match parts.part(0) {
        Some(expr) => Primary::Paren(expr),
        None => Primary::Broken,
    }
}

/// `[a, , b]`
#[tactic(auto, unfolding(es_lowering::specs::Expressions::array_literal, crate::specs::expr::Primary::array))]
fn array_literal<'a>(from: u32, parts: &Siblings<'a>) -> Primary<'a>
    ensures form { (x : List ℕ) (ts : List Tok) (r : Range) → array_literal ts from r (held x ts parts.now.entries.now) ≡ the_primary x ts r result }
    ensures below { IsBelow parts.now result }
{
    Primary::Array {
        from,
        elems: parts.group_at(0),
    }
}

/// `{ a: b }`
#[tactic(auto, unfolding(es_lowering::specs::Expressions::object_literal, crate::specs::expr::Primary::object))]
fn object_literal<'a>(parts: &Siblings<'a>) -> Primary<'a>
    ensures form { (x : List ℕ) (ts : List Tok) (r : Range) → object_literal r (held x ts parts.now.entries.now) ≡ the_primary x ts r result }
    ensures below { IsBelow parts.now result }
{
    Primary::Object(parts.group_at(0))
}

/// `...a`
#[tactic(auto, unfolding(es_lowering::specs::Expressions::spread, crate::specs::expr::Primary::spread))]
fn spread<'a>(parts: &Siblings<'a>) -> Primary<'a>
    ensures form { (x : List ℕ) (ts : List Tok) (r : Range) → spread r (held x ts parts.now.entries.now) ≡ the_primary x ts r result }
    ensures below { IsBelow parts.now result }
{
    match parts.part(0) {
        Some(expr) => Primary::Spread(expr),
        None => Primary::Broken,
    }
}

/// What a node is as a primary expression; none where it is of another alternative.
#[tactic(auto, unfolding(es_lowering::specs::Lowering::build, es_lowering::specs::Lowering::expr_of))]
pub fn primary_at<'a>(node: &Item<'a>) -> Option<Primary<'a>>
    ensures form { (x : List ℕ) (ts : List Tok) → IfSome result (λ view. expr_in (valued x ts node.now) ≡ the_primary x ts (span_of ts node.now.from node.now.to) view) }
    ensures other { IfNone result (IsNone primaries node.now.what) }
    ensures below { IfSome result (λ view. IsBelow node.now.parts view) }
{
    match node.what {
        What::Node(label) => match label {
            NodeKind::Name => Some(name(&node.parts)),
            NodeKind::Word => Some(word(&node.parts)),
            NodeKind::Number => Some(number(&node.parts)),
            NodeKind::Str => Some(str(&node.parts)),
            NodeKind::RegExp => Some(regexp(&node.parts)),
            NodeKind::Template => Some(template(&node.parts)),
            NodeKind::TemplateParts => Some(template_parts(&node.parts)),
            NodeKind::Parenthesized => Some(parenthesized(&node.parts)),
            NodeKind::ArrayLiteral => Some(array_literal(node.from, &node.parts)),
            NodeKind::ObjectLiteral => Some(object_literal(&node.parts)),
            NodeKind::Spread => Some(spread(&node.parts)),
            _ => None,
        },
        What::Leaf => None,
        What::Role(_) => None,
        What::Parts => None,
        What::Lean(_) => None,
    }
}
