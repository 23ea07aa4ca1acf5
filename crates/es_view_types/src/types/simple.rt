//! Words, literals, templates and names as types.

ghost use Rattle.std.specs.Prelude.{◌≡◌, ℕ, List, IfSome, IfNone};
ghost use Rattle.base.specs.declared.range.Range.{Range};
ghost use Rattle.es_token.specs.declared.token.Token.{Token as Tok};
ghost use Rattle.es_lowering.specs.Types.{keyword_type, word_type, str_type, number_type, template_type, template_types, type_query};
ghost use Rattle.es_lowering.specs.TypeNames.{reference, import_type};
ghost use Rattle.es_lowering.specs.Texts.{span_of};
ghost use Rattle.es_syntax.specs.Held.{held, valued};
ghost use Rattle.es_syntax.specs.Roles.{ts_type_in};
ghost use Rattle.es_syntax.specs.Views.{IsNone};
ghost use Rattle.es_view_types.specs.types.Simple.{simple_types, the_simple, IsBelow};

use es_grammar::NodeKind;
use es_syntax::{Item, Siblings, What};

/// A type, with its parts as cursors. Numbers are those of tokens.
#[derive(Clone, Copy)]
pub enum SimpleType<'a> {
    /// `any`
    Keyword(u32),
    /// `this`
    This,
    /// `null`, `void`, `true`, `false`
    Word(u32),
    /// A string literal.
    Str(u32),
    /// A number or a BigInt, with optional `-`.
    Number {
        minus: bool,
        token: u32,
    },
    /// A template without holes.
    Template(u32),
    /// A template with holes: its first piece, what is in the first hole, turns of a piece and what follows it, its last piece.
    TemplateParts {
        head: u32,
        first: Item<'a>,
        others: Siblings<'a>,
        tail: u32,
    },
    /// `typeof a`: what is named is in a group.
    Query(Item<'a>),
    /// `a<b>`
    Reference {
        name: Item<'a>,
        arguments: Item<'a>,
    },
    /// `import("a").b<c>`: the names and the arguments may be absent.
    Import {
        source: u32,
        qualifier: Siblings<'a>,
        arguments: Siblings<'a>,
    },
    /// A name alone: its parts.
    Entity(Siblings<'a>),
    /// A part is not there.
    Broken,
}

/// `any`
#[tactic(auto, unfolding(es_lowering::specs::Types::keyword_type, crate::specs::types::Simple::keyword))]
fn keyword<'a>(parts: &Siblings<'a>) -> SimpleType<'a>
    ensures form { (x : List ℕ) (ts : List Tok) (r : Range) → keyword_type ts r (held x ts parts.now.entries.now) ≡ the_simple x ts r result }
    ensures below { IsBelow parts.now result }
{
    match parts.token_at(0) {
        Some(word) => SimpleType::Keyword(word),
        None => SimpleType::Broken,
    }
}

/// `null`, `void`, `true`, `false`
#[tactic(auto, unfolding(es_lowering::specs::Types::word_type, crate::specs::types::Simple::worded))]
fn word<'a>(parts: &Siblings<'a>) -> SimpleType<'a>
    ensures form { (x : List ℕ) (ts : List Tok) (r : Range) → word_type ts r (held x ts parts.now.entries.now) ≡ the_simple x ts r result }
    ensures below { IsBelow parts.now result }
{
    match parts.token_at(0) {
        Some(word) => SimpleType::Word(word),
        None => SimpleType::Broken,
    }
}

/// A string literal.
#[tactic(auto, unfolding(es_lowering::specs::Types::str_type, crate::specs::types::Simple::str))]
fn str<'a>(parts: &Siblings<'a>) -> SimpleType<'a>
    ensures form { (x : List ℕ) (ts : List Tok) (r : Range) → str_type x ts (held x ts parts.now.entries.now) ≡ the_simple x ts r result }
    ensures below { IsBelow parts.now result }
{
    match parts.token_at(0) {
        Some(token) => SimpleType::Str(token),
        None => SimpleType::Broken,
    }
}

/// A number or a BigInt, with optional `-`.
#[tactic(auto, unfolding(es_lowering::specs::Types::number_type, crate::specs::types::Simple::number))]
fn number<'a>(parts: &Siblings<'a>) -> SimpleType<'a>
    ensures form { (x : List ℕ) (ts : List Tok) (r : Range) → number_type x ts r (held x ts parts.now.entries.now) ≡ the_simple x ts r result }
    ensures below { IsBelow parts.now result }
{
    match parts.token_at(1) {
        Some(token) => SimpleType::Number {
            minus: parts.has(0),
            token,
        },
        None => SimpleType::Broken,
    }
}

/// A template without holes.
#[tactic(auto, unfolding(es_lowering::specs::Types::template_type, crate::specs::types::Simple::template))]
fn template<'a>(parts: &Siblings<'a>) -> SimpleType<'a>
    ensures form { (x : List ℕ) (ts : List Tok) (r : Range) → template_type x ts r (held x ts parts.now.entries.now) ≡ the_simple x ts r result }
    ensures below { IsBelow parts.now result }
{
    match parts.token_at(0) {
        Some(token) => SimpleType::Template(token),
        None => SimpleType::Broken,
    }
}

/// A template with holes: its first piece, what is in the first hole, turns of a piece and what follows it, its last piece.
#[tactic(auto, unfolding(es_lowering::specs::Types::template_types, crate::specs::types::Simple::template_parts))]
fn template_parts<'a>(parts: &Siblings<'a>) -> SimpleType<'a>
    ensures form { (x : List ℕ) (ts : List Tok) (r : Range) → template_types x ts r (held x ts parts.now.entries.now) ≡ the_simple x ts r result }
    ensures below { IsBelow parts.now result }
{
    match parts.token_at(0) {
        Some(head) => match parts.part(1) {
            Some(first) => match parts.token_at(3) {
                Some(tail) => SimpleType::TemplateParts {
                    head,
                    first,
                    others: parts.group_at(2),
                    tail,
                },
                None => SimpleType::Broken,
            },
            None => SimpleType::Broken,
        },
        None => SimpleType::Broken,
    }
}

/// `typeof a`: what is named is in a group.
#[tactic(auto, unfolding(es_lowering::specs::Types::type_query, crate::specs::types::Simple::query))]
fn query<'a>(parts: &Siblings<'a>) -> SimpleType<'a>
    ensures form { (x : List ℕ) (ts : List Tok) (r : Range) → type_query r (held x ts parts.now.entries.now) ≡ the_simple x ts r result }
    ensures below { IsBelow parts.now result }
{
    match parts.group_at(0).part(0) {
        Some(ty) => SimpleType::Query(ty),
        None => SimpleType::Broken,
    }
}

/// `a<b>`
#[tactic(auto, unfolding(es_lowering::specs::TypeNames::reference, crate::specs::types::Simple::reference))]
fn reference<'a>(parts: &Siblings<'a>) -> SimpleType<'a>
    ensures form { (x : List ℕ) (ts : List Tok) (r : Range) → reference r (held x ts parts.now.entries.now) ≡ the_simple x ts r result }
    ensures below { IsBelow parts.now result }
{
    match parts.part(0) {
        Some(name) => match parts.part(1) {
            Some(arguments) => SimpleType::Reference { name, arguments },
            None => SimpleType::Broken,
        },
        None => SimpleType::Broken,
    }
}

/// `import("a").b<c>`: the names and the arguments may be absent.
#[tactic(auto, unfolding(es_lowering::specs::TypeNames::import_type, crate::specs::types::Simple::import_of))]
fn import<'a>(parts: &Siblings<'a>) -> SimpleType<'a>
    ensures form { (x : List ℕ) (ts : List Tok) (r : Range) → import_type x ts r (held x ts parts.now.entries.now) ≡ the_simple x ts r result }
    ensures below { IsBelow parts.now result }
{
    match parts.token_at(0) {
        Some(source) => SimpleType::Import {
            source,
            qualifier: parts.group_at(1),
            arguments: parts.group_at(2),
        },
        None => SimpleType::Broken,
    }
}

/// What a node is as a type that is a word, a literal, a template or a name; none where it is of another alternative.
#[tactic(auto, unfolding(es_lowering::specs::Lowering::build, es_lowering::specs::Lowering::type_of))]
pub fn simple_at<'a>(node: &Item<'a>) -> Option<SimpleType<'a>>
    ensures form { (x : List ℕ) (ts : List Tok) → IfSome result (λ view. ts_type_in (valued x ts node.now) ≡ the_simple x ts (span_of ts node.now.from node.now.to) view) }
    ensures other { IfNone result (IsNone simple_types node.now.what) }
    ensures below { IfSome result (λ view. IsBelow node.now.parts view) }
{
    match node.what {
        What::Node(label) => match label {
            NodeKind::KeywordType => Some(keyword(&node.parts)),
            NodeKind::ThisType => Some(SimpleType::This),
            NodeKind::WordType => Some(word(&node.parts)),
            NodeKind::StrType => Some(str(&node.parts)),
            NodeKind::NumberType => Some(number(&node.parts)),
            NodeKind::TemplateType => Some(template(&node.parts)),
            NodeKind::TemplateTypes => Some(template_parts(&node.parts)),
            NodeKind::TypeQuery => Some(query(&node.parts)),
            NodeKind::Reference => Some(reference(&node.parts)),
            NodeKind::ImportType => Some(import(&node.parts)),
            NodeKind::EntityOfType => Some(SimpleType::Entity(node.parts)),
            _ => None,
        },
        What::Leaf => None,
        What::Role(_) => None,
        What::Parts => None,
        What::Lean(_) => None,
    }
}
