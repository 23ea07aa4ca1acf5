//! The kinds of types, of their members and of their patterns.

use crate::pats::rest_span;
use crate::spans::{Seen, first_in, last_in, span, token_span, told, told_at};
use es_syntax::{Item, Siblings};
use es_token::{Token, TokenKind};
use es_view_types::members::{
    TypeFnParam, TypeFnParams, TypeKey, TypeMember, TypePat, TypeProp, key_at, member_at, param_at,
    params_at, pat_at, prop_at,
};
use es_view_types::types::{
    CompoundType, FunctionType, SimpleType, compound_at, function_at, simple_at,
};

/// A type.
fn type_(tokens: &[Token], it: &Item<'_>) -> Option<Seen> {
    told_at(type_kind(tokens, it)?, tokens, it)
}

fn type_kind(tokens: &[Token], it: &Item<'_>) -> Option<&'static str> {
    if let Some(view) = simple_at(it) {
        return simple_kind(tokens, &view);
    }
    if let Some(view) = compound_at(it) {
        return compound_kind(&view);
    }
    match function_at(it)? {
        FunctionType::Function { .. } => Some("Fn"),
        FunctionType::Constructor { .. } => Some("Constructor"),
        FunctionType::Asserts { .. } => Some("Predicate"),
        FunctionType::Predicate { .. } => Some("Predicate"),
        FunctionType::Broken => None,
    }
}

fn simple_kind(tokens: &[Token], it: &SimpleType<'_>) -> Option<&'static str> {
    match it {
        SimpleType::Keyword(_) => Some("Keyword"),
        SimpleType::This => Some("This"),
        SimpleType::Word(token) => word_kind(tokens.get(*token as usize)?.kind()),
        SimpleType::Str(_) => Some("Lit"),
        SimpleType::Number { .. } => Some("Lit"),
        SimpleType::Template(_) => Some("Tpl"),
        SimpleType::TemplateParts { .. } => Some("Tpl"),
        SimpleType::Query(_) => Some("Query"),
        SimpleType::Reference { .. } => Some("Ref"),
        SimpleType::Import { .. } => Some("Import"),
        SimpleType::Entity(_) => Some("Ref"),
        SimpleType::Broken => None,
    }
}

fn word_kind(word: TokenKind) -> Option<&'static str> {
    match word {
        TokenKind::TrueWord => Some("Lit"),
        TokenKind::FalseWord => Some("Lit"),
        _ => Some("Keyword"),
    }
}

fn compound_kind(it: &CompoundType<'_>) -> Option<&'static str> {
    match it {
        CompoundType::Union { .. } => Some("Union"),
        CompoundType::LeadingUnion { .. } => Some("Union"),
        CompoundType::Intersection { .. } => Some("Intersection"),
        CompoundType::LeadingIntersection { .. } => Some("Intersection"),
        CompoundType::Operator { .. } => Some("Operator"),
        CompoundType::Infer(_) => Some("Infer"),
        CompoundType::Array { first, others, .. } => brackets_kind(first, others),
        CompoundType::Conditional { .. } => Some("Conditional"),
        CompoundType::Paren(_) => Some("Paren"),
        CompoundType::Members(_) => Some("TypeLit"),
        CompoundType::Tuple(_) => Some("Tuple"),
        CompoundType::Mapped { .. } => Some("Mapped"),
        CompoundType::Broken => None,
    }
}

/// What is in the last brackets after a type.
fn brackets_kind(first: &Siblings<'_>, others: &Siblings<'_>) -> Option<&'static str> {
    let index = match last_in(others).last {
        Some(turn) => turn.group().group_at(0).part(0),
        None => first.part(0),
    };
    match index {
        Some(_) => Some("IndexedAccess"),
        None => Some("Array"),
    }
}

/// The type itself, its first parameter or element, or what it refers to.
pub fn in_type(letter: &str, tokens: &[Token], it: &Item<'_>) -> Option<Seen> {
    match letter {
        "w" | "g" | "0" => match function_at(it) {
            Some(FunctionType::Function { params, .. }) => first_param(letter, tokens, &params),
            _ => type_(tokens, it),
        },
        "z" => match compound_at(it) {
            Some(CompoundType::Tuple(elems)) => told_at("TupleElement", tokens, &first_in(&elems)?),
            _ => type_(tokens, it),
        },
        "T" | "E" => in_reference(letter, tokens, it),
        _ => type_(tokens, it),
    }
}

/// The first parameter, its pattern, or with `0` the first part of that.
fn first_param(letter: &str, tokens: &[Token], it: &Item<'_>) -> Option<Seen> {
    match params_at(it)? {
        TypeFnParams::Params { all, rest } => match first_in(&all) {
            Some(param) => match letter {
                "w" => told_at("TsParam", tokens, &param),
                _ => param_pattern(letter, tokens, &param),
            },
            None => match letter {
                "w" => Some(told("TsParam", rest_span(tokens, &rest)?)),
                _ => type_pattern(letter, tokens, &rest.part(0)?),
            },
        },
        TypeFnParams::Broken => None,
    }
}

fn param_pattern(letter: &str, tokens: &[Token], it: &Item<'_>) -> Option<Seen> {
    match param_at(it)? {
        TypeFnParam::This { word, .. } => Some(told("This", token_span(tokens, word)?)),
        TypeFnParam::Marked { pat, .. } => type_pattern(letter, tokens, &pat),
        TypeFnParam::Pattern(node) => type_pattern(letter, tokens, &node),
        TypeFnParam::Broken => None,
    }
}

/// The pattern of a parameter in a type, or with `0` the first part of it.
fn type_pattern(letter: &str, tokens: &[Token], it: &Item<'_>) -> Option<Seen> {
    match pat_at(it)? {
        TypePat::Array { from, elems } if letter == "0" => first_element(tokens, from, &elems),
        TypePat::Object(props) if letter == "0" => property(tokens, &first_in(&props)?),
        _ => pattern(tokens, it),
    }
}

fn first_element(tokens: &[Token], from: u32, elems: &Siblings<'_>) -> Option<Seen> {
    match elems.part(0)?.group().group_at(0).part(0) {
        Some(element) => pattern(tokens, &element),
        None => {
            let at = from.checked_add(1)?;
            Some(told("Hole", span(tokens, at, at)?))
        }
    }
}

fn pattern(tokens: &[Token], it: &Item<'_>) -> Option<Seen> {
    let kind = match pat_at(it)? {
        TypePat::Ident(_) => "Ident",
        TypePat::Array { .. } => "Array",
        TypePat::Object(_) => "Object",
        TypePat::Rest(_) => "Rest",
        TypePat::Broken => return None,
    };
    told_at(kind, tokens, it)
}

fn property(tokens: &[Token], it: &Item<'_>) -> Option<Seen> {
    let kind = match prop_at(it)? {
        TypeProp::Rest(_) => "Rest",
        TypeProp::KeyValue { .. } => "KeyValue",
        TypeProp::Shorthand(_) => "Shorthand",
        TypeProp::Broken => return None,
    };
    told_at(kind, tokens, it)
}

/// The name of a reference, or the brackets of its arguments.
fn in_reference(letter: &str, tokens: &[Token], it: &Item<'_>) -> Option<Seen> {
    match simple_at(it)? {
        SimpleType::Reference { name, arguments } => match letter {
            "T" => told_at("TypeArgs", tokens, &arguments),
            _ => told_at("Entity", tokens, &name),
        },
        SimpleType::Entity(_) if letter == "E" => told_at("Entity", tokens, it),
        _ => None,
    }
}

/// A member of an interface.
pub fn element(tokens: &[Token], it: &Item<'_>) -> Option<Seen> {
    let kind = match member_at(it)? {
        TypeMember::Call { .. } => "CallSignature",
        TypeMember::Construct { .. } => "ConstructSignature",
        TypeMember::Index { .. } => "IndexSignature",
        TypeMember::Accessor { .. } => "MethodSignature",
        TypeMember::Method { .. } => "MethodSignature",
        TypeMember::Property { .. } => "PropertySignature",
        TypeMember::Broken => return None,
    };
    told_at(kind, tokens, it)
}

/// The key of a property.
pub fn key_of(tokens: &[Token], it: &Item<'_>) -> Option<Seen> {
    match member_at(it)? {
        TypeMember::Property { key, .. } => match key_at(&key)? {
            TypeKey::Word(_) => told_at("Ident", tokens, &key),
            TypeKey::Computed(_) => told_at("Entity", tokens, &key),
            _ => None,
        },
        _ => None,
    }
}
