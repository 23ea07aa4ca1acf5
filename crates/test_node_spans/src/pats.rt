//! Patterns, parameters and their parts.

use crate::spans::{Seen, behind, ends, first_in, span, told, told_at};
use es_syntax::{Item, Siblings};
use es_token::Token;
use es_view_expressions::pattern::{Marked, Pat, PatProp, marked_at, pat_at, pat_prop_at};
use es_view_statements::decl::{Declarator, declarator_at};
use es_view_statements::param::{Param, Params, param_at, params_at};

/// A pattern. A simple target is given by the range of its expression.
pub fn pattern(tokens: &[Token], it: &Item<'_>) -> Option<Seen> {
    let kind = match pat_at(it)? {
        Pat::Ident(_) => "Ident",
        Pat::Array { .. } => "Array",
        Pat::Object(_) => "Object",
        Pat::Rest(_) => "Rest",
        Pat::Default { .. } => "Assign",
        Pat::Target(_) => "Expr",
        Pat::Broken => return None,
    };
    told_at(kind, tokens, it)
}

/// A pattern up to this token, which follows what belongs to it.
fn marked(tokens: &[Token], it: &Item<'_>, to: u32) -> Option<Seen> {
    let kind = match marked_at(it)? {
        Marked::Ident(_) => "Ident",
        Marked::Array { .. } => "Array",
        Marked::Object(_) => "Object",
        Marked::Broken => return None,
    };
    let (from, _) = ends(it)?;
    Some(told(kind, span(tokens, from, to)?))
}

/// The declarator itself, its pattern, or the first property of that.
pub fn in_declarator(letter: &str, tokens: &[Token], it: &Item<'_>) -> Option<Seen> {
    if letter == "d" {
        return told_at("Declarator", tokens, it);
    }
    match declarator_at(it)? {
        Declarator::Assigned { name, .. } => in_pattern(letter, tokens, &name),
        Declarator::Typed { name, ty, .. } => match letter {
            "k" => first_of_pattern(tokens, &name),
            _ => marked(tokens, &name, behind(&ty, ends(&name)?.1)?),
        },
        Declarator::Pattern(node) => in_pattern(letter, tokens, &node),
        Declarator::Broken => None,
    }
}

fn in_pattern(letter: &str, tokens: &[Token], it: &Item<'_>) -> Option<Seen> {
    match letter {
        "k" => first_of_pattern(tokens, it),
        _ => pattern(tokens, it),
    }
}

fn first_of_pattern(tokens: &[Token], it: &Item<'_>) -> Option<Seen> {
    match pat_at(it)? {
        Pat::Object(props) => pattern_property(tokens, &first_in(&props)?),
        _ => None,
    }
}

/// A property of a pattern.
fn pattern_property(tokens: &[Token], it: &Item<'_>) -> Option<Seen> {
    let kind = match pat_prop_at(it)? {
        PatProp::Rest(_) => "Rest",
        PatProp::KeyValue { .. } => "KeyValue",
        PatProp::Shorthand { .. } => "Assign",
        PatProp::Broken => return None,
    };
    told_at(kind, tokens, it)
}

/// The first parameter, or with `q` the pattern of it.
pub fn first_param(letter: &str, tokens: &[Token], it: &Item<'_>) -> Option<Seen> {
    match params_at(it)? {
        Params::Signature(inner) => first_listed(letter, tokens, &inner),
        Params::Plain { all, rest } => first_of(letter, tokens, &all, &rest),
        Params::Typed { all, rest } => first_of(letter, tokens, &all, &rest),
        Params::Broken => None,
    }
}

/// The same of what is between parentheses.
fn first_listed(letter: &str, tokens: &[Token], it: &Item<'_>) -> Option<Seen> {
    match params_at(it)? {
        Params::Plain { all, rest } => first_of(letter, tokens, &all, &rest),
        Params::Typed { all, rest } => first_of(letter, tokens, &all, &rest),
        _ => None,
    }
}

fn first_of(
    letter: &str,
    tokens: &[Token],
    all: &Siblings<'_>,
    rest: &Siblings<'_>,
) -> Option<Seen> {
    match first_in(all) {
        Some(param) => match letter {
            "q" => pattern_of(tokens, &param),
            _ => told_at("Param", tokens, &param),
        },
        None => match letter {
            "q" => Some(told("Rest", rest_span(tokens, rest)?)),
            _ => Some(told("Param", rest_span(tokens, rest)?)),
        },
    }
}

/// What comes last among parameters: `...`, its pattern and the type of that.
pub fn rest_span(tokens: &[Token], rest: &Siblings<'_>) -> Option<base::Range> {
    let (from, to) = ends(&rest.part(0)?)?;
    span(tokens, from.checked_sub(1)?, behind(&rest.group_at(1), to)?)
}

/// The pattern of a parameter.
fn pattern_of(tokens: &[Token], it: &Item<'_>) -> Option<Seen> {
    match param_at(it)? {
        Param::Default { .. } => told_at("Assign", tokens, it),
        Param::This { word, ty, value } => match value.part(0) {
            Some(_) => told_at("Assign", tokens, it),
            None => {
                let (from, to) = ends(&word)?;
                Some(told("This", span(tokens, from, behind(&ty, to)?)?))
            }
        },
        Param::Property {
            name,
            mark,
            ty,
            value,
            ..
        } => tailed(tokens, &name, &mark, &ty, &value),
        Param::Marked {
            name,
            mark,
            ty,
            value,
        } => tailed(tokens, &name, &mark, &ty, &value),
        Param::Pattern(node) => pattern(tokens, &node),
        Param::Broken => None,
    }
}

/// A pattern with a mark, a type and a default after it, each of which may be absent.
fn tailed(
    tokens: &[Token],
    name: &Item<'_>,
    mark: &Siblings<'_>,
    ty: &Siblings<'_>,
    value: &Siblings<'_>,
) -> Option<Seen> {
    let (from, to) = ends(name)?;
    let to = behind(ty, behind(mark, to)?)?;
    match value.part(0) {
        Some(value) => Some(told("Assign", span(tokens, from, ends(&value)?.1)?)),
        None => marked(tokens, name, to),
    }
}
