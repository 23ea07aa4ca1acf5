//! The parts of expressions that letters name.

use crate::exprs::{before_last, expression, last_post, post_before, post_kind};
use crate::pats::pattern;
use crate::spans::{Seen, ends, first_in, span, token_span, told, told_at};
use base::Range;
use es_syntax::{Item, Siblings};
use es_token::{Token, TokenKind};
use es_view_expressions::call::{Args, Call, Post, args_at, call_at, post_at};
use es_view_expressions::expr::{Primary, primary_at};
use es_view_expressions::member::{Prop, prop_at};
use es_view_expressions::operator::{Operator, chain_at, operator_at};

/// Of a call the first argument, of an array the first element, of a member or a test with `in` what comes first.
pub fn in_expression(letter: &str, tokens: &[Token], it: &Item<'_>) -> Option<Seen> {
    if letter == "e" {
        return unwrapped(tokens, it);
    }
    if let Some(view) = primary_at(it) {
        return in_primary(tokens, &view);
    }
    if let Some(view) = operator_at(it) {
        return in_operator(letter, tokens, &view);
    }
    if let Some(chain) = chain_at(it) {
        return before_last(tokens, &chain);
    }
    match call_at(it) {
        Some(
            Call::Chain {
                base,
                first,
                others,
            },
        ) => in_chain(tokens, &base, &first, &others),
        _ => None,
    }
}

/// What is between parentheses, or the expression itself.
fn unwrapped(tokens: &[Token], it: &Item<'_>) -> Option<Seen> {
    match primary_at(it) {
        Some(Primary::Paren(inner)) => expression(tokens, &inner),
        _ => expression(tokens, it),
    }
}

fn in_primary(tokens: &[Token], it: &Primary<'_>) -> Option<Seen> {
    match it {
        Primary::Template(piece) => piece_of(tokens, *piece),
        Primary::TemplateParts { head, .. } => piece_of(tokens, *head),
        Primary::Array { from, elems } => first_element(tokens, *from, elems),
        _ => None,
    }
}

/// A piece of a template, without its backtick, `}` and `${`.
fn piece_of(tokens: &[Token], token: u32) -> Option<Seen> {
    let token = tokens.get(token as usize)?;
    let stop: usize = match token.kind() {
        TokenKind::TemplateHead | TokenKind::TemplateMiddle => 2,
        _ => 1,
    };
    let span = Range {
        start: token.range().start.checked_add(1)?,
        end: token.range().end.checked_sub(stop)?,
    };
    Some(told("TplElement", span))
}

/// The first element of an array that begins at this token: where there is none, a hole after the bracket.
fn first_element(tokens: &[Token], from: u32, elems: &Siblings<'_>) -> Option<Seen> {
    match elems.part(0)?.group().group_at(0).part(0) {
        Some(element) => expression(tokens, &element),
        None => {
            let at = from.checked_add(1)?;
            Some(told("Hole", span(tokens, at, at)?))
        }
    }
}

fn in_operator(letter: &str, tokens: &[Token], it: &Operator<'_>) -> Option<Seen> {
    match it {
        Operator::PrivateIn { name, .. } => Some(told("PrivateName", token_span(tokens, *name)?)),
        Operator::Binary { left, .. } => expression(tokens, left),
        Operator::TypedBinary { left, .. } => expression(tokens, left),
        Operator::Assignment { left, right } => match letter {
            "l" => told_at("Expr", tokens, left),
            _ => first_property(tokens, right),
        },
        Operator::PatternAssignment { left, right } => match letter {
            "l" => pattern(tokens, left),
            _ => first_property(tokens, right),
        },
        _ => None,
    }
}

fn first_property(tokens: &[Token], it: &Item<'_>) -> Option<Seen> {
    match primary_at(it)? {
        Primary::Object(props) => property(tokens, &first_in(&props)?),
        _ => None,
    }
}

/// A property of an object.
fn property(tokens: &[Token], it: &Item<'_>) -> Option<Seen> {
    let kind = match prop_at(it)? {
        Prop::Method { .. } => "Method",
        Prop::Accessor { .. } => "Method",
        Prop::KeyValue { .. } => "KeyValue",
        Prop::Shorthand(_) => "Shorthand",
        Prop::Spread(_) => "Spread",
        Prop::TypedMethod { .. } => "Method",
        Prop::TypedAccessor { .. } => "Method",
        Prop::Broken => return None,
    };
    told_at(kind, tokens, it)
}

/// The first argument where a call comes last, the object where a member does.
fn in_chain(
    tokens: &[Token],
    base: &Item<'_>,
    first: &Item<'_>,
    others: &Siblings<'_>,
) -> Option<Seen> {
    match post_at(&last_post(first, others)?)? {
        Post::Call(args) => first_argument(tokens, &args),
        Post::TypedCall { args, .. } => first_argument(tokens, &args),
        Post::Member(_) => match post_before(first, others) {
            Some(post) => {
                let (from, _) = ends(base)?;
                let (_, to) = ends(&post)?;
                Some(told(post_kind(&post)?, span(tokens, from, to)?))
            }
            None => expression(tokens, base),
        },
        _ => None,
    }
}

fn first_argument(tokens: &[Token], it: &Item<'_>) -> Option<Seen> {
    match args_at(it)? {
        Args::Arguments(turns) => {
            let turn = turns.part(0)?.group();
            let argument = turn.part(1)?;
            match turn.group_at(0).part(0) {
                Some(sign) => {
                    let (from, _) = ends(&sign)?;
                    let (_, to) = ends(&argument)?;
                    Some(told("Spread", span(tokens, from, to)?))
                }
                None => expression(tokens, &argument),
            }
        }
        Args::Broken => None,
    }
}
