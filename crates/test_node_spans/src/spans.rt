//! Where nodes are in the text: a row gives the numbers of tokens, and these their bytes.

use base::Range;
use es_syntax::{Item, Siblings};
use es_token::Token;

/// The name of a node's kind, and the range of the node.
#[derive(Clone, Copy)]
pub struct Seen {
    pub kind: &'static str,
    pub span: Range,
}

pub fn told(kind: &'static str, span: Range) -> Seen {
    Seen { kind, span }
}

/// The bytes of a token.
pub fn token_span(tokens: &[Token], token: u32) -> Option<Range> {
    match tokens.get(token as usize) {
        Some(token) => Some(token.range()),
        None => None,
    }
}

/// Where the token before this one ends, or 0.
fn end_before(tokens: &[Token], token: u32) -> Option<usize> {
    match token.checked_sub(1) {
        Some(before) => Some(token_span(tokens, before)?.end),
        None => Some(0),
    }
}

/// From the start of a token to the end of the one before another; without tokens between, where the token before ends.
pub fn span(tokens: &[Token], from: u32, to: u32) -> Option<Range> {
    let end = end_before(tokens, to)?;
    if from == to {
        return Some(Range { start: end, end });
    }
    let first = token_span(tokens, from)?;
    Some(Range {
        start: first.start,
        end,
    })
}

/// The first token of a node or a token, and the one after its last.
pub fn ends(it: &Item<'_>) -> Option<(u32, u32)> {
    match it.token() {
        Some(token) => Some((token, token.checked_add(1)?)),
        None => it.place(),
    }
}

/// The same of the second number, where a part may be absent: then of what precedes it.
pub fn behind(part: &Siblings<'_>, before: u32) -> Option<u32> {
    match part.part(0) {
        Some(it) => Some(ends(&it)?.1),
        None => Some(before),
    }
}

/// A node of this kind.
pub fn told_at(kind: &'static str, tokens: &[Token], it: &Item<'_>) -> Option<Seen> {
    let (from, to) = ends(it)?;
    Some(told(kind, span(tokens, from, to)?))
}

/// What comes first in a list.
pub fn first_in<'a>(list: &Siblings<'a>) -> Option<Item<'a>> {
    list.part(0)?.group().part(0)
}

/// The last two items of a row.
#[derive(Clone, Copy)]
pub struct Last<'a> {
    pub before: Option<Item<'a>>,
    pub last: Option<Item<'a>>,
}

pub fn last_in<'a>(list: &Siblings<'a>) -> Last<'a> {
    let mut row = *list;
    let mut before = None;
    let mut last = None;
    while let Some((turn, rest)) = row.split() {
        before = last;
        last = Some(turn);
        row = rest;
    }
    Last { before, last }
}
