//! The calls for which a graph has no edge.
ghost use Rattle.std.specs.Prelude.{◌≡◌, ◌++◌, IfOk, OnOk, option_to_list};
ghost use Rattle.unread_calls.specs.Unread as spec;

use crate::around::{
    closing, head, is_import_equals, is_in_phase, is_name, kind_at, takes_argument, takes_literal,
    token_at,
};
use base::{Items, Range};
use es_token::{Token, TokenKind};
use std::alloc::{AllocError, Global};

/// What a call loads by.
#[derive(Clone, Copy, Debug, PartialEq, Eq)]
pub enum Loader {
    /// `import(..)`, `import.source(..)` or `import.defer(..)`, whose first argument is no string literal.
    Import,
    /// `require(..)`, other than in `import a = require("b")`.
    Require,
}

/// A call for which a graph has no edge.
#[derive(Clone, Copy, Debug, PartialEq, Eq)]
pub struct UnreadCall {
    pub loader: Loader,
    /// Its bytes in the text, from the word through the closing bracket.
    pub range: Range,
}

/// The calls among the tokens of a source for which a graph has no edge, in the order of the text.
pub fn unread_calls(alloc: Global, tokens: &[Token]) -> Result<Items<UnreadCall>, AllocError>
    ensures { IfOk result (λ calls. calls ≡ spec.unread_of tokens.now) }
{
    let mut calls = Items::new(alloc);
    for i in 0..tokens.len() {
        add_unread(tokens, i, &mut calls)?;
    }
    Ok(calls)
}

// Adds the call of the word with this number after those found.
fn add_unread(tokens: &[Token], i: usize, calls: &mut Items<UnreadCall>) -> Result<(), AllocError>
    ensures { OnOk result (calls.new ≡ calls.old ++ option_to_list (spec.unread_at tokens.now i)) }
{
    match unread_at(tokens, i) {
        Some(call) => calls.push(call),
        None => Ok(()),
    }
}

// The call of the word with this number.
fn unread_at(tokens: &[Token], i: usize) -> Option<UnreadCall>
    ensures { result ≡ spec.unread_at tokens.now i }
{
    let loader = loader_at(tokens, i)?;
    if is_unread(loader, tokens, i) {
        call_at(loader, tokens, i)
    } else {
        None
    }
}

fn loader_at(tokens: &[Token], i: usize) -> Option<Loader>
    ensures { result ≡ spec.loader_at tokens.now i }
{
    if is_in_phase(tokens, i) {
        Some(Loader::Import)
    } else {
        loader_of(kind_at(tokens, i))
    }
}

fn loader_of(kind: Option<TokenKind>) -> Option<Loader>
    ensures { result ≡ spec.loader_of kind }
{
    match kind {
        Some(TokenKind::ImportWord) => Some(Loader::Import),
        Some(TokenKind::RequireWord) => Some(Loader::Require),
        _ => None,
    }
}

fn is_unread(loader: Loader, tokens: &[Token], i: usize) -> bool
    ensures { result ≡ spec.is_unread loader tokens.now i }
{
    takes_argument(tokens, i) && !is_name(tokens, i) && !has_edge(loader, tokens, i)
}

fn has_edge(loader: Loader, tokens: &[Token], i: usize) -> bool
    ensures { result ≡ spec.has_edge loader tokens.now i }
{
    match loader {
        Loader::Import => takes_literal(tokens, i),
        Loader::Require => is_import_equals(tokens, i),
    }
}

fn call_at(loader: Loader, tokens: &[Token], i: usize) -> Option<UnreadCall>
    ensures { result ≡ spec.call_at loader tokens.now i }
{
    let word = token_at(tokens, head(tokens, i))?;
    let close = token_at(tokens, closing(tokens, i)?)?;
    Some(UnreadCall {
        loader,
        range: Range {
            start: word.range().start,
            end: close.range().end,
        },
    })
}
