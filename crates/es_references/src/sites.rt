//! The sites of reference comments.
ghost use Rattle.std.specs.Prelude.{◌≡◌, ◌++◌, OnOk, IfOk, option_to_list};
ghost use Rattle.std.specs.Option.{option_copied};
ghost use Rattle.es_references.specs.References as spec;
ghost use Rattle.es_references.specs.Steps.{reference_of_parts};
ghost use Rattle.es_token.specs.declared.token.CommentKind.TheVariants as comment_kind;

use crate::reference::{Reference, reference_in};
use base::{Items, Range, Text};
use es_site::{Attribute, Site};
use es_token::{Comment, CommentKind, Token, TokenKind};
use std::alloc::{AllocError, Global};

/// The sites of the reference comments of a text with these tokens and comments.
#[tactic(auto, unfolding(crate::specs::References::references_of))]
pub fn references(
    alloc: Global,
    tokens: &[Token],
    comments: &[Comment],
) -> Result<Items<Site>, AllocError>
    ensures { IfOk result (λ found. found ≡ spec.references_of tokens.now comments.now) }
{
    let first = first_token(tokens);
    let mut found = Items::new(alloc);
    for comment in comments {
        if is_before(comment, &first) {
            add_reference(alloc, comment, &mut found)?;
        }
    }
    Ok(found)
}

// The first token that is no shebang.
fn first_token(tokens: &[Token]) -> Option<Token>
    ensures { result ≡ spec.first_token tokens.now }
{
    for token in tokens {
        if !is_shebang(token.kind()) {
            return Some(*token);
        }
    }
    None
}

fn is_shebang(kind: TokenKind) -> bool
    ensures { result ≡ spec.is_shebang kind }
{
    matches!(kind, TokenKind::Shebang)
}

fn is_before(comment: &Comment, first: &Option<Token>) -> bool
    ensures { result ≡ spec.is_before comment.now first.now }
{
    match first {
        Some(token) => comment.range.end <= token.range().start,
        None => true,
    }
}

// Appends the site of a comment, if it is a reference.
fn add_reference(
    alloc: Global,
    comment: &Comment,
    found: &mut Items<Site>,
) -> Result<(), AllocError>
    ensures { OnOk result (found.new ≡ found.old
        ++ option_to_list (spec.reference_of comment.now.kind comment.now.range.end comment.now.text)) }
{
    match comment.kind {
        CommentKind::Line => add_from_text(alloc, comment.range.end, comment.text.as_str(), found),
        CommentKind::Block => Ok(()),
    }
}

fn add_from_text(
    alloc: Global,
    end: usize,
    text: &str,
    found: &mut Items<Site>,
) -> Result<(), AllocError>
    ensures { OnOk result (found.new ≡ found.old ++ option_to_list (spec.reference_of comment_kind.Line end text.now)) }
{
    match reference_in(text) {
        Some(reference) => found.push(site_of(alloc, end, &reference)?),
        None => Ok(()),
    }
}

fn site_of(alloc: Global, end: usize, reference: &Reference<'_>) -> Result<Site, AllocError>
    ensures { IfOk result (λ site. site ≡ spec.site_of end (reference_of_parts reference.now)) }
{
    Ok(Site {
        kind: reference.kind,
        type_only: true,
        range: Range {
            start: end.saturating_sub(reference.from.len()),
            end: end.saturating_sub(reference.behind.len()),
        },
        value: Text::from_str(alloc, reference.value)?,
        attribute: Attribute::Unknown,
    })
}
