//! The pieces of a node's own tokens, and those before and after a node.

ghost use Rattle.std.specs.Prelude.{◌≡◌, ◌-◌, OnOk, slice_get};
ghost use Rattle.es_printer.specs.Sheet.{put, before, behind, is_item, token_at, token_by, tokens_from, up_to};
ghost use Rattle.es_printer.specs.Laid.{Grows};

use crate::draft::Draft;
use crate::piece::{Piece, Source, Stand};
use crate::stand::{kind_is, stand};
use crate::style::{Style, ends_of, style_of};
use es_grammar::NodeKind;
use es_token::{Token, TokenKind};
use std::alloc::AllocError;

#[inline(always)]
fn token(tokens: &[Token], at: u32) -> Option<Token>
    ensures { result ≡ slice_get tokens.now at }
{
    tokens.get(at as usize).copied()
}

/// Behind a node here the line ends.
#[inline(always)]
#[tactic(auto, unfolding(crate::specs::Sheet::is_item))]
fn is_item(tokens: &[Token], here: Style, own: Style, to: u32) -> bool
    ensures { result ≡ is_item here own (slice_get tokens.now to) }
{
    if here == Style::Program || here == Style::Block || here == Style::Body {
        own != Style::Path
    } else if here == Style::Fields || here == Style::Types {
        own == Style::Member || own == Style::Empty
    } else if here == Style::Cases {
        let to = to as usize;
        !(kind_is(tokens, to, TokenKind::CloseParen) || kind_is(tokens, to, TokenKind::Colon))
    } else {
        false
    }
}

/// What is printed before a node.
#[inline(always)]
#[tactic(auto, unfolding(crate::specs::Sheet::before), using(crate::proofs::LaidLemmas::both))]
pub fn before(
    out: &mut Draft<'_>,
    source: &Source<'_>,
    here: Style,
    own: Style,
    from: u32,
) -> Result<(), AllocError>
    ensures { OnOk result (Grows source.now (put (before here own from)) out.old out.new) }
{
    out.push_if(source, here == Style::Program, Piece::Leading(from))?;
    out.push_if(source, own == Style::Tag, Piece::Close)
}

/// What is printed after a node.
#[inline(always)]
#[tactic(auto, unfolding(crate::specs::Sheet::behind), using(crate::proofs::LaidLemmas::both))]
pub fn behind(
    out: &mut Draft<'_>,
    source: &Source<'_>,
    here: Style,
    label: NodeKind,
    to: u32,
) -> Result<(), AllocError>
    ensures { OnOk result (Grows source.now (put (behind source.now.tokens.now here label to)) out.old out.new) }
{
    out.push_ended(source, ends_of(label))?;
    let item = is_item(source.tokens, here, style_of(label), to);
    out.push_if(source, item, Piece::Line)
}

#[inline(always)]
#[tactic(auto, using(crate::proofs::LaidLemmas::none, crate::proofs::LaidLemmas::same))]
fn push_by(
    out: &mut Draft<'_>,
    source: &Source<'_>,
    at: u32,
    stand: Option<Stand>,
) -> Result<(), AllocError>
    ensures { OnOk result (Grows source.now (put (token_by at stand)) out.old out.new) }
{
    match stand {
        Some(stand) => out.push(source, Piece::Token(stand, at)),
        None => Ok(()),
    }
}

#[inline(never)]
#[tactic(auto, using(crate::proofs::LaidLemmas::none, crate::proofs::LaidLemmas::same))]
fn push_token(
    out: &mut Draft<'_>,
    source: &Source<'_>,
    own: Style,
    at: u32,
) -> Result<(), AllocError>
    ensures { OnOk result (Grows source.now (put (token_at source.now.tokens.now own at (slice_get source.now.tokens.now at))) out.old out.new) }
{
    match token(source.tokens, at) {
        Some(token) => push_by(out, source, at, stand(source.tokens, own, token.kind(), at)),
        None => Ok(()),
    }
}

/// The tokens from one on, and before another.
#[inline(always)]
#[tactic(auto, using(crate::proofs::LaidLemmas::tokens_end, crate::proofs::LaidLemmas::tokens_more))]
fn push_tokens(
    out: &mut Draft<'_>,
    source: &Source<'_>,
    own: Style,
    from: u32,
    to: u32,
) -> Result<(), AllocError>
    ensures { OnOk result (Grows source.now (put (tokens_from source.now.tokens.now own (to - from) from)) out.old out.new) }
{
    let mut at = from;
    while at < to {
        push_token(out, source, own, at)?;
        at += 1;
    }
    Ok(())
}

/// All tokens before this one that aren't printed yet.
#[inline(always)]
#[tactic(auto, using(crate::proofs::LaidLemmas::up_to_all))]
pub fn up_to(
    out: &mut Draft<'_>,
    source: &Source<'_>,
    own: Style,
    to: u32,
) -> Result<(), AllocError>
    ensures { OnOk result (Grows source.now (up_to source.now.tokens.now own to) out.old out.new) }
{
    let from = out.next;
    push_tokens(out, source, own, from, to)?;
    out.next = to;
    Ok(())
}
