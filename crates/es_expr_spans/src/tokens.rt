//! Ranges of tokens and of nodes, by their numbers.

ghost use Rattle.std.specs.Prelude.{◌≡◌, slice_get};
ghost use Rattle.es_lowering.specs.Texts as texts;
ghost use Rattle.es_syntax.specs.Held.{token_there};
ghost use Rattle.es_expr_spans.specs.Spans.{token_range};

use base::Range;
use es_token::Token;

/// The token of this number.
fn token_at(tokens: &[Token], at: u32) -> Option<Token>
    ensures { result ≡ slice_get tokens.now at }
{
    tokens.get(at as usize).copied()
}

fn start_of(tokens: &[Token], at: u32) -> usize
    ensures { result ≡ texts.start_of (slice_get tokens.now at) }
{
    match token_at(tokens, at) {
        Some(token) => token.range().start,
        None => 0,
    }
}

fn end_of(tokens: &[Token], at: u32) -> usize
    ensures { result ≡ texts.end_of (slice_get tokens.now at) }
{
    match token_at(tokens, at) {
        Some(token) => token.range().end,
        None => 0,
    }
}

/// Where the token before this one ends, or 0.
#[tactic(auto, unfolding(es_lowering::specs::Texts::end_before))]
fn end_before(tokens: &[Token], at: u32) -> usize
    ensures { result ≡ texts.end_before tokens.now at }
{
    if at == 0 {
        return 0;
    }
    end_of(tokens, at - 1)
}

/// The bytes of a node, from its first token up to the token after its last one.
#[tactic(auto, unfolding(es_lowering::specs::Texts::span_of))]
pub fn span_of(tokens: &[Token], from: u32, to: u32) -> Range
    ensures { result ≡ texts.span_of tokens.now from to }
{
    if from == to {
        let end = end_before(tokens, from);
        return Range { start: end, end };
    }
    let start = start_of(tokens, from);
    let end = end_before(tokens, to);
    Range { start, end }
}

/// The bytes of a token; the empty range at 0 where there is none.
pub(crate) fn token_range(tokens: &[Token], at: Option<u32>) -> Range
    ensures { result ≡ token_range (token_there tokens.now at) }
{
    match at {
        Some(at) => match token_at(tokens, at) {
            Some(token) => token.range(),
            None => Range { start: 0, end: 0 },
        },
        None => Range { start: 0, end: 0 },
    }
}
