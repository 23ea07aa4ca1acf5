//! What is read of tokens.
ghost use Rattle.std.specs.Prelude.{◌≡◌, ◌+◌, slice_get, slice_range};
ghost use Rattle.es_lowering.specs.Value.{given};
ghost use Rattle.es_lowering.specs.Texts as texts;
ghost use Rattle.es_lexer.specs.Reads.{ReadsTokens};
ghost use Rattle.es_program.specs.Typed.{LentAs};
ghost use Rattle.es_program.specs.Cuts.{Cuts};

use base::Range;
use es_token::{Token, TokenKind};

fn token_at(tokens: &[Token], at: usize) -> Option<Token>
    ensures { result ≡ slice_get tokens.now at }
{
    match tokens.get(at) {
        Some(token) => Some(*token),
        None => None,
    }
}

fn start_of(tokens: &[Token], at: usize) -> usize
    ensures { result ≡ texts.start_of (slice_get tokens.now at) }
{
    match token_at(tokens, at) {
        Some(token) => token.range().start,
        None => 0,
    }
}

fn end_of(tokens: &[Token], at: usize) -> usize
    ensures { result ≡ texts.end_of (slice_get tokens.now at) }
{
    match token_at(tokens, at) {
        Some(token) => token.range().end,
        None => 0,
    }
}

/// Where the token before this one ends, or 0.
#[tactic(auto, unfolding(es_lowering::specs::Texts::end_before))]
fn end_before(tokens: &[Token], at: usize) -> usize
    ensures { result ≡ texts.end_before tokens.now at }
{
    if at == 0 {
        return 0;
    }
    end_of(tokens, at - 1)
}

/// The bytes of a node, given by its first token and the token after its last one.
#[tactic(auto, unfolding(es_lowering::specs::Texts::span_of))]
pub fn span_at(tokens: &[Token], from: usize, to: usize) -> Range
    ensures { result ≡ texts.span_of tokens.now from to }
{
    if from == to {
        let end = end_before(tokens, from);
        return Range { start: end, end };
    }
    let start = start_of(tokens, from);
    let end = end_before(tokens, to);
    Range { start, end }
}

/// The part of a text between two offsets.
fn piece(text: &str, start: usize, end: usize) -> &str
    requires { Cuts text.now start end }
    ensures { result.now ≡ slice_range text.now start end }
{
    &text[start..end]
}

/// What follows `#!` in a token that is a shebang.
#[tactic(auto, unfolding(es_lowering::specs::Texts::shebang_of))]
fn line_of(text: &str, token: Token) -> Option<&str>
    requires { token.kind ≡ TokenKind.Shebang → Cuts text.now (token.range.start + 2) token.range.end }
    ensures { LentAs result (texts.shebang_of text.now token) }
{
    if token.kind() != TokenKind::Shebang {
        return None;
    }
    let range = token.range();
    Some(piece(text, range.start + 2, range.end))
}

/// What follows `#!` in the token at this place, if it is a shebang.
#[tactic(auto, using(crate::proofs::CutLemmas::line_cut))]
pub fn shebang_at<'a>(text: &'a str, tokens: &[Token], at: usize) -> Option<&'a str>
    requires { ReadsTokens text.now tokens.now }
    ensures { LentAs result (given (slice_get tokens.now at) (texts.shebang_of text.now)) }
{
    match token_at(tokens, at) {
        Some(token) => line_of(text, token),
        None => None,
    }
}
