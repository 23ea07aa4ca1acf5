//! Where a comment is.
ghost use Rattle.std.specs.Prelude.{◌≡◌, ◌≤◌, OnOk, IfOk};
ghost use Rattle.std.specs.List.{slice_get};
ghost use Rattle.es_comments.specs.Placed.{placed_in};
ghost use Rattle.es_comments.specs.Standing.{begins_line_end, line_between, count_before, last_of, line_behind, stand_between, ArePlaced};
ghost use Rattle.es_comments.specs.Steps.{Puts, IsPast};

use crate::maps::{SingleThreadedComments, add, copy_comment};
use es_token::{Comment, Token};
use std::alloc::{AllocError, Global};

/// Where a comment is.
#[derive(Clone, Copy)]
pub enum Stand {
    /// Before the token that starts here.
    Leading(usize),
    /// After the token that ends here.
    Trailing(usize),
}

// What was gone through of a text, up to a place.
#[derive(Clone, Copy)]
struct Past {
    place: usize,
    // How many tokens begin before it.
    passed: usize,
    // Whether a line end is after the last of them.
    line: bool,
}

const START: Past = Past {
    place: 0,
    passed: 0,
    line: false,
};

/// The comments of a text by their places, in bytes of the text: each is trailing at the end of the token before it, or leading
/// at the start of the next one. The tokens ascend. Not promised: that text and tokens are gone through once, which is so where
/// the comments ascend too.
pub fn comments_of(
    alloc: Global,
    text: &str,
    tokens: &[Token],
    comments: &[Comment],
) -> Result<SingleThreadedComments, AllocError>
    ensures { IfOk result (λ placed. ArePlaced text.now tokens.now comments.now (placed_in placed)) }
{
    let bytes = text.as_bytes();
    let mut placed = SingleThreadedComments::new(alloc);
    let mut past = START;
    for comment in comments {
        past = go_to(bytes, tokens, past, comment.range.start);
        let stand = stand_of(tokens, past);
        let copy = copy_comment(comment)?;
        put(alloc, &mut placed, stand, copy)?;
    }
    Ok(placed)
}

// What was gone through up to a place: on from what was, or from the text's front where the place lies before.
fn go_to(text: &[u8], tokens: &[Token], past: Past, place: usize) -> Past
    requires { IsPast text.now tokens.now past }
    ensures past { IsPast text.now tokens.now result }
    ensures place { result.place ≡ place }
{
    if place < past.place {
        go_on(text, tokens, START, place)
    } else {
        go_on(text, tokens, past, place)
    }
}

fn go_on(text: &[u8], tokens: &[Token], past: Past, place: usize) -> Past
    requires past { IsPast text.now tokens.now past }
    requires on { past.place ≤ place }
    ensures past { IsPast text.now tokens.now result }
    ensures place { result.place ≡ place }
{
    let passed = pass(tokens, past.passed, place);
    let line = line_since(text, tokens, past, passed, place);
    Past {
        place,
        passed,
        line,
    }
}

// How many tokens begin before the place, of which so many do.
fn pass(tokens: &[Token], from: usize, place: usize) -> usize
    requires { from ≤ count_before tokens.now place }
    ensures { result ≡ count_before tokens.now place }
{
    let mut passed = from;
    while passed < tokens.len() && tokens[passed].range().start < place {
        passed += 1;
    }
    passed
}

// Whether a line end is after the last of the first `passed` tokens, before the place.
fn line_since(text: &[u8], tokens: &[Token], past: Past, passed: usize, place: usize) -> bool
    requires past { IsPast text.now tokens.now past }
    requires on { past.place ≤ place }
    ensures { result ≡ line_behind text.now (last_of tokens.now passed) place }
{
    let Some(last) = last_token(tokens, passed) else {
        return false;
    };
    let end = last.range().end;
    if passed == past.passed {
        past.line || has_line_end(text, end.max(past.place), place)
    } else {
        has_line_end(text, end, place)
    }
}

fn last_token(tokens: &[Token], passed: usize) -> Option<Token>
    ensures { result ≡ last_of tokens.now passed }
{
    if passed == 0 {
        return None;
    }
    tokens.get(passed - 1).copied()
}

// Whether a line end begins at a place from the first on, before the second.
fn has_line_end(text: &[u8], from: usize, upto: usize) -> bool
    ensures { result ≡ line_between text.now from upto }
{
    let end = upto.min(text.len());
    for at in from..end {
        if begins_line_end(&text[at..]) {
            return true;
        }
    }
    false
}

// Whether the rest begins with a line feed, a carriage return, U+2028 or U+2029.
fn begins_line_end(rest: &[u8]) -> bool
    ensures { result ≡ begins_line_end rest.now }
{
    match rest {
        [b'\n' | b'\r', ..] => true,
        [0xe2, 0x80, 0xa8 | 0xa9, ..] => true,
        _ => false,
    }
}

fn stand_of(tokens: &[Token], past: Past) -> Stand
    ensures { result ≡ stand_between (last_of tokens.now past.passed) (slice_get tokens.now past.passed) past.line }
{
    let last = last_token(tokens, past.passed);
    let next = tokens.get(past.passed).copied();
    between(last, next, past.line)
}

fn between(last: Option<Token>, next: Option<Token>, line: bool) -> Stand
    ensures { result ≡ stand_between last next line }
{
    match (last, next) {
        (None, None) => Stand::Leading(0),
        (None, Some(next)) => Stand::Leading(next.range().start),
        (Some(last), None) => Stand::Trailing(last.range().end),
        (Some(last), Some(next)) => {
            if line {
                Stand::Leading(next.range().start)
            } else {
                Stand::Trailing(last.range().end)
            }
        }
    }
}

fn put(
    alloc: Global,
    placed: &mut SingleThreadedComments,
    stand: Stand,
    comment: Comment,
) -> Result<(), AllocError>
    ensures { OnOk result (Puts placed.old placed.new stand comment) }
{
    match stand {
        Stand::Leading(place) => add(alloc, &mut placed.leading, place, comment),
        Stand::Trailing(place) => add(alloc, &mut placed.trailing, place, comment),
    }
}
