ghost use Rattle.std.specs.Prelude.{◌≡◌, ℕ, ◌+◌, List, [], IfOk, slice_range};
ghost use Rattle.es_token.specs.declared.token.Token.{Token};
ghost use Rattle.es_token.specs.declared.token.Comment.{Comment};
ghost use Rattle.es_lexer.specs.declared.error.LexicalKind.{LexicalKind};
ghost use Rattle.es_lexer.specs.declared.error.LexicalError.{LexicalError};
ghost use Rattle.es_lexer.specs.Reads.{Reads};
ghost use Rattle.es_lexer.specs.Stops.{Stops};
ghost use Rattle.es_lexer.specs.Answers.{GivesLists, GivesFault};
ghost use Rattle.es_lexer.specs.Goal.{state_of};
ghost use Rattle.es_lexer.specs.Scan.{text_end, HasCommentText, comment_at};

use crate::error::{LexError, LexicalError};
use crate::goal::{State, blank_state, comment_state, goal_in, line_state, token_state};
use crate::look::{Look, behind_blanks, look_from, short_word};
use crate::short::short_sign;
use crate::stack::{innermost, push_short, push_token, push_word};
use base::{Items, Range, Text};
use es_token::{Comment, CommentKind, Lexed, Token};
use std::alloc::{AllocError, Global};
use std::cmp;

/// The tokens and comments of a text, or its first lexical fault (ECMA-262, "Lexical Grammar").
pub fn lex_tokens(alloc: Global, text: &str) -> Result<Lexed, LexError>
    // What is answered reads the text.
    ensures read { IfOk result (λ lexed. Reads text.now lexed.tokens lexed.comments) }
    // What reads the text is answered, unless memory runs out.
    ensures only { (ts : List Token) (cs : List Comment) → Reads text.now ts cs → GivesLists result ts cs }
    // A fault is the first one.
    ensures stopped { (e : LexicalError) → result ≡ Err (LexError.Lexical e) → Stops text.now e.kind e.at }
    // The first fault is answered, unless memory runs out.
    ensures fault { (kind : LexicalKind) (at : ℕ) → Stops text.now kind at → GivesFault result kind at }
{
    scan(alloc, text)
}

fn scan(alloc: Global, text: &str) -> Result<Lexed, LexError>
    ensures read { IfOk result (λ lexed. Reads text.now lexed.tokens lexed.comments) }
    ensures stopped { (e : LexicalError) → result ≡ Err (LexError.Lexical e) → Stops text.now e.kind e.at }
{
    let bytes = text.as_bytes();
    let mut tokens = room_for(alloc, bytes.len())?;
    let mut comments = Items::new(alloc);
    let mut brackets = Items::new(alloc);
    let mut at = 0;
    let mut state = first_state();
    'pieces: loop {
        let goal = goal_in(state, innermost(&brackets));
        let rest = &bytes[at..];
        if let Some(word) = short_word(goal, at, rest) {
            let range = Range {
                start: at,
                end: word.end,
            };
            state = push_word(&mut tokens, &mut brackets, state, word.kind, range)?;
            at = behind_blanks(bytes, word.end);
            continue;
        }
        if let Some(short) = short_sign(goal, rest) {
            let range = Range {
                start: at,
                end: at + 1,
            };
            state = push_short(&mut tokens, &mut brackets, state, short, range)?;
            at = behind_blanks(bytes, at + 1);
            continue;
        }
        match look_from(goal, at, rest) {
            Look::End => return Ok(Lexed { tokens, comments }),
            Look::Blank { end } => {
                state = blank_state(state);
                at = behind_blanks(bytes, end);
            }
            Look::LineEnd { end } => {
                state = line_state(state);
                at = behind_blanks(bytes, end);
            }
            Look::Comment {
                kind,
                end,
                line_end,
            } => {
                comments.push(comment_from(alloc, kind, text, at, end)?)?;
                state = comment_state(state, line_end);
                at = end;
            }
            Look::Token { kind, end } => {
                let range = Range { start: at, end };
                let closed = push_token(&mut tokens, &mut brackets, state, kind, range)?;
                state = token_state(state, kind, closed);
                at = behind_blanks(bytes, end);
            }
            Look::Fault { kind, at } => {
                return Err(LexError::Lexical(LexicalError { kind, at }));
            }
        }
    }
}

/// How many bytes of a text there are to a token, in dense code.
const BYTES_PER_TOKEN: usize = 4;

/// The most tokens that room is made for before any is read.
const MOST_ROOM: usize = 1 << 20;

/// An empty list, with room for the tokens of a text of so many bytes, so that it seldom has to grow.
fn room_for(alloc: Global, bytes: usize) -> Result<Items<Token>, AllocError>
    ensures { IfOk result (λ tokens. tokens ≡ []) }
{
    let room = cmp::min(bytes / BYTES_PER_TOKEN, MOST_ROOM);
    Ok(Items::from_vec(Vec::with_capacity(alloc, room)?))
}

/// The state at the front of a text.
#[tactic(auto, unfolding(crate::specs::Goal::state_of, crate::specs::Goal::after_for, crate::specs::Goal::is_front, crate::specs::Goal::headed, crate::specs::Goal::divides, crate::specs::Goal::member, crate::specs::Pieces::is_behind, crate::specs::Pieces::line_since))]
fn first_state() -> State
    ensures { result ≡ state_of [] }
{
    State {
        any: false,
        line: false,
        divides: false,
        member: false,
        headed: false,
        after_for: false,
        front: true,
    }
}

/// The comment from `at` up to `end`.
fn comment_from(
    alloc: Global,
    kind: CommentKind,
    text: &str,
    at: usize,
    end: usize,
) -> Result<Comment, AllocError>
    requires { HasCommentText text.now kind at end }
    ensures { IfOk result (λ comment. comment ≡ comment_at text.now kind at end) }
{
    Ok(Comment {
        kind,
        range: Range { start: at, end },
        text: Text::from_str(alloc, text_within(kind, text, at, end))?,
    })
}

/// The text of a comment within its delimiters.
fn text_within(kind: CommentKind, text: &str, at: usize, end: usize) -> &str
    requires { HasCommentText text.now kind at end }
    ensures { result.now ≡ slice_range text.now (at + 2) (text_end kind end) }
{
    match kind {
        CommentKind::Line => &text[at + 2..end],
        CommentKind::Block => &text[at + 2..end - 2],
    }
}
