//! What each call answers, as a text.

use es_lexer::{Comment, CommentKind, LexError, Lexed, Token, lex_tokens, literal_value, quote};
use std::alloc::{AllocError, Global};
use test_rows::Row;

/// What the call of a row answers of its text.
pub fn answer(alloc: Global, row: &Row) -> Result<String, AllocError> {
    match row.call() {
        "tokens" => tokens(alloc, row.at(1)),
        "partners" => partners(alloc, row.at(1)),
        "value" => value(alloc, row.at(1)),
        "quote" => Ok(quote(alloc, row.at(1))?.into_string()),
        _ => String::from_str(alloc, "no such call"),
    }
}

/// Tokens, then comments, each with its range; a star precedes a token on a new line. Else the fault.
fn tokens(alloc: Global, text: &str) -> Result<String, AllocError> {
    match lex_tokens(alloc, text) {
        Ok(lexed) => described(alloc, &lexed),
        Err(LexError::Lexical(error)) => format!(in alloc; "{error}"),
        Err(LexError::OutOfMemory) => Err(AllocError),
    }
}

fn described(alloc: Global, lexed: &Lexed) -> Result<String, AllocError> {
    let mut out = String::new(alloc);
    push_tokens(alloc, &mut out, lexed.tokens.as_slice())?;
    push_comments(alloc, &mut out, lexed.comments.as_slice())?;
    Ok(out)
}

fn push_tokens(alloc: Global, out: &mut String, tokens: &[Token]) -> Result<(), AllocError> {
    for token in tokens {
        let star = if token.line_before() { "*" } else { "" };
        let (kind, start, end) = (token.kind(), token.range().start, token.range().end);
        out.push_str(format!(in alloc; "{star}{kind:?} {start}-{end}, ")?.as_str())?;
    }
    Ok(())
}

fn push_comments(alloc: Global, out: &mut String, comments: &[Comment]) -> Result<(), AllocError> {
    for comment in comments {
        let kind = if comment.kind == CommentKind::Line {
            "line"
        } else {
            "block"
        };
        let (start, end, text) = (
            comment.range.start,
            comment.range.end,
            comment.text.as_str(),
        );
        out.push_str(format!(in alloc; "{kind} {start}-{end} [{text}], ")?.as_str())?;
    }
    Ok(())
}

/// The partner of each token, a dot for none.
fn partners(alloc: Global, text: &str) -> Result<String, AllocError> {
    match lex_tokens(alloc, text) {
        Ok(lexed) => partners_of(alloc, lexed.tokens.as_slice()),
        Err(_) => String::from_str(alloc, "fault"),
    }
}

fn partners_of(alloc: Global, tokens: &[Token]) -> Result<String, AllocError> {
    let mut out = String::new(alloc);
    for token in tokens {
        match token.partner() {
            Some(partner) => out.push_str(format!(in alloc; "{partner} ")?.as_str())?,
            None => out.push_str(". ")?,
        }
    }
    Ok(out)
}

/// The value of a string literal, after `lone` where it holds a lone surrogate.
fn value(alloc: Global, literal: &str) -> Result<String, AllocError> {
    let value = literal_value(alloc, literal)?;
    let (lone, text) = (if value.lone { "lone " } else { "" }, value.text.as_str());
    format!(in alloc; "{lone}{text}")
}
