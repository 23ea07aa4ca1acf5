//! What the tokens of one text are, in a line.

use es_lexer::{Comment, CommentKind, LexError, Lexed, Token, lex_tokens};
use std::alloc::{AllocError, Global};

/// Tokens, then comments, each with its range. A star precedes a token on a new line; the number of a token's
/// partner follows the token. Else the fault.
pub fn line_of(alloc: Global, text: &str) -> Result<String, AllocError> {
    match lex_tokens(alloc, text) {
        Ok(lexed) => lexed_line(alloc, &lexed),
        Err(LexError::Lexical(error)) => format!(in alloc; "{error}"),
        Err(LexError::OutOfMemory) => Err(AllocError),
    }
}

fn lexed_line(alloc: Global, lexed: &Lexed) -> Result<String, AllocError> {
    let mut line = String::new(alloc);
    push_tokens(alloc, &mut line, lexed.tokens.as_slice())?;
    push_comments(alloc, &mut line, lexed.comments.as_slice())?;
    Ok(line)
}

fn push_tokens(alloc: Global, line: &mut String, tokens: &[Token]) -> Result<(), AllocError> {
    for token in tokens {
        let star = if token.line_before() { "*" } else { "" };
        let kind = token.kind();
        let start = token.range().start;
        let end = token.range().end;
        line.push_str(format!(in alloc; "{star}{kind:?} {start}-{end}")?.as_str())?;
        if let Some(partner) = token.partner() {
            line.push_str(format!(in alloc; "={partner}")?.as_str())?;
        }
        line.push_str(", ")?;
    }
    Ok(())
}

fn push_comments(alloc: Global, line: &mut String, comments: &[Comment]) -> Result<(), AllocError> {
    for comment in comments {
        let kind = if comment.kind == CommentKind::Line {
            "line"
        } else {
            "block"
        };
        let start = comment.range.start;
        let end = comment.range.end;
        line.push_str(format!(in alloc; "{kind} {start}-{end}, ")?.as_str())?;
    }
    Ok(())
}
