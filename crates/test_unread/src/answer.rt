//! The calls of a text, as a text.

use es_lexer::{LexError, lex_tokens};
use std::alloc::{AllocError, Global};
use unread_calls::{UnreadCall, unread_calls};

/// What each call loads by, with its range and the text there; or the first fault.
pub fn answer(alloc: Global, text: &str) -> Result<String, AllocError> {
    match lex_tokens(alloc, text) {
        Ok(lexed) => {
            let calls = unread_calls(alloc, lexed.tokens.as_slice())?;
            described(alloc, text, calls.as_slice())
        }
        Err(LexError::Lexical(error)) => format!(in alloc; "{error}"),
        Err(LexError::OutOfMemory) => Err(AllocError),
    }
}

fn described(alloc: Global, text: &str, calls: &[UnreadCall]) -> Result<String, AllocError> {
    let mut out = String::new(alloc);
    for call in calls {
        let (loader, start, end) = (call.loader, call.range.start, call.range.end);
        let cut = text.get(start..end).unwrap_or("");
        out.push_str(format!(in alloc; "{loader:?} {start}-{end} {cut}, ")?.as_str())?;
    }
    Ok(out)
}
