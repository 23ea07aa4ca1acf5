//! The node that one text names, in a line.

use es_lexer::{LexError, lex_tokens};
use es_program_reader::read_program;
use es_syntax::Siblings;
use es_token::Token;
use grammar_theory::{Lang, Mode, SyntaxError};
use std::alloc::{AllocError, Global};
use test_node_spans::place;

/// The kind and the range of the node, of a text in `Wide` after a `W`, or why there is none: where a text has no tree, the range of the token at fault.
pub fn line_of(alloc: Global, text: &str) -> Result<String, AllocError> {
    let (lang, text) = match text.strip_prefix('W') {
        Some(text) => (Lang::Wide, text),
        None => (Lang::Typescript, text),
    };
    let Some((letter, text)) = text.split_at_checked(1) else {
        return format!(in alloc; "no letter");
    };
    match lex_tokens(alloc, text) {
        Ok(lexed) => program_line(alloc, lang, letter, lexed.tokens.as_slice()),
        Err(LexError::Lexical(error)) => format!(in alloc; "{error}"),
        Err(LexError::OutOfMemory) => Err(AllocError),
    }
}

fn program_line(
    alloc: Global,
    lang: Lang,
    letter: &str,
    tokens: &[Token],
) -> Result<String, AllocError> {
    let mode = if letter == "j" {
        Mode::Script
    } else {
        Mode::Module
    };
    match read_program(alloc, lang, mode, tokens) {
        Ok(row) => node_line(
            alloc,
            letter,
            tokens,
            &Siblings {
                entries: row.as_slice(),
            },
        ),
        Err(SyntaxError::Syntax { token }) => fault_line(alloc, tokens.get(token)),
        Err(SyntaxError::OutOfMemory) => Err(AllocError),
    }
}

fn node_line(
    alloc: Global,
    letter: &str,
    tokens: &[Token],
    program: &Siblings<'_>,
) -> Result<String, AllocError> {
    match place(letter, tokens, program) {
        Some(seen) => format!(in alloc; "{} {}-{}", seen.kind, seen.span.start, seen.span.end),
        None => format!(in alloc; "no node"),
    }
}

/// Where the token is that a fault names.
fn fault_line(alloc: Global, token: Option<&Token>) -> Result<String, AllocError> {
    match token {
        Some(token) => format!(in alloc; "Syntax {}-{}", token.range().start, token.range().end),
        None => format!(in alloc; "Syntax at the end"),
    }
}
