//! Where the nodes of one text are, in a line.

use es_lexer::{LexError, lex_tokens};
use es_program_reader::read_program;
use es_syntax::{Item, Siblings, What};
use es_token::Token;
use grammar_theory::{Lang, Mode, SyntaxError};
use std::alloc::{AllocError, Global};

/// The nodes of the text after its mode, or why it has no tree.
pub fn line_of(alloc: Global, text: &str) -> Result<String, AllocError> {
    if let Some(script) = text.strip_prefix('s') {
        return program_line(alloc, Mode::Script, script);
    }
    match text.strip_prefix('m') {
        Some(module) => program_line(alloc, Mode::Module, module),
        None => program_line(alloc, Mode::Module, text),
    }
}

/// The nodes of the text as a module, if it has a tree.
pub fn module_line(alloc: Global, text: &str) -> Result<Option<String>, AllocError> {
    match lex_tokens(alloc, text) {
        Ok(lexed) => nodes_of(alloc, Mode::Module, lexed.tokens.as_slice()),
        Err(LexError::Lexical(_)) => Ok(None),
        Err(LexError::OutOfMemory) => Err(AllocError),
    }
}

fn program_line(alloc: Global, mode: Mode, text: &str) -> Result<String, AllocError> {
    match lex_tokens(alloc, text) {
        Ok(lexed) => match nodes_of(alloc, mode, lexed.tokens.as_slice())? {
            Some(line) => Ok(line),
            None => format!(in alloc; "Syntax"),
        },
        Err(LexError::Lexical(error)) => format!(in alloc; "{error}"),
        Err(LexError::OutOfMemory) => Err(AllocError),
    }
}

/// The nodes of the tree of the tokens, if they have one.
fn nodes_of(alloc: Global, mode: Mode, tokens: &[Token]) -> Result<Option<String>, AllocError> {
    let mut line = String::new(alloc);
    match read_program(alloc, Lang::Typescript, mode, tokens) {
        Ok(row) => push_trees(
            alloc,
            &mut line,
            &Siblings {
                entries: row.as_slice(),
            },
        )?,
        Err(SyntaxError::Syntax { token: _ }) => return Ok(None),
        Err(SyntaxError::OutOfMemory) => return Err(AllocError),
    }
    Ok(Some(line))
}

/// The nodes of the trees of a row.
#[cycle(lines)]
fn push_trees(alloc: Global, line: &mut String, trees: &Siblings<'_>) -> Result<(), AllocError> {
    let mut row = *trees;
    while let Some((tree, rest)) = row.split() {
        push_tree(alloc, line, &tree)?;
        row = rest;
    }
    Ok(())
}

/// A node that takes a token: its first one and the one after its last, before the nodes in it.
#[cycle(lines)]
fn push_tree(alloc: Global, line: &mut String, tree: &Item<'_>) -> Result<(), AllocError> {
    match tree.what {
        What::Node(_) => push_range(alloc, line, tree.from, tree.to)?,
        What::Lean(_) => push_leaning(alloc, line, tree.from, &tree.parts)?,
        What::Leaf => {}
        What::Role(_) => {}
        What::Parts => {}
    }
    push_trees(alloc, line, &tree.parts)
}

/// Left-associative nodes over a first operand and turns: the outermost, which ends with the last turn, comes first.
fn push_leaning(
    alloc: Global,
    line: &mut String,
    from: u32,
    parts: &Siblings<'_>,
) -> Result<(), AllocError> {
    let Some((_, turns)) = parts.split() else {
        return Ok(());
    };
    let mut ends: Vec<u32> = Vec::new(alloc);
    let mut row = turns;
    while let Some((turn, rest)) = row.split() {
        ends.push(turn.to)?;
        row = rest;
    }
    ends.reverse();
    for end in ends {
        push_range(alloc, line, from, end)?;
    }
    Ok(())
}

/// A range that has a token, after a blank where another precedes it.
fn push_range(alloc: Global, line: &mut String, from: u32, to: u32) -> Result<(), AllocError> {
    if to <= from {
        return Ok(());
    }
    if !line.is_empty() {
        line.push_str(" ")?;
    }
    line.push_str(format!(in alloc; "{from}-{to}")?.as_str())
}
