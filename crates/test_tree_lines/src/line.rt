//! What the plain tree of one text is, in a line.

use es_grammar::NodeKind;
use es_lexer::{LexError, lex_tokens};
use es_program_reader::read_program;
use es_syntax::{Item, Lean, Siblings, What};
use es_token::Token;
use grammar_theory::{Lang, Mode, SyntaxError};
use std::alloc::{AllocError, Global};

/// The tree of a text after its mode, or why it has none.
pub fn line_of(alloc: Global, text: &str) -> Result<String, AllocError> {
    if let Some(script) = text.strip_prefix('s') {
        return program_line(alloc, Lang::Es, Mode::Script, script);
    }
    if let Some(wide) = text.strip_prefix('w') {
        return program_line(alloc, Lang::Wide, Mode::Module, wide);
    }
    match text.strip_prefix('m') {
        Some(module) => program_line(alloc, Lang::Es, Mode::Module, module),
        None => program_line(alloc, Lang::Es, Mode::Module, text),
    }
}

fn program_line(alloc: Global, lang: Lang, mode: Mode, text: &str) -> Result<String, AllocError> {
    match lex_tokens(alloc, text) {
        Ok(lexed) => tokens_line(alloc, lang, mode, lexed.tokens.as_slice()),
        Err(LexError::Lexical(error)) => format!(in alloc; "{error}"),
        Err(LexError::OutOfMemory) => Err(AllocError),
    }
}

fn tokens_line(
    alloc: Global,
    lang: Lang,
    mode: Mode,
    tokens: &[Token],
) -> Result<String, AllocError> {
    let mut line = String::new(alloc);
    match read_program(alloc, lang, mode, tokens) {
        Ok(row) => push_trees(
            alloc,
            &mut line,
            &Siblings {
                entries: row.as_slice(),
            },
        )?,
        Err(SyntaxError::Syntax { token: _ }) => line.push_str("Syntax")?,
        Err(SyntaxError::OutOfMemory) => return Err(AllocError),
    }
    Ok(line)
}

/// The trees of a row, one after another.
#[cycle(lines)]
fn push_trees(alloc: Global, line: &mut String, trees: &Siblings<'_>) -> Result<(), AllocError> {
    let mut row = *trees;
    while let Some((tree, rest)) = row.split() {
        push_tree(alloc, line, &tree)?;
        row = rest;
    }
    Ok(())
}

/// A node: the alternative that was read, its first token and the one after its last, its nodes. A role around a node.
#[cycle(lines)]
fn push_tree(alloc: Global, line: &mut String, tree: &Item<'_>) -> Result<(), AllocError> {
    match tree.what {
        What::Leaf => Ok(()),
        What::Node(label) => {
            push_head(alloc, line, label, tree.from, tree.to)?;
            push_trees(alloc, line, &tree.parts)?;
            line.push_str(")")
        }
        What::Role(label) => {
            line.push_str(format!(in alloc; "({label:?} ")?.as_str())?;
            push_trees(alloc, line, &tree.parts)?;
            line.push_str(")")
        }
        What::Parts => push_trees(alloc, line, &tree.parts),
        What::Lean(lean) => push_leaning(alloc, line, label_of(lean), tree.from, &tree.parts),
    }
}

/// Left-associative nodes: the heads of all of them, the first operand, and the parts of each turn with the end of its node.
#[cycle(lines)]
fn push_leaning(
    alloc: Global,
    line: &mut String,
    label: NodeKind,
    from: u32,
    parts: &Siblings<'_>,
) -> Result<(), AllocError> {
    let Some((first, turns)) = parts.split() else {
        return Ok(());
    };
    push_heads(alloc, line, label, from, &turns)?;
    push_tree(alloc, line, &first)?;
    let mut row = turns;
    while let Some((turn, rest)) = row.split() {
        push_trees(alloc, line, &turn.parts)?;
        line.push_str(")")?;
        row = rest;
    }
    Ok(())
}

/// The heads of the left-associative nodes over these turns: the outermost, which ends with the last turn, comes first.
fn push_heads(
    alloc: Global,
    line: &mut String,
    label: NodeKind,
    from: u32,
    turns: &Siblings<'_>,
) -> Result<(), AllocError> {
    let mut ends: Vec<u32> = Vec::new(alloc);
    let mut row = *turns;
    while let Some((turn, rest)) = row.split() {
        ends.push(turn.to)?;
        row = rest;
    }
    ends.reverse();
    for end in ends {
        push_head(alloc, line, label, from, end)?;
    }
    Ok(())
}

fn push_head(
    alloc: Global,
    line: &mut String,
    label: NodeKind,
    from: u32,
    to: u32,
) -> Result<(), AllocError> {
    line.push_str(format!(in alloc; "({label:?} {from}-{to}")?.as_str())
}

fn label_of(lean: Lean) -> NodeKind {
    match lean {
        Lean::Binary => NodeKind::Binary,
        Lean::TypedBinary => NodeKind::TypedBinary,
    }
}
