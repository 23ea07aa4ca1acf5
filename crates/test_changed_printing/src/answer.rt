//! The printed text of the changed row that a script writes over the source of a row.

use crate::script::write_row;
use es_changed::{ChangedSiblings, ChangedWriter};
use es_changed_printer::print_changed;
use es_comments::{MultiThreadedComments, comments_of};
use es_lexer::lex_tokens;
use es_printer::print_with;
use es_program_reader::read_program;
use es_syntax::{Entry, Siblings, What};
use es_token::{Lexed, Token};
use grammar_theory::{Lang, Mode};
use std::alloc::{AllocError, Global};
use test_rows::Row;

fn lang_of(row: &Row) -> Lang {
    match row.call() {
        "ts" | "entries-ts" | "kept-ts" => Lang::Typescript,
        _ => Lang::Es,
    }
}

/// What is printed of the row that is written over the source of a row.
pub fn answer(alloc: Global, row: &Row) -> Result<String, AllocError> {
    let text = row.at(1);
    match lex_tokens(alloc, text) {
        Ok(lexed) => program(alloc, row, text, &lexed),
        Err(_) => String::from_str(alloc, "no tokens"),
    }
}

fn program(alloc: Global, row: &Row, text: &str, lexed: &Lexed) -> Result<String, AllocError> {
    let tokens = lexed.tokens.as_slice();
    let entries = match read_program(alloc, lang_of(row), Mode::Module, tokens) {
        Ok(entries) => entries,
        Err(_) => return String::from_str(alloc, "no program"),
    };
    let maps = comments_of(alloc, text, tokens, lexed.comments.as_slice())?;
    let comments = MultiThreadedComments::from_single_threaded(alloc, maps)?;
    match row.call() {
        "kept" | "kept-ts" => kept(alloc, text, tokens, entries.as_slice(), &comments),
        "entries" | "entries-ts" => listed(alloc, text, tokens, entries.as_slice()),
        _ => written(alloc, row, text, tokens, entries.as_slice(), &comments),
    }
}

/// Whether the row in which all is kept is printed as the program's row is.
fn kept(
    alloc: Global,
    text: &str,
    tokens: &[Token],
    entries: &[Entry],
    comments: &MultiThreadedComments,
) -> Result<String, AllocError> {
    let siblings = Siblings { entries };
    let mut writer = ChangedWriter::new(alloc);
    if let Some((item, _)) = siblings.split() {
        writer.keep(&item)?;
    }
    let printed = print_changed(alloc, text, tokens, &writer.row(), Some(comments))?;
    let whole = print_with(alloc, text, tokens, &siblings, Some(comments))?;
    if printed.as_str() == whole.as_str() {
        return String::from_str(alloc, "the same");
    }
    format!(in alloc; "{printed} in place of {whole}")
}

fn written(
    alloc: Global,
    row: &Row,
    text: &str,
    tokens: &[Token],
    entries: &[Entry],
    comments: &MultiThreadedComments,
) -> Result<String, AllocError> {
    let mut writer = ChangedWriter::new(alloc);
    if let Some(word) = write_row(alloc, &mut writer, row.at(2), entries)? {
        return format!(in alloc; "no step: {word}");
    }
    let changed: ChangedSiblings<'_> = writer.row();
    print_changed(alloc, text, tokens, &changed, Some(comments))
}

/// The entries of the program's row, for who writes a script.
fn listed(
    alloc: Global,
    text: &str,
    tokens: &[Token],
    entries: &[Entry],
) -> Result<String, AllocError> {
    let mut list = String::new(alloc);
    for (number, entry) in entries.iter().enumerate() {
        let what = match entry.what {
            What::Leaf => match tokens.get(entry.from as usize) {
                Some(token) => {
                    let range = token.range();
                    match text.get(range.start..range.end) {
                        Some(word) => format!(in alloc; "'{word}'")?,
                        None => String::from_str(alloc, "leaf")?,
                    }
                }
                None => String::from_str(alloc, "leaf")?,
            },
            What::Node(label) => format!(in alloc; "{label:?}")?,
            What::Role(label) => format!(in alloc; "as {label:?}")?,
            What::Parts => String::from_str(alloc, "parts")?,
            What::Lean(_) => String::from_str(alloc, "lean")?,
        };
        let line = format!(in alloc;
            "{number}: {what} {}..{} {}\n",
            entry.from, entry.to, entry.size
        )?;
        list.push_str(line.as_str())?;
    }
    Ok(list)
}
