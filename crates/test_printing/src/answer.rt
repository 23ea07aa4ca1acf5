//! The printed text of the source of a row, and whether it is read again.

ghost use Rattle.es_lexer.specs.Reads.{ReadsTokens};

use crate::again::{Read, difference};
use es_comments::{MultiThreadedComments, comments_of};
use es_lexer::lex_tokens;
use es_printer::{print, print_with};
use es_program_reader::read_program;
use es_syntax::{Entry, Siblings};
use es_token::{Lexed, Token};
use grammar_theory::{Lang, Mode};
use std::alloc::{AllocError, Global};
use test_rows::Row;

fn lang_of(row: &Row) -> Lang {
    match row.call() {
        "ts" | "emit-ts" | "again-ts" => Lang::Typescript,
        "wide" => Lang::Wide,
        _ => Lang::Es,
    }
}

fn mode_of(row: &Row) -> Mode {
    match row.call() {
        "script" | "again-script" => Mode::Script,
        _ => Mode::Module,
    }
}

/// What is printed of the source of a row, where it is read again as the same tree.
pub fn answer(alloc: Global, row: &Row) -> Result<String, AllocError> {
    let text = row.at(1);
    match lex_tokens(alloc, text) {
        Ok(lexed) => program(alloc, row, text, &lexed),
        Err(_) => String::from_str(alloc, "no tokens"),
    }
}

fn program(alloc: Global, row: &Row, text: &str, lexed: &Lexed) -> Result<String, AllocError> {
    let tokens = lexed.tokens.as_slice();
    let entries = match read_program(alloc, lang_of(row), mode_of(row), tokens) {
        Ok(entries) => entries,
        Err(_) => return String::from_str(alloc, "no program"),
    };
    let siblings = Siblings {
        entries: entries.as_slice(),
    };
    let printed = match row.call() {
        "emit" | "emit-ts" => {
            let maps = comments_of(alloc, text, tokens, lexed.comments.as_slice())?;
            let comments = MultiThreadedComments::from_single_threaded(alloc, maps)?;
            print_with(alloc, text, tokens, &siblings, Some(&comments))?
        }
        _ => print(alloc, text, tokens, &siblings)?,
    };
    let one = Read {
        text,
        tokens,
        entries: entries.as_slice(),
    };
    again(alloc, row, &one, printed)
}

/// The printed text, where it has the same tree and is printed as itself; else what is wrong.
fn again(alloc: Global, row: &Row, one: &Read<'_>, printed: String) -> Result<String, AllocError> {
    let lexed = match lex_tokens(alloc, printed.as_str()) {
        Ok(lexed) => lexed,
        Err(_) => return format!(in alloc; "no tokens again: {printed}"),
    };
    let tokens = lexed.tokens.as_slice();
    let entries = match read_program(alloc, lang_of(row), mode_of(row), tokens) {
        Ok(entries) => entries,
        Err(_) => return format!(in alloc; "no program again: {printed}"),
    };
    let other = Read {
        text: printed.as_str(),
        tokens,
        entries: entries.as_slice(),
    };
    if let Some(number) = difference(alloc, one, &other)? {
        return format!(in alloc; "another tree at {number}: {printed}");
    }
    if row.call().starts_with("again") {
        return String::from_str(alloc, "the same");
    }
    Ok(printed)
}
