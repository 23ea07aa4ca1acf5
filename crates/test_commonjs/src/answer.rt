//! What the source of a row exports.

use base::Text;
use cjs_exports::analyze_cjs;
use es_exports::ModuleExportsAndReExports;
use es_lexer::lex_tokens;
use es_parser::parse_tokens;
use es_program::{Program, SharedTokens};
use grammar_theory::{Lang, Mode};
use source_text::SourceText;
use std::alloc::{AllocError, Global};
use test_rows::Row;

/// The names that the source of a row exports, and the modules whose names it re-exports, each after a blank.
pub fn answer(alloc: Global, row: &Row) -> Result<String, AllocError> {
    match program_of(alloc, row)? {
        Some(program) => {
            let found = analyze_cjs(alloc, &program)?;
            told(alloc, &found)
        }
        None => String::from_str(alloc, "no program"),
    }
}

/// The program of a row: its call names the language and the goal.
fn program_of(alloc: Global, row: &Row) -> Result<Option<Program>, AllocError> {
    let lang = match row.call() {
        "ts" => Lang::Typescript,
        _ => Lang::Es,
    };
    let mode = match row.call() {
        "script" => Mode::Script,
        _ => Mode::Module,
    };
    let text = SourceText::from_str(alloc, row.at(1))?;
    let lexed = match lex_tokens(alloc, text.as_str()) {
        Ok(lexed) => lexed,
        Err(_) => return Ok(None),
    };
    let tokens = SharedTokens::new(alloc, lexed.tokens)?;
    match parse_tokens(alloc, lang, mode, &text, &tokens) {
        Ok(program) => Ok(Some(program)),
        Err(_) => Ok(None),
    }
}

fn told(alloc: Global, found: &ModuleExportsAndReExports) -> Result<String, AllocError> {
    let mut out = String::from_str(alloc, "exports")?;
    add_all(&mut out, found.exports.as_slice())?;
    out.push_str(" reexports")?;
    add_all(&mut out, found.reexports.as_slice())?;
    Ok(out)
}

fn add_all(out: &mut String, names: &[Text]) -> Result<(), AllocError> {
    for name in names {
        out.push_str(" ")?;
        out.push_str(name.as_str())?;
    }
    Ok(())
}
