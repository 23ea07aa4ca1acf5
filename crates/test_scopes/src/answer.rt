//! The numbers of the names in the source of a row.

ghost use Rattle.es_lexer.specs.Reads.{ReadsTokens};

use crate::vars::bound;
use es_lexer::lex_tokens;
use es_program_reader::read_program;
use es_scopes::program_marks;
use es_syntax::Siblings;
use es_token::Token;
use es_variables::scope_numbers::scope_ids;
use grammar_theory::{Lang, Mode};
use std::alloc::{AllocError, Global};
use test_rows::Row;

/// Each name of the source of a row with its number, in the order of the text; where variables are asked for, also how it
/// is bound.
pub fn answer(alloc: Global, row: &Row) -> Result<String, AllocError> {
    let (lang, mode, vars) = match row.call() {
        "ts" => (Lang::Typescript, Mode::Module, false),
        "wide" => (Lang::Wide, Mode::Module, false),
        "script" => (Lang::Es, Mode::Script, false),
        "vars-ts" => (Lang::Typescript, Mode::Module, true),
        "vars-script" => (Lang::Es, Mode::Script, true),
        "vars-js" => (Lang::Es, Mode::Module, true),
        _ => (Lang::Es, Mode::Module, false),
    };
    let text = row.at(1);
    match lex_tokens(alloc, text) {
        Ok(lexed) => program(alloc, lang, mode, vars, text, lexed.tokens.as_slice()),
        Err(_) => String::from_str(alloc, "no tokens"),
    }
}

fn program(
    alloc: Global,
    lang: Lang,
    mode: Mode,
    vars: bool,
    text: &str,
    tokens: &[Token],
) -> Result<String, AllocError>
    requires { ReadsTokens text.now tokens.now }
{
    match read_program(alloc, lang, mode, tokens) {
        Ok(row) => {
            let row = Siblings {
                entries: row.as_slice(),
            };
            if vars {
                return bound(alloc, text, tokens, &row);
            }
            told(alloc, text, tokens, &row)
        }
        Err(_) => String::from_str(alloc, "no program"),
    }
}

fn told(
    alloc: Global,
    text: &str,
    tokens: &[Token],
    row: &Siblings<'_>,
) -> Result<String, AllocError>
    requires { ReadsTokens text.now tokens.now }
{
    let marks = program_marks(alloc, tokens, row)?;
    let ids = scope_ids(alloc, text, tokens, marks.as_slice())?;
    let mut out = String::new(alloc);
    for id in ids.as_slice() {
        add(&mut out, alloc, text, tokens, id.0, id.1)?;
    }
    Ok(out)
}

fn add(
    out: &mut String,
    alloc: Global,
    text: &str,
    tokens: &[Token],
    token: u32,
    number: u32,
) -> Result<(), AllocError> {
    if !out.is_empty() {
        out.push_str(" ")?;
    }
    if let Some(token) = tokens.get(token as usize) {
        let range = token.range();
        if let Some(name) = text.get(range.start..range.end) {
            out.push_str(name)?;
        }
    }
    out.push_str(format!(in alloc; ":{number}")?.as_str())?;
    Ok(())
}
