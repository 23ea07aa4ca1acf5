//! What is reported of texts.

use crate::forms::{form_of, import_of};
use crate::members::members_of;
use crate::turns::count_of;
use base::Range;
use es_lexer::lex_tokens;
use es_parser::parse_tokens;
use es_program::{Program, SharedTokens};
use es_site::Site;
use es_syntax::{Item, Siblings};
use es_token::Token;
use es_view_modules::items::{Program as View, program_at};
use grammar_theory::{Lang, Mode, SyntaxError};
use source_text::SourceText;
use std::alloc::{AllocError, Global};

/// What is asked of a text.
#[derive(Clone, Copy)]
pub enum Ask {
    /// Of which goal it is, and how many items it has.
    Items,
    /// Its sites, and those of a copy.
    Sites,
    /// The form of the expression that it begins with.
    Form,
    /// The ranges of the import that it begins with, and what it holds.
    Import,
    /// The members of the type of the variable that it begins with.
    Members,
}

/// A text, its tokens and a row of entries.
#[derive(Clone, Copy)]
pub struct Source<'a> {
    pub text: &'a str,
    pub tokens: &'a [Token],
    pub row: Siblings<'a>,
}

/// What is reported of a text, or `none` where it has no tree.
pub fn told(
    alloc: Global,
    ask: Ask,
    lang: Lang,
    mode: Mode,
    text: &str,
) -> Result<String, AllocError> {
    let source = SourceText::from_str(alloc, text)?;
    match lex_tokens(alloc, source.as_str()) {
        Ok(lexed) => {
            let tokens = SharedTokens::new(alloc, lexed.tokens)?;
            match parse_tokens(alloc, lang, mode, &source, &tokens) {
                Ok(program) => of_program(alloc, ask, &program),
                Err(SyntaxError::Syntax { token: _ }) => String::from_str(alloc, "none"),
                Err(SyntaxError::OutOfMemory) => Err(AllocError),
            }
        }
        Err(_) => String::from_str(alloc, "no tokens"),
    }
}

/// The rows, a text and what is wanted of it, of which something else is reported, with that.
pub fn others(
    alloc: Global,
    ask: Ask,
    lang: Lang,
    mode: Mode,
    rows: &[(&str, &str)],
) -> Result<String, AllocError> {
    let mut out = String::new(alloc);
    for (text, want) in rows {
        let got = told(alloc, ask, lang, mode, text)?;
        if got.as_str() != *want {
            out.push_str(format!(in alloc; "{text:?}: {got:?}\n")?.as_str())?;
        }
    }
    Ok(out)
}

fn of_program(alloc: Global, ask: Ask, program: &Program) -> Result<String, AllocError> {
    if matches!(ask, Ask::Sites) {
        return of_copy(alloc, program);
    }
    let (text, tokens, row) = program.parts();
    let source = Source { text, tokens, row };
    let span = program.span();
    let is_script = program.is_script();
    of_parts(alloc, ask, &source, span, is_script)
}

/// The sites of a program, where its copy has the same.
fn of_copy(alloc: Global, program: &Program) -> Result<String, AllocError> {
    match program.copy() {
        Ok(copy) => same(alloc, program.sites(), copy.sites()),
        Err(_) => Err(AllocError),
    }
}

fn same(alloc: Global, sites: &[Site], copied: &[Site]) -> Result<String, AllocError> {
    let (told, again) = (told_sites(alloc, sites)?, told_sites(alloc, copied)?);
    if told == again {
        return Ok(told);
    }
    format!(in alloc; "{told}, and in a copy {again}")
}

/// Each site: its kind, whether it is of types alone, its range, its value and its attribute.
fn told_sites(alloc: Global, found: &[Site]) -> Result<String, AllocError> {
    let mut out = String::new(alloc);
    for site in found {
        let of_types = if site.type_only { " type" } else { "" };
        let (start, end) = (site.range.start, site.range.end);
        let line = format!(in alloc;
            "{:?}{of_types} {start}-{end} {:?} {:?}; ",
            site.kind,
            site.value.as_str(),
            site.attribute
        )?;
        out.push_str(line.as_str())?;
    }
    Ok(out)
}

fn of_parts(
    alloc: Global,
    ask: Ask,
    source: &Source<'_>,
    span: Range,
    is_script: bool,
) -> Result<String, AllocError> {
    let Some((is_module, body)) = body_of(source.row) else {
        return String::from_str(alloc, "no program");
    };
    if is_module == is_script {
        return String::from_str(alloc, "of two goals");
    }
    match (ask, first_of(body)) {
        (Ask::Form, Some(item)) => form_of(alloc, &item),
        (Ask::Import, Some(item)) => import_of(alloc, source, span, &item),
        (Ask::Members, Some(item)) => members_of(alloc, source, &item),
        _ => {
            let goal = if is_module { "module" } else { "script" };
            format!(in alloc; "{goal} {}", count_of(body))
        }
    }
}

/// Whether what the row holds is a module, and its items as turns.
fn body_of<'a>(row: Siblings<'a>) -> Option<(bool, Siblings<'a>)> {
    match program_at(&row.part(0)?)? {
        View::Module { shebang: _, body } => Some((true, body)),
        View::Script { shebang: _, body } => Some((false, body)),
        View::Broken => None,
    }
}

/// The item of the first turn.
fn first_of<'a>(turns: Siblings<'a>) -> Option<Item<'a>> {
    let (turn, _) = turns.split()?;
    turn.group().part(0)
}
