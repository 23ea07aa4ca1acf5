//! The forms in the source of a row.

ghost use Rattle.es_lexer.specs.Reads.{ReadsTokens};

use es_forms::{Forms, form_sites};
use es_lexer::lex_tokens;
use es_program_reader::read_program;
use es_site::{DependencyKind, Site};
use es_syntax::Siblings;
use es_token::Token;
use grammar_theory::{Lang, Mode};
use std::alloc::{AllocError, Global};
use test_rows::Row;

/// The value of each literal with its range, in the order of the text, and its form if it isn't `require("a")`.
pub fn answer(alloc: Global, row: &Row) -> Result<String, AllocError> {
    let (lang, mode) = match row.call() {
        "ts" => (Lang::Typescript, Mode::Module),
        "wide" => (Lang::Wide, Mode::Module),
        "script" => (Lang::Es, Mode::Script),
        _ => (Lang::Es, Mode::Module),
    };
    let chosen = chosen(row.at(1));
    let text = row.at(2);
    match lex_tokens(alloc, text) {
        Ok(lexed) => program(alloc, lang, mode, text, lexed.tokens.as_slice(), chosen),
        Err(_) => String::from_str(alloc, "no tokens"),
    }
}

/// A letter for each: c, t, w, a.
fn chosen(letters: &str) -> Forms {
    Forms {
        commonjs: letters.contains('c'),
        type_imports: letters.contains('t'),
        workers: letters.contains('w'),
        addresses: letters.contains('a'),
    }
}

fn program(
    alloc: Global,
    lang: Lang,
    mode: Mode,
    text: &str,
    tokens: &[Token],
    chosen: Forms,
) -> Result<String, AllocError>
    requires { ReadsTokens text.now tokens.now }
{
    match read_program(alloc, lang, mode, tokens) {
        Ok(row) => {
            let row = Siblings {
                entries: row.as_slice(),
            };
            let sites = form_sites(alloc, text, tokens, &row, chosen)?;
            told(alloc, sites.as_slice())
        }
        Err(_) => String::from_str(alloc, "no program"),
    }
}

fn told(alloc: Global, sites: &[Site]) -> Result<String, AllocError> {
    let mut out = String::new(alloc);
    for site in sites {
        if !out.is_empty() {
            out.push_str(" ")?;
        }
        let form = form(site);
        let value = site.value.as_str();
        let start = site.range.start;
        let end = site.range.end;
        out.push_str(format!(in alloc; "{form}{value}@{start}-{end}")?.as_str())?;
    }
    Ok(out)
}

fn form(site: &Site) -> &'static str {
    match (site.kind, site.type_only) {
        (DependencyKind::Require, false) => "",
        (DependencyKind::RequireResolve, false) => "resolve:",
        (DependencyKind::TypeImport, true) => "type:",
        (DependencyKind::Worker, false) => "worker:",
        (DependencyKind::Address, false) => "address:",
        _ => "other:",
    }
}
