//! What the source of a row mentions.

ghost use Rattle.es_lexer.specs.Reads.{ReadsTokens};

use base::{Items, Text};
use es_lexer::lex_tokens;
use es_mentions::{Mention, Reason, mentions};
use es_program_reader::read_program;
use es_syntax::Siblings;
use es_token::Token;
use grammar_theory::{Lang, Mode};
use std::alloc::{AllocError, Global};
use test_rows::Row;

/// A row's language and mode, and whether more is listed.
#[derive(Clone, Copy)]
struct Call {
    lang: Lang,
    mode: Mode,
    strict: bool,
}

fn call_of(row: &Row) -> Call {
    let (lang, mode, strict) = match row.call() {
        "ts" => (Lang::Typescript, Mode::Module, false),
        "wide" => (Lang::Wide, Mode::Module, false),
        "script" => (Lang::Es, Mode::Script, false),
        "strict" => (Lang::Es, Mode::Module, true),
        "strict-ts" => (Lang::Typescript, Mode::Module, true),
        "strict-script" => (Lang::Es, Mode::Script, true),
        _ => (Lang::Es, Mode::Module, false),
    };
    Call { lang, mode, strict }
}

fn words(alloc: Global, text: &str) -> Result<Items<Text>, AllocError> {
    let mut words = Items::new(alloc);
    for word in text.split(' ') {
        words.push(Text::from_str(alloc, word)?)?;
    }
    Ok(words)
}

/// Each mention of the source of a row by its reason and its text, in the order of the text.
pub fn answer(alloc: Global, row: &Row) -> Result<String, AllocError> {
    let text = row.at(2);
    let allowed = words(alloc, row.at(1))?;
    match lex_tokens(alloc, text) {
        Ok(lexed) => program(
            alloc,
            call_of(row),
            text,
            lexed.tokens.as_slice(),
            allowed.as_slice(),
        ),
        Err(_) => String::from_str(alloc, "no tokens"),
    }
}

fn program(
    alloc: Global,
    call: Call,
    text: &str,
    tokens: &[Token],
    allowed: &[Text],
) -> Result<String, AllocError>
    requires { ReadsTokens text.now tokens.now }
{
    match read_program(alloc, call.lang, call.mode, tokens) {
        Ok(row) => {
            let row = Siblings {
                entries: row.as_slice(),
            };
            let found = mentions(alloc, text, tokens, &row, allowed, call.strict)?;
            told(alloc, text, found.as_slice())
        }
        Err(_) => String::from_str(alloc, "no program"),
    }
}

fn told(alloc: Global, text: &str, found: &[Mention]) -> Result<String, AllocError> {
    let mut out = String::new(alloc);
    for mention in found {
        add(&mut out, text, mention)?;
    }
    Ok(out)
}

fn add(out: &mut String, text: &str, mention: &Mention) -> Result<(), AllocError> {
    if !out.is_empty() {
        out.push_str(", ")?;
    }
    out.push_str(word(mention.reason))?;
    out.push_str(" ")?;
    if let Some(part) = text.get(mention.range.start..mention.range.end) {
        out.push_str(part)?;
    }
    Ok(())
}

fn word(reason: Reason) -> &'static str {
    match reason {
        Reason::Name => "name",
        Reason::Import => "import",
        Reason::Meta => "meta",
        Reason::With => "with",
        Reason::Member => "member",
        Reason::Key => "key",
        Reason::This => "this",
    }
}
