//! Texts whose forms are nested as deep as they are read.

use es_lexer::lex_tokens;
use es_parser::parse_tokens;
use es_program::SharedTokens;
use grammar_theory::{Lang, Mode, SyntaxError};
use source_text::SourceText;
use std::alloc::{AllocError, Global};
use std::test::Fail;
use std::thread::Builder;

/// The bytes of the thread's stack: 6 MB, of the 8 MB that a program's first thread has by default.
const STACK: usize = 6_291_456;

/// The most nodes that a tree has on a path.
const MOST: usize = 500;

/// More levels than any tree has.
const TOO_MANY: usize = 100_000;

/// What precedes the first level, what a level writes before the next one, what the innermost holds, and what a
/// level writes after the next one.
type Form = (&'static str, &'static str, &'static str, &'static str);

const PLAIN: [Form; 18] = [
    ("", "[", "a", "]"),
    ("", "(", "a", ")"),
    ("", "{", "", "}"),
    ("", "({a: ", "b", "})"),
    ("", "f(a, function () { ", "", " })"),
    ("", "`a${", "b", "}c`"),
    ("", "(class { [", "a", "]() {} })"),
    ("", "a => ", "b", ""),
    ("", "(() => { ", "", " })()"),
    ("", "a + (", "b", ")"),
    ("", "a ? b : ", "c", ""),
    ("", "!", "a", ""),
    ("", "a(", "b", ")"),
    ("", "if (a) ", "b", ""),
    ("", "for (;;) { switch (a) { case 1: ", "b", " } }"),
    ("", "await import(", "a", ")"),
    ("", "(", "a", " + b)"),
    (
        "",
        "(",
        "a",
        " ** b * c + d << e < f == g & h ^ i | j && k || l)",
    ),
];

const TYPED: [Form; 13] = [
    ("let a: ", "(", "b", ")"),
    ("let a: ", "A<", "b", ">"),
    ("let a: ", "{ a: ", "b", " }"),
    ("let a: ", "[", "b", "]"),
    ("let a: ", "(a: ", "b", ") => c"),
    ("let a: ", "() => ", "b", ""),
    ("let a: ", "a extends b ? c : ", "d", ""),
    ("let a: ", "`${", "b", "}`"),
    ("", "namespace A { ", "", " }"),
    ("", "class A { a() { ", "", " } }"),
    ("", "<T,>(a: T): b => ", "c", ""),
    ("let ", "{ a: [", "b", "] }"),
    ("", "(", "a", " * b as c >> d == e || f)"),
];

/// The steps in which the deepest tree is sought.
const STEPS: [usize; 9] = [256, 128, 64, 32, 16, 8, 4, 2, 1];

/// A text with so many levels of this form.
fn nested(alloc: Global, form: Form, levels: usize) -> Result<String, AllocError> {
    let (front, before, within, behind) = form;
    let mut text = String::from_str(alloc, front)?;
    text.push_str(before.repeat(alloc, levels)?.as_str())?;
    text.push_str(within)?;
    text.push_str(behind.repeat(alloc, levels)?.as_str())?;
    Ok(text)
}

/// Whether the text has a tree, which is read with its sites, shared and dropped. None where memory runs out.
fn has_tree(alloc: Global, lang: Lang, text: &str) -> Option<bool> {
    let source = SourceText::from_str(alloc, text).ok()?;
    let lexed = lex_tokens(alloc, source.as_str()).ok()?;
    let tokens = SharedTokens::new(alloc, lexed.tokens).ok()?;
    match parse_tokens(alloc, lang, Mode::Module, &source, &tokens) {
        Ok(program) => Some(program.copy().ok()?.sites().len() == program.sites().len()),
        Err(SyntaxError::Syntax { token: _ }) => Some(false),
        Err(SyntaxError::OutOfMemory) => None,
    }
}

/// The most levels of the form that a text with a tree has, where one with many more has none.
fn deepest(alloc: Global, lang: Lang, form: Form) -> Option<usize> {
    if has_tree(alloc, lang, nested(alloc, form, TOO_MANY).ok()?.as_str())? {
        return Some(TOO_MANY);
    }
    let mut most: usize = 0;
    for step in STEPS {
        let levels = most.saturating_add(step);
        let text = nested(alloc, form, levels).ok()?;
        if has_tree(alloc, lang, text.as_str())? {
            most = levels;
        }
    }
    Some(most)
}

#[test]
fn deepest_trees_go_on_the_stack(rt: HostRuntime) -> Result<(), Fail> {
    let alloc = rt.alloc();
    for form in PLAIN {
        let thread = Builder::new()
            .stack_size(STACK)
            .spawn(&rt, move || deepest(alloc, Lang::Es, form))?;
        match thread.join(&rt) {
            Some(levels) => assert!(rt; 80 < levels && levels <= MOST, "{form:?}: {levels}"),
            None => Err("out of memory")?,
        }
    }
    Ok(())
}

#[test]
fn deepest_typed_trees_go_on_the_stack(rt: HostRuntime) -> Result<(), Fail> {
    let alloc = rt.alloc();
    for form in TYPED {
        let thread = Builder::new()
            .stack_size(STACK)
            .spawn(&rt, move || deepest(alloc, Lang::Typescript, form))?;
        match thread.join(&rt) {
            Some(levels) => assert!(rt; 80 < levels && levels <= MOST, "{form:?}: {levels}"),
            None => Err("out of memory")?,
        }
    }
    Ok(())
}

/// How many parts a chain of the tests has: it is one node of the row, however long.
const PARTS: usize = 1_000;

/// How many parts the longest chains have.
const MANY: usize = 1_000_000;

/// A part of a chain, how many of it follow `a`, and the language.
type Chain = (&'static str, usize, Lang);

const CHAINS: [Chain; 14] = [
    (".b", PARTS, Lang::Es),
    ("[0]", PARTS, Lang::Es),
    ("()", PARTS, Lang::Es),
    ("?.b", PARTS, Lang::Es),
    ("`c`", PARTS, Lang::Es),
    (".b", MANY, Lang::Es),
    (" + b", MANY, Lang::Es),
    (" || b", MANY, Lang::Es),
    (" < b", MANY, Lang::Es),
    (" ?? b", MANY, Lang::Es),
    (" * b + c", PARTS, Lang::Es),
    (" == b", PARTS, Lang::Typescript),
    (" as b", MANY, Lang::Typescript),
    (" as b + c", PARTS, Lang::Typescript),
];

/// Whether such a chain has a tree.
fn has_chain(alloc: Global, chain: Chain) -> Option<bool> {
    let (part, count, lang) = chain;
    let parts = part.repeat(alloc, count).ok()?;
    let text = format!(in alloc; "a{}", parts.as_str()).ok()?;
    has_tree(alloc, lang, text.as_str())
}

#[test]
fn long_chains_go_on_the_stack(rt: HostRuntime) -> Result<(), Fail> {
    let alloc = rt.alloc();
    for chain in CHAINS {
        let thread = Builder::new()
            .stack_size(STACK)
            .spawn(&rt, move || has_chain(alloc, chain))?;
        assert_eq!(rt; thread.join(&rt), Some(true), "{chain:?}");
    }
    Ok(())
}
