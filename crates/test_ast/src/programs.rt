//! Programs that are lent: their shebang, their items, their span, whether they are scripts, and their leading
//! comments.

use crate::parsed::params;
use deno_ast::{
    Comment, MediaType, ModuleItemRef, ParsedSource, ProgramRef, Range, parse_program, parse_text,
};
use std::alloc::{AllocError, Global};

/// A media type, a text, and what is reported of its program: the rest of the `#!` line, its items (`d` for an import or an
/// export, `s` for a statement), its span, whether it counts as a script, the number of its comments, and the leading
/// ones.
const ROWS: &[(MediaType, &str, &str)] = &[
    (
        MediaType::JavaScript,
        "#!/a\n// b\nc;",
        "/a s 0-12 script 1[ b]",
    ),
    (MediaType::JavaScript, "#!/a\n// b", "/a - 0-4 script 1[ b]"),
    (MediaType::JavaScript, "// only", "- - 0-0 script 1[ only]"),
    (MediaType::Cjs, "", "- - 0-0 script 0"),
    (
        MediaType::JavaScript,
        "/*a*/ /*b*/ c",
        "- s 12-13 script 2[a,b]",
    ),
    (MediaType::JavaScript, "a /*b*/;", "- s 0-8 script 1"),
    (
        MediaType::JavaScript,
        "/*a*/ import \"b\";\nc;",
        "- ds 6-20 module 1[a]",
    ),
    (
        MediaType::JavaScript,
        "const mod = await import('./s.js');",
        "- s 0-35 module 0",
    ),
    (MediaType::JavaScript, "require('t')", "- s 0-12 script 0"),
    (MediaType::Mjs, "a;", "- s 0-2 module 0"),
    (
        MediaType::TypeScript,
        "import v = require('t');",
        "- d 0-24 script 0",
    ),
    (
        MediaType::TypeScript,
        "a;\nexport {};",
        "- sd 0-13 module 0",
    ),
    (
        MediaType::Mts,
        "import \"b\";\nimport v = require('t');",
        "- dd 0-36 module 0",
    ),
    (
        MediaType::Mts,
        "a;\nimport v = require('t');\nexport {};",
        "- sdd 0-38 script 0",
    ),
    (MediaType::Mts, "a;", "- s 0-2 module 0"),
    (MediaType::TypeScript, "a;", "- s 0-2 script 0"),
];

fn sign_of(item: ModuleItemRef<'_>) -> &'static str {
    match item {
        ModuleItemRef::ModuleDecl(_) => "d",
        ModuleItemRef::Stmt(_) => "s",
    }
}

fn add_item(
    line: &mut String,
    item: Option<ModuleItemRef<'_>>,
    none: &str,
) -> Result<(), AllocError> {
    match item {
        Some(item) => line.push_str(sign_of(item)),
        None => line.push_str(none),
    }
}

// The items of a program, of which there are three at most.
fn add_items(line: &mut String, program: ProgramRef<'_>) -> Result<(), AllocError> {
    let mut body = program.body();
    add_item(line, body.next(), "-")?;
    add_item(line, body.next(), "")?;
    add_item(line, body.next(), "")?;
    add_item(line, body.next(), "")
}

fn add_comments(line: &mut String, comments: &[Comment]) -> Result<(), AllocError> {
    line.push_str("[")?;
    for (number, comment) in comments.iter().enumerate() {
        if number > 0 {
            line.push_str(",")?;
        }
        line.push_str(comment.text.as_str())?;
    }
    line.push_str("]")
}

fn line_of(alloc: Global, parsed: &ParsedSource) -> Result<String, AllocError> {
    let tree = parsed.program()?;
    let program = ProgramRef::from(&*tree);
    let mut line = String::from_str(alloc, program.shebang().unwrap_or("-"))?;
    line.push_str(" ")?;
    add_items(&mut line, program)?;
    let span = program.span();
    let kind = if parsed.compute_is_script() {
        "script"
    } else {
        "module"
    };
    let count = parsed.comments().get_vec(alloc)?.len();
    let told = format!(in alloc; " {}-{} {kind} {count}", span.start, span.end)?;
    line.push_str(told.as_str())?;
    if let Some(comments) = parsed.get_leading_comments() {
        add_comments(&mut line, comments.as_slice())?;
    }
    Ok(line)
}

#[test]
fn programs(rt: HostRuntime) {
    let alloc = rt.alloc();
    for (media_type, text, want) in ROWS.iter() {
        let params = params(alloc, *media_type, text, None).expect(&rt, "memory");
        let parsed = parse_program(alloc, params).expect(&rt, "a program");
        let got = line_of(alloc, &parsed).expect(&rt, "memory");
        assert_eq!(rt; got.as_str(), *want, "{text}");
        let again = parsed.copy().expect(&rt, "memory");
        let got = line_of(alloc, &again).expect(&rt, "memory");
        assert_eq!(rt; got.as_str(), *want, "{text}");
    }
}

#[test]
fn copy_of_a_program_has_its_items(rt: HostRuntime) {
    let alloc = rt.alloc();
    let params = params(alloc, MediaType::JavaScript, "// 1\nt;/* 2 */", None).expect(
        &rt, "memory",
    );
    let parsed = parse_text(alloc, params).expect(&rt, "a program");
    assert_eq!(rt; parsed.text_info_lazy().text_str(), "// 1\nt;/* 2 */");
    let copy = parsed.program_ref().to_owned().expect(&rt, "memory");
    let program = ProgramRef::of(&copy);
    let mut line = String::new(alloc);
    add_items(&mut line, program).expect(&rt, "memory");
    assert_eq!(rt; line.as_str(), "s");
    assert_eq!(rt; program.span(), Range { start: 5, end: 7 });
}
