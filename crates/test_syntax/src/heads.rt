//! Where arrows and patterns open, by the standard's rules ("Arrow Function Definitions", "Destructuring Assignment").

use es_lexer::lex_tokens;
use es_parser::{is_arrow_head, is_pattern_head};
use grammar_theory::Lang;
use std::test::Fail;

#[test]
fn arrows_by_the_rules(rt: HostRuntime) -> Result<(), Fail> {
    let cases = [
        (Lang::Es, true, "a => b", true),
        (Lang::Es, true, "a\n=> b", false),
        (Lang::Es, true, "(a, b) => c", true),
        (Lang::Es, true, "(a): b => c", false),
        (Lang::Typescript, true, "(a): b => c", true),
        (Lang::Typescript, false, "(a): b => c", false),
        (Lang::Es, true, "async a => b", true),
        (Lang::Es, true, "async\na => b", false),
        (Lang::Typescript, true, "async <T>(a) => b", true),
        (Lang::Typescript, true, "async <T>(a)", false),
        (Lang::Typescript, true, "<T>(a) => b", true),
        (Lang::Typescript, true, "<T>a", true),
        (Lang::Wide, true, "<T>(a) => b", true),
        (Lang::Wide, true, "<T>(a)", false),
        (Lang::Wide, true, "<T>a", false),
        (Lang::Wide, false, "<T>(a): b => c", false),
        (Lang::Wide, true, "async <T>(a) => b", true),
        (Lang::Es, true, "(a)", false),
    ];
    for (lang, colon, text, opens) in cases {
        let lexed = lex_tokens(rt.alloc(), text)?;
        let found = is_arrow_head(rt.alloc(), lang, colon, lexed.tokens.as_slice(), 0);
        assert_eq!(rt; found, opens, "{text:?}");
    }
    Ok(())
}

#[test]
fn patterns_by_the_rules(rt: HostRuntime) -> Result<(), Fail> {
    let cases = [
        ("[a] = b", false, false, true),
        ("[a] == b", false, false, false),
        ("{ a } = b", false, false, true),
        ("[a] of b", true, false, true),
        ("[a] of b", false, false, false),
        ("{ a } in b", true, false, true),
        ("[a], b", false, true, true),
        ("[a], b", false, false, false),
        ("[a].b = c", false, true, false),
        ("a = b", true, true, false),
    ];
    for (text, in_for, in_pattern, opens) in cases {
        let lexed = lex_tokens(rt.alloc(), text)?;
        let found = is_pattern_head(lexed.tokens.as_slice(), 0, in_for, in_pattern);
        assert_eq!(rt; found, opens, "{text:?}");
    }
    Ok(())
}
