//! Texts, and where the parts in them end.

use es_grammar::{NodeKind, TypeRow};
use es_lexer::lex_tokens;
use es_rules::{Cursor, Input, Tokens};
use es_syntax::{Entry, What, Writer};
use es_type_rules::ends::{TypePart, is_type_arguments, part_end, read_row, type_parameters_end};
use grammar_theory::Lang;
use std::alloc::Global;
use std::test::Fail;

/// Where a part ends, if it is there.
fn end_of(
    alloc: Global,
    part: TypePart,
    text: &str,
    at: usize,
    room: usize,
) -> Result<Option<usize>, Fail> {
    let lexed = lex_tokens(alloc, text)?;
    let tokens = lexed.tokens.as_slice();
    if at > tokens.len() || room > 500 {
        return Err("no such place")?;
    }
    Ok(part_end(alloc, part, tokens, at, room))
}

#[test]
fn types_end(rt: HostRuntime) -> Result<(), Fail> {
    let cases = [
        ("A<B> c", Some(4)),
        ("a | b & c[]", Some(7)),
        ("keyof a[b]", Some(5)),
        ("a extends b ? c : d", Some(7)),
        ("() => a", Some(4)),
        ("abstract new () => a", Some(6)),
        ("[a?: b, ...c]", Some(9)),
        ("{ a?: b; (c): d }", Some(12)),
        ("{ readonly [a in b]?: c }", Some(11)),
        ("typeof import('a').b", Some(7)),
        ("`a${b}c`", Some(3)),
        ("-1", Some(2)),
        ("this.a", Some(3)),
        ("infer a", Some(2)),
        ("a\n[b]", Some(1)),
        ("a\n<b>", Some(1)),
        ("a |", None),
        ("{ a b }", None),
        ("", None),
    ];
    for (text, want) in cases {
        let end = end_of(rt.alloc(), TypePart::Whole, text, 0, 500)?;
        assert_eq!(rt; end, want, "{text:?}");
    }
    Ok(())
}

#[test]
fn room_bounds_the_nodes_on_a_path(rt: HostRuntime) -> Result<(), Fail> {
    let cases = [
        (TypePart::Whole, "A<B> c", 0, 3, Some(4)),
        (TypePart::Whole, "A<B> c", 0, 2, None),
        (TypePart::Whole, "A<B> c", 0, 1, None),
        (TypePart::Whole, "A", 0, 1, Some(1)),
        (TypePart::Whole, "A", 0, 0, None),
        (TypePart::TArgs, "a<b, c>(d)", 1, 500, Some(6)),
        (
            TypePart::TParams,
            "f<const a extends b = c,>()",
            1,
            500,
            Some(10),
        ),
        (TypePart::Ret, "asserts a is b", 0, 500, Some(4)),
        (TypePart::Ret, "this is a", 0, 500, Some(3)),
    ];
    for (part, text, at, room, want) in cases {
        let end = end_of(rt.alloc(), part, text, at, room)?;
        assert_eq!(rt; end, want, "{text:?}");
    }
    Ok(())
}

/// The alternative of a node and where it is.
fn node_of(entry: Option<&Entry>) -> Option<(NodeKind, u32, u32)> {
    match entry {
        Some(
            Entry {
                what: What::Node(label),
                from,
                to,
                size: _,
            },
        ) => Some((*label, *from, *to)),
        _ => None,
    }
}

#[test]
fn reference_holds_its_arguments(rt: HostRuntime) -> Result<(), Fail> {
    let lexed = lex_tokens(rt.alloc(), "A<B> c")?;
    let input = Input {
        alloc: rt.alloc(),
        lang: Lang::Typescript,
        tokens: Tokens {
            tokens: lexed.tokens.as_slice(),
            angles: &[],
        },
        keeps: true,
    };
    let mut cursor = Cursor {
        at: 0,
        row: Writer::new(rt.alloc()),
    };
    if read_row(input, 500, TypeRow::TypeRow(true), &mut cursor).is_err() {
        return Err("no type")?;
    }
    assert_eq!(rt; cursor.at, 4);
    let entries = cursor.row.row().entries;
    assert_eq!(rt; node_of(entries.first()), Some((NodeKind::Reference, 0, 4)));
    // Before the arguments come the name's node, its one token and its further names: none.
    assert_eq!(rt;
        node_of(entries.get(4)),
        Some((NodeKind::TypeArguments, 1, 4))
    );
    Ok(())
}

#[test]
fn type_parameters_end_behind_their_bracket(rt: HostRuntime) -> Result<(), Fail> {
    let cases = [
        ("async <T>(x) => x", 1, Some(4)),
        ("<T, U extends V = W,>(x)", 0, Some(10)),
        ("<in out T>", 0, Some(5)),
        ("<>(x)", 0, None),
        ("<T", 0, None),
        ("T", 0, None),
    ];
    for (text, at, want) in cases {
        let lexed = lex_tokens(rt.alloc(), text)?;
        let tokens = lexed.tokens.as_slice();
        if at > tokens.len() {
            return Err("no such place")?;
        }
        let end = type_parameters_end(rt.alloc(), tokens, at);
        assert_eq!(rt; end, want, "{text:?}");
    }
    Ok(())
}

#[test]
fn type_arguments_stand_before_a_call(rt: HostRuntime) -> Result<(), Fail> {
    let cases = [
        ("f<a>(b)", false, true),
        ("f<a, b[]>`c`", false, true),
        ("f<a>`b${c}`", false, true),
        ("f<a> b", false, false),
        ("f<a>b>(c)", false, false),
        ("f < a", false, false),
        ("f<a> {}", false, false),
        ("f<a> {}", true, true),
        ("f<a> implements b", true, true),
        ("f<a> implements b", false, false),
        ("f<a> b", true, false),
    ];
    for (text, in_extends, want) in cases {
        let lexed = lex_tokens(rt.alloc(), text)?;
        let tokens = lexed.tokens.as_slice();
        if tokens.len() < 1 {
            return Err("no such place")?;
        }
        let opens = is_type_arguments(rt.alloc(), tokens, 1, in_extends);
        assert_eq!(rt; opens, want, "{text:?}");
    }
    Ok(())
}

#[test]
fn texts_are_types_as_the_written_grammar_enumerates(rt: HostRuntime) -> Result<(), Fail> {
    let cases = [
        ("[abstract?,]", true),
        ("new () => a<infer>", true),
        ("(a) => a is & 's' & `t`", true),
        ("(this: typeof a) => 1", true),
        ("(a, ...a) => unique", true),
        ("import('m').a.b<abstract>", true),
        ("['s'?, ...a?: b, a?: 's'][is & any]", true),
        ("new (a: this, a?) => undefined", true),
        ("typeof a.b<a.b<import('m'), void>>", true),
        ("{ a?: asserts; new (a): get }", true),
        ("a.b<out, (a) => asserts a is infer>", true),
        ("| is[keyof]", true),
        ("{ readonly [a in - b]-?: c }", false),
        ("([a,,b]: c, ...a,) => string", false),
        ("{ get?(): ; new <T>(): a; }", false),
        ("asserts asserts", false),
        ("(a) =>is a is 2n", false),
        ("void(a) => asserts a is void", false),
        ("new extends any ? const : 2n", false),
        ("typeofa.b<>", false),
    ];
    for (text, want) in cases {
        let lexed = lex_tokens(rt.alloc(), text)?;
        let end = end_of(rt.alloc(), TypePart::Whole, text, 0, 500)?;
        assert_eq!(rt; end == Some(lexed.tokens.len()), want, "{text:?}");
    }
    Ok(())
}
