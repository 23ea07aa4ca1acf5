//! Texts with the number of their items, by the rules of ECMA-262 and of GRAMMAR.md.

use crate::told::{Ask, others};
use grammar_theory::{Lang, Mode};
use std::test::Fail;

/// Modules of JavaScript, with the number of their items.
const PLAIN: &[(&str, &str)] = &[
    ("", "module 0"),
    ("\n// a comment", "module 0"),
    (";", "module 1"),
    ("import 'a'", "module 1"),
    ("import 'a';", "module 1"),
    ("import 'a';;", "module 2"),
    ("import 'a'\n;", "module 1"),
    ("import\n'a'", "module 1"),
    ("import 'a'\nimport 'b'", "module 2"),
    (";import 'a';import 'b'", "module 3"),
    ("import 'a' import 'b'", "none"),
    ("import", "none"),
    ("import;", "none"),
    ("'a'", "module 1"),
    ("import 'a' x", "none"),
    ("import 'a'\nx", "module 2"),
    ("import x", "none"),
    ("a\n++b", "module 2"),
    ("a++\n(b)", "module 2"),
    ("a\n(b)", "module 1"),
    ("a = b => {}\n(c)", "module 2"),
    ("new import('a')", "none"),
    ("new (import('a'))", "module 1"),
    ("new import.meta.a()", "module 1"),
    ("a ++\nb", "module 2"),
    ("a b", "none"),
    ("-x ** y", "none"),
    ("(-x) ** y", "module 1"),
    ("a ?? b || c", "none"),
    ("a ? (b) : c => d", "module 1"),
    ("[a] = b; [a];", "module 2"),
    ("({a, b: [c = 1]} = d)", "module 1"),
    ("f() = 1", "none"),
    ("with (a) b;", "none"),
    ("if (a) b; else c", "module 1"),
    ("for (const a of b) c; for (d in e);", "module 2"),
    ("l: while (a) { break l }", "module 1"),
    ("do a; while (b) c", "module 2"),
    ("switch (a) { case 1: default: b }", "module 1"),
    ("try {} catch {} finally {}; try {}", "none"),
    (
        "class A extends B { #c = 1; static {} get d() {} }",
        "module 1",
    ),
    ("let a = `b${c}d`, {e, ...f} = g?.h[i]?.(...j)", "module 1"),
    (
        "async (a) => await b; function* c() { yield* d }",
        "module 2",
    ),
    (
        "import a, {b as c, 'd' as e, default as f} from 'g'",
        "module 1",
    ),
    (
        "import * as a from 'b' with {type: 'json', 'c': 'd'}",
        "module 1",
    ),
    ("import {a as b c} from 'd'", "none"),
    ("import {'a'} from 'b'", "none"),
    ("import a from 'b' with {c: d}", "none"),
    ("export * from 'a'; export * as b from 'c'", "module 2"),
    ("export {a as 'b', c as default}; let a, c", "module 2"),
    ("export {a} from 'b' with {}", "module 1"),
    (
        "export default class {}\nexport default function () {}",
        "module 2",
    ),
    ("export default a, b", "none"),
    ("export const a = 1, b = 2", "module 1"),
    ("export a", "none"),
    ("import('a', b); import.meta.c", "module 2"),
    ("import(a, b, c)", "none"),
    ("{ import 'a' }", "none"),
    ("await a; for await (const b of c);", "module 2"),
];

/// Texts that TypeScript reads otherwise.
const UNTYPED: &[(&str, &str)] = &[
    ("let a: b", "none"),
    ("type A = b", "none"),
    ("class A { private a }", "none"),
    ("a as b", "none"),
    ("a!", "none"),
    ("<T,>(a) => b", "none"),
    ("f<a>(b)", "module 1"),
    ("type\nA = b", "module 2"),
    ("a++ < b > (c)", "module 1"),
];

/// Scripts, which have no imports.
const SCRIPTS: &[(&str, &str)] = &[
    ("for (var a = 1 in b);", "script 1"),
    ("for (var a = (1 in b) in c);", "script 1"),
    ("for (let a = 1 in b);", "none"),
    ("for (var [a] = 1 in b);", "none"),
    ("for (var a = 1 of b);", "none"),
    ("", "script 0"),
    ("with (a) b;", "script 1"),
    ("async () => await a", "script 1"),
    ("import('a')", "script 1"),
    ("import 'a'", "none"),
    ("export {}", "none"),
    ("import.meta", "none"),
    ("await a", "none"),
];

/// Modules of TypeScript, by the rules of GRAMMAR.md.
const TYPED: &[(&str, &str)] = &[
    ("let a!: b, [c]: d = e, {f}: g;", "module 1"),
    ("let a\n!b", "module 2"),
    ("let a !b", "none"),
    ("let a: b\nas\nc", "module 3"),
    ("function f<T>(this: A, a?: B, ...c: D[]): E {}", "module 1"),
    ("function f(a: b): asserts a is c;", "module 1"),
    ("function f(public a) {}", "none"),
    ("type A<T> = { b: c; d(): e }\ntype\nA = b", "module 3"),
    (
        "interface A<T> extends B<c>, D { (a: b): c; readonly d?: e }",
        "module 1",
    ),
    (
        "enum A { b, c = 1, 'd' = 2, } declare const enum E { f }",
        "module 2",
    ),
    (
        "namespace a.b { export const c = 1; import d = e.f; }",
        "module 1",
    ),
    ("declare module 'a'\n{ export default b }", "module 1"),
    ("declare module 'a'; module 'b' {} global {}", "module 3"),
    ("declare\nvar a", "module 2"),
    ("abstract\nclass A {}", "module 1"),
    (
        "export = a; export import b = c.d; export as namespace e",
        "module 3",
    ),
    ("export default interface A { b: c }", "module 1"),
    ("try {} catch (a: any) {} finally {}", "module 1"),
    ("for (let a: b of c) d; for (e as f of g) h", "module 2"),
    ("a as b as c; a satisfies b; a as const", "module 3"),
    ("a satisfies const", "none"),
    (
        "a as b + c * d; a as b << 1; a satisfies b >> c << d",
        "module 3",
    ),
    ("a as b >> c as d", "none"),
    ("-a ** b", "none"),
    ("-a as b ** c", "module 1"),
    ("a as b\n(c)", "module 2"),
    ("a as b\n[c]", "module 2"),
    ("a as b\n+ c", "module 1"),
    (
        "a = (): (b | c) => d; a = (b): (() => void) => c",
        "module 2",
    ),
    ("a = (): ({ b; c }) => d", "none"),
    ("a = (b): (c) => d", "none"),
    ("new A<b>; new A<b>\nc", "module 3"),
    ("new A<b>.c", "none"),
    (
        "a = class implements B {}; export default class implements B {}",
        "module 2",
    ),
    ("class implements B {}", "none"),
    ("let a: [function: b, null?: c, ...new: d[]]", "module 1"),
    ("f<<T>() => T>(a); let b: A<<T>() => T>", "module 2"),
    ("a << b > (c)", "module 1"),
    ("a\nas b", "none"),
    ("a\n!b", "module 2"),
    ("(a as b) = c; a! = b; a!.b = c; a.b!++", "module 4"),
    ("a()! = b", "none"),
    ("f<a, b[]>(c); f<a>`b`; new A<b>(c); a?.<b>(c)", "module 4"),
    ("f<a>", "none"),
    ("a++ < b > (c)", "none"),
    ("(a, b?: c, ...d: e[]): f is g => h", "module 1"),
    ("<T,>(a): a is T => a; async <T>(a: T): b => c", "module 2"),
    ("a ? (b): c => d : e", "none"),
    ("a ? (b, c) : (d): e => f", "module 1"),
    ("(<any>a) = c", "none"),
    ("[a!, b.c!] = d; ({ e: f as g } = h)", "module 2"),
    ("let a: typeof import('b'), c: new () => d = e", "module 1"),
    (
        "class A<T> extends B<c> implements D, E.F<g> {}",
        "module 1",
    ),
    (
        "class A { private readonly a?: b = c; static b!: c; declare d }",
        "module 1",
    ),
    (
        "class A { constructor(public d, readonly [e]: f[] = g) {} }",
        "module 1",
    ),
    (
        "class A { [k: string]: any; static readonly [k: string]: any }",
        "module 1",
    ),
    (
        "abstract class A { abstract a: b; abstract b(): c; get d(): e; }",
        "module 1",
    ),
    (
        "class A { a?(): b; a\n(b) {} static static() {} }",
        "module 1",
    ),
    ("class A { static static a }", "none"),
    (
        "class A { get<T>(a) {} set: a; async<T>() {} static: b }",
        "module 1",
    ),
    (
        "class A { accessor a: b = c; static accessor d!: e }",
        "module 1",
    ),
    ("class A { a: b\n[c] = d }", "module 1"),
    (
        "x = class <T> extends A<b> {}; x = abstract class A {}",
        "module 2",
    ),
    ("class A { constructor(public public a) {} }", "none"),
    (
        "x = { e<T>(f: g): h {}, get i(): j { return 1 }, async *k<T>() {} }",
        "module 1",
    ),
    ("export default abstract class A {}", "module 1"),
];

#[test]
fn items_by_the_rules(rt: HostRuntime) -> Result<(), Fail> {
    for (lang, mode, rows) in [
        (Lang::Es, Mode::Module, PLAIN),
        (Lang::Es, Mode::Module, UNTYPED),
        (Lang::Es, Mode::Script, SCRIPTS),
        (Lang::Typescript, Mode::Module, TYPED),
    ] {
        let found = others(rt.alloc(), Ask::Items, lang, mode, rows)?;
        assert_eq!(rt; found.as_str(), "");
    }
    Ok(())
}
