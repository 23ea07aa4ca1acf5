//! The sites of texts.

use crate::told::{Ask, others, told};
use grammar_theory::{Lang, Mode};
use std::alloc::{AllocError, Global};
use std::test::Fail;

/// Texts with an `import("")` in each place of a form that may hold an expression; the last ones are those before them, one
/// after the other.
const PLACES: &[&str] = &[
    "[...import(\"\")];",
    "(import(\"\"));",
    "void import(\"\");",
    "a[import(\"\")]++;",
    "await import(\"\");",
    "import(\"\")!;",
    "import(\"\") as a;",
    "import(\"\") as const;",
    "import(\"\") satisfies a;",
    "import(\"\") + import(\"\");",
    "[a[import(\"\")] = import(\"\")] = import(\"\");",
    "import(\"\") ? import(\"\") : import(\"\");",
    "import(\"\"), import(\"\");",
    "[import(\"\"), import(\"\")];",
    "import(\"\")?.[import(\"\")];",
    "(import(\"\"))(import(\"\"), import(\"\"));",
    "new (import(\"\"))(import(\"\"), import(\"\"));",
    "import(\"\").a;",
    "(import(\"\"))`${import(\"\")}${import(\"\")}`;",
    "({ ...import(\"\"), a, [import(\"\")]: import(\"\"), [import(\"\")](b = import(\"\")) { import(\"\") } });",
    "(function (a = import(\"\")) { import(\"\") });",
    "(class extends import(\"\") { ; static { import(\"\") } get [import(\"\")]() { import(\"\") } [import(\"\")] = import(\"\") });",
    "(a = import(\"\")) => { import(\"\") };",
    "import(\"\", import(\"\"));",
    "{ import(\"\") }",
    ";import(\"\")",
    "a: import(\"\");",
    "throw import(\"\");",
    "if (import(\"\")) import(\"\"); else import(\"\");",
    "switch (import(\"\")) { case import(\"\"): import(\"\") }",
    "try { import(\"\") } catch ({ a = import(\"\") }) { import(\"\") } finally { import(\"\") }",
    "while (import(\"\")) import(\"\");",
    "do import(\"\"); while (import(\"\"))",
    "for (import(\"\"); import(\"\"); import(\"\")) import(\"\");",
    "for (const [a = import(\"\"), , { [import(\"\")]: b = import(\"\"), c = import(\"\"), ...d }, ...e] in import(\"\")) import(\"\");",
    "for (a[import(\"\")] of import(\"\")) import(\"\");",
    "function f(a = import(\"\")) { return import(\"\") }",
    "function* g() { yield import(\"\") }",
    "export class A extends import(\"\") { [import(\"\")](a = import(\"\")) { import(\"\") } b = import(\"\") }",
    "export function f(a = import(\"\")) { import(\"\") }",
    "export let a = import(\"\"), { b = import(\"\") } = import(\"\");",
    "export enum E { a = import(\"\") }",
    "export namespace a { import(\"\"); export function f(b = import(\"\")) { import(\"\") } }",
    "declare module \"m\" { import(\"\"); export function f(b = import(\"\")) { import(\"\") } }",
    "declare global { import(\"\"); export function f(b = import(\"\")) { import(\"\") } }",
    "export default function (a = import(\"\")) { import(\"\") }",
    "export default import(\"\");",
    "export = import(\"\");",
    "[...import(\"\")];\n(import(\"\"));\nvoid import(\"\");\na[import(\"\")]++;\nawait import(\"\");\nimport(\"\")!;\nimport(\"\") as a;\nimport(\"\") as const;\nimport(\"\") satisfies a;\nimport(\"\") + import(\"\");\n[a[import(\"\")] = import(\"\")] = import(\"\");\nimport(\"\") ? import(\"\") : import(\"\");\nimport(\"\"), import(\"\");\n[import(\"\"), import(\"\")];\nimport(\"\")?.[import(\"\")];\n(import(\"\"))(import(\"\"), import(\"\"));\nnew (import(\"\"))(import(\"\"), import(\"\"));\nimport(\"\").a;\n(import(\"\"))`${import(\"\")}${import(\"\")}`;\n({ ...import(\"\"), a, [import(\"\")]: import(\"\"), [import(\"\")](b = import(\"\")) { import(\"\") } });\n(function (a = import(\"\")) { import(\"\") });\n(class extends import(\"\") { ; static { import(\"\") } get [import(\"\")]() { import(\"\") } [import(\"\")] = import(\"\") });\n(a = import(\"\")) => { import(\"\") };\nimport(\"\", import(\"\"));",
    "{ import(\"\") }\n;import(\"\")\na: import(\"\");\nthrow import(\"\");\nif (import(\"\")) import(\"\"); else import(\"\");\nswitch (import(\"\")) { case import(\"\"): import(\"\") }\ntry { import(\"\") } catch ({ a = import(\"\") }) { import(\"\") } finally { import(\"\") }\nwhile (import(\"\")) import(\"\");\ndo import(\"\"); while (import(\"\"))\nfor (import(\"\"); import(\"\"); import(\"\")) import(\"\");\nfor (const [a = import(\"\"), , { [import(\"\")]: b = import(\"\"), c = import(\"\"), ...d }, ...e] in import(\"\")) import(\"\");\nfor (a[import(\"\")] of import(\"\")) import(\"\");\nfunction f(a = import(\"\")) { return import(\"\") }\nfunction* g() { yield import(\"\") }",
    "export class A extends import(\"\") { [import(\"\")](a = import(\"\")) { import(\"\") } b = import(\"\") }\nexport function f(a = import(\"\")) { import(\"\") }\nexport let a = import(\"\"), { b = import(\"\") } = import(\"\");\nexport enum E { a = import(\"\") }\nexport namespace a { import(\"\"); export function f(b = import(\"\")) { import(\"\") } }\ndeclare module \"m\" { import(\"\"); export function f(b = import(\"\")) { import(\"\") } }\ndeclare global { import(\"\"); export function f(b = import(\"\")) { import(\"\") } }\nexport default function (a = import(\"\")) { import(\"\") }\nexport default import(\"\");\nexport = import(\"\");",
    "[...import(\"\")];\n(import(\"\"));\nvoid import(\"\");\na[import(\"\")]++;\nawait import(\"\");\nimport(\"\")!;\nimport(\"\") as a;\nimport(\"\") as const;\nimport(\"\") satisfies a;\nimport(\"\") + import(\"\");\n[a[import(\"\")] = import(\"\")] = import(\"\");\nimport(\"\") ? import(\"\") : import(\"\");\nimport(\"\"), import(\"\");\n[import(\"\"), import(\"\")];\nimport(\"\")?.[import(\"\")];\n(import(\"\"))(import(\"\"), import(\"\"));\nnew (import(\"\"))(import(\"\"), import(\"\"));\nimport(\"\").a;\n(import(\"\"))`${import(\"\")}${import(\"\")}`;\n({ ...import(\"\"), a, [import(\"\")]: import(\"\"), [import(\"\")](b = import(\"\")) { import(\"\") } });\n(function (a = import(\"\")) { import(\"\") });\n(class extends import(\"\") { ; static { import(\"\") } get [import(\"\")]() { import(\"\") } [import(\"\")] = import(\"\") });\n(a = import(\"\")) => { import(\"\") };\nimport(\"\", import(\"\"));\n{ import(\"\") }\n;import(\"\")\na: import(\"\");\nthrow import(\"\");\nif (import(\"\")) import(\"\"); else import(\"\");\nswitch (import(\"\")) { case import(\"\"): import(\"\") }\ntry { import(\"\") } catch ({ a = import(\"\") }) { import(\"\") } finally { import(\"\") }\nwhile (import(\"\")) import(\"\");\ndo import(\"\"); while (import(\"\"))\nfor (import(\"\"); import(\"\"); import(\"\")) import(\"\");\nfor (const [a = import(\"\"), , { [import(\"\")]: b = import(\"\"), c = import(\"\"), ...d }, ...e] in import(\"\")) import(\"\");\nfor (a[import(\"\")] of import(\"\")) import(\"\");\nfunction f(a = import(\"\")) { return import(\"\") }\nfunction* g() { yield import(\"\") }\nexport class A extends import(\"\") { [import(\"\")](a = import(\"\")) { import(\"\") } b = import(\"\") }\nexport function f(a = import(\"\")) { import(\"\") }\nexport let a = import(\"\"), { b = import(\"\") } = import(\"\");\nexport enum E { a = import(\"\") }\nexport namespace a { import(\"\"); export function f(b = import(\"\")) { import(\"\") } }\ndeclare module \"m\" { import(\"\"); export function f(b = import(\"\")) { import(\"\") } }\ndeclare global { import(\"\"); export function f(b = import(\"\")) { import(\"\") } }\nexport default function (a = import(\"\")) { import(\"\") }\nexport default import(\"\");\nexport = import(\"\");",
];

/// The same of a script.
const SCRIPT: &[&str] = &["with (import(\"\")) import(\"\");"];

/// Texts of TypeScript, and their sites: kind, `type`, range, value and attribute.
const TYPED: &[(&str, &str)] = &[
    (
        "import type { A } from './a.ts';",
        "Import type 23-31 \"./a.ts\" Absent; ",
    ),
    (
        "import v = require('./x.cjs');",
        "ImportEquals 19-28 \"./x.cjs\" Unknown; ",
    ),
    (
        "import type from './a.ts';",
        "Import 17-25 \"./a.ts\" Absent; ",
    ),
    (
        "f(<T,>(x: T) => import('./a.ts'));",
        "Dynamic 23-31 \"./a.ts\" Absent; ",
    ),
    (
        "f<T>(import('./a.ts'));",
        "Dynamic 12-20 \"./a.ts\" Absent; ",
    ),
    (
        "namespace a { class B { c?: d = import('./a.ts') } }",
        "Dynamic 39-47 \"./a.ts\" Absent; ",
    ),
    (
        "enum A { b = import('c') as any }",
        "Dynamic 20-23 \"c\" Absent; ",
    ),
    (
        "export type { a } from 'b'",
        "Export type 23-26 \"b\" Absent; ",
    ),
    (
        "import type z from \"a\" with { type: \"first\", \"type\": \"last\" }; export * from \"b\"; export type {}; export type {} from \"c\"; import x = require(\"d\");",
        "Import type 19-22 \"a\" Named(\"last\"); Export 77-80 \"b\" Absent; Export type 118-121 \"c\" Absent; ImportEquals 142-145 \"d\" Unknown; ",
    ),
];

/// Imports and calls by phase.
const PHASES: &[(&str, &str)] = &[
    (
        "import source a from 'b'",
        "ImportSource 21-24 \"b\" Absent; ",
    ),
    ("import source from 'b'", "Import 19-22 \"b\" Absent; "),
    (
        "import source from from 'b'",
        "ImportSource 24-27 \"b\" Absent; ",
    ),
    (
        "import defer * as a from 'b' with { type: 'c' }",
        "ImportDefer 25-28 \"b\" Named(\"c\"); ",
    ),
    (
        "import.source('a', import.defer('b'))",
        "DynamicSource 14-17 \"a\" Unknown; DynamicDefer 32-35 \"b\" Absent; ",
    ),
    (
        "import.defer('a', { with: { type: 'b' } }), import.source(import('c'),)",
        "DynamicDefer 13-16 \"a\" Named(\"b\"); Dynamic 65-68 \"c\" Absent; ",
    ),
];

/// The attribute of a call by the keys of its options.
const PLAIN: &[(&str, &str)] = &[
    (
        "import(\"a\", { with: { type: \"json\" } });",
        "Dynamic 7-10 \"a\" Named(\"json\"); ",
    ),
    (
        "import(\"a\", { 'with': { type: \"json\" } });",
        "Dynamic 7-10 \"a\" Named(\"json\"); ",
    ),
    (
        "import(\"a\", { with: { 'type': \"json\" } });",
        "Dynamic 7-10 \"a\" Named(\"json\"); ",
    ),
    (
        "import(\"a\", { with: { [type]: \"json\" } });",
        "Dynamic 7-10 \"a\" Unknown; ",
    ),
    (
        "import(\"a\", { with: { 0: \"json\" } });",
        "Dynamic 7-10 \"a\" Unknown; ",
    ),
    (
        "import(\"a\", { 0: { type: \"json\" } });",
        "Dynamic 7-10 \"a\" Unknown; ",
    ),
    (
        "import(\"a\", { with: { other: \"json\" } });",
        "Dynamic 7-10 \"a\" Absent; ",
    ),
    (
        "import(\"a\", { assert: { type: \"json\" } });",
        "Dynamic 7-10 \"a\" Absent; ",
    ),
];

/// The sites of a text by the places of its `import("")`: one that has options is `Unknown`, each other one `Absent`.
fn placed(alloc: Global, text: &str) -> Result<String, AllocError> {
    let mut out = String::new(alloc);
    let mut start = 0usize;
    for piece in text.split("import(\"\"") {
        if start > 0 {
            let attribute = if piece.starts_with(',') {
                "Unknown"
            } else {
                "Absent"
            };
            let end = start.saturating_add(2);
            out.push_str(format!(in alloc; "Dynamic {start}-{end} \"\" {attribute}; ")?.as_str())?;
            start = start.saturating_add(2);
        }
        start = start.saturating_add(piece.len()).saturating_add(7);
    }
    Ok(out)
}

/// Those of the texts whose sites are elsewhere.
fn misplaced(alloc: Global, lang: Lang, mode: Mode, texts: &[&str]) -> Result<String, AllocError> {
    let mut out = String::new(alloc);
    for text in texts {
        let (got, want) = (
            told(alloc, Ask::Sites, lang, mode, text)?,
            placed(alloc, text)?,
        );
        if got != want {
            out.push_str(format!(in alloc; "{text:?}: {got:?}\n")?.as_str())?;
        }
    }
    Ok(out)
}

#[test]
fn each_place_of_a_form(rt: HostRuntime) -> Result<(), Fail> {
    let found = misplaced(rt.alloc(), Lang::Typescript, Mode::Module, PLACES)?;
    assert_eq!(rt; found.as_str(), "");
    let found = misplaced(rt.alloc(), Lang::Es, Mode::Script, SCRIPT)?;
    assert_eq!(rt; found.as_str(), "");
    Ok(())
}

#[test]
fn kinds_and_attributes(rt: HostRuntime) -> Result<(), Fail> {
    for (lang, rows) in [
        (Lang::Typescript, TYPED),
        (Lang::Es, PLAIN),
        (Lang::Es, PHASES),
        (Lang::Typescript, PHASES),
    ] {
        let found = others(rt.alloc(), Ask::Sites, lang, Mode::Module, rows)?;
        assert_eq!(rt; found.as_str(), "");
    }
    Ok(())
}
