//! Forms of first items, by the standard's rules.

use crate::told::{Ask, others};
use grammar_theory::{Lang, Mode};
use std::test::Fail;

/// The second branch of a conditional is the arrow function; arguments are types in TypeScript alone.
const TYPED: &[(&str, &str)] = &[
    ("a ? (b) : c => d;", "conditional: brackets, arrow"),
    ("f<T>(import('./a.ts'));", "call with types, arguments 1"),
];

/// Brackets are a pattern before an equal sign.
const PLAIN: &[(&str, &str)] = &[
    ("[a] = b;", "assignment: array pattern"),
    ("[a];", "array"),
    ("f<T>(import('./a.ts'));", "operators"),
];

/// The ranges of a program, of its import and of the literal, the literal's value.
const IMPORTS: &[(&str, &str)] = &[(
    " import \"./b.ts\" ;\n",
    "1-18 1-18 8-16 \"./b.ts\" lone false with false",
)];

/// The ranges of members.
const MEMBERS: &[(&str, &str)] = &[(
    "let x: { a?: string; b(c): this };",
    "9-20 property optional true; 21-31 method \"c\" typed false; ",
)];

#[test]
fn forms_by_the_rules(rt: HostRuntime) -> Result<(), Fail> {
    for (ask, lang, rows) in [
        (Ask::Form, Lang::Typescript, TYPED),
        (Ask::Form, Lang::Es, PLAIN),
        (Ask::Import, Lang::Typescript, IMPORTS),
        (Ask::Members, Lang::Typescript, MEMBERS),
    ] {
        let found = others(rt.alloc(), ask, lang, Mode::Module, rows)?;
        assert_eq!(rt; found.as_str(), "");
    }
    Ok(())
}
