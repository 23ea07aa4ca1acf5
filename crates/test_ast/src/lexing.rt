//! Tokens and comments by their places.

use deno_ast::{LexedItem, MediaType, TokenKind, TokenOrComment, lex};
use std::alloc::{AllocError, Global};

/// A text, and its items with their ranges: `c` for a comment, `:` for a colon, `t` for another token.
const ROWS: &[(&str, &str)] = &[
    (
        "const /* 1 */ t: number /* 2 */ = 5; // 3",
        "t0-5 c6-13 t14-15 :15-16 t17-23 c24-31 t32-33 t34-35 t35-36 c37-41",
    ),
    ("\u{feff}1", "t3-4"),
    ("// a", "c0-4"),
    ("", ""),
];

fn sign_of(item: &LexedItem) -> &'static str {
    match &item.inner {
        TokenOrComment::Token(TokenKind::Colon) => ":",
        TokenOrComment::Token(_) => "t",
        TokenOrComment::Comment { kind: _, text: _ } => "c",
    }
}

fn line_of(alloc: Global, items: &[LexedItem]) -> Result<String, AllocError> {
    let mut line = String::new(alloc);
    for item in items {
        if !line.is_empty() {
            line.push_str(" ")?;
        }
        let (start, end) = (item.range.start, item.range.end);
        let told = format!(in alloc; "{}{start}-{end}", sign_of(item))?;
        line.push_str(told.as_str())?;
    }
    Ok(line)
}

#[test]
fn items_by_their_places(rt: HostRuntime) {
    for (text, want) in ROWS.iter() {
        let items = lex(rt.alloc(), text, MediaType::TypeScript).expect(&rt, "tokens");
        let got = line_of(rt.alloc(), items.as_slice()).expect(&rt, "memory");
        assert_eq!(rt; got.as_str(), *want);
    }
}
