//! Byte order marks.

use source_text::module_text::{strip_bom, without_mark};
use std::alloc::Global;

/// A text, and the same without its mark.
const MARKS: &[(&str, &str)] = &[
    ("", ""),
    ("a", "a"),
    ("\u{feff}", ""),
    ("\u{feff}a", "a"),
    ("\u{feff}\u{feff}a", "\u{feff}a"),
    ("a\u{feff}", "a\u{feff}"),
    ("\u{fffe}a", "\u{fffe}a"),
    ("\u{fefe}", "\u{fefe}"),
];

#[test]
fn marks(rt: HostRuntime) {
    for (text, want) in MARKS.iter() {
        let owned = String::from_str(rt.alloc(), text).expect(&rt, "memory");
        assert_eq!(rt; without_mark(text), *want);
        assert_eq!(rt; strip_bom(owned).as_str(), *want);
    }
}
