//! What is listed.

use base::Range;

/// Why something is listed.
#[derive(Clone, Copy, Debug, PartialEq, Eq)]
pub enum Reason {
    /// A name that no scope of the program declares, and that isn't allowed.
    Name,
    /// `import(..)`, `import.source(..)` or `import.defer(..)`, whose first argument is no string literal alone.
    Import,
    /// `import.meta`, but not in `new URL("a", import.meta.url)`.
    Meta,
    /// `with`: a name in its body may be a property.
    With,
    /// A member or a key of a pattern that leads to what makes code or changes objects, such as `constructor`; strict.
    Member,
    /// A computed member whose key is no literal; strict.
    Key,
    /// `this` in a script, which may be the global object; strict.
    This,
}

/// Something that is listed, with its bytes in the text.
#[derive(Clone, Copy, Debug, PartialEq, Eq)]
pub struct Mention {
    pub reason: Reason,
    pub range: Range,
}

/// What a node of a program is.
#[derive(Clone, Copy)]
pub enum Event {
    /// These tokens, from the first to the last one, leave no names at run time.
    Gone(u32, u32),
    Listed(Mention),
}
