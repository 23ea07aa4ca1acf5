//! What a walk over a tree meets of names and scopes, and what it does at a node.

/// How a name at a place is meant.
#[derive(Clone, Copy)]
pub enum Place {
    /// In an expression or a type: it is used.
    Uses,
    /// It is declared in the innermost scope. So are the functions and classes of a statement.
    Binds,
    /// It is declared by `var`.
    Hoists,
    /// In the body of a function or of a static block, whose block opens no scope of its own.
    Body,
}

/// What a walk meets, in the order of the text.
#[derive(Clone, Copy)]
pub enum Mark {
    /// A scope begins, and whether `var` declares in it.
    Open(bool),
    /// The scope that was opened last ends.
    Close,
    /// A name, by the number of its token.
    Name(Place, u32),
}

/// The place of a part, by that of its node.
#[derive(Clone, Copy)]
pub enum Way {
    /// That of the node.
    Same,
    Uses,
    Binds,
    Body,
    /// By the word that is the node's first part: `var`, or another.
    Word,
    /// Used, but passed over where `from` follows what is exported.
    Exported,
}

/// When a scope is opened around the parts of a node.
#[derive(Clone, Copy)]
pub enum When {
    Always,
    /// Where the node isn't the block of a body.
    Apart,
    /// Where a `try` has a `catch`.
    Caught,
    /// Where `{` follows the token that is the first part.
    Braced,
    /// Where an expression has a name of its own at this place.
    Named(usize),
}

/// What is met at a node itself. Parts count from 0.
#[derive(Clone, Copy)]
pub enum Act {
    Open(When, bool),
    Close(When),
    /// The name that is the part at this place; `this` is none.
    Name(Way, usize),
    /// The name in the group at the first place, at the second.
    NameIn(Way, usize, usize),
    /// The name of a function or a class, which may be absent.
    Own(usize),
}

/// What is in a turn of a list.
#[derive(Clone, Copy)]
pub enum Turn {
    /// What a case of `switch` tests, and its statements.
    Case,
}
