//! The steps of the nodes of a program.

use es_walk::Path;

/// Where a node stands.
#[derive(Clone, Copy)]
pub enum Place {
    Plain,
    /// It is a part of an import of `node:module`.
    Imported,
    /// It is a part of a `const`.
    Const,
}

/// Where a part stands.
#[derive(Clone, Copy)]
pub enum Way {
    /// Nowhere in particular.
    Inner,
    /// Where the node does.
    Same,
    /// In an import, if it is of that module.
    From,
    /// In a declaration of variables, if it is a `const`.
    Word,
}

/// What is met at a node itself.
#[derive(Clone, Copy)]
pub enum Act {
    /// A name that is imported, at the first place, as the name at the second.
    Import(Path, Path),
    /// A variable whose value is at this place.
    Declare(Path),
}

/// What a program says of such names, which are tokens by their numbers.
#[derive(Clone, Copy, Debug, PartialEq, Eq)]
pub enum Mark {
    /// This name is an import of `createRequire`.
    Imported(u32),
    /// The first name is declared as what the second is called for.
    Made(u32, u32),
}
