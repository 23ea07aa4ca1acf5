//! What a walk over a tree meets of declarations, and what it does at a node.

use crate::scope_analysis::kinds::{BindingKind, ScopeKind};
use es_walk::Path;

/// What is done with a node.
#[derive(Clone, Copy)]
pub enum Visit {
    /// It is walked.
    Walks,
    /// It is walked, and is the block of a body, which adds nothing to the path.
    Body,
    /// It is a pattern whose names are declared so; anything else in it is skipped.
    Names(BindingKind),
}

/// What a walk meets, in its order.
#[derive(Clone, Copy)]
pub enum Event {
    /// The path is longer by this.
    Enter(ScopeKind),
    /// The path is shorter by its last part.
    Leave,
    /// A name is declared, by the number of its token.
    Declare(BindingKind, u32),
}

/// What is done with a part, by what is done with its node.
#[derive(Clone, Copy)]
pub enum Way {
    /// The same.
    Same,
    Walks,
    Body,
    /// It is walked if the node is, and else skipped.
    Inner,
    Names(BindingKind),
    /// Names, by the word that is the node's first part.
    Word,
    /// The body of a method whose key is the part at this place: that of a constructor is a block as any other.
    Method(Path),
    /// The same as the node, but skipped if it is a name that the class at this place declares.
    Unless(Path),
}

/// What is met at a node itself. Parts count from 0.
#[derive(Clone, Copy)]
pub enum Act {
    Enter(ScopeKind),
    /// The same, but for the block of a body.
    EnterApart(ScopeKind),
    Leave,
    LeaveApart,
    /// The name that is the part at this place.
    Declare(BindingKind, usize),
    /// The same, where names are declared.
    Name(usize),
    /// The name of a function or a class, which may be absent.
    Own(BindingKind, usize),
    /// The name of the class at this place, if the first part is declared and is the same name.
    Class(Path),
}
