//! The names and scopes of a program.

ghost use Rattle.std.specs.Prelude.{◌≡◌, IfOk};
ghost use Rattle.es_syntax.specs.Trees.{first_tree, trees};
ghost use Rattle.es_scopes.specs.Marks.{marks, body_marks};

use crate::scopes::Scopes;
use crate::steps::{Mark, Place};
use base::Items;
use es_syntax::Siblings;
use es_token::Token;
use es_walk::walk_first;
use std::alloc::{AllocError, Global};

/// The names and scopes of the program that is first in a row, in the order of the text.
pub fn program_marks(
    alloc: Global,
    tokens: &[Token],
    row: &Siblings<'_>,
) -> Result<Items<Mark>, AllocError>
    ensures { IfOk result (λ found. found ≡ marks tokens.now (first_tree (trees row.now.entries.now))) }
{
    let mut found = Items::new(alloc);
    let scopes = Scopes {
        tokens,
        bodies: false,
    };
    walk_first(&scopes, alloc, &mut found, Place::Binds, row)?;
    Ok(found)
}

/// The same, where the body of a function or of a static block is a scope of its own inside that of its parameters.
pub fn body_marks(
    alloc: Global,
    tokens: &[Token],
    row: &Siblings<'_>,
) -> Result<Items<Mark>, AllocError>
    ensures { IfOk result (λ found. found ≡ body_marks tokens.now (first_tree (trees row.now.entries.now))) }
{
    let mut found = Items::new(alloc);
    let scopes = Scopes {
        tokens,
        bodies: true,
    };
    walk_first(&scopes, alloc, &mut found, Place::Binds, row)?;
    Ok(found)
}
