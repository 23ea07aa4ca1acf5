//! The declarations of a program.

ghost use Rattle.std.specs.Prelude.{◌≡◌, IfOk};
ghost use Rattle.es_lexer.specs.Reads.{ReadsTokens};
ghost use Rattle.es_syntax.specs.Trees.{first_tree, trees};
ghost use Rattle.es_variables.specs.scope_analysis.Events.{events};

use crate::declarations::source::Source;
use crate::scope_analysis::{Event, Visit};
use base::Items;
use es_syntax::Siblings;
use es_token::Token;
use es_walk::walk_first;
use std::alloc::{AllocError, Global};

/// What the walk meets in the program that is first in a row: the path grows, it shrinks, a name is declared.
pub fn program_events(
    alloc: Global,
    text: &str,
    tokens: &[Token],
    row: &Siblings<'_>,
) -> Result<Items<Event>, AllocError>
    requires { ReadsTokens text.now tokens.now }
    ensures { IfOk result (λ found. found ≡ events text.now tokens.now (first_tree (trees row.now.entries.now))) }
{
    let mut found = Items::new(alloc);
    walk_first(
        &Source { text, tokens },
        alloc,
        &mut found,
        Visit::Walks,
        row,
    )?;
    Ok(found)
}
