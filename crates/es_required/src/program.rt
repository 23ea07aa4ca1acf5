//! The marks of a program.

ghost use Rattle.std.specs.Prelude.{◌≡◌, IfOk};
ghost use Rattle.es_lexer.specs.Reads.{ReadsTokens};
ghost use Rattle.es_syntax.specs.Trees.{first_tree, trees};
ghost use Rattle.es_required.specs.Required as spec;

use crate::given::Making;
use crate::steps::{Mark, Place};
use base::Items;
use es_syntax::Siblings;
use es_token::Token;
use es_walk::walk_first;
use std::alloc::{AllocError, Global};

/// What the program that is first in a row says of such names, in the order of the text.
#[tactic(auto, unfolding(crate::specs::Required::marks))]
pub fn required_marks(
    alloc: Global,
    text: &str,
    tokens: &[Token],
    row: &Siblings<'_>,
) -> Result<Items<Mark>, AllocError>
    requires { ReadsTokens text.now tokens.now }
    ensures { IfOk result (λ found. found ≡ spec.marks text.now tokens.now (first_tree (trees row.now.entries.now))) }
{
    let mut found = Items::new(alloc);
    walk_first(
        &Making { text, tokens },
        alloc,
        &mut found,
        Place::Plain,
        row,
    )?;
    Ok(found)
}
