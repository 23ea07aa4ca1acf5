//! The sites of a program.

ghost use Rattle.std.specs.Prelude.{◌≡◌, IfOk};
ghost use Rattle.es_lexer.specs.Reads.{ReadsTokens};
ghost use Rattle.es_syntax.specs.Trees.{first_tree, trees};
ghost use Rattle.es_forms.specs.Forms.{forms_in};

use crate::chosen::Forms;
use crate::given::Finding;
use crate::steps::Place;
use base::Items;
use es_required::required_marks;
use es_site::Site;
use es_syntax::Siblings;
use es_token::Token;
use es_variables::ScopeIds;
use es_walk::walk_first;
use std::alloc::{AllocError, Global};

/// The sites of the forms that are chosen in the program that is first in a row, in the order of the text.
#[tactic(auto, using(crate::proofs::NumberLemmas::by_numbers))]
pub fn form_sites(
    alloc: Global,
    text: &str,
    tokens: &[Token],
    row: &Siblings<'_>,
    chosen: Forms,
) -> Result<Items<Site>, AllocError>
    requires { ReadsTokens text.now tokens.now }
    ensures { IfOk result (λ found. found ≡ forms_in chosen text.now tokens.now (first_tree (trees row.now.entries.now))) }
{
    let ids = ScopeIds::of(alloc, text, tokens, row)?;
    let marks = required_marks(alloc, text, tokens, row)?;
    let mut found = Items::new(alloc);
    walk_first(
        &Finding {
            alloc,
            text,
            tokens,
            ids: &ids,
            chosen,
            marks: marks.as_slice(),
        },
        alloc,
        &mut found,
        Place::Plain,
        row,
    )?;
    Ok(found)
}
