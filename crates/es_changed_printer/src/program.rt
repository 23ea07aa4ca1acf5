//! The printed text of a changed row.

ghost use Rattle.std.specs.Prelude.{◌≡◌, IfOk, string_bytes};
ghost use Rattle.std.specs.Option.{option_map};
ghost use Rattle.es_printer.specs.Lines.{finished};
ghost use Rattle.es_printer.specs.Paper.{lines_of};
ghost use Rattle.es_changed_printer.specs.Pieces.{printed};

use crate::walk::first;
use es_changed::ChangedSiblings;
use es_comments::MultiThreadedComments;
use es_printer::{Draft, Page, Source, Style};
use es_token::Token;
use std::alloc::{AllocError, Global};

/// The page of the program that is first in a row.
#[tactic(auto, using(crate::proofs::WalkLemmas::whole))]
fn program_page<'a>(
    alloc: Global,
    source: &Source<'a>,
    row: &ChangedSiblings<'_>,
) -> Result<Page<'a>, AllocError>
    ensures { IfOk result (λ page. finished (lines_of page) ≡ printed source.now.text.now source.now.tokens.now (option_map (λ c. c.now) source.now.comments) row.now.entries.now) }
{
    let mut draft = Draft {
        page: Page::new(alloc, source.text)?,
        next: 0,
    };
    first(&mut draft, source, Style::Plain, *row)?;
    Ok(draft.page)
}

/// The printed text of the program that is first in a changed row, over the text and the tokens of the program that was
/// changed, with the comments before its items where some are given.
pub fn print_changed(
    alloc: Global,
    text: &str,
    tokens: &[Token],
    row: &ChangedSiblings<'_>,
    comments: Option<&MultiThreadedComments>,
) -> Result<String, AllocError>
    ensures { IfOk result (λ out. string_bytes out ≡ printed text.now tokens.now (option_map (λ c. c.now) comments.entry) row.now.entries.now) }
{
    let source = Source {
        text,
        tokens,
        comments,
    };
    program_page(alloc, &source, row)?.finished()
}
