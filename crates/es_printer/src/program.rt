//! The printed text of a program.

ghost use Rattle.std.specs.Prelude.{◌≡◌, IfOk, None, string_bytes};
ghost use Rattle.std.specs.Option.{option_map};
ghost use Rattle.es_syntax.specs.Trees.{first_tree, trees};
ghost use Rattle.es_printer.specs.Lines.{start, finished, printed};
ghost use Rattle.es_printer.specs.Paper.{lines_of};
ghost use Rattle.es_printer.specs.Laid.{Grows};

use crate::draft::Draft;
use crate::page::Page;
use crate::piece::Source;
use crate::style::Style;
use crate::walk::first;
use es_comments::MultiThreadedComments;
use es_syntax::Siblings;
use es_token::Token;
use std::alloc::{AllocError, Global};

/// The page of the program that is first in a row.
#[tactic(auto, using(crate::proofs::LaidLemmas::whole))]
fn program_page<'a>(
    alloc: Global,
    source: &Source<'a>,
    row: &Siblings<'_>,
) -> Result<Page<'a>, AllocError>
    ensures { IfOk result (λ page. finished (lines_of page) ≡ printed source.now.text.now source.now.tokens.now (option_map (λ c. c.now) source.now.comments) (first_tree (trees row.now.entries.now))) }
{
    let mut draft = Draft {
        page: Page::new(alloc, source.text)?,
        next: 0,
    };
    first(&mut draft, source, Style::Plain, *row)?;
    Ok(draft.page)
}

/// The printed text of the program that is first in a row, with the comments before its items where some are given.
pub fn print_with(
    alloc: Global,
    text: &str,
    tokens: &[Token],
    row: &Siblings<'_>,
    comments: Option<&MultiThreadedComments>,
) -> Result<String, AllocError>
    ensures { IfOk result (λ printed_text. string_bytes printed_text ≡ printed text.now tokens.now (option_map (λ c. c.now) comments.entry) (first_tree (trees row.now.entries.now))) }
{
    let source = Source {
        text,
        tokens,
        comments,
    };
    program_page(alloc, &source, row)?.finished()
}

/// The printed text of the program that is first in a row, without comments.
pub fn print(
    alloc: Global,
    text: &str,
    tokens: &[Token],
    row: &Siblings<'_>,
) -> Result<String, AllocError>
    ensures { IfOk result (λ printed_text. string_bytes printed_text ≡ printed text.now tokens.now None (first_tree (trees row.now.entries.now))) }
{
    print_with(alloc, text, tokens, row, None)
}
