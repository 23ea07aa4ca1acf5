//! The printed text of a program, a module, a script.
ghost use Rattle.std.specs.Prelude.{◌≡◌, None, IfOk, string_bytes};
ghost use Rattle.std.specs.Option.{option_map};
ghost use Rattle.es_program.specs.Owned.{of_module, of_script};
ghost use Rattle.es_program_printer.specs.Printed.{IsPrinted, kept_comments};

use crate::options::{EmitOptions, EmittedSourceText};
use base::Text;
use es_comments::MultiThreadedComments;
use es_printer::print_with;
use es_program::{Module, Program, Script};
use std::alloc::{AllocError, Global};

/// The printed text of a program, without comments.
#[tactic(auto, using(crate::proofs::PrintedLemmas::is_printed))]
pub fn print(alloc: Global, program: &Program) -> Result<String, AllocError>
    ensures { IfOk result (λ text. IsPrinted program.now None (string_bytes text)) }
{
    let (text, tokens, row) = program.parts();
    print_with(alloc, text, tokens, &row, None)
}

/// The comments, unless they are left out.
fn kept<'a>(
    comments: &'a MultiThreadedComments,
    options: &EmitOptions,
) -> Option<&'a MultiThreadedComments>
    ensures { option_map (λ c. c.now) result ≡ kept_comments options.now.remove_comments comments.now }
{
    if options.remove_comments {
        None
    } else {
        Some(comments)
    }
}

fn emitted(text: String) -> EmittedSourceText
    ensures text { result.text ≡ string_bytes text }
    ensures map { result.source_map ≡ None }
{
    EmittedSourceText {
        text: Text::from_string(text),
        source_map: None,
    }
}

/// The printed text of a module; before each item the comments that lead at its start, each on a line, unless these are left
/// out.
#[tactic(auto, using(crate::proofs::PrintedLemmas::is_printed))]
pub fn emit_module(
    alloc: Global,
    source: &Module,
    comments: &MultiThreadedComments,
    options: &EmitOptions,
) -> Result<EmittedSourceText, AllocError>
    ensures text { IfOk result (λ it. IsPrinted (of_module source.now) (kept_comments options.now.remove_comments comments.now) it.text) }
    ensures map { IfOk result (λ it. it.source_map ≡ None) }
{
    let (text, tokens, row) = source.parts();
    let printed = print_with(alloc, text, tokens, &row, kept(comments, options))?;
    Ok(emitted(printed))
}

/// The same of a script.
#[tactic(auto, using(crate::proofs::PrintedLemmas::is_printed))]
pub fn emit_script(
    alloc: Global,
    source: &Script,
    comments: &MultiThreadedComments,
    options: &EmitOptions,
) -> Result<EmittedSourceText, AllocError>
    ensures text { IfOk result (λ it. IsPrinted (of_script source.now) (kept_comments options.now.remove_comments comments.now) it.text) }
    ensures map { IfOk result (λ it. it.source_map ≡ None) }
{
    let (text, tokens, row) = source.parts();
    let printed = print_with(alloc, text, tokens, &row, kept(comments, options))?;
    Ok(emitted(printed))
}
