//! The declarations of a program, and their printed text.

ghost use Rattle.std.specs.Prelude.{◌≡◌, None, IfOk, string_bytes};
ghost use Rattle.std.specs.Option.{option_map};
ghost use Rattle.es_changed_printer.specs.Pieces.{printed};
ghost use Rattle.es_program_printer.specs.Printed.{kept_comments};

use base::Text;
use es_changed::{ChangedEntry, ChangedSiblings};
use es_changed_printer::print_changed;
use es_comments::MultiThreadedComments;
use es_program::Program;
use es_program_printer::{EmitOptions, EmittedSourceText};
use es_token::Token;
use es_variables::ScopeIds;
use std::alloc::{AllocError, Global};
use std::marker::Model;

/// The declarations of a program: a changed tree over the text and the tokens of the program, which are shared. What is kept has
/// its ranges and the numbers of its scopes; what is made is at the empty range at 0.
#[derive(Drop)]
pub struct Declarations {
    program: Program,
    numbers: ScopeIds,
    entries: Vec<ChangedEntry>,
}

impl Model for Declarations {
    ghost use Rattle.deno_dts.specs.Kept.{Kept};

    ghost Value = { Kept };

    ghost view = { λ it. record {
      text = it.program.text;
      tokens = it.program.tokens;
      numbers = it.numbers;
      entries = it.entries.items;
    } };
}

impl Declarations {
    /// Of a changed row over the tokens of a program.
    pub fn new(program: Program, numbers: ScopeIds, entries: Vec<ChangedEntry>) -> Declarations
        ensures text { result.text ≡ program.text }
        ensures tokens { result.tokens ≡ program.tokens }
        ensures numbers { result.numbers ≡ numbers }
        ensures entries { result.entries ≡ entries.items }
    {
        Declarations {
            program,
            numbers,
            entries,
        }
    }

    /// The text and the tokens of the program, and the changed row.
    pub fn parts(&self) -> (&str, &[Token], ChangedSiblings<'_>)
        ensures text { result.0.now ≡ self.now.text }
        ensures tokens { result.1.now ≡ self.now.tokens }
        ensures entries { result.2.entries.now ≡ self.now.entries }
    {
        let (text, tokens, _) = self.program.parts();
        let row = ChangedSiblings {
            entries: self.entries.as_slice(),
        };
        (text, tokens, row)
    }

    /// The numbers of scopes, by the tokens of the program.
    pub fn numbers(&self) -> &ScopeIds
        ensures { result.now ≡ self.now.numbers }
    {
        &self.numbers
    }
}

/// The printed text of declarations, without comments.
pub fn print_declarations(alloc: Global, it: &Declarations) -> Result<String, AllocError>
    ensures { IfOk result (λ out. string_bytes out ≡ printed it.now.text it.now.tokens None it.now.entries) }
{
    let (text, tokens, row) = it.parts();
    print_changed(alloc, text, tokens, &row, None)
}

/// The comments, unless they are left out.
fn kept<'a>(
    comments: &'a MultiThreadedComments,
    options: &EmitOptions,
) -> Option<&'a MultiThreadedComments>
    ensures { option_map (λ c. c.now) result ≡ kept_comments options.now.remove_comments comments.now }
{
    if options.remove_comments {
        None
    } else {
        Some(comments)
    }
}

/// The printed text of declarations; before each item the comments that lead at its start, each on a line, unless these are left
/// out. The comments of what is dropped are dropped. No source map is made.
pub fn emit_declarations(
    alloc: Global,
    it: &Declarations,
    comments: &MultiThreadedComments,
    options: &EmitOptions,
) -> Result<EmittedSourceText, AllocError>
    ensures text { IfOk result (λ out. out.text ≡ printed it.now.text it.now.tokens (kept_comments options.now.remove_comments comments.now) it.now.entries) }
    ensures map { IfOk result (λ out. out.source_map ≡ None) }
{
    let (text, tokens, row) = it.parts();
    let printed = print_changed(alloc, text, tokens, &row, kept(comments, options))?;
    Ok(emitted(printed))
}

fn emitted(text: String) -> EmittedSourceText
    ensures text { result.text ≡ string_bytes text }
    ensures map { result.source_map ≡ None }
{
    EmittedSourceText {
        text: Text::from_string(text),
        source_map: None,
    }
}
