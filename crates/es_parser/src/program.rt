//! Whole programs.

ghost use Rattle.std.specs.Prelude.{◌≡◌, Some, IfOk};
ghost use Rattle.es_lexer.specs.Reads.{ReadsTokens};
ghost use Rattle.es_ast.specs.declared.ast.Program.{Program as Typed};
ghost use Rattle.es_lowering.specs.derives.Derives.{Derives};
ghost use Rattle.es_program.specs.Typed.{program_at};
ghost use Rattle.es_parser.specs.Answers.{GivesTree, IsOwn};
ghost use Rattle.es_parser.specs.Made.{HoldsTyped};

use es_program::{Program, SharedTokens};
use es_program_reader::read_program;
use es_syntax::Entry;
use es_tree_sites::tree_sites;
use grammar_theory::{Lang, Mode, SyntaxError};
use source_text::SourceText;
use std::alloc::{AllocError, Global};

/// The tree of a text whose tokens are these. The program shares both.
pub fn parse_tokens(
    alloc: Global,
    lang: Lang,
    mode: Mode,
    text: &SourceText,
    tokens: &SharedTokens,
) -> Result<Program, SyntaxError>
    requires { ReadsTokens text.now tokens.now }
    // What is answered is derived.
    ensures derived { IfOk result (λ program. Derives lang mode text.now tokens.now program.typed) }
    // It is that of this text and these tokens, and its row is their tree.
    ensures own { IfOk result (IsOwn lang text.now tokens.now) }
    // What is derived is answered, unless memory runs out: so `Syntax` comes only where nothing is derived.
    ensures only { (tree : Typed) → Derives lang mode text.now tokens.now tree → GivesTree result tree }
{
    let row = read_program(alloc, lang, mode, tokens.as_slice())?;
    match program_of(alloc, text, tokens, row) {
        Ok(program) => Ok(program),
        Err(_) => Err(SyntaxError::OutOfMemory),
    }
}

/// The program of a row that is a plain tree, with its sites.
fn program_of(
    alloc: Global,
    text: &SourceText,
    tokens: &SharedTokens,
    row: Vec<Entry>,
) -> Result<Program, AllocError>
    requires reads { ReadsTokens text.now tokens.now }
    requires typed { HoldsTyped text.now tokens.now row.items }
    ensures text { IfOk result (λ program. program.text ≡ text.now) }
    ensures tokens { IfOk result (λ program. program.tokens ≡ tokens.now) }
    ensures entries { IfOk result (λ program. program.entries ≡ row.items) }
    ensures typed { IfOk result (λ program. program_at text.now tokens.now row.items ≡ Some program.typed) }
{
    let sites = tree_sites(alloc, text.as_str(), tokens.as_slice(), row.as_slice())?;
    Program::new(alloc, text.copy()?, tokens.copy()?, row, sites)
}
