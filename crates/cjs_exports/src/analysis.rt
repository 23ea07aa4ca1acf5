//! The analysis of a program.

ghost use Rattle.std.specs.Prelude.{◌≡◌, IfOk};
ghost use Rattle.es_lexer.specs.Reads.{ReadsTokens};
ghost use Rattle.es_bound_names.specs.Cuts.{IsCut};
ghost use Rattle.cjs_facts.specs.Facts.{facts_of};
ghost use Rattle.cjs_facts.specs.Exports.{found_in, AreExports};

use crate::names::export_names;
use cjs_facts::Found;
use cjs_table::program_found;
use es_exports::ModuleExportsAndReExports;
use es_program::Program;
use es_token::Token;
use std::alloc::{AllocError, Global};

/// What is found in a program.
#[tactic(auto, unfolding(es_program::specs::Typed::program_at))]
fn found_of_program(alloc: Global, program: &Program) -> Result<Found, AllocError>
    ensures { IfOk result (λ found. found ≡ found_in (facts_of program.now.typed)) }
{
    let (text, tokens, parts) = program.parts();
    tokens_cut(text, tokens);
    let found = program_found(alloc, text, tokens, &parts)?;
    Ok(found)
}

/// The tokens of a text cut it between characters: a law, and nothing to run.
fn tokens_cut(text: &str, tokens: &[Token])
    requires { ReadsTokens text.now tokens.now }
    ensures { IsCut text.now tokens.now }
{}

/// The names that a program exports as a module of CommonJS, and the modules whose names it exports again: both ascending
/// by bytes, each once, without getters that may do something.
pub fn analyze_cjs(
    alloc: Global,
    program: &Program,
) -> Result<ModuleExportsAndReExports, AllocError>
    ensures { IfOk result (λ it. AreExports program.now.typed it.exports it.reexports) }
{
    let found = found_of_program(alloc, program)?;
    let (exports, reexports) = export_names(alloc, found)?;
    Ok(ModuleExportsAndReExports { exports, reexports })
}
