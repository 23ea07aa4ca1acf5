//! The tree that a source is read as.
ghost use Rattle.std.specs.Prelude.{◌≡◌, [], ◌∷◌, IfOk};
ghost use Rattle.grammar_theory.specs.declared.error.Mode.TheVariants as mode;
ghost use Rattle.grammar_theory.specs.Key.{keys_of};
ghost use Rattle.es_grammar.specs.declared.cst.tree.Cst.{Cst as Kept};
ghost use Rattle.es_program_reader.specs.Derived.{GivesTree};
ghost use Rattle.es_program_reader.specs.Program.{IsKept};
ghost use Rattle.source_reading.specs.Tree as spec;
ghost use Rattle.source_sites.specs.Modes.{modes_in};
ghost use Rattle.forms_analyzer.specs.Forms.{IsFirstKept, HoldsFirst};

use es_program_reader::read_program;
use es_syntax::Entry;
use es_token::Token;
use grammar_theory::{Lang, Mode, SyntaxError};
use media_type::MediaType;
use source_sites::{Modes, modes_of};
use std::alloc::Global;

/// The tree of a source of this media type with these tokens, as a row of entries: that in the first of its modes in which
/// there is one in this language.
pub fn read_tree(
    alloc: Global,
    lang: Lang,
    media_type: MediaType,
    tokens: &[Token],
) -> Result<Vec<Entry>, SyntaxError>
    ensures made { IfOk result (λ row. HoldsFirst lang (keys_of tokens.now) (spec.modes_of media_type) row.items) }
    ensures only { (tree : Kept) → IsFirstKept lang (keys_of tokens.now) (spec.modes_of media_type) tree
        → GivesTree result tree }
{
    first_tree(alloc, lang, modes_of(media_type), tokens)
}

fn first_tree(
    alloc: Global,
    lang: Lang,
    modes: Modes,
    tokens: &[Token],
) -> Result<Vec<Entry>, SyntaxError>
    ensures made { IfOk result (λ row. HoldsFirst lang (keys_of tokens.now) (modes_in modes) row.items) }
    ensures only { (tree : Kept) → IsFirstKept lang (keys_of tokens.now) (modes_in modes) tree → GivesTree result tree }
{
    match modes {
        Modes::Only(mode) => only_tree(alloc, lang, mode, tokens),
        Modes::ScriptFirst => script_tree(alloc, lang, tokens),
    }
}

fn only_tree(
    alloc: Global,
    lang: Lang,
    mode: Mode,
    tokens: &[Token],
) -> Result<Vec<Entry>, SyntaxError>
    ensures made { IfOk result (λ row. HoldsFirst lang (keys_of tokens.now) (mode ∷ []) row.items) }
    ensures only { (tree : Kept) → IsFirstKept lang (keys_of tokens.now) (mode ∷ []) tree → GivesTree result tree }
{
    read_program(alloc, lang, mode, tokens)
}

// As a script, and as a module where it is none.
fn script_tree(alloc: Global, lang: Lang, tokens: &[Token]) -> Result<Vec<Entry>, SyntaxError>
    ensures made { IfOk result (λ row. HoldsFirst lang (keys_of tokens.now) (mode.Script ∷ mode.Module ∷ []) row.items) }
    ensures only { (tree : Kept) → IsFirstKept lang (keys_of tokens.now) (mode.Script ∷ mode.Module ∷ []) tree
        → GivesTree result tree }
{
    match read_program(alloc, lang, Mode::Script, tokens) {
        Ok(row) => Ok(row),
        Err(SyntaxError::Syntax { token: _ }) => module_tree(alloc, lang, tokens),
        Err(SyntaxError::OutOfMemory) => Err(SyntaxError::OutOfMemory),
    }
}

// Reads as a module what is no script.
fn module_tree(alloc: Global, lang: Lang, tokens: &[Token]) -> Result<Vec<Entry>, SyntaxError>
    requires { (tree : Kept) → ¬ IsKept lang mode.Script (keys_of tokens.now) tree }
    ensures made { IfOk result (λ row. HoldsFirst lang (keys_of tokens.now) (mode.Script ∷ mode.Module ∷ []) row.items) }
    ensures only { (tree : Kept) → IsFirstKept lang (keys_of tokens.now) (mode.Script ∷ mode.Module ∷ []) tree
        → GivesTree result tree }
{
    read_program(alloc, lang, Mode::Module, tokens)
}
