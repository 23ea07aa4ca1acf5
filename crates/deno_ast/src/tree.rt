//! The tree of a source.
ghost use Rattle.std.specs.Prelude.{◌≡◌, IfOk, [], ◌∷◌, List};
ghost use Rattle.grammar_theory.specs.declared.error.Mode.TheVariants as mode;
ghost use Rattle.es_lexer.specs.Reads.{ReadsTokens};
ghost use Rattle.es_ast.specs.declared.ast.Program.{Program as Typed};
ghost use Rattle.es_lowering.specs.derives.Derives.{Derives};
ghost use Rattle.es_parser.specs.Answers.{GivesTree, IsOwn};
ghost use Rattle.source_reading.specs.Tree.{IsFirstTree, IsTree, language_of as the_language};
ghost use Rattle.source_sites.specs.Modes.{modes_in};

use crate::decls::{has_decl, looks_like_module};
use crate::program_ref::ProgramRef;
use es_parser::parse_tokens;
use es_program::{Program, SharedTokens};
use grammar_theory::{Lang, Mode, SyntaxError};
use media_type::MediaType;
use source_sites::{Modes, language_of, modes_of};
use source_text::SourceText;
use std::alloc::Global;

/// The tree of a source of this media type with these tokens.
pub fn tree_of(
    alloc: Global,
    media_type: MediaType,
    text: &SourceText,
    tokens: &SharedTokens,
) -> Result<Program, SyntaxError>
    requires { ReadsTokens text.now tokens.now }
    ensures made { IfOk result (λ p. IsTree media_type text.now tokens.now p.typed) }
    // It is that of this text and these tokens.
    ensures own { IfOk result (IsOwn (the_language media_type) text.now tokens.now) }
    ensures only { (tree : Typed) → IsTree media_type text.now tokens.now tree → GivesTree result tree }
{
    let lang = language_of(media_type);
    tree_in(alloc, lang, modes_of(media_type), text, tokens)
}

/// The tree of a text with these tokens, in the first of these modes that derives one.
pub fn tree_in(
    alloc: Global,
    lang: Lang,
    modes: Modes,
    text: &SourceText,
    tokens: &SharedTokens,
) -> Result<Program, SyntaxError>
    requires { ReadsTokens text.now tokens.now }
    // What is answered is the tree.
    ensures made { IfOk result (λ p. IsFirstTree lang text.now tokens.now (modes_in modes) p.typed) }
    // It is that of this text and these tokens.
    ensures own { IfOk result (IsOwn lang text.now tokens.now) }
    // The tree is answered, unless memory runs out.
    ensures only { (tree : Typed) → IsFirstTree lang text.now tokens.now (modes_in modes) tree → GivesTree result tree }
{
    match modes {
        Modes::Only(mode) => parse_only(alloc, lang, mode, text, tokens),
        Modes::ScriptFirst => parse_either(alloc, lang, text, tokens),
    }
}

fn parse_only(
    alloc: Global,
    lang: Lang,
    mode: Mode,
    text: &SourceText,
    tokens: &SharedTokens,
) -> Result<Program, SyntaxError>
    requires { ReadsTokens text.now tokens.now }
    ensures made { IfOk result (λ p. IsFirstTree lang text.now tokens.now (mode ∷ []) p.typed) }
    ensures own { IfOk result (IsOwn lang text.now tokens.now) }
    ensures only { (tree : Typed) → IsFirstTree lang text.now tokens.now (mode ∷ []) tree → GivesTree result tree }
{
    parse_tokens(alloc, lang, mode, text, tokens)
}

/// As a script, and where it is none as a module. What looks like a module is read as one first: with an import or an
/// export among its items it is no script.
fn parse_either(
    alloc: Global,
    lang: Lang,
    text: &SourceText,
    tokens: &SharedTokens,
) -> Result<Program, SyntaxError>
    requires { ReadsTokens text.now tokens.now }
    ensures made { IfOk result (λ p. IsFirstTree lang text.now tokens.now (mode.Script ∷ mode.Module ∷ []) p.typed) }
    ensures own { IfOk result (IsOwn lang text.now tokens.now) }
    ensures only { (tree : Typed) → IsFirstTree lang text.now tokens.now (mode.Script ∷ mode.Module ∷ []) tree
        → GivesTree result tree }
{
    if looks_like_module(tokens.as_slice()) {
        module_first(alloc, lang, text, tokens)
    } else {
        script_first(alloc, lang, text, tokens)
    }
}

fn script_first(
    alloc: Global,
    lang: Lang,
    text: &SourceText,
    tokens: &SharedTokens,
) -> Result<Program, SyntaxError>
    requires { ReadsTokens text.now tokens.now }
    ensures made { IfOk result (λ p. IsFirstTree lang text.now tokens.now (mode.Script ∷ mode.Module ∷ []) p.typed) }
    ensures own { IfOk result (IsOwn lang text.now tokens.now) }
    ensures only { (tree : Typed) → IsFirstTree lang text.now tokens.now (mode.Script ∷ mode.Module ∷ []) tree
        → GivesTree result tree }
{
    match parse_tokens(alloc, lang, Mode::Script, text, tokens) {
        Ok(program) => Ok(program),
        Err(SyntaxError::Syntax { token: _ }) => {
            parse_tokens(alloc, lang, Mode::Module, text, tokens)
        }
        Err(SyntaxError::OutOfMemory) => Err(SyntaxError::OutOfMemory),
    }
}

fn module_first(
    alloc: Global,
    lang: Lang,
    text: &SourceText,
    tokens: &SharedTokens,
) -> Result<Program, SyntaxError>
    requires { ReadsTokens text.now tokens.now }
    ensures made { IfOk result (λ p. IsFirstTree lang text.now tokens.now (mode.Script ∷ mode.Module ∷ []) p.typed) }
    ensures own { IfOk result (IsOwn lang text.now tokens.now) }
    ensures only { (tree : Typed) → IsFirstTree lang text.now tokens.now (mode.Script ∷ mode.Module ∷ []) tree
        → GivesTree result tree }
{
    match parse_tokens(alloc, lang, Mode::Module, text, tokens) {
        Ok(program) => script_or(alloc, lang, text, tokens, program),
        Err(SyntaxError::Syntax { token }) => no_module(alloc, lang, text, tokens, token),
        Err(SyntaxError::OutOfMemory) => Err(SyntaxError::OutOfMemory),
    }
}

/// The script, where there is one, else this module.
fn script_or(
    alloc: Global,
    lang: Lang,
    text: &SourceText,
    tokens: &SharedTokens,
    read: Program,
) -> Result<Program, SyntaxError>
    requires reads { ReadsTokens text.now tokens.now }
    requires derived { Derives lang mode.Module text.now tokens.now read.typed }
    requires own { IsOwn lang text.now tokens.now read }
    ensures made { IfOk result (λ p. IsFirstTree lang text.now tokens.now (mode.Script ∷ mode.Module ∷ []) p.typed) }
    ensures own { IfOk result (IsOwn lang text.now tokens.now) }
    ensures only { (tree : Typed) → IsFirstTree lang text.now tokens.now (mode.Script ∷ mode.Module ∷ []) tree
        → GivesTree result tree }
{
    if has_decl(&ProgramRef::of(&read).body()) {
        return Ok(read);
    }
    match parse_tokens(alloc, lang, Mode::Script, text, tokens) {
        Ok(program) => Ok(program),
        Err(SyntaxError::Syntax { token: _ }) => Ok(read),
        Err(SyntaxError::OutOfMemory) => Err(SyntaxError::OutOfMemory),
    }
}

/// The script of what isn't a module, as was noticed at this token; if it isn't a script either, that token is at fault.
fn no_module(
    alloc: Global,
    lang: Lang,
    text: &SourceText,
    tokens: &SharedTokens,
    token: usize,
) -> Result<Program, SyntaxError>
    requires reads { ReadsTokens text.now tokens.now }
    requires none { (tree : Typed) → ¬ Derives lang mode.Module text.now tokens.now tree }
    ensures made { IfOk result (λ p. IsFirstTree lang text.now tokens.now (mode.Script ∷ mode.Module ∷ []) p.typed) }
    ensures own { IfOk result (IsOwn lang text.now tokens.now) }
    ensures only { (tree : Typed) → IsFirstTree lang text.now tokens.now (mode.Script ∷ mode.Module ∷ []) tree
        → GivesTree result tree }
{
    match parse_tokens(alloc, lang, Mode::Script, text, tokens) {
        Ok(program) => Ok(program),
        Err(SyntaxError::Syntax { token: _ }) => Err(SyntaxError::Syntax { token }),
        Err(SyntaxError::OutOfMemory) => Err(SyntaxError::OutOfMemory),
    }
}
