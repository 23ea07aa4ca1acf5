//! The tree of a source in the first mode that gives one, and what it mentions.

ghost use Rattle.std.specs.Prelude.{◌≡◌, [], ◌∷◌, IfOk};
ghost use Rattle.std.specs.Result.{IfErr};
ghost use Rattle.es_lexer.specs.Reads.{ReadsTokens};
ghost use Rattle.grammar_theory.specs.Key.{keys_of};
ghost use Rattle.grammar_theory.specs.declared.error.Mode.TheVariants as mode;
ghost use Rattle.es_grammar.specs.declared.cst.tree.Cst.{Cst as Kept};
ghost use Rattle.es_syntax.specs.Trees.{first_tree, trees};
ghost use Rattle.es_program_reader.specs.Program.{IsKept};
ghost use Rattle.es_mentions.specs.Mentions.{mentions as mentioned};
ghost use Rattle.source_mentions.specs.Answers.{IsFirst, IsTreeOf, AreOf, AreMentions, Gives};
ghost use Rattle.source_sites.specs.Modes.{modes_in};

use base::{Items, Text};
use es_mentions::{Mention, mentions};
use es_program_reader::read_program;
use es_syntax::{Entry, Siblings};
use es_token::Token;
use grammar_theory::{Lang, Mode, SyntaxError};
use media_type::MediaType;
use source_sites::{Modes, language_of, modes_of};
use std::alloc::Global;

/// What is asked: a text, its tokens, the names that are allowed, and whether more is listed.
#[derive(Clone, Copy)]
pub struct Asked<'a> {
    pub text: &'a str,
    pub tokens: &'a [Token],
    pub allowed: &'a [Text],
    pub strict: bool,
}

/// What the tree of a source of this media type with these tokens mentions, in the order of the text.
pub fn token_mentions(
    alloc: Global,
    media_type: MediaType,
    text: &str,
    tokens: &[Token],
    allowed: &[Text],
    strict: bool,
) -> Result<Items<Mention>, SyntaxError>
    requires { ReadsTokens text.now tokens.now }
    // What is answered is what the tree mentions.
    ensures made { IfOk result (AreMentions media_type text.now tokens.now allowed.now strict) }
    // Where there is a tree, what it mentions is answered, unless memory runs out.
    ensures only { (tree : Kept) → IsTreeOf media_type tokens.now tree
        → Gives result (mentioned text.now tokens.now allowed.now strict tree) }
{
    let asked = Asked {
        text,
        tokens,
        allowed,
        strict,
    };
    in_modes(alloc, language_of(media_type), modes_of(media_type), &asked)
}

fn in_modes(
    alloc: Global,
    lang: Lang,
    modes: Modes,
    asked: &Asked<'_>,
) -> Result<Items<Mention>, SyntaxError>
    requires reads { ReadsTokens asked.now.text.now asked.now.tokens.now }
    ensures made { IfOk result (AreOf (IsFirst lang (keys_of asked.now.tokens.now) (modes_in modes)) asked.now.text.now asked.now.tokens.now asked.now.allowed.now asked.now.strict) }
    ensures only { (tree : Kept) → IsFirst lang (keys_of asked.now.tokens.now) (modes_in modes) tree
        → Gives result (mentioned asked.now.text.now asked.now.tokens.now asked.now.allowed.now asked.now.strict tree) }
{
    match modes {
        Modes::Only(mode) => in_one(alloc, lang, mode, asked),
        Modes::ScriptFirst => in_either(alloc, lang, asked),
    }
}

fn in_one(
    alloc: Global,
    lang: Lang,
    mode: Mode,
    asked: &Asked<'_>,
) -> Result<Items<Mention>, SyntaxError>
    requires reads { ReadsTokens asked.now.text.now asked.now.tokens.now }
    ensures made { IfOk result (AreOf (IsFirst lang (keys_of asked.now.tokens.now) (mode ∷ [])) asked.now.text.now asked.now.tokens.now asked.now.allowed.now asked.now.strict) }
    ensures only { (tree : Kept) → IsFirst lang (keys_of asked.now.tokens.now) (mode ∷ []) tree
        → Gives result (mentioned asked.now.text.now asked.now.tokens.now asked.now.allowed.now asked.now.strict tree) }
{
    in_mode(alloc, lang, mode, asked)
}

/// As a script, and as a module where it is none.
fn in_either(alloc: Global, lang: Lang, asked: &Asked<'_>) -> Result<Items<Mention>, SyntaxError>
    requires reads { ReadsTokens asked.now.text.now asked.now.tokens.now }
    ensures made { IfOk result (AreOf (IsFirst lang (keys_of asked.now.tokens.now) (mode.Script ∷ mode.Module ∷ [])) asked.now.text.now asked.now.tokens.now asked.now.allowed.now asked.now.strict) }
    ensures only { (tree : Kept) → IsFirst lang (keys_of asked.now.tokens.now) (mode.Script ∷ mode.Module ∷ []) tree
        → Gives result (mentioned asked.now.text.now asked.now.tokens.now asked.now.allowed.now asked.now.strict tree) }
{
    match in_mode(alloc, lang, Mode::Script, asked) {
        Ok(found) => Ok(found),
        Err(SyntaxError::Syntax { token: _ }) => as_module(alloc, lang, asked),
        Err(SyntaxError::OutOfMemory) => Err(SyntaxError::OutOfMemory),
    }
}

/// What is no script.
fn as_module(alloc: Global, lang: Lang, asked: &Asked<'_>) -> Result<Items<Mention>, SyntaxError>
    requires reads { ReadsTokens asked.now.text.now asked.now.tokens.now }
    requires none { (tree : Kept) → ¬ IsKept lang mode.Script (keys_of asked.now.tokens.now) tree }
    ensures made { IfOk result (AreOf (IsFirst lang (keys_of asked.now.tokens.now) (mode.Script ∷ mode.Module ∷ [])) asked.now.text.now asked.now.tokens.now asked.now.allowed.now asked.now.strict) }
    ensures only { (tree : Kept) → IsFirst lang (keys_of asked.now.tokens.now) (mode.Script ∷ mode.Module ∷ []) tree
        → Gives result (mentioned asked.now.text.now asked.now.tokens.now asked.now.allowed.now asked.now.strict tree) }
{
    in_one(alloc, lang, Mode::Module, asked)
}

/// What the tree in one mode mentions.
fn in_mode(
    alloc: Global,
    lang: Lang,
    mode: Mode,
    asked: &Asked<'_>,
) -> Result<Items<Mention>, SyntaxError>
    requires reads { ReadsTokens asked.now.text.now asked.now.tokens.now }
    ensures made { IfOk result (AreOf (IsKept lang mode (keys_of asked.now.tokens.now)) asked.now.text.now asked.now.tokens.now asked.now.allowed.now asked.now.strict) }
    ensures only { (tree : Kept) → IsKept lang mode (keys_of asked.now.tokens.now) tree
        → Gives result (mentioned asked.now.text.now asked.now.tokens.now asked.now.allowed.now asked.now.strict tree) }
{
    match read_program(alloc, lang, mode, asked.tokens) {
        Ok(row) => of_row(alloc, asked, row.as_slice()),
        Err(error) => Err(error),
    }
}

/// What the first tree of a row mentions.
fn of_row(
    alloc: Global,
    asked: &Asked<'_>,
    entries: &[Entry],
) -> Result<Items<Mention>, SyntaxError>
    requires reads { ReadsTokens asked.now.text.now asked.now.tokens.now }
    ensures found { IfOk result (λ found. found ≡ mentioned asked.now.text.now asked.now.tokens.now asked.now.allowed.now asked.now.strict (first_tree (trees entries.now))) }
    ensures memory { IfErr result (λ e. e ≡ SyntaxError.OutOfMemory) }
{
    match mentions(
        alloc,
        asked.text,
        asked.tokens,
        &Siblings { entries },
        asked.allowed,
        asked.strict,
    ) {
        Ok(found) => Ok(found),
        Err(_) => Err(SyntaxError::OutOfMemory),
    }
}
