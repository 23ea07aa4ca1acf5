//! The sites of a text, or of its tokens.
ghost use Rattle.std.specs.Prelude.{◌≡◌, ℕ, [], ◌∷◌, ◌++◌, IfOk};
ghost use Rattle.std.specs.List.{flat_map};
ghost use Rattle.std.specs.Result.{IfErr};
ghost use Rattle.url.specs.Parts.{serialize};
ghost use Rattle.base.specs.declared.range.Range.{Range as Place};
ghost use Rattle.es_lexer.specs.Reads.{Reads, ReadsTokens};
ghost use Rattle.grammar_theory.specs.declared.error.Mode.TheVariants as mode;
ghost use Rattle.es_ast.specs.declared.ast.Program.{Program as Typed};
ghost use Rattle.es_lowering.specs.derives.Derives.{Derives};
ghost use Rattle.es_syntax.specs.Trees.{trees};
ghost use Rattle.es_law_sites.specs.plain.Own.{plain_sites};
ghost use Rattle.parse_diagnostic.specs.Diagnosis.{IsDiagnosis};
ghost use Rattle.source_reading.specs.Tree as spec;
ghost use Rattle.source_reading.specs.Tree.{IsFirstTree, IsTree};
ghost use Rattle.source_reading.specs.Read.{references_in as refers, HasSites, HasSitesIn};
ghost use Rattle.source_reading.specs.Fault.{IsFaultIn, IsFaultAt, Refuses};
ghost use Rattle.source_sites.specs.Answers.{AreOf, AreSitesOf, AreSitesIn, GivesSites};
ghost use Rattle.source_sites.specs.Modes.{modes_in};

use crate::fault::{lexical_fault, syntax_fault};
use crate::modes::{Modes, language_of, modes_of};
use crate::references::{references_in, with_sites};
use base::Items;
use es_lexer::lex_tokens;
use es_program_reader::read_program;
use es_site::Site;
use es_syntax::Entry;
use es_token::{Lexed, Token};
use es_tree_sites::tree_sites;
use grammar_theory::{Lang, Mode, SyntaxError};
use media_type::MediaType;
use parse_diagnostic::{ParseFault, SyntaxErrorKind};
use source_text::SourceText;
use std::alloc::{AllocError, Global};
use url::Url;

/// The sites of a text as it is, which has no byte order mark. Its lines aren't found, and its comments aren't kept.
pub fn read_sites(
    alloc: Global,
    specifier: &Url,
    text: &SourceText,
    media_type: MediaType,
) -> Result<Items<Site>, ParseFault>
    // What is answered are its sites.
    ensures found { IfOk result (HasSites media_type text.now) }
    // A refusal, but for memory, is its fault.
    ensures refused { IfErr result (Refuses (IsFaultAt (serialize specifier.now) media_type text.now)) }
{
    let lang = language_of(media_type);
    read_sites_in(alloc, specifier, text, lang, media_type)
}

/// The same in a language that the caller names. The media type decides whether it may be a module or a script, and whether
/// its comments refer.
pub fn read_sites_in(
    alloc: Global,
    specifier: &Url,
    text: &SourceText,
    lang: Lang,
    media_type: MediaType,
) -> Result<Items<Site>, ParseFault>
    // What is answered are its sites in that language.
    ensures found { IfOk result (HasSitesIn lang media_type text.now) }
    // A refusal, but for memory, is its fault.
    ensures refused { IfErr result (Refuses (IsFaultIn (serialize specifier.now) lang (spec.modes_of media_type) text.now)) }
{
    match lex_tokens(alloc, text.as_str()) {
        Ok(lexed) => sites_of_lexed(alloc, specifier, text, lang, media_type, lexed),
        Err(error) => Err(lexical_fault(alloc, specifier, text, error)),
    }
}

fn sites_of_lexed(
    alloc: Global,
    specifier: &Url,
    text: &SourceText,
    lang: Lang,
    media_type: MediaType,
    lexed: Lexed,
) -> Result<Items<Site>, ParseFault>
    requires { Reads text.now lexed.tokens lexed.comments }
    ensures found { IfOk result (HasSitesIn lang media_type text.now) }
    ensures refused { IfErr result (Refuses (IsFaultIn (serialize specifier.now) lang (spec.modes_of media_type) text.now)) }
{
    let tokens = lexed.tokens.as_slice();
    match token_sites_in(alloc, lang, media_type, text.as_str(), tokens) {
        Ok(found) => all_sites(alloc, media_type, &lexed, found),
        Err(error) => Err(tokens_fault(alloc, specifier, text, tokens, error)),
    }
}

// Reference comments come first.
fn all_sites(
    alloc: Global,
    media_type: MediaType,
    lexed: &Lexed,
    found: Items<Site>,
) -> Result<Items<Site>, ParseFault>
    ensures both { IfOk result (λ all. all ≡ refers media_type lexed.now.tokens lexed.now.comments ++ found) }
    ensures memory { IfErr result (λ e. e ≡ ParseFault.OutOfMemory) }
{
    match behind_references(alloc, media_type, lexed, found) {
        Ok(all) => Ok(all),
        Err(_) => Err(ParseFault::OutOfMemory),
    }
}

fn behind_references(
    alloc: Global,
    media_type: MediaType,
    lexed: &Lexed,
    found: Items<Site>,
) -> Result<Items<Site>, AllocError>
    ensures { IfOk result (λ all. all ≡ refers media_type lexed.now.tokens lexed.now.comments ++ found) }
{
    let references = references_in(
        alloc,
        media_type,
        lexed.tokens.as_slice(),
        lexed.comments.as_slice(),
    )?;
    with_sites(references, found)
}

// That the tokens have no tree, or that memory ran out.
fn tokens_fault(
    alloc: Global,
    specifier: &Url,
    text: &SourceText,
    tokens: &[Token],
    error: SyntaxError,
) -> ParseFault
    ensures { Refuses (λ d. (token : ℕ) × (error ≡ SyntaxError.Syntax token)
        × ((range : Place) × IsDiagnosis text.now (serialize specifier.now) SyntaxErrorKind.Syntax range d)) result }
{
    match error {
        SyntaxError::Syntax { token } => syntax_fault(alloc, specifier, text, tokens, token),
        SyntaxError::OutOfMemory => ParseFault::OutOfMemory,
    }
}

/// The sites of the tree of a source of this media type with these tokens. Reference comments aren't among them.
pub fn token_sites(
    alloc: Global,
    media_type: MediaType,
    text: &str,
    tokens: &[Token],
) -> Result<Items<Site>, SyntaxError>
    requires { ReadsTokens text.now tokens.now }
    // What is answered are the sites of the tree.
    ensures made { IfOk result (AreSitesOf media_type text.now tokens.now) }
    // Where there is a tree, its sites are answered, unless memory runs out.
    ensures only { (tree : Typed) → IsTree media_type text.now tokens.now tree → GivesSites result tree }
{
    let lang = language_of(media_type);
    token_sites_in(alloc, lang, media_type, text, tokens)
}

/// The same in a language that the caller names.
pub fn token_sites_in(
    alloc: Global,
    lang: Lang,
    media_type: MediaType,
    text: &str,
    tokens: &[Token],
) -> Result<Items<Site>, SyntaxError>
    requires { ReadsTokens text.now tokens.now }
    // What is answered are the sites of the tree.
    ensures made { IfOk result (AreSitesIn lang media_type text.now tokens.now) }
    // Where there is a tree, its sites are answered, unless memory runs out.
    ensures only { (tree : Typed) → IsFirstTree lang text.now tokens.now (spec.modes_of media_type) tree → GivesSites result tree }
{
    sites_in(alloc, lang, modes_of(media_type), text, tokens)
}

// The sites of the tree in the first of these modes that derives one.
fn sites_in(
    alloc: Global,
    lang: Lang,
    modes: Modes,
    text: &str,
    tokens: &[Token],
) -> Result<Items<Site>, SyntaxError>
    requires { ReadsTokens text.now tokens.now }
    ensures made { IfOk result (AreOf (IsFirstTree lang text.now tokens.now (modes_in modes))) }
    ensures only { (tree : Typed) → IsFirstTree lang text.now tokens.now (modes_in modes) tree → GivesSites result tree }
{
    match modes {
        Modes::Only(mode) => only_sites(alloc, lang, mode, text, tokens),
        Modes::ScriptFirst => either_sites(alloc, lang, text, tokens),
    }
}

fn only_sites(
    alloc: Global,
    lang: Lang,
    mode: Mode,
    text: &str,
    tokens: &[Token],
) -> Result<Items<Site>, SyntaxError>
    requires { ReadsTokens text.now tokens.now }
    ensures made { IfOk result (AreOf (IsFirstTree lang text.now tokens.now (mode ∷ []))) }
    ensures only { (tree : Typed) → IsFirstTree lang text.now tokens.now (mode ∷ []) tree → GivesSites result tree }
{
    mode_sites(alloc, lang, mode, text, tokens)
}

// As a module, and as a script where it is none: what is both has the same sites.
fn either_sites(
    alloc: Global,
    lang: Lang,
    text: &str,
    tokens: &[Token],
) -> Result<Items<Site>, SyntaxError>
    requires { ReadsTokens text.now tokens.now }
    ensures made { IfOk result (AreOf (IsFirstTree lang text.now tokens.now (mode.Script ∷ mode.Module ∷ []))) }
    ensures only { (tree : Typed) → IsFirstTree lang text.now tokens.now (mode.Script ∷ mode.Module ∷ []) tree
        → GivesSites result tree }
{
    match mode_sites(alloc, lang, Mode::Module, text, tokens) {
        Ok(found) => Ok(found),
        Err(SyntaxError::Syntax { token }) => script_sites(alloc, lang, text, tokens, token),
        Err(SyntaxError::OutOfMemory) => Err(SyntaxError::OutOfMemory),
    }
}

// Reads as a script what isn't a module, as was noticed at this token; if it isn't a script either, that token is at fault.
fn script_sites(
    alloc: Global,
    lang: Lang,
    text: &str,
    tokens: &[Token],
    token: usize,
) -> Result<Items<Site>, SyntaxError>
    requires reads { ReadsTokens text.now tokens.now }
    requires none { (tree : Typed) → ¬ Derives lang mode.Module text.now tokens.now tree }
    ensures made { IfOk result (AreOf (IsFirstTree lang text.now tokens.now (mode.Script ∷ mode.Module ∷ []))) }
    ensures only { (tree : Typed) → IsFirstTree lang text.now tokens.now (mode.Script ∷ mode.Module ∷ []) tree
        → GivesSites result tree }
{
    match mode_sites(alloc, lang, Mode::Script, text, tokens) {
        Ok(found) => Ok(found),
        Err(SyntaxError::Syntax { token: _ }) => Err(SyntaxError::Syntax { token }),
        Err(SyntaxError::OutOfMemory) => Err(SyntaxError::OutOfMemory),
    }
}

// The sites of the tree that is derived in one mode.
fn mode_sites(
    alloc: Global,
    lang: Lang,
    mode: Mode,
    text: &str,
    tokens: &[Token],
) -> Result<Items<Site>, SyntaxError>
    requires { ReadsTokens text.now tokens.now }
    ensures made { IfOk result (AreOf (Derives lang mode text.now tokens.now)) }
    ensures only { (tree : Typed) → Derives lang mode text.now tokens.now tree → GivesSites result tree }
{
    match read_program(alloc, lang, mode, tokens) {
        Ok(row) => kept_sites(alloc, text, tokens, row.as_slice()),
        Err(error) => Err(error),
    }
}

// The sites of what is kept of a plain tree, in a row of entries.
fn kept_sites(
    alloc: Global,
    text: &str,
    tokens: &[Token],
    row: &[Entry],
) -> Result<Items<Site>, SyntaxError>
    requires { ReadsTokens text.now tokens.now }
    ensures found { IfOk result (λ found. found ≡ flat_map (plain_sites text.now tokens.now) (trees row.now)) }
    ensures memory { IfErr result (λ e. e ≡ SyntaxError.OutOfMemory) }
{
    match tree_sites(alloc, text, tokens, row) {
        Ok(found) => Ok(found),
        Err(_) => Err(SyntaxError::OutOfMemory),
    }
}
