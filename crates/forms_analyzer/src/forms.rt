//! The sites of a text, and those of further forms.
ghost use Rattle.std.specs.Prelude.{◌≡◌, ℕ, IfOk};
ghost use Rattle.std.specs.Result.{IfErr};
ghost use Rattle.url.specs.Parts.{serialize};
ghost use Rattle.base.specs.declared.range.Range.{Range as Place};
ghost use Rattle.es_lexer.specs.Reads.{Reads};
ghost use Rattle.grammar_theory.specs.Key.{keys_of};
ghost use Rattle.parse_diagnostic.specs.Diagnosis.{IsDiagnosis};
ghost use Rattle.source_reading.specs.Tree as spec;
ghost use Rattle.source_reading.specs.Read.{HasSitesIn};
ghost use Rattle.source_reading.specs.Fault.{IsFaultIn, Refuses};
ghost use Rattle.forms_analyzer.specs.Forms.{HoldsFirst, HasForms};

use crate::tree::read_tree;
use base::Items;
use es_forms::{Forms, form_sites};
use es_lexer::lex_tokens;
use es_site::Site;
use es_syntax::{Entry, Siblings};
use es_token::{Comment, Lexed, Token};
use es_tree_sites::tree_sites;
use grammar_theory::{Lang, SyntaxError};
use media_type::MediaType;
use parse_diagnostic::{ParseFault, SyntaxErrorKind};
use source_sites::{lexical_fault, references_in, syntax_fault, with_sites};
use source_text::SourceText;
use std::alloc::{AllocError, Global};
use url::Url;

/// The sites of a text as it is, which has no byte order mark, in this language, and after them those of the
/// forms that are chosen. The media type decides whether it may be a module or a script, and whether its comments refer.
pub fn read_forms(
    alloc: Global,
    specifier: &Url,
    text: &SourceText,
    chosen: Forms,
    lang: Lang,
    media_type: MediaType,
) -> Result<Items<Site>, ParseFault>
    // What is answered are its sites and those of the forms.
    ensures found { IfOk result (HasForms chosen lang media_type text.now) }
    // A refusal, but for memory, is its fault.
    ensures refused { IfErr result (Refuses (IsFaultIn (serialize specifier.now) lang (spec.modes_of media_type) text.now)) }
{
    match lex_tokens(alloc, text.as_str()) {
        Ok(lexed) => forms_of_lexed(alloc, specifier, text, chosen, lang, media_type, lexed),
        Err(error) => Err(lexical_fault(alloc, specifier, text, error)),
    }
}

fn forms_of_lexed(
    alloc: Global,
    specifier: &Url,
    text: &SourceText,
    chosen: Forms,
    lang: Lang,
    media_type: MediaType,
    lexed: Lexed,
) -> Result<Items<Site>, ParseFault>
    requires { Reads text.now lexed.tokens lexed.comments }
    ensures found { IfOk result (HasForms chosen lang media_type text.now) }
    ensures refused { IfErr result (Refuses (IsFaultIn (serialize specifier.now) lang (spec.modes_of media_type) text.now)) }
{
    let tokens = lexed.tokens.as_slice();
    match read_tree(alloc, lang, media_type, tokens) {
        Ok(row) => forms_of_row(
            alloc,
            chosen,
            lang,
            media_type,
            text,
            &lexed,
            row.as_slice(),
        ),
        Err(error) => Err(tokens_fault(alloc, specifier, text, tokens, error)),
    }
}

// That the tokens have no tree, or that memory ran out.
fn tokens_fault(
    alloc: Global,
    specifier: &Url,
    text: &SourceText,
    tokens: &[Token],
    error: SyntaxError,
) -> ParseFault
    ensures { Refuses (λ d. (token : ℕ) × (error ≡ SyntaxError.Syntax token)
        × ((range : Place) × IsDiagnosis text.now (serialize specifier.now) SyntaxErrorKind.Syntax range d)) result }
{
    match error {
        SyntaxError::Syntax { token } => syntax_fault(alloc, specifier, text, tokens, token),
        SyntaxError::OutOfMemory => ParseFault::OutOfMemory,
    }
}

fn forms_of_row(
    alloc: Global,
    chosen: Forms,
    lang: Lang,
    media_type: MediaType,
    text: &SourceText,
    lexed: &Lexed,
    row: &[Entry],
) -> Result<Items<Site>, ParseFault>
    requires reads { Reads text.now lexed.now.tokens lexed.now.comments }
    requires holds { HoldsFirst lang (keys_of lexed.now.tokens) (spec.modes_of media_type) row.now }
    ensures found { IfOk result (HasForms chosen lang media_type text.now) }
    ensures memory { IfErr result (λ e. e ≡ ParseFault.OutOfMemory) }
{
    let tokens = lexed.tokens.as_slice();
    let comments = lexed.comments.as_slice();
    match all_forms(
        alloc,
        chosen,
        lang,
        media_type,
        text.as_str(),
        tokens,
        comments,
        row,
    ) {
        Ok(all) => Ok(all),
        Err(_) => Err(ParseFault::OutOfMemory),
    }
}

// The sites of the tree, and after them those of the forms.
fn all_forms(
    alloc: Global,
    chosen: Forms,
    lang: Lang,
    media_type: MediaType,
    text: &str,
    tokens: &[Token],
    comments: &[Comment],
    row: &[Entry],
) -> Result<Items<Site>, AllocError>
    requires reads { Reads text.now tokens.now comments.now }
    requires holds { HoldsFirst lang (keys_of tokens.now) (spec.modes_of media_type) row.now }
    ensures { IfOk result (HasForms chosen lang media_type text.now) }
{
    let sites = sites_of_row(alloc, lang, media_type, text, tokens, comments, row)?;
    let more = form_sites(alloc, text, tokens, &Siblings { entries: row }, chosen)?;
    with_sites(sites, more)
}

// Reference comments come first.
fn sites_of_row(
    alloc: Global,
    lang: Lang,
    media_type: MediaType,
    text: &str,
    tokens: &[Token],
    comments: &[Comment],
    row: &[Entry],
) -> Result<Items<Site>, AllocError>
    requires reads { Reads text.now tokens.now comments.now }
    requires holds { HoldsFirst lang (keys_of tokens.now) (spec.modes_of media_type) row.now }
    ensures { IfOk result (HasSitesIn lang media_type text.now) }
{
    let references = references_in(alloc, media_type, tokens, comments)?;
    let found = tree_sites(alloc, text, tokens, row)?;
    with_sites(references, found)
}
