//! What there is to tell of a source: its sites, its unread calls, its exports, what it mentions, or its declarations, or why it
//! has none.
ghost use Rattle.std.specs.Prelude.{◌≡◌, ◌++◌, IfOk};
ghost use Rattle.es_lexer.specs.Reads.{Reads};
ghost use Rattle.graph_c.specs.Finding.{IsFinding, OfKind, OfBytes, OfText, OfTree, OfCalls, IsFault};
ghost use Rattle.media_type.specs.MediaType.{kind_of};
ghost use Rattle.source_reading.specs.Read.{references_in as refers};
ghost use Rattle.unread_calls.specs.Unread.{unread_of};

use crate::media_types::media_type_at;
use crate::text::{NoText, text_of};
use base::Items;
use es_exports::ModuleExportsAndReExports;
use es_lexer::{LexError, Lexed, LexicalError, Token, lex_tokens};
use es_site::Site;
use grammar_theory::SyntaxError;
use media_type::{MediaType, ModuleKind};
use source_declarations::SourceDeclarations;
use source_mentions::Mention;
use source_sites::{references_in, token_sites, with_sites};
use std::alloc::{AllocError, Global};
use unread_calls::{UnreadCall, unread_calls};

/// What there is to tell of a source.
#[derive(Drop)]
pub enum Finding {
    /// Its sites, in the order of the text.
    Found(Items<Site>),
    /// Its calls that no edge stands for, in the order of the text.
    Calls(Items<UnreadCall>),
    /// The names that it exports, and the modules whose names it exports again.
    Exports(ModuleExportsAndReExports),
    /// What it mentions, in the order of the text.
    Mentions(Items<Mention>),
    /// Its declarations, and what couldn't be determined.
    Declared(SourceDeclarations),
    /// No tokens read it: the first fault.
    Lexical(LexicalError),
    /// Its tokens have no tree, as is noticed at this byte.
    Syntax(usize),
    /// It is no text.
    NoText(NoText),
    /// Modules of its media type are no sources.
    NotRead,
    NoMediaType,
}

/// What there is to tell of the sites of a source in these bytes.
pub fn finding_of(alloc: Global, media_type: u32, bytes: &[u8]) -> Result<Finding, AllocError>
    ensures { IfOk result (IsFinding media_type bytes.now) }
{
    let Some(media_type) = media_type_at(media_type) else {
        return Ok(Finding::NoMediaType);
    };
    of_kind(alloc, media_type, bytes)
}

fn of_kind(alloc: Global, media_type: MediaType, bytes: &[u8]) -> Result<Finding, AllocError>
    ensures { IfOk result (OfKind (kind_of media_type) media_type bytes.now) }
{
    match media_type.kind() {
        Some(ModuleKind::Source) => sites_of_bytes(alloc, media_type, bytes),
        _ => Ok(Finding::NotRead),
    }
}

fn sites_of_bytes(alloc: Global, media_type: MediaType, bytes: &[u8]) -> Result<Finding, AllocError>
    ensures { IfOk result (OfBytes (OfText (OfTree media_type)) bytes.now) }
{
    match text_of(bytes) {
        Ok(text) => sites_of_text(alloc, media_type, text),
        Err(why) => Ok(Finding::NoText(why)),
    }
}

fn sites_of_text(alloc: Global, media_type: MediaType, text: &str) -> Result<Finding, AllocError>
    ensures { IfOk result (OfText (OfTree media_type) text.now) }
{
    match lex_tokens(alloc, text) {
        Ok(lexed) => sites_of_lexed(alloc, media_type, text, &lexed),
        Err(error) => lexical(error),
    }
}

/// What there is to tell of the unread calls of a source in these bytes.
pub fn calls_in(alloc: Global, bytes: &[u8]) -> Result<Finding, AllocError>
    ensures { IfOk result (OfBytes (OfText OfCalls) bytes.now) }
{
    match text_of(bytes) {
        Ok(text) => calls_of_text(alloc, text),
        Err(why) => Ok(Finding::NoText(why)),
    }
}

fn calls_of_text(alloc: Global, text: &str) -> Result<Finding, AllocError>
    ensures { IfOk result (OfText OfCalls text.now) }
{
    match lex_tokens(alloc, text) {
        Ok(lexed) => calls_of_tokens(alloc, lexed.tokens.as_slice()),
        Err(error) => lexical(error),
    }
}

fn calls_of_tokens(alloc: Global, tokens: &[Token]) -> Result<Finding, AllocError>
    ensures { IfOk result (λ finding. finding ≡ Finding.Calls (unread_of tokens.now)) }
{
    Ok(Finding::Calls(unread_calls(alloc, tokens)?))
}

/// The fault of a text, where memory didn't run out.
pub fn lexical(error: LexError) -> Result<Finding, AllocError>
    ensures { IfOk result (IsFault error) }
{
    match error {
        LexError::Lexical(fault) => Ok(Finding::Lexical(fault)),
        LexError::OutOfMemory => Err(AllocError),
    }
}

fn sites_of_lexed(
    alloc: Global,
    media_type: MediaType,
    text: &str,
    lexed: &Lexed,
) -> Result<Finding, AllocError>
    requires { Reads text.now lexed.now.tokens lexed.now.comments }
    ensures { IfOk result (OfTree media_type text.now lexed.now.tokens lexed.now.comments) }
{
    let tokens = lexed.tokens.as_slice();
    match token_sites(alloc, media_type, text, tokens) {
        Ok(sites) => found_behind_references(alloc, media_type, lexed, sites),
        Err(SyntaxError::Syntax { token }) => Ok(Finding::Syntax(start_of(text, tokens, token))),
        Err(SyntaxError::OutOfMemory) => Err(AllocError),
    }
}

// The sites of reference comments, which precede the first token, and then these.
fn found_behind_references(
    alloc: Global,
    media_type: MediaType,
    lexed: &Lexed,
    sites: Items<Site>,
) -> Result<Finding, AllocError>
    ensures { IfOk result (λ found. found ≡ Finding.Found (refers media_type lexed.now.tokens lexed.now.comments ++ sites)) }
{
    let references = references_in(
        alloc,
        media_type,
        lexed.tokens.as_slice(),
        lexed.comments.as_slice(),
    )?;
    Ok(Finding::Found(with_sites(references, sites)?))
}

/// Where the token begins, or the end of the text.
pub fn start_of(text: &str, tokens: &[Token], token: usize) -> usize {
    match tokens.get(token) {
        Some(token) => token.range().start,
        None => text.len(),
    }
}
