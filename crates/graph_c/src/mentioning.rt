//! What a source mentions, or why it isn't read.
ghost use Rattle.std.specs.Prelude.{◌≡◌, IfOk};
ghost use Rattle.es_lexer.specs.Reads.{Reads};
ghost use Rattle.graph_c.specs.Finding.{OfBytes, OfText};
ghost use Rattle.graph_c.specs.Mentions.{HasMentions, MentionsOfKind, OfMentions, Allows};
ghost use Rattle.lexical_path.specs.Paths.{texts};
ghost use Rattle.media_type.specs.MediaType.{kind_of};

use crate::finding::{Finding, lexical, start_of};
use crate::media_types::media_type_at;
use crate::text::text_of;
use base::{Items, Text};
use es_lexer::{Lexed, lex_tokens};
use grammar_theory::SyntaxError;
use lexical_path::parts;
use media_type::{MediaType, ModuleKind};
use source_mentions::token_mentions;
use std::alloc::{AllocError, Global};
use std::str;

/// The names that these bytes allow, a line each; none where they are no UTF-8.
pub fn allowed_names(alloc: Global, bytes: &[u8]) -> Result<Items<Text>, AllocError>
    ensures { IfOk result (Allows bytes.now) }
{
    match str::from_utf8(bytes) {
        Ok(text) => copies(alloc, parts(alloc, text, '\n')?.as_slice()),
        Err(_) => Ok(Items::new(alloc)),
    }
}

fn copies(alloc: Global, names: &[&str]) -> Result<Items<Text>, AllocError>
    ensures { IfOk result (λ copies. copies ≡ texts names.now) }
{
    let mut copies = Items::new(alloc);
    for name in names {
        copies.push(Text::from_str(alloc, name)?)?;
    }
    Ok(copies)
}

/// What there is to tell of what a source in these bytes mentions, by the names that are allowed.
pub fn mentions_found(
    alloc: Global,
    allowed: &[Text],
    strict: bool,
    media_type: u32,
    bytes: &[u8],
) -> Result<Finding, AllocError>
    ensures { IfOk result (HasMentions allowed.now strict media_type bytes.now) }
{
    let Some(media_type) = media_type_at(media_type) else {
        return Ok(Finding::NoMediaType);
    };
    of_kind(alloc, allowed, strict, media_type, bytes)
}

fn of_kind(
    alloc: Global,
    allowed: &[Text],
    strict: bool,
    media_type: MediaType,
    bytes: &[u8],
) -> Result<Finding, AllocError>
    ensures { IfOk result (MentionsOfKind allowed.now strict (kind_of media_type) media_type bytes.now) }
{
    match media_type.kind() {
        Some(ModuleKind::Source) => of_bytes(alloc, allowed, strict, media_type, bytes),
        _ => Ok(Finding::NotRead),
    }
}

fn of_bytes(
    alloc: Global,
    allowed: &[Text],
    strict: bool,
    media_type: MediaType,
    bytes: &[u8],
) -> Result<Finding, AllocError>
    ensures { IfOk result (OfBytes (OfText (OfMentions allowed.now strict media_type)) bytes.now) }
{
    match text_of(bytes) {
        Ok(text) => of_text(alloc, allowed, strict, media_type, text),
        Err(why) => Ok(Finding::NoText(why)),
    }
}

fn of_text(
    alloc: Global,
    allowed: &[Text],
    strict: bool,
    media_type: MediaType,
    text: &str,
) -> Result<Finding, AllocError>
    ensures { IfOk result (OfText (OfMentions allowed.now strict media_type) text.now) }
{
    match lex_tokens(alloc, text) {
        Ok(lexed) => of_lexed(alloc, allowed, strict, media_type, text, &lexed),
        Err(error) => lexical(error),
    }
}

fn of_lexed(
    alloc: Global,
    allowed: &[Text],
    strict: bool,
    media_type: MediaType,
    text: &str,
    lexed: &Lexed,
) -> Result<Finding, AllocError>
    requires { Reads text.now lexed.now.tokens lexed.now.comments }
    ensures { IfOk result (OfMentions allowed.now strict media_type text.now lexed.now.tokens lexed.now.comments) }
{
    let tokens = lexed.tokens.as_slice();
    match token_mentions(alloc, media_type, text, tokens, allowed, strict) {
        Ok(found) => Ok(Finding::Mentions(found)),
        Err(SyntaxError::Syntax { token }) => Ok(Finding::Syntax(start_of(text, tokens, token))),
        Err(SyntaxError::OutOfMemory) => Err(AllocError),
    }
}
