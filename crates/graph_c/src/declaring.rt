//! The declarations of a source, or why it isn't read.
ghost use Rattle.std.specs.Prelude.{IfOk};
ghost use Rattle.es_lexer.specs.Reads.{Reads};
ghost use Rattle.graph_c.specs.Declarations.{HasDeclarations, DeclarationsOfKind, OfDeclarations};
ghost use Rattle.graph_c.specs.Finding.{OfBytes, OfText};
ghost use Rattle.media_type.specs.MediaType.{kind_of};

use crate::finding::{Finding, lexical, start_of};
use crate::media_types::media_type_at;
use crate::text::text_of;
use base::Items;
use es_lexer::{Lexed, lex_tokens};
use es_program::SharedTokens;
use es_token::Comment;
use grammar_theory::SyntaxError;
use media_type::{MediaType, ModuleKind};
use source_declarations::token_declarations;
use source_text::SourceText;
use std::alloc::{AllocError, Global};

/// What there is to tell of the declarations of a source in these bytes.
pub fn declarations_found(
    alloc: Global,
    with_comments: bool,
    media_type: u32,
    bytes: &[u8],
) -> Result<Finding, AllocError>
    ensures { IfOk result (HasDeclarations with_comments media_type bytes.now) }
{
    let Some(media_type) = media_type_at(media_type) else {
        return Ok(Finding::NoMediaType);
    };
    of_kind(alloc, with_comments, media_type, bytes)
}

fn of_kind(
    alloc: Global,
    with_comments: bool,
    media_type: MediaType,
    bytes: &[u8],
) -> Result<Finding, AllocError>
    ensures { IfOk result (DeclarationsOfKind with_comments (kind_of media_type) media_type bytes.now) }
{
    match media_type.kind() {
        Some(ModuleKind::Source) => of_bytes(alloc, with_comments, media_type, bytes),
        _ => Ok(Finding::NotRead),
    }
}

fn of_bytes(
    alloc: Global,
    with_comments: bool,
    media_type: MediaType,
    bytes: &[u8],
) -> Result<Finding, AllocError>
    ensures { IfOk result (OfBytes (OfText (OfDeclarations with_comments media_type)) bytes.now) }
{
    match text_of(bytes) {
        Ok(text) => of_text(alloc, with_comments, media_type, text),
        Err(why) => Ok(Finding::NoText(why)),
    }
}

fn of_text(
    alloc: Global,
    with_comments: bool,
    media_type: MediaType,
    text: &str,
) -> Result<Finding, AllocError>
    ensures { IfOk result (OfText (OfDeclarations with_comments media_type) text.now) }
{
    match lex_tokens(alloc, text) {
        Ok(lexed) => of_lexed(alloc, with_comments, media_type, text, lexed),
        Err(error) => lexical(error),
    }
}

fn of_lexed(
    alloc: Global,
    with_comments: bool,
    media_type: MediaType,
    text: &str,
    lexed: Lexed,
) -> Result<Finding, AllocError>
    requires { Reads text.now lexed.tokens lexed.comments }
    ensures { IfOk result (OfDeclarations with_comments media_type text.now lexed.tokens lexed.comments) }
{
    let Lexed { tokens, comments } = lexed;
    let source = SourceText::from_str(alloc, text)?;
    let shared = SharedTokens::new(alloc, tokens)?;
    of_tokens(
        alloc,
        with_comments,
        media_type,
        &source,
        &shared,
        &comments,
    )
}

fn of_tokens(
    alloc: Global,
    with_comments: bool,
    media_type: MediaType,
    text: &SourceText,
    tokens: &SharedTokens,
    comments: &Items<Comment>,
) -> Result<Finding, AllocError>
    requires { Reads text.now tokens.now comments.now }
    ensures { IfOk result (OfDeclarations with_comments media_type text.now tokens.now comments.now) }
{
    match token_declarations(
        alloc,
        media_type,
        text,
        tokens,
        comments.as_slice(),
        with_comments,
    ) {
        Ok(it) => Ok(Finding::Declared(it)),
        Err(SyntaxError::Syntax { token }) => Ok(Finding::Syntax(start_of(
            text.as_str(),
            tokens.as_slice(),
            token,
        ))),
        Err(SyntaxError::OutOfMemory) => Err(AllocError),
    }
}
