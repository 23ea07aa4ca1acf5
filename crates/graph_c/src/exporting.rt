//! What a source exports, or why it isn't read.
ghost use Rattle.std.specs.Prelude.{IfOk};
ghost use Rattle.es_lexer.specs.Reads.{Reads};
ghost use Rattle.graph_c.specs.Exports.{HasExports, ExportsOfKind, OfExports, OfProgram};
ghost use Rattle.graph_c.specs.Finding.{OfBytes, OfText};
ghost use Rattle.media_type.specs.MediaType.{kind_of};

use crate::finding::{Finding, lexical, start_of};
use crate::media_types::media_type_at;
use crate::text::text_of;
use base::Items;
use cjs_exports::analyze_cjs;
use deno_ast::tree_of;
use es_exports::analyze_es_runtime_exports;
use es_lexer::{Lexed, lex_tokens};
use es_program::{Program, SharedTokens};
use es_token::Comment;
use grammar_theory::SyntaxError;
use media_type::{MediaType, ModuleKind};
use source_text::SourceText;
use std::alloc::{AllocError, Global};

/// What there is to tell of the exports of a source in these bytes: as a module of CommonJS, or at run time as one of
/// ECMAScript.
pub fn exports_found(
    alloc: Global,
    common_js: bool,
    media_type: u32,
    bytes: &[u8],
) -> Result<Finding, AllocError>
    ensures { IfOk result (HasExports common_js media_type bytes.now) }
{
    let Some(media_type) = media_type_at(media_type) else {
        return Ok(Finding::NoMediaType);
    };
    of_kind(alloc, common_js, media_type, bytes)
}

fn of_kind(
    alloc: Global,
    common_js: bool,
    media_type: MediaType,
    bytes: &[u8],
) -> Result<Finding, AllocError>
    ensures { IfOk result (ExportsOfKind common_js (kind_of media_type) media_type bytes.now) }
{
    match media_type.kind() {
        Some(ModuleKind::Source) => of_bytes(alloc, common_js, media_type, bytes),
        _ => Ok(Finding::NotRead),
    }
}

fn of_bytes(
    alloc: Global,
    common_js: bool,
    media_type: MediaType,
    bytes: &[u8],
) -> Result<Finding, AllocError>
    ensures { IfOk result (OfBytes (OfText (OfExports common_js media_type)) bytes.now) }
{
    match text_of(bytes) {
        Ok(text) => of_text(alloc, common_js, media_type, text),
        Err(why) => Ok(Finding::NoText(why)),
    }
}

fn of_text(
    alloc: Global,
    common_js: bool,
    media_type: MediaType,
    text: &str,
) -> Result<Finding, AllocError>
    ensures { IfOk result (OfText (OfExports common_js media_type) text.now) }
{
    match lex_tokens(alloc, text) {
        Ok(lexed) => of_lexed(alloc, common_js, media_type, text, lexed),
        Err(error) => lexical(error),
    }
}

fn of_lexed(
    alloc: Global,
    common_js: bool,
    media_type: MediaType,
    text: &str,
    lexed: Lexed,
) -> Result<Finding, AllocError>
    requires { Reads text.now lexed.tokens lexed.comments }
    ensures { IfOk result (OfExports common_js media_type text.now lexed.tokens lexed.comments) }
{
    let Lexed { tokens, comments } = lexed;
    let source = SourceText::from_str(alloc, text)?;
    let shared = SharedTokens::new(alloc, tokens)?;
    of_tokens(alloc, common_js, media_type, &source, &shared, &comments)
}

fn of_tokens(
    alloc: Global,
    common_js: bool,
    media_type: MediaType,
    text: &SourceText,
    tokens: &SharedTokens,
    comments: &Items<Comment>,
) -> Result<Finding, AllocError>
    requires { Reads text.now tokens.now comments.now }
    ensures { IfOk result (OfExports common_js media_type text.now tokens.now comments.now) }
{
    match tree_of(alloc, media_type, text, tokens) {
        Ok(program) => of_program(alloc, common_js, &program),
        Err(SyntaxError::Syntax { token }) => Ok(Finding::Syntax(start_of(
            text.as_str(),
            tokens.as_slice(),
            token,
        ))),
        Err(SyntaxError::OutOfMemory) => Err(AllocError),
    }
}

#[tactic(auto, using(crate::proofs::ExportLemmas::as_common_js, crate::proofs::ExportLemmas::at_run_time))]
fn of_program(alloc: Global, common_js: bool, program: &Program) -> Result<Finding, AllocError>
    ensures { IfOk result (OfProgram common_js program.now.typed) }
{
    if common_js {
        return Ok(Finding::Exports(analyze_cjs(alloc, program)?));
    }
    Ok(Finding::Exports(analyze_es_runtime_exports(alloc, program)?))
}
