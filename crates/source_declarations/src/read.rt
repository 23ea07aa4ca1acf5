//! The tree of a source in the first mode that gives one, and its declarations.

ghost use Rattle.std.specs.Prelude.{◌≡◌, IfOk, MatchOption, not};
ghost use Rattle.es_ast.specs.declared.ast.Program.{Program as Typed};
ghost use Rattle.es_lexer.specs.Reads.{Reads};
ghost use Rattle.source_reading.specs.Tree.{IsTree};
ghost use Rattle.es_changed_printer.specs.Pieces.{printed};
ghost use Rattle.es_program_printer.specs.Printed.{kept_comments};
ghost use Rattle.source_declarations.specs.Answers.{AreOf, AreDeclarations, GivesOf, HasDeclarations, IsNoProgram};
ghost use Rattle.source_declarations.specs.Steps.{Answers};

use base::{Items, Text};
use deno_ast::tree_of;
use deno_dts::{Declarations, Declared, Found, ModulePublicRanges, declare, emit_declarations};
use es_comments::{MultiThreadedComments, comments_of};
use es_lexer::{LexError, Lexed, lex_tokens};
use es_program::{Program, SharedTokens};
use es_program_printer::{EmitOptions, SourceMapOption};
use es_token::Comment;
use es_variables::ScopeIds;
use grammar_theory::SyntaxError;
use media_type::MediaType;
use source_text::SourceText;
use std::alloc::{AllocError, Global};

/// The printed declarations of a source, and what couldn't be determined, in the order in which it was found.
#[derive(Debug, Drop)]
pub struct SourceDeclarations {
    pub text: Text,
    pub found: Items<Found>,
}

/// The declarations of the tree of a source of this media type with these tokens and comments: with the comments before their
/// items, where these are asked for.
pub fn token_declarations(
    alloc: Global,
    media_type: MediaType,
    text: &SourceText,
    tokens: &SharedTokens,
    comments: &[Comment],
    with_comments: bool,
) -> Result<SourceDeclarations, SyntaxError>
    requires { Reads text.now tokens.now comments.now }
    // What is answered are the declarations of the tree.
    ensures made { IfOk result (AreDeclarations media_type text.now tokens.now comments.now with_comments) }
    // Where there is a tree, its declarations are answered, unless memory runs out.
    ensures only { (tree : Typed) → IsTree media_type text.now tokens.now tree
        → GivesOf text.now tokens.now comments.now with_comments tree result }
{
    match tree_of(alloc, media_type, text, tokens) {
        Ok(program) => match program_declarations(alloc, &program, comments, with_comments) {
            Ok(it) => Ok(it),
            Err(_) => Err(SyntaxError::OutOfMemory),
        },
        Err(error) => Err(error),
    }
}

/// The declarations of a program, whose text has these comments.
fn program_declarations(
    alloc: Global,
    program: &Program,
    comments: &[Comment],
    with_comments: bool,
) -> Result<SourceDeclarations, AllocError>
    ensures { IfOk result (AreOf comments.now with_comments program.now) }
{
    let (text, tokens, row) = program.parts();
    let placed = comments_of(alloc, text, tokens, comments)?;
    let shared = MultiThreadedComments::from_single_threaded(alloc, placed)?;
    let numbers = ScopeIds::of(alloc, text, tokens, &row)?;
    let ranges = ModulePublicRanges::of(alloc, program)?;
    let Declared {
        declarations,
        found,
        made: _,
    } = declare(alloc, program, &numbers, &ranges, 0, 0)?;
    Ok(SourceDeclarations {
        text: text_of(alloc, &declarations, &shared, with_comments)?,
        found,
    })
}

/// The printed text of declarations: with these comments, where they are asked for.
fn text_of(
    alloc: Global,
    it: &Declarations,
    comments: &MultiThreadedComments,
    with_comments: bool,
) -> Result<Text, AllocError>
    ensures { IfOk result (λ text. text ≡ printed it.now.text it.now.tokens (kept_comments (not with_comments) comments.now) it.now.entries) }
{
    let options = EmitOptions {
        source_map: SourceMapOption::None,
        remove_comments: !with_comments,
    };
    Ok(emit_declarations(alloc, it, comments, &options)?.text)
}

/// The declarations of a text of this media type; none where it is no program.
pub fn text_declarations(
    alloc: Global,
    media_type: MediaType,
    text: &SourceText,
    with_comments: bool,
) -> Result<Option<SourceDeclarations>, AllocError>
    ensures { IfOk result (λ o. MatchOption o (IsNoProgram media_type text.now) (HasDeclarations media_type text.now with_comments)) }
{
    match lex_tokens(alloc, text.as_str()) {
        Ok(lexed) => lexed_declarations(alloc, media_type, text, lexed, with_comments),
        Err(LexError::Lexical(_)) => Ok(None),
        Err(LexError::OutOfMemory) => Err(AllocError),
    }
}

/// The declarations of a text that has these tokens and comments.
fn lexed_declarations(
    alloc: Global,
    media_type: MediaType,
    text: &SourceText,
    lexed: Lexed,
    with_comments: bool,
) -> Result<Option<SourceDeclarations>, AllocError>
    requires { Reads text.now lexed.tokens lexed.comments }
    ensures { IfOk result (Answers media_type text.now lexed.tokens lexed.comments with_comments) }
{
    let Lexed { tokens, comments } = lexed;
    let shared = SharedTokens::new(alloc, tokens)?;
    match token_declarations(
        alloc,
        media_type,
        text,
        &shared,
        comments.as_slice(),
        with_comments,
    ) {
        Ok(it) => Ok(Some(it)),
        Err(SyntaxError::Syntax { token: _ }) => Ok(None),
        Err(SyntaxError::OutOfMemory) => Err(AllocError),
    }
}
