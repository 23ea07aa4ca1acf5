//! The tokens and the comments of a text by their places.
ghost use Rattle.std.specs.Prelude.{◌≡◌, ◌++◌, List, map, IfOk, OnOk, Err};
ghost use Rattle.es_token.specs.declared.token.Token.{Token as Piece};
ghost use Rattle.es_token.specs.declared.token.Comment.{Comment as Note};
ghost use Rattle.es_lexer.specs.declared.error.LexicalError.{LexicalError};
ghost use Rattle.es_lexer.specs.Reads.{Reads};
ghost use Rattle.es_lexer.specs.Stops.{Stops};
ghost use Rattle.deno_ast.specs.Lexing as spec;

use base::{Items, Range, Text};
use es_lexer::{LexError, lex_tokens};
use es_token::{Comment, CommentKind, Lexed, Token, TokenKind};
use media_type::MediaType;
use std::alloc::{AllocError, Global};

/// A token or a comment of a text.
#[derive(Debug, PartialEq, Eq, Drop)]
pub struct LexedItem {
    pub range: Range,
    pub inner: TokenOrComment,
}

impl LexedItem {
    /// An equal item.
    pub fn copy(&self) -> Result<LexedItem, AllocError>
        ensures { IfOk result (λ copy. copy ≡ self.now) }
    {
        Ok(LexedItem {
            range: self.range,
            inner: self.inner.copy()?,
        })
    }
}

#[derive(Debug, PartialEq, Eq, Drop)]
pub enum TokenOrComment {
    Token(TokenKind),
    Comment { kind: CommentKind, text: Text },
}

impl TokenOrComment {
    /// An equal token or comment.
    pub fn copy(&self) -> Result<TokenOrComment, AllocError>
        ensures { IfOk result (λ copy. copy ≡ self.now) }
    {
        match self {
            TokenOrComment::Token(kind) => Ok(TokenOrComment::Token(*kind)),
            TokenOrComment::Comment { kind, text } => Ok(TokenOrComment::Comment {
                kind: *kind,
                text: text.copy()?,
            }),
        }
    }
}

/// The tokens and comments of a text by their places. A byte order mark is a blank; all media types have the same
/// tokens.
pub fn lex(alloc: Global, source: &str, media_type: MediaType) -> Result<Vec<LexedItem>, LexError>
    // What is answered are the tokens and comments that read the text.
    ensures lexed { IfOk result (λ items. (tokens : List Piece) × (comments : List Note)
        × Reads source.now tokens comments × spec.AreByPlace tokens comments items.items) }
    // A refusal, but for memory, is the first fault.
    ensures stopped { (e : LexicalError) → result ≡ Err (LexError.Lexical e) → Stops source.now e.kind e.at }
{
    let _ = media_type;
    let lexed = lex_tokens(alloc, source)?;
    Ok(by_place(all_of(alloc, lexed)?)?)
}

fn all_of(alloc: Global, lexed: Lexed) -> Result<Vec<LexedItem>, AllocError>
    ensures { IfOk result (λ items. items.items
        ≡ map spec.token_item lexed.tokens ++ map spec.comment_item lexed.comments) }
{
    let Lexed { tokens, comments } = lexed;
    let mut items = Vec::new(alloc);
    add_tokens(&mut items, tokens.as_slice())?;
    add_comments(&mut items, comments)?;
    Ok(items)
}

fn add_tokens(items: &mut Vec<LexedItem>, tokens: &[Token]) -> Result<(), AllocError>
    ensures { OnOk result (items.new.items ≡ items.old.items ++ map spec.token_item tokens.now) }
{
    for token in tokens {
        items.push(LexedItem {
            range: token.range(),
            inner: TokenOrComment::Token(token.kind()),
        })?;
    }
    Ok(())
}

fn add_comments(items: &mut Vec<LexedItem>, comments: Items<Comment>) -> Result<(), AllocError>
    ensures { OnOk result (items.new.items ≡ items.old.items ++ map spec.comment_item comments) }
{
    for comment in comments.into_vec() {
        let Comment { kind, range, text } = comment;
        items.push(LexedItem {
            range,
            inner: TokenOrComment::Comment { kind, text },
        })?;
    }
    Ok(())
}

fn by_place(items: Vec<LexedItem>) -> Result<Vec<LexedItem>, AllocError>
    ensures { IfOk result (λ sorted. spec.AreSorted items.items sorted.items) }
{
    let mut sorted = items;
    sorted.sort_by_key(|item| item.range.start)?;
    Ok(sorted)
}
