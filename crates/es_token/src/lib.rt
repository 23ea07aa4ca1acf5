//! What a token and a comment of JavaScript and TypeScript text are (ECMA-262, "Lexical Grammar").
//!
//! `es_lexer` reads them from a text; the grammar and its readers speak of them alone. Places are bytes of the text, from 0.
//! Not promised: what `Debug` writes.
#![tactic(auto)]

mod token;

pub use token::{Comment, CommentKind, Lexed, Token, TokenKind};
