//! Tokens and comments of JavaScript and TypeScript text (ECMA-262, "Lexical Grammar").
//!
//! - `lex_tokens(text)`: the one pair of lists of tokens and comments that reads the text (`Reads`, `specs/Reads.antt`),
//!   or the first fault (`Stops`, `specs/Stops.antt`). Both ways: besides it only "out of memory" may come.
//! - `literal_value(literal)`: the value of a string literal; `quote(text)`: the literal of a text (both of `es_literal`).
//!
//! Places are bytes of the text, from 0. `docs/TOKENS.md` describes the rules in prose.
//! Not promised: what `Display` and `Debug` write, and when memory runs out.
#![tactic(auto)]

mod bracket;
mod bytes;
mod error;
mod goal;
mod look;
mod scan;
mod short;
mod signs;
mod spans;
mod stack;
mod words;

pub use error::{LexError, LexicalError, LexicalKind};
pub use es_literal::{LiteralValue, literal_value, quote};
pub use es_token::{Comment, CommentKind, Lexed, Token, TokenKind};
pub use scan::lex_tokens;
