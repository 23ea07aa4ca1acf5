//! The declarations of a source, by its media type, or that it has no tree.
//!
//! - `token_declarations(media_type, text, tokens, comments, with_comments)`: the printed declarations of the tree of these tokens,
//!   and what couldn't be determined (`AreDeclarations`, `specs/Answers.antt`), or `Syntax` exactly where they have no tree.
//! - `text_declarations(media_type, text, with_comments)`: the same of a text (`HasDeclarations`), or none where it is no program.
#![tactic(auto)]

mod read;

pub use deno_dts::{Found, FoundKind};
pub use read::{SourceDeclarations, text_declarations, token_declarations};
