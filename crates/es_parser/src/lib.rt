//! The parser of JavaScript and TypeScript programs (ECMA-262, "Scripts and Modules"; the handbook of TypeScript).
//!
//! - `parse_tokens(lang, mode, text, tokens)`: the one tree that the table of programs (`es_grammar`) derives from the
//!   tokens of a text (`Derives`, of `es_lowering::derives`), or `Syntax` where it derives none. Sound and complete: the only other
//!   answer is "out of memory".
//! - `is_arrow_head`, `is_pattern_head`: whether an arrow, or a pattern that is assigned to, opens at a token; they don't allocate.
//!
//! It reads the tokens as a row of entries, which is a plain tree (`es_program_reader`), finds the sites in it
//! (`es_tree_sites`), and hands the row to the program that owns it (`es_program`). No tree is built: it is what the
//! program means.
//! Tokens have at most one tree (`es_lowering::derives`). `es_law_texts::sites` says that each site of a tree cuts its literal.
//! Not promised: which token `Syntax` names, and when memory runs out. `docs/GRAMMAR.md` describes the rows in words.
#![tactic(auto)]

mod heads;
mod program;

pub use heads::{is_arrow_head, is_pattern_head};
pub use program::parse_tokens;
