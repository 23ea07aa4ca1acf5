//! Programs: a text, its tokens and a row of entries, and the typed program that the row is (`Owned`, `specs/Owned.antt`).
//!
//! - `Program`, `Module`, `Script`: owners, whose meaning is the declared program of `es_ast`. Nobody builds that one.
//!   Copies share what they own.
//! - `Form`: a program as a module or as a script.
//! - `SharedTokens`: the tokens of a text, shared by their copies.
//! - `span_at`: the range of a node.
#![tactic(auto)]

mod form;
pub mod items;
mod leaf;
mod module;
mod program;
mod script;
mod source;
mod tokens;

pub use form::Form;
pub use leaf::span_at;
pub use module::Module;
pub use program::Program;
pub use script::Script;
pub use tokens::SharedTokens;
