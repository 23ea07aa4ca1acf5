//! Parsed sources of JavaScript and TypeScript: what the crates above know of a source text.
//!
//! - `parse_program(params)`, `parse_module`, `parse_script`, and their forms with a closure that changes the tree: the
//!   source of a text (`IsParsed`, `specs/Source.antt`), or the fault for which there is none (`IsFault`). Both ways.
//! - `ParsedSource`: what a source keeps (`Parsed`, `specs/Parsed.antt`); `sites`: where it names others.
//! - `ParsedSource::analyze_cjs`, `analyze_es_runtime_exports`: what a source exports (`AreExports`, of `cjs_facts`;
//!   `exports_of`, of `es_exports`).
//! - `print(program)`, `emit(program, comments, options)`: the printed text of a program (`IsPrinted`, of
//!   `es_program_printer`).
//! - `lex(source)`: the tokens and comments of a text by their places (`AreByPlace`, `specs/Lexing.antt`).
//! - The sites of a source are those of its text (`source_sites`, `proofs/Theorems.antt`): what `read_sites` answers
//!   without a tree.
//!
//! It hands on `read_sites` of `source_sites`, `media_type`, `source_text`, `source_text::text_changes`, `es_comments`,
//! `parse_diagnostic`, `source_text::module_text`, and the sites of `es_site`. Not promised: the range of a `Syntax` fault, and when
//! memory runs out.
#![tactic(auto)]

mod decls;
mod lexing;
mod module_kind;
mod params;
mod parsing;
mod printing;
mod program_ref;
mod reading;
mod scopes;
mod source;
mod syntax;
mod tree;

pub use crate::lexing::{LexedItem, TokenOrComment, lex};
pub use crate::module_kind::ModuleKind;
pub use crate::params::ParseParams;
pub use crate::parsing::{
    parse_module, parse_module_with_post_process, parse_program, parse_program_with_post_process,
    parse_script, parse_script_with_post_process, parse_text,
};
pub use crate::printing::emit;
pub use crate::program_ref::ProgramRef;
pub use crate::source::{CjsAnalysis, ParsedSource};
pub use crate::syntax::{Syntax, get_syntax};
pub use crate::tree::tree_of;
pub use base::{Items, Range, Text};
pub use es_comments::{CommentMap, CommentsIter, MultiThreadedComments, SingleThreadedComments};
pub use es_exports::ModuleExportsAndReExports;
pub use es_lexer::{LexError, LexicalError, LexicalKind};
pub use es_literal::quote;
pub use es_program::items::{Body, ModuleDeclRef, ModuleItemRef, StmtRef};
pub use es_program::{Form, Module, Program, Script, SharedTokens};
pub use es_program_printer::{EmitOptions, EmittedSourceText, SourceMapOption, print};
pub use es_site::{Attribute, DependencyKind, Site};
pub use es_token::{Comment, CommentKind, Token, TokenKind};
pub use es_variables::{BindingKind, Id, Ident, Scope, ScopeIds, ScopeKind, Var, ident_at};
pub use media_type::MediaType;
pub use parse_diagnostic::{
    KeptDiagnostic, ParseDiagnostic, ParseDiagnosticsError, ParseFault, SyntaxErrorKind,
};
pub use source_sites::read_sites;
pub use source_text::module_text::{strip_bom, without_mark};
pub use source_text::text_changes::{TextChange, TextChangeError, apply_text_changes};
pub use source_text::{LineAndColumnDisplay, SourceText, SourceTextInfo};
pub use url::Url as ModuleSpecifier;

/// The version of the original whose names and behaviour these calls have.
pub const VERSION: &str = "0.53.3";

/// An edition of ECMA-262.
#[derive(Clone, Copy, Debug, PartialEq, Eq, PartialOrd, Ord, Hash)]
pub enum EsVersion {
    Es2021,
}

pub const ES_VERSION: EsVersion = EsVersion::Es2021;
