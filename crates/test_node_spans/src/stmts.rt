//! The kinds of statements and declarations.

use crate::spans::{Seen, told_at};
use es_syntax::Item;
use es_token::{Token, TokenKind};
use es_view_statements::decl::{Decl, Declarable, decl_at, declarable_at};
use es_view_statements::stmt::{Compound, Stmt, compound_at, stmt_at};

/// A statement, or the declaration that it is.
pub fn statement(tokens: &[Token], it: &Item<'_>) -> Option<Seen> {
    told_at(statement_kind(tokens, it)?, tokens, it)
}

fn statement_kind(tokens: &[Token], it: &Item<'_>) -> Option<&'static str> {
    if let Some(view) = stmt_at(it) {
        return simple_kind(&view);
    }
    match compound_at(it) {
        Some(view) => compound_kind(tokens, &view),
        None => declaration_kind(it),
    }
}

fn simple_kind(it: &Stmt<'_>) -> Option<&'static str> {
    match it {
        Stmt::Block(_) => Some("Block"),
        Stmt::Empty => Some("Empty"),
        Stmt::Debugger => Some("Debugger"),
        Stmt::Expr(_) => Some("Expr"),
        Stmt::Labelled { .. } => Some("Labeled"),
        Stmt::If { .. } => Some("If"),
        Stmt::Continue(_) => Some("Continue"),
        Stmt::Break(_) => Some("Break"),
        Stmt::Return(_) => Some("Return"),
        Stmt::Throw(_) => Some("Throw"),
        Stmt::With { .. } => Some("With"),
        Stmt::Broken => None,
    }
}

fn compound_kind(tokens: &[Token], it: &Compound<'_>) -> Option<&'static str> {
    match it {
        Compound::For { .. } => Some("For"),
        Compound::ForEach { word, .. } => each_kind(tokens.get(*word as usize)?.kind()),
        Compound::ForAwait { .. } => Some("ForOf"),
        Compound::While { .. } => Some("While"),
        Compound::Do { .. } => Some("DoWhile"),
        Compound::Switch { .. } => Some("Switch"),
        Compound::Try { .. } => Some("Try"),
        Compound::TypedTry { .. } => Some("Try"),
        Compound::Broken => None,
    }
}

fn each_kind(word: TokenKind) -> Option<&'static str> {
    match word {
        TokenKind::InWord => Some("ForIn"),
        _ => Some("ForOf"),
    }
}

fn declaration_kind(it: &Item<'_>) -> Option<&'static str> {
    match decl_at(it)? {
        Decl::Function { .. } => Some("Fn"),
        Decl::Class(_) => Some("Class"),
        Decl::Variables(_) => Some("Var"),
        Decl::Var { .. } => Some("Var"),
        Decl::Using { .. } => Some("Var"),
        Decl::Declared(inner) => declarable_kind(&inner),
        Decl::DeclaredVariables(_) => Some("Var"),
        Decl::Declarable(node) => declarable_kind(&node),
        Decl::Broken => None,
    }
}

fn declarable_kind(it: &Item<'_>) -> Option<&'static str> {
    match declarable_at(it)? {
        Declarable::Function { .. } => Some("Fn"),
        Declarable::Class { .. } => Some("Class"),
        Declarable::Interface { .. } => Some("TsInterface"),
        Declarable::Alias { .. } => Some("TsTypeAlias"),
        Declarable::Enum { .. } => Some("TsEnum"),
        Declarable::Namespace { .. } => Some("TsNamespace"),
        Declarable::Module { .. } => Some("TsModule"),
        Declarable::Global(_) => Some("TsGlobal"),
        Declarable::Broken => None,
    }
}
