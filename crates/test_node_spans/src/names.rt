//! Imports and exports, and what is in them.

use crate::spans::{Seen, ends, first_in, span, token_span, told, told_at};
use es_ast::ImportPhase;
use es_syntax::{Item, Siblings};
use es_token::Token;
use es_view_modules::items::{Export, Import};
use es_view_modules::names::{Attributes, Clause, Names, attributes_at, clause_at, names_at};

/// An import, or the part of it that the letter names.
pub fn in_import(letter: &str, tokens: &[Token], it: &Item<'_>, view: &Import<'_>) -> Option<Seen> {
    match view {
        Import::Bare {
            source,
            attributes,
            ..
        } => match letter {
            "i" => told_at("Import", tokens, it),
            _ => in_source(letter, tokens, *source, attributes),
        },
        Import::From {
            clause,
            source,
            attributes,
            ..
        } => match letter {
            "i" => told_at("Import", tokens, it),
            "z" | "w" | "v" => in_source(letter, tokens, *source, attributes),
            _ => in_clause(tokens, clause),
        },
        Import::Phased {
            phase,
            name,
            source,
            attributes,
        } => match letter {
            "i" => told_at("Import", tokens, it),
            "z" | "w" | "v" => in_source(letter, tokens, *source, attributes),
            _ => in_phase(tokens, *phase, name),
        },
        Import::Require { source, .. } => match letter {
            "i" => told_at("TsImportEquals", tokens, it),
            _ => required(tokens, source),
        },
        Import::Entity { entity, .. } => match letter {
            "i" => told_at("TsImportEquals", tokens, it),
            _ => told_at("Entity", tokens, entity),
        },
        Import::Broken => None,
    }
}

/// The literal after `from`, or the attributes or the first of them.
fn in_source(
    letter: &str,
    tokens: &[Token],
    source: u32,
    attributes: &Siblings<'_>,
) -> Option<Seen> {
    match letter {
        "z" => Some(told("Str", token_span(tokens, source)?)),
        "w" => told_at("ImportAttributes", tokens, &attributes.part(0)?),
        "v" => first_attribute(tokens, &attributes.part(0)?),
        _ => None,
    }
}

fn first_attribute(tokens: &[Token], it: &Item<'_>) -> Option<Seen> {
    match attributes_at(it)? {
        Attributes::Attributes(items) => {
            let turn = items.part(0)?.group();
            let (from, _) = ends(&turn.group_at(0).part(0)?)?;
            let (_, to) = ends(&turn.part(1)?)?;
            Some(told("ImportAttribute", span(tokens, from, to)?))
        }
        Attributes::Broken => None,
    }
}

fn in_clause(tokens: &[Token], it: &Item<'_>) -> Option<Seen> {
    match clause_at(it)? {
        Clause::Default(local) => Some(told("Ident", token_span(tokens, local)?)),
        Clause::Both { .. } => told_at("Both", tokens, it),
        Clause::Names(node) => match names_at(&node)? {
            Names::Namespace(_) => told_at("Namespace", tokens, &node),
            Names::Named(specifiers) => told_at("ImportSpecifier", tokens, &first_in(&specifiers)?),
            Names::Broken => None,
        },
        Clause::Broken => None,
    }
}

/// What an import in a phase binds: a deferred one `* as a`, from two tokens before the name.
fn in_phase(tokens: &[Token], phase: ImportPhase, name: &Item<'_>) -> Option<Seen> {
    let (from, to) = ends(name)?;
    match phase {
        ImportPhase::Defer => Some(told("Namespace", span(tokens, from.checked_sub(2)?, to)?)),
        _ => Some(told("Ident", span(tokens, from, to)?)),
    }
}

/// `require("a")`: from two tokens before the literal to the one after it.
fn required(tokens: &[Token], source: &Item<'_>) -> Option<Seen> {
    let (from, to) = ends(source)?;
    let span = span(tokens, from.checked_sub(2)?, to.checked_add(1)?)?;
    Some(told("Require", span))
}

/// An export, or the first of the names that it has.
pub fn in_export(letter: &str, tokens: &[Token], it: &Item<'_>, view: &Export<'_>) -> Option<Seen> {
    if letter == "i" {
        return told_at(export_kind(view)?, tokens, it);
    }
    match view {
        Export::Names { specifiers, .. } => told_at(
            "ExportSpecifier",
            tokens,
            &first_in(specifiers)?,
        ),
        _ => None,
    }
}

fn export_kind(it: &Export<'_>) -> Option<&'static str> {
    match it {
        Export::All { .. } => Some("ExportAll"),
        Export::Names { .. } => Some("ExportNamed"),
        Export::Namespace(_) => Some("TsNamespaceExport"),
        Export::DefaultDecl(_) => Some("ExportDefaultDecl"),
        Export::DefaultExpr(_) => Some("ExportDefaultExpr"),
        Export::Decl(_) => Some("ExportDecl"),
        Export::Assignment(_) => Some("TsExportAssignment"),
        Export::Broken => None,
    }
}
