//! The forms of first items, by their views.

use crate::told::Source;
use crate::turns::count_of;
use base::Range;
use es_literal::literal_value;
use es_program::span_at;
use es_syntax::Item;
use es_view_expressions::call::{Args, Call, Post, args_at, call_at, post_at};
use es_view_expressions::expr::{Primary, primary_at};
use es_view_expressions::function::{Function, function_at};
use es_view_expressions::operator::{Operator, chain_at, operator_at};
use es_view_expressions::pattern::{Pat, pat_at};
use es_view_modules::items::{Import, import_at};
use es_view_statements::stmt::{Stmt, stmt_at};
use std::alloc::{AllocError, Global};

/// The form of the expression that a statement is, and of its parts.
pub fn form_of(alloc: Global, item: &Item<'_>) -> Result<String, AllocError> {
    match stmt_at(item) {
        Some(Stmt::Expr(expr)) => form(alloc, &expr),
        _ => String::from_str(alloc, "no expression"),
    }
}

fn form(alloc: Global, expr: &Item<'_>) -> Result<String, AllocError> {
    match operator_at(expr) {
        Some(Operator::Conditional { test: _, cons, alt }) => format!(in alloc;
            "conditional: {}, {}",
            kind_of(&cons),
            kind_of(&alt)
        ),
        Some(Operator::PatternAssignment { left, right: _ }) => format!(in alloc;
            "assignment: {}",
            pattern_of(&left)
        ),
        _ => match typed_arguments(expr) {
            Some(count) => format!(in alloc; "call with types, arguments {count}"),
            None => String::from_str(alloc, kind_of(expr)),
        },
    }
}

/// Left-associative operators between operands may share one entry.
fn kind_of(expr: &Item<'_>) -> &'static str {
    if chain_at(expr).is_some() || matches!(operator_at(expr), Some(Operator::Binary { .. })) {
        return "operators";
    }
    if matches!(function_at(expr), Some(Function::NameArrow { .. })) {
        return "arrow";
    }
    match primary_at(expr) {
        Some(Primary::Paren(_)) => "brackets",
        Some(Primary::Array { .. }) => "array",
        _ => "another",
    }
}

fn pattern_of(item: &Item<'_>) -> &'static str {
    match pat_at(item) {
        Some(Pat::Array { .. }) => "array pattern",
        _ => "another",
    }
}

/// How many arguments a call with types has.
fn typed_arguments(expr: &Item<'_>) -> Option<usize> {
    let Call::Chain { first, .. } = call_at(expr)? else {
        return None;
    };
    let Post::TypedCall { type_args: _, args } = post_at(&first)? else {
        return None;
    };
    match args_at(&args)? {
        Args::Arguments(turns) => Some(count_of(turns)),
        Args::Broken => None,
    }
}

/// The ranges of a program and of an import, and of its literal what it says.
pub fn import_of(
    alloc: Global,
    source: &Source<'_>,
    whole: Range,
    item: &Item<'_>,
) -> Result<String, AllocError> {
    let span = span_at(source.tokens, item.from as usize, item.to as usize);
    match import_at(item) {
        Some(
            Import::Bare {
                source: at,
                attributes,
            },
        ) => {
            let literal = literal_of(alloc, source, at)?;
            let with = attributes.split().is_some();
            format!(in alloc;
                "{}-{} {}-{} {literal} with {with}",
                whole.start, whole.end, span.start, span.end
            )
        }
        _ => String::from_str(alloc, "no bare import"),
    }
}

fn literal_of(alloc: Global, source: &Source<'_>, at: u32) -> Result<String, AllocError> {
    let Some(token) = source.tokens.get(at as usize) else {
        return String::from_str(alloc, "no token");
    };
    let range = token.range();
    let (start, end) = (range.start, range.end);
    match source.text.get(start..end) {
        Some(text) => {
            let literal = literal_value(alloc, text)?;
            let (value, lone) = (literal.text.as_str(), literal.lone);
            format!(in alloc; "{start}-{end} {value:?} lone {lone}")
        }
        None => String::from_str(alloc, "no text"),
    }
}
