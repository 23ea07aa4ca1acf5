//! The node of a program that a letter names.

use crate::decls::in_declaration;
use crate::in_exprs::in_expression;
use crate::names::{in_export, in_import};
use crate::spans::{Seen, behind, ends, first_in, last_in, span, told};
use crate::stmts::statement;
use es_syntax::{Item, Siblings};
use es_token::Token;
use es_view_modules::items::{Program, export_at, import_at, program_at};
use es_view_statements::decl::decl_at;
use es_view_statements::stmt::{Compound, Stmt, compound_at, stmt_at};

/// The node that the letter names, if the program has it.
pub fn place(letter: &str, tokens: &[Token], program: &Siblings<'_>) -> Option<Seen> {
    match program_at(&program.part(0)?)? {
        Program::Script { body, .. } => statement(tokens, &first_in(&body)?),
        Program::Module { body, .. } => in_item(letter, tokens, &first_in(&body)?),
        Program::Broken => None,
    }
}

fn in_item(letter: &str, tokens: &[Token], it: &Item<'_>) -> Option<Seen> {
    if let Some(view) = import_at(it) {
        return in_import(letter, tokens, it, &view);
    }
    match export_at(it) {
        Some(view) => in_export(letter, tokens, it, &view),
        None => in_statement(letter, tokens, it),
    }
}

fn in_statement(letter: &str, tokens: &[Token], it: &Item<'_>) -> Option<Seen> {
    if letter == "i" {
        return statement(tokens, it);
    }
    if let Some(Stmt::Expr(expr)) = stmt_at(it) {
        return in_expression(letter, tokens, &expr);
    }
    if let Some(
        Compound::Switch {
            discriminant,
            cases,
        },
    ) = compound_at(it)
    {
        return first_clause(tokens, &discriminant, &cases);
    }
    match decl_at(it) {
        Some(_) => in_declaration(letter, tokens, it),
        None => statement(tokens, it),
    }
}

/// The first clause of a `switch`, which begins after the expression, `)` and `{`.
fn first_clause(tokens: &[Token], discriminant: &Item<'_>, cases: &Siblings<'_>) -> Option<Seen> {
    let turn = cases.part(0)?.group();
    let from = ends(discriminant)?.1.checked_add(2)?;
    let colon = match turn.group_at(0).part(0) {
        Some(test) => ends(&test)?.1.checked_add(1)?,
        None => from.checked_add(2)?,
    };
    let to = match last_in(&turn.group_at(1)).last {
        Some(stmt) => behind(&stmt.group(), colon)?,
        None => colon,
    };
    Some(told("SwitchCase", span(tokens, from, to)?))
}
