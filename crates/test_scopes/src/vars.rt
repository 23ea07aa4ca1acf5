//! How the names in the source of a row are bound.

ghost use Rattle.es_lexer.specs.Reads.{ReadsTokens};

use base::Text;
use es_scopes::program_marks;
use es_syntax::Siblings;
use es_token::Token;
use es_variables::scope_numbers::scope_ids;
use es_variables::{Id, Ident, Scope, ScopeIds, Var, ident_at};
use std::alloc::{AllocError, Global};

/// Each name of a program, in the order of the text: its number, how often its spelling is declared where that is more
/// than once, and how it is bound, with what is around it.
pub fn bound(
    alloc: Global,
    text: &str,
    tokens: &[Token],
    row: &Siblings<'_>,
) -> Result<String, AllocError>
    requires { ReadsTokens text.now tokens.now }
{
    let marks = program_marks(alloc, tokens, row)?;
    let found = scope_ids(alloc, text, tokens, marks.as_slice())?;
    let ids = ScopeIds::of(alloc, text, tokens, row)?;
    let scope = Scope::analyze(alloc, text, tokens, row, &ids)?;
    let mut out = String::new(alloc);
    for id in found.as_slice() {
        if let Some(ident) = ident_at(text, tokens, &ids, id.0) {
            add(&mut out, alloc, &scope, &ident)?;
        }
    }
    Ok(out)
}

fn add(
    out: &mut String,
    alloc: Global,
    scope: &Scope,
    ident: &Ident<'_>,
) -> Result<(), AllocError> {
    if !out.is_empty() {
        out.push_str(" ")?;
    }
    let (sym, ctxt) = (ident.sym, ident.ctxt);
    out.push_str(format!(in alloc; "{sym}:{ctxt}")?.as_str())?;
    add_count(out, alloc, scope, sym)?;
    let id = Id {
        sym: Text::from_str(alloc, sym)?,
        ctxt,
    };
    if scope.is_global(&id) {
        out.push_str("=global")?;
    }
    match scope.var_by_ident(ident) {
        Some(var) => add_var(out, alloc, var),
        None => Ok(()),
    }
}

/// How often a spelling is declared, where that is more than once.
fn add_count(out: &mut String, alloc: Global, scope: &Scope, sym: &str) -> Result<(), AllocError> {
    if let Some(ids) = scope.ids_with_symbol(sym) {
        let count = ids.len();
        if count > 1 {
            out.push_str(format!(in alloc; "*{count}")?.as_str())?;
        }
    }
    Ok(())
}

fn add_var(out: &mut String, alloc: Global, var: &Var) -> Result<(), AllocError> {
    let kind = var.kind();
    out.push_str(format!(in alloc; "={kind:?}")?.as_str())?;
    for scope in var.path() {
        out.push_str(format!(in alloc; "/{scope:?}")?.as_str())?;
    }
    Ok(())
}
