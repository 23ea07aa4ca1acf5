//! Scope numbers of parsed sources, and what they declare.

use crate::parsed::params;
use deno_ast::{MediaType, ParseFault, ParseParams, ParsedSource, Scope, parse_program};
use std::alloc::{AllocError, Global};

/// A text, and what is reported of it: whether scopes were analysed before and afterwards, the numbers of its outermost scope
/// and of names that none declares, and each declaration of `a`.
const ROWS: &[(&str, &str)] = &[
    ("const a = 1;", "false true 1 0 a:1=Const"),
    (
        "function a(a) { { let a; } }",
        "false true 1 0 a:1=Function a:2=Param/Function a:3=Let/Function/Block",
    ),
    ("b;", "false true 1 0"),
];

fn add_declared(alloc: Global, line: &mut String, scope: &Scope) -> Result<(), AllocError> {
    let Some(ids) = scope.ids_with_symbol("a") else {
        return Ok(());
    };
    for id in ids {
        if let Some(var) = scope.var(id) {
            let (sym, ctxt, kind) = (id.sym.as_str(), id.ctxt, var.kind());
            line.push_str(format!(in alloc; " {sym}:{ctxt}={kind:?}")?.as_str())?;
            for part in var.path() {
                line.push_str(format!(in alloc; "/{part:?}")?.as_str())?;
            }
        }
    }
    Ok(())
}

fn told(alloc: Global, parsed: ParsedSource) -> Result<String, AllocError> {
    let before = parsed.has_scope_analysis();
    let parsed = parsed.into_with_scope_analysis(alloc)?;
    let after = parsed.has_scope_analysis();
    let (top, none) = (parsed.top_level_context(), parsed.unresolved_context());
    let mut line = format!(in alloc; "{before} {after} {top} {none}")?;
    let scope = parsed.program_ref().scope(alloc)?;
    add_declared(alloc, &mut line, &scope)?;
    Ok(line)
}

#[test]
fn scopes_are_analysed_afterwards(rt: HostRuntime) {
    let alloc = rt.alloc();
    for (text, want) in ROWS.iter() {
        let params = params(alloc, MediaType::JavaScript, text, None).expect(&rt, "memory");
        let parsed = parse_program(alloc, params).expect(&rt, "a program");
        let got = told(alloc, parsed).expect(&rt, "memory");
        assert_eq!(rt; got.as_str(), *want);
    }
}

/// Whether scopes are analysed where that is asked for, and the spelling and the number of the second token.
fn second(alloc: Global, params: ParseParams) -> Result<String, ParseFault> {
    let parsed = parse_program(
        alloc,
        ParseParams {
            scope_analysis: true,
            ..params
        },
    )?;
    let has = parsed.has_scope_analysis();
    let parsed = parsed.into_with_scope_analysis(alloc)?;
    match parsed.ident(1) {
        Some(ident) => {
            let (sym, ctxt) = (ident.sym, ident.ctxt);
            Ok(format!(in alloc; "{has} {sym}:{ctxt}")?)
        }
        None => Ok(format!(in alloc; "{has}")?),
    }
}

#[test]
fn scopes_are_analysed_with_the_tree(rt: HostRuntime) {
    let alloc = rt.alloc();
    let params = params(alloc, MediaType::JavaScript, "let a;", None).expect(&rt, "memory");
    let got = second(alloc, params).expect(&rt, "a program");
    assert_eq!(rt; got.as_str(), "true a:1");
}
