//! The members of a type, by their views.

use crate::told::Source;
use es_program::span_at;
use es_syntax::{Item, Siblings};
use es_view_statements::decl::{Decl, Declarator, Variables, decl_at, declarator_at, variables_at};
use es_view_types::members::{
    TypeFnParam, TypeFnParams, TypeMember, TypePat, member_at, param_at, params_at, pat_at,
};
use es_view_types::types::{CompoundType, compound_at};
use std::alloc::{AllocError, Global};

/// The members of the type of the variable that a declaration begins with, as turns.
fn turns_of<'a>(item: &Item<'a>) -> Option<Siblings<'a>> {
    let Decl::Variables(variables) = decl_at(item)? else {
        return None;
    };
    let Variables::Var { first, .. } = variables_at(&variables)? else {
        return None;
    };
    let Declarator::Typed { ty, .. } = declarator_at(&first)? else {
        return None;
    };
    match compound_at(&ty.part(0)?)? {
        CompoundType::Members(members) => Some(members),
        _ => None,
    }
}

fn item_of<'a>(turn: &Item<'a>) -> Option<Item<'a>> {
    turn.group().part(0)
}

/// The name of the first of the parameters, and whether anything follows it.
fn first_param(params: &Item<'_>) -> Option<(u32, bool)> {
    let TypeFnParams::Params { all, rest: _ } = params_at(params)? else {
        return None;
    };
    let (turn, _) = all.split()?;
    let (pat, marked) = match param_at(&item_of(&turn)?)? {
        TypeFnParam::Marked { pat, mark: _ } => (pat, true),
        TypeFnParam::Pattern(pat) => (pat, false),
        _ => return None,
    };
    match pat_at(&pat)? {
        TypePat::Ident(name) => Some((name, marked)),
        _ => None,
    }
}

fn name_at<'a>(source: &Source<'a>, at: u32) -> &'a str {
    match source.tokens.get(at as usize) {
        Some(token) => source
            .text
            .get(token.range().start..token.range().end)
            .unwrap_or(""),
        None => "",
    }
}

/// What a member is, and of a method its first parameter.
fn told_member(
    alloc: Global,
    source: &Source<'_>,
    member: &Item<'_>,
) -> Result<String, AllocError> {
    match member_at(member) {
        Some(TypeMember::Property { mark, .. }) => format!(in alloc; "property optional {mark}"),
        Some(TypeMember::Method { params, .. }) => match first_param(&params) {
            Some((name, marked)) => {
                let name = name_at(source, name);
                format!(in alloc; "method {name:?} typed {marked}")
            }
            None => String::from_str(alloc, "no parameter"),
        },
        _ => String::from_str(alloc, "another member"),
    }
}

/// The members of that type, with their ranges.
pub fn members_of(
    alloc: Global,
    source: &Source<'_>,
    item: &Item<'_>,
) -> Result<String, AllocError> {
    let Some(members) = turns_of(item) else {
        return String::from_str(alloc, "no type with members");
    };
    let mut out = String::new(alloc);
    let mut rest = members;
    while let Some((turn, others)) = rest.split() {
        if let Some(member) = item_of(&turn) {
            let told = with_range(alloc, source, &member)?;
            out.push_str(told.as_str())?;
        }
        rest = others;
    }
    Ok(out)
}

fn with_range(alloc: Global, source: &Source<'_>, member: &Item<'_>) -> Result<String, AllocError> {
    let span = span_at(source.tokens, member.from as usize, member.to as usize);
    let told = told_member(alloc, source, member)?;
    format!(in alloc; "{}-{} {told}; ", span.start, span.end)
}
