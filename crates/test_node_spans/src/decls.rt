//! The parts of declarations that letters name.

use crate::exprs::expression;
use crate::pats::{first_param, in_declarator};
use crate::spans::{Seen, behind, ends, first_in, span, told, told_at};
use crate::stmts::statement;
use crate::types::{element, in_type, key_of};
use es_syntax::{Item, Siblings};
use es_token::Token;
use es_view_expressions::function::{
    ClassHead, FunctionHead, plain_class, plain_function, typed_class, typed_function,
};
use es_view_statements::class::{Member, member_at};
use es_view_statements::decl::{Decl, Declarable, Variables, decl_at, declarable_at, variables_at};
use es_view_statements::param::{Signature, signature_at};
use es_view_statements::stmt::{Block, Stmt, block_at, stmt_at};
use es_view_types::names::{TypeParams, type_params_at};

/// The part of a declaration that the letter names.
pub fn in_declaration(letter: &str, tokens: &[Token], it: &Item<'_>) -> Option<Seen> {
    match decl_at(it)? {
        Decl::Function { is_async, parts } => in_function(
            letter,
            tokens,
            it,
            &plain_function(is_async, &parts),
        ),
        Decl::Class(parts) => in_class(letter, tokens, &plain_class(&parts)),
        Decl::Variables(variables) => in_variables(letter, tokens, &variables),
        Decl::Var { first, .. } => in_declarator(letter, tokens, &first),
        Decl::Using { first, .. } => in_declarator(letter, tokens, &first),
        Decl::Declared(inner) => in_declarable(letter, tokens, &inner),
        Decl::DeclaredVariables(variables) => in_variables(letter, tokens, &variables),
        Decl::Declarable(node) => in_declarable(letter, tokens, &node),
        Decl::Broken => None,
    }
}

fn in_variables(letter: &str, tokens: &[Token], it: &Item<'_>) -> Option<Seen> {
    match variables_at(it)? {
        Variables::Var { first, .. } => in_declarator(letter, tokens, &first),
        Variables::Using { first, .. } => in_declarator(letter, tokens, &first),
        Variables::Broken => None,
    }
}

fn in_declarable(letter: &str, tokens: &[Token], it: &Item<'_>) -> Option<Seen> {
    match declarable_at(it)? {
        Declarable::Function { is_async, parts } => in_function(
            letter,
            tokens,
            it,
            &typed_function(is_async, &parts),
        ),
        Declarable::Class { is_abstract, parts } => in_class(
            letter,
            tokens,
            &typed_class(is_abstract, &parts),
        ),
        Declarable::Enum { members, .. } => enum_member(tokens, &members.part(0)?.group()),
        Declarable::Interface {
            extends,
            members,
            ..
        } => match letter {
            "h" => told_at("Heritage", tokens, &extends.part(0)?),
            "K" => key_of(tokens, &first_in(&members)?),
            _ => element(tokens, &first_in(&members)?),
        },
        Declarable::Alias {
            type_params,
            ty,
            ..
        } => match letter {
            "y" => type_param(tokens, &type_params.part(0)?),
            _ => in_type(letter, tokens, &ty),
        },
        _ => statement(tokens, it),
    }
}

/// A key and its value, if it has one.
fn enum_member(tokens: &[Token], turn: &Siblings<'_>) -> Option<Seen> {
    let (from, to) = ends(&turn.part(0)?)?;
    let to = behind(&turn.group_at(1), to)?;
    Some(told("EnumMember", span(tokens, from, to)?))
}

/// The first of the parameters of a type: its modifiers, its name, its bound and its default.
fn type_param(tokens: &[Token], it: &Item<'_>) -> Option<Seen> {
    match type_params_at(it)? {
        TypeParams::Params { first, .. } => {
            let name = ends(&first.part(1)?)?;
            let from = match first_in(&first.group_at(0)) {
                Some(word) => ends(&word)?.0,
                None => name.0,
            };
            let to = behind(&first.group_at(3), behind(&first.group_at(2), name.1)?)?;
            Some(told("TypeParam", span(tokens, from, to)?))
        }
        TypeParams::Broken => None,
    }
}

/// The function itself, its first parameter or the pattern of that, the expression of its body, or its result.
fn in_function(
    letter: &str,
    tokens: &[Token],
    it: &Item<'_>,
    head: &FunctionHead<'_>,
) -> Option<Seen> {
    if letter == "u" {
        return told_at("Function", tokens, it);
    }
    match head {
        FunctionHead::Plain { params, body, .. } => match letter {
            "f" | "q" => first_param(letter, tokens, params),
            "r" => None,
            _ => first_of_body(tokens, body),
        },
        FunctionHead::Typed {
            signature,
            body,
            ..
        } => match letter {
            "f" | "q" | "r" => in_signature(letter, tokens, signature),
            _ => first_of_body(tokens, &body.part(0)?),
        },
        FunctionHead::Broken => None,
    }
}

fn in_signature(letter: &str, tokens: &[Token], it: &Item<'_>) -> Option<Seen> {
    match signature_at(it)? {
        Signature::Typed {
            params,
            return_type,
            ..
        } => match letter {
            "r" => in_type(letter, tokens, &return_type.part(0)?),
            _ => first_param(letter, tokens, &params),
        },
        Signature::Broken => None,
    }
}

fn first_of_body(tokens: &[Token], it: &Item<'_>) -> Option<Seen> {
    match block_at(it)? {
        Block::Block(stmts) => match stmt_at(&first_in(&stmts)?)? {
            Stmt::Expr(expr) => expression(tokens, &expr),
            _ => None,
        },
        Block::Broken => None,
    }
}

fn in_class(letter: &str, tokens: &[Token], head: &ClassHead<'_>) -> Option<Seen> {
    match head {
        ClassHead::Plain { members, .. } => in_member(letter, tokens, &first_in(members)?),
        ClassHead::Typed { members, .. } => in_member(letter, tokens, &first_in(members)?),
        ClassHead::Broken => None,
    }
}

/// The member itself, or with `f` the first parameter of a method.
fn in_member(letter: &str, tokens: &[Token], it: &Item<'_>) -> Option<Seen> {
    let view = member_at(it)?;
    match letter {
        "f" => member_param(tokens, &view),
        _ => told_at(member_kind(&view)?, tokens, it),
    }
}

fn member_param(tokens: &[Token], it: &Member<'_>) -> Option<Seen> {
    match it {
        Member::Method { params, .. } => first_param("f", tokens, params),
        Member::Accessor { params, .. } => first_param("f", tokens, params),
        Member::TypedMethod { signature, .. } => in_signature("f", tokens, signature),
        Member::TypedAccessor { signature, .. } => in_signature("f", tokens, signature),
        _ => None,
    }
}

fn member_kind(it: &Member<'_>) -> Option<&'static str> {
    match it {
        Member::Empty => Some("Empty"),
        Member::StaticBlock(_) => Some("StaticBlock"),
        Member::Method { .. } => Some("Method"),
        Member::Accessor { .. } => Some("Method"),
        Member::Field { .. } => Some("Prop"),
        Member::TypedMethod { .. } => Some("Method"),
        Member::TypedAccessor { .. } => Some("Method"),
        Member::TypedField { .. } => Some("Prop"),
        Member::Index { .. } => Some("TsIndexSignature"),
        Member::Broken => None,
    }
}
