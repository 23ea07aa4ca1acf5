//! The kinds of expressions.

use crate::spans::{Last, Seen, last_in, span, told, told_at};
use es_syntax::{Item, Lean, Siblings};
use es_token::{Token, TokenKind};
use es_view_expressions::call::{Call, Post, call_at, post_at};
use es_view_expressions::expr::{Primary, primary_at};
use es_view_expressions::function::{Function, function_at};
use es_view_expressions::operator::{Chain, Operator, Turn, chain_at, operator_at, turn_at};

/// An expression, or the literal that it is.
pub fn expression(tokens: &[Token], it: &Item<'_>) -> Option<Seen> {
    told_at(expression_kind(tokens, it)?, tokens, it)
}

fn expression_kind(tokens: &[Token], it: &Item<'_>) -> Option<&'static str> {
    if let Some(view) = primary_at(it) {
        return primary_kind(tokens, &view);
    }
    if let Some(view) = operator_at(it) {
        return operator_kind(tokens, &view);
    }
    if let Some(chain) = chain_at(it) {
        return joined_kind(tokens, chain.lean, &last_turn(&chain));
    }
    if let Some(view) = call_at(it) {
        return call_kind(&view);
    }
    match function_at(it) {
        Some(view) => function_kind(&view),
        None => None,
    }
}

fn primary_kind(tokens: &[Token], it: &Primary<'_>) -> Option<&'static str> {
    match it {
        Primary::Ident(_) => Some("Ident"),
        Primary::Word(token) => word_kind(tokens.get(*token as usize)?.kind()),
        Primary::Number(token) => number_kind(tokens.get(*token as usize)?.kind()),
        Primary::Str(_) => Some("Str"),
        Primary::RegExp(_) => Some("Regex"),
        Primary::Template(_) => Some("Tpl"),
        Primary::TemplateParts { .. } => Some("Tpl"),
        Primary::Paren(_) => Some("Paren"),
        Primary::Array { .. } => Some("Array"),
        Primary::Object(_) => Some("Object"),
        Primary::Spread(_) => Some("Spread"),
        Primary::Broken => None,
    }
}

fn word_kind(kind: TokenKind) -> Option<&'static str> {
    match kind {
        TokenKind::ThisWord => Some("This"),
        TokenKind::NullWord => Some("Null"),
        TokenKind::TrueWord => Some("Bool"),
        TokenKind::FalseWord => Some("Bool"),
        _ => None,
    }
}

fn number_kind(kind: TokenKind) -> Option<&'static str> {
    match kind {
        TokenKind::Number => Some("Num"),
        TokenKind::BigInt => Some("BigInt"),
        _ => None,
    }
}

fn operator_kind(tokens: &[Token], it: &Operator<'_>) -> Option<&'static str> {
    match it {
        Operator::Prefix { .. } => Some("Update"),
        Operator::Postfix { .. } => Some("Update"),
        Operator::Unary { .. } => Some("Unary"),
        Operator::Await(_) => Some("Await"),
        Operator::Binary { .. } => Some("Bin"),
        Operator::PrivateIn { .. } => Some("Bin"),
        Operator::Conditional { .. } => Some("Cond"),
        Operator::Assignment { .. } => Some("Assign"),
        Operator::PatternAssignment { .. } => Some("Assign"),
        Operator::Yield(_) => Some("Yield"),
        Operator::TypedBinary { turn, .. } => turn_kind(tokens, turn),
        Operator::TypeAssertion { asserted, .. } => asserted_kind(asserted),
        Operator::Sequence { .. } => Some("Seq"),
        Operator::Broken => None,
    }
}

/// After an operand: `as` or `satisfies` with what it asserts in a group, or an operand alone.
fn turn_kind(tokens: &[Token], turn: &Siblings<'_>) -> Option<&'static str> {
    match turn.group_at(1).part(0) {
        Some(asserted) => match asserted.token() {
            Some(_) => Some("TsConstAssertion"),
            None => assertion_kind(tokens.get(turn.token_at(0)? as usize)?.kind()),
        },
        None => Some("Bin"),
    }
}

/// Before an operand: a type, or `const`.
fn asserted_kind(asserted: &Siblings<'_>) -> Option<&'static str> {
    match asserted.part(0)?.token() {
        Some(_) => Some("TsConstAssertion"),
        None => Some("TsAs"),
    }
}

/// What comes last in a chain of operators.
fn last_turn<'a>(chain: &Chain<'a>) -> Item<'a> {
    last_in(&chain.others).last.unwrap_or(chain.turn)
}

/// The node of a turn of a chain of operators.
fn joined_kind(tokens: &[Token], lean: Lean, turn: &Item<'_>) -> Option<&'static str> {
    match turn_at(lean, &turn.group()) {
        Turn::Operand(_) => Some("Bin"),
        Turn::Typed(group) => turn_kind(tokens, &group),
        Turn::Broken => None,
    }
}

/// What precedes the last operator of a chain: the nodes before it, or the first operand.
pub fn before_last(tokens: &[Token], chain: &Chain<'_>) -> Option<Seen> {
    match last_in(&chain.others) {
        Last { last: None, .. } => expression(tokens, &chain.first),
        Last { before, .. } => {
            let turn = before.unwrap_or(chain.turn);
            let kind = joined_kind(tokens, chain.lean, &turn)?;
            Some(told(kind, span(tokens, chain.from, turn.to)?))
        }
    }
}

fn assertion_kind(word: TokenKind) -> Option<&'static str> {
    match word {
        TokenKind::AsWord => Some("TsAs"),
        _ => Some("TsSatisfies"),
    }
}

fn call_kind(it: &Call<'_>) -> Option<&'static str> {
    match it {
        Call::Super => Some("Super"),
        Call::ImportMeta => Some("ImportMeta"),
        Call::NewTarget => Some("NewTarget"),
        Call::Import { .. } => Some("ImportCall"),
        Call::New { .. } => Some("New"),
        Call::Chain { first, others, .. } => post_kind(&last_post(first, others)?),
        Call::TypedNew { .. } => Some("New"),
        Call::Broken => None,
    }
}

/// What comes last in a chain.
pub fn last_post<'a>(first: &Item<'a>, others: &Siblings<'a>) -> Option<Item<'a>> {
    match last_in(others).last {
        Some(turn) => turn.group().part(0),
        None => Some(*first),
    }
}

/// What precedes that, if anything but the base does.
pub fn post_before<'a>(first: &Item<'a>, others: &Siblings<'a>) -> Option<Item<'a>> {
    match last_in(others) {
        Last {
            before: Some(turn),
            ..
        } => turn.group().part(0),
        Last { last: Some(_), .. } => Some(*first),
        _ => None,
    }
}

/// The kind of the expression that ends with this part of a chain.
pub fn post_kind(it: &Item<'_>) -> Option<&'static str> {
    match post_at(it)? {
        Post::Member(_) => Some("Member"),
        Post::Index(_) => Some("Index"),
        Post::Call(_) => Some("Call"),
        Post::Template(_) => Some("TaggedTpl"),
        Post::Optional(behind) => optional_kind(&behind),
        Post::TypedCall { .. } => Some("Call"),
        Post::TypedTemplate { .. } => Some("TaggedTpl"),
        Post::TypedOptional(behind) => optional_kind(&behind),
        Post::NonNull => Some("TsNonNull"),
        Post::Broken => None,
    }
}

/// After `?.` comes an index, or a group: of a name, or of a call.
fn optional_kind(behind: &Item<'_>) -> Option<&'static str> {
    match behind.place() {
        Some(_) => Some("Index"),
        None => match behind.group().token_at(0) {
            Some(_) => Some("Member"),
            None => Some("Call"),
        },
    }
}

fn function_kind(it: &Function<'_>) -> Option<&'static str> {
    match it {
        Function::Plain { .. } => Some("Fn"),
        Function::Typed { .. } => Some("Fn"),
        Function::Class(_) => Some("Class"),
        Function::TypedClass { .. } => Some("Class"),
        Function::NameArrow { .. } => Some("Arrow"),
        Function::Arrow { .. } => Some("Arrow"),
        Function::TypedArrow { .. } => Some("Arrow"),
        Function::Broken => None,
    }
}
