//! How the tokens that belong to a node and to none of its parts are placed.

ghost use Rattle.std.specs.Prelude.{◌≡◌, slice_get};
ghost use Rattle.es_grammar.specs.types.Words.{is_word};
ghost use Rattle.es_printer.specs.Own.{on_line, into, out, kind_is, is_closer, operator, is_literal, is_prefix, is_tight, closes, starred, prefix, question, colon, bracket, parenthesis, sign, piece, head, plain, by_kind, opening, closing, comma, semicolon, is_trailing, listed, stand};

use crate::piece::{Left, Right, Stand};
use crate::style::Style;
use es_token::{Token, TokenKind};

// ---- how a token is placed

pub fn on_line(left: Left, right: Right) -> Stand
    ensures { result ≡ on_line left right }
{
    Stand {
        out: None,
        left,
        right,
        into: None,
    }
}

/// The line ends after it.
pub fn into(deeper: u8, left: Left) -> Stand
    ensures { result ≡ into deeper left }
{
    Stand {
        out: None,
        left,
        right: Right::Tight,
        into: Some(deeper),
    }
}

/// The line ends before it.
pub fn out(less: u8, right: Right) -> Stand
    ensures { result ≡ out less right }
{
    Stand {
        out: Some(less),
        left: Left::Never,
        right,
        into: None,
    }
}

// ---- tokens by their kinds

#[inline(always)]
pub fn kind_is(tokens: &[Token], at: usize, kind: TokenKind) -> bool
    ensures { result ≡ kind_is kind (slice_get tokens.now at) }
{
    match tokens.get(at) {
        Some(token) => token.kind() == kind,
        None => false,
    }
}

#[tactic(auto, unfolding(crate::specs::Own::is_closer))]
fn is_closer(tokens: &[Token], at: usize) -> bool
    ensures { result ≡ is_closer (slice_get tokens.now at) }
{
    kind_is(tokens, at, TokenKind::CloseParen)
        || kind_is(tokens, at, TokenKind::CloseBracket)
        || kind_is(tokens, at, TokenKind::CloseBrace)
        || kind_is(tokens, at, TokenKind::Greater)
}

#[tactic(auto, unfolding(es_grammar::specs::types::Words::is_word))]
fn is_word(kind: TokenKind) -> bool
    ensures { result ≡ is_word kind }
{
    let number = kind as u8;
    kind == TokenKind::Name
        || (TokenKind::AwaitWord as u8 <= number && number <= TokenKind::UsingWord as u8)
}

#[tactic(auto, unfolding(crate::specs::Own::is_literal))]
fn is_literal(kind: TokenKind) -> bool
    ensures { result ≡ is_literal kind }
{
    kind == TokenKind::Number
        || kind == TokenKind::BigInt
        || kind == TokenKind::Str
        || kind == TokenKind::RegExp
        || kind == TokenKind::TemplateWhole
}

#[tactic(auto, unfolding(crate::specs::Own::is_prefix))]
fn is_prefix(kind: TokenKind) -> bool
    ensures { result ≡ is_prefix kind }
{
    kind == TokenKind::Plus
        || kind == TokenKind::Minus
        || kind == TokenKind::Exclamation
        || kind == TokenKind::Tilde
        || kind == TokenKind::PlusPlus
        || kind == TokenKind::MinusMinus
}

#[tactic(auto, unfolding(crate::specs::Own::is_tight))]
fn is_tight(kind: TokenKind) -> bool
    ensures { result ≡ is_tight kind }
{
    kind == TokenKind::Dot
        || kind == TokenKind::QuestionDot
        || kind == TokenKind::Less
        || kind == TokenKind::LessLess
}

#[tactic(auto, unfolding(crate::specs::Own::closes))]
fn closes(kind: TokenKind) -> bool
    ensures { result ≡ closes kind }
{
    kind == TokenKind::CloseParen || kind == TokenKind::CloseBracket || kind == TokenKind::Greater
}

// ---- signs and words

#[tactic(auto, unfolding(crate::specs::Own::operator))]
fn operator(kind: TokenKind) -> Stand
    ensures { result ≡ operator kind }
{
    if kind == TokenKind::Greater || kind == TokenKind::Equal {
        on_line(Left::Run, Right::Run)
    } else if kind == TokenKind::ConstWord || kind == TokenKind::PrivateName {
        on_line(Left::Word, Right::Word)
    } else {
        on_line(Left::Apart, Right::Apart)
    }
}

#[tactic(auto, unfolding(crate::specs::Own::starred))]
fn starred(style: Style) -> Stand
    ensures { result ≡ starred style }
{
    if style == Style::Star {
        on_line(Left::Apart, Right::Apart)
    } else {
        on_line(Left::Tight, Right::Tight)
    }
}

#[tactic(auto, unfolding(crate::specs::Own::prefix))]
fn prefix(style: Style) -> Stand
    ensures { result ≡ prefix style }
{
    if style == Style::Prefix {
        on_line(Left::Begins, Right::Tight)
    } else {
        on_line(Left::Tight, Right::Tight)
    }
}

#[tactic(auto, unfolding(crate::specs::Own::question))]
fn question(style: Style) -> Stand
    ensures { result ≡ question style }
{
    if style == Style::Question {
        on_line(Left::Apart, Right::Apart)
    } else {
        on_line(Left::Tight, Right::Tight)
    }
}

#[tactic(auto, unfolding(crate::specs::Own::colon))]
fn colon(style: Style) -> Stand
    ensures { result ≡ colon style }
{
    if style == Style::Question {
        on_line(Left::Apart, Right::Apart)
    } else if style == Style::Cases {
        into(1, Left::Tight)
    } else {
        on_line(Left::Tight, Right::Apart)
    }
}

#[tactic(auto, unfolding(crate::specs::Own::bracket))]
fn bracket(style: Style) -> Stand
    ensures { result ≡ bracket style }
{
    if style == Style::Index {
        on_line(Left::Tight, Right::Tight)
    } else {
        on_line(Left::Begins, Right::Tight)
    }
}

#[tactic(auto, unfolding(crate::specs::Own::parenthesis))]
fn parenthesis(style: Style) -> Stand
    ensures { result ≡ parenthesis style }
{
    if style == Style::Loop || style == Style::Condition || style == Style::Cases {
        on_line(Left::Apart, Right::Tight)
    } else {
        on_line(Left::Tight, Right::Tight)
    }
}

#[tactic(auto, unfolding(crate::specs::Own::sign))]
fn sign(style: Style, kind: TokenKind) -> Stand
    ensures { result ≡ sign style kind }
{
    if is_prefix(kind) {
        prefix(style)
    } else if is_tight(kind) {
        prefix(style)
    } else if closes(kind) {
        on_line(Left::Never, Right::Tight)
    } else if kind == TokenKind::Star {
        starred(style)
    } else if kind == TokenKind::Question {
        question(style)
    } else if kind == TokenKind::Colon {
        colon(style)
    } else if kind == TokenKind::OpenBracket {
        bracket(style)
    } else if kind == TokenKind::OpenParen {
        parenthesis(style)
    } else if kind == TokenKind::Ellipsis {
        on_line(Left::Begins, Right::Tight)
    } else {
        on_line(Left::Apart, Right::Apart)
    }
}

/// A piece of a template, and the line of a program that begins with `#!`.
#[tactic(auto, unfolding(crate::specs::Own::piece))]
fn piece(style: Style, kind: TokenKind) -> Stand
    ensures { result ≡ piece style kind }
{
    if kind == TokenKind::TemplateHead {
        on_line(Left::Begins, Right::Tight)
    } else if kind == TokenKind::TemplateMiddle {
        on_line(Left::Never, Right::Tight)
    } else if kind == TokenKind::TemplateTail {
        on_line(Left::Never, Right::Ends)
    } else if kind == TokenKind::Shebang {
        into(0, Left::Begins)
    } else {
        sign(style, kind)
    }
}

/// `case` and `default` of a `switch` are less deep than what follows them.
#[tactic(auto, unfolding(crate::specs::Own::head))]
fn head(style: Style, kind: TokenKind) -> Stand
    ensures { result ≡ head style kind }
{
    if style == Style::Cases && (kind == TokenKind::CaseWord || kind == TokenKind::DefaultWord) {
        return Stand {
            out: Some(1),
            left: Left::Word,
            right: Right::Word,
            into: None,
        };
    }
    on_line(Left::Word, Right::Word)
}

/// A token that is no brace, no `,` and no `;`.
#[tactic(auto, unfolding(crate::specs::Own::plain))]
fn plain(style: Style, kind: TokenKind) -> Stand
    ensures { result ≡ plain style kind }
{
    if is_word(kind) || kind == TokenKind::PrivateName {
        head(style, kind)
    } else if is_literal(kind) {
        on_line(Left::Begins, Right::Ends)
    } else {
        piece(style, kind)
    }
}

#[tactic(auto, unfolding(crate::specs::Own::by_kind))]
fn by_kind(style: Style, kind: TokenKind) -> Stand
    ensures { result ≡ by_kind style kind }
{
    if style == Style::Operator {
        return operator(kind);
    }
    plain(style, kind)
}

// ---- braces, `,` and `;`

fn opening(style: Style, is_empty: bool) -> Stand
    ensures { result ≡ opening style is_empty }
{
    match style {
        Style::Inline => {
            if is_empty {
                on_line(Left::Begins, Right::Tight)
            } else {
                on_line(Left::Begins, Right::Apart)
            }
        }
        Style::Block => {
            if is_empty {
                on_line(Left::Apart, Right::Tight)
            } else {
                into(1, Left::Apart)
            }
        }
        Style::Object => {
            if is_empty {
                on_line(Left::Begins, Right::Tight)
            } else {
                into(1, Left::Begins)
            }
        }
        Style::Types => into(1, Left::Begins),
        Style::Body | Style::Fields | Style::Enum => into(1, Left::Apart),
        Style::Cases => into(2, Left::Apart),
        Style::Plain
        | Style::Program
        | Style::Member
        | Style::Star
        | Style::Empty
        | Style::Loop
        | Style::Condition
        | Style::Operator
        | Style::Prefix
        | Style::Index
        | Style::Question
        | Style::Tag
        | Style::Path => on_line(Left::Begins, Right::Tight),
    }
}

fn closing(style: Style, is_empty: bool) -> Stand
    ensures { result ≡ closing style is_empty }
{
    match style {
        Style::Inline => {
            if is_empty {
                on_line(Left::Never, Right::Ends)
            } else {
                on_line(Left::Apart, Right::Ends)
            }
        }
        Style::Block => {
            if is_empty {
                on_line(Left::Never, Right::Body)
            } else {
                out(1, Right::Body)
            }
        }
        Style::Object => {
            if is_empty {
                on_line(Left::Never, Right::Ends)
            } else {
                out(1, Right::Ends)
            }
        }
        Style::Types => out(1, Right::Ends),
        Style::Body | Style::Fields | Style::Enum => out(1, Right::Body),
        Style::Cases => out(2, Right::Body),
        Style::Plain
        | Style::Program
        | Style::Member
        | Style::Star
        | Style::Empty
        | Style::Loop
        | Style::Condition
        | Style::Operator
        | Style::Prefix
        | Style::Index
        | Style::Question
        | Style::Tag
        | Style::Path => on_line(Left::Never, Right::Ends),
    }
}

#[tactic(auto, unfolding(crate::specs::Own::comma))]
fn comma(style: Style) -> Option<Stand>
    ensures { result ≡ comma style }
{
    if style == Style::Member {
        None
    } else if style == Style::Object || style == Style::Enum {
        Some(into(0, Left::Tight))
    } else {
        Some(on_line(Left::Tight, Right::Apart))
    }
}

#[tactic(auto, unfolding(crate::specs::Own::semicolon))]
fn semicolon(style: Style) -> Option<Stand>
    ensures { result ≡ semicolon style }
{
    if style == Style::Empty || style == Style::Loop {
        return Some(on_line(Left::Never, Right::Tight));
    }
    None
}

/// A `,` before the closer of its list, which isn't that of a hole.
#[tactic(auto, unfolding(crate::specs::Own::is_trailing))]
fn is_trailing(tokens: &[Token], at: u32) -> bool
    ensures { result ≡ is_trailing tokens.now at }
{
    let before = at.saturating_sub(1) as usize;
    is_closer(tokens, at as usize + 1)
        && !(kind_is(tokens, before, TokenKind::Comma)
            || kind_is(tokens, before, TokenKind::OpenBracket))
}

fn listed(tokens: &[Token], style: Style, at: u32) -> Option<Stand>
    ensures { result ≡ listed tokens.now style at }
{
    if is_trailing(tokens, at) {
        return None;
    }
    comma(style)
}

/// How a token of this kind is placed, if it is printed.
#[inline(always)]
#[tactic(auto, unfolding(crate::specs::Own::stand))]
pub fn stand(tokens: &[Token], style: Style, kind: TokenKind, at: u32) -> Option<Stand>
    ensures { result ≡ stand tokens.now style kind at }
{
    if kind == TokenKind::Semicolon {
        semicolon(style)
    } else if kind == TokenKind::Comma {
        listed(tokens, style, at)
    } else if kind == TokenKind::OpenBrace {
        Some(opening(
            style,
            kind_is(tokens, at as usize + 1, TokenKind::CloseBrace),
        ))
    } else if kind == TokenKind::CloseBrace {
        let before = at.saturating_sub(1) as usize;
        Some(closing(style, kind_is(tokens, before, TokenKind::OpenBrace)))
    } else {
        Some(by_kind(style, kind))
    }
}
