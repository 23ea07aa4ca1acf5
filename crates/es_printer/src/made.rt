//! Tokens that no text has, by what they are.

ghost use Rattle.std.specs.Prelude.{◌≡◌};
ghost use Rattle.es_printer.specs.Made.{stand_of, kind_of, front_of, number_of};

use crate::piece::{Left, Right, Stand};
use crate::stand::{into, on_line, out};
use es_token::TokenKind;

/// A token that no text has.
#[derive(Clone, Copy, Debug, PartialEq, Eq)]
pub enum Made {
    Any,
    BigInt,
    Boolean,
    Const,
    Declare,
    Default,
    Export,
    Null,
    Number,
    Readonly,
    String,
    Typeof,
    Undefined,
    /// The name `RegExp`.
    RegExp,
    /// The name `_dts_` with this number.
    Name(u32),
    OpenParen,
    CloseParen,
    OpenBracket,
    CloseBracket,
    /// `{`, after which the line ends.
    OpenBrace,
    /// `}`, on a line of its own.
    CloseBrace,
    Colon,
    Comma,
    Question,
    Arrow,
    Ellipsis,
}

/// How it is placed on its line.
pub fn stand_of(made: Made) -> Stand
    ensures { result ≡ stand_of made }
{
    match made {
        Made::OpenParen | Made::Question => on_line(Left::Tight, Right::Tight),
        Made::CloseParen | Made::CloseBracket => on_line(Left::Never, Right::Tight),
        Made::OpenBracket | Made::Ellipsis => on_line(Left::Begins, Right::Tight),
        Made::OpenBrace => into(1, Left::Begins),
        Made::CloseBrace => out(1, Right::Ends),
        Made::Colon | Made::Comma => on_line(Left::Tight, Right::Apart),
        Made::Arrow => on_line(Left::Apart, Right::Apart),
        Made::Any
        | Made::BigInt
        | Made::Boolean
        | Made::Const
        | Made::Declare
        | Made::Default
        | Made::Export
        | Made::Null
        | Made::Number
        | Made::Readonly
        | Made::String
        | Made::Typeof
        | Made::Undefined
        | Made::RegExp
        | Made::Name(_) => on_line(Left::Word, Right::Word),
    }
}

/// What kind of token it is.
pub fn kind_of(made: Made) -> TokenKind
    ensures { result ≡ kind_of made }
{
    match made {
        Made::Any => TokenKind::AnyWord,
        Made::BigInt => TokenKind::BigintWord,
        Made::Boolean => TokenKind::BooleanWord,
        Made::Const => TokenKind::ConstWord,
        Made::Declare => TokenKind::DeclareWord,
        Made::Default => TokenKind::DefaultWord,
        Made::Export => TokenKind::ExportWord,
        Made::Null => TokenKind::NullWord,
        Made::Number => TokenKind::NumberWord,
        Made::Readonly => TokenKind::ReadonlyWord,
        Made::String => TokenKind::StringWord,
        Made::Typeof => TokenKind::TypeofWord,
        Made::Undefined => TokenKind::UndefinedWord,
        Made::RegExp => TokenKind::Name,
        Made::Name(_) => TokenKind::Name,
        Made::OpenParen => TokenKind::OpenParen,
        Made::CloseParen => TokenKind::CloseParen,
        Made::OpenBracket => TokenKind::OpenBracket,
        Made::CloseBracket => TokenKind::CloseBracket,
        Made::OpenBrace => TokenKind::OpenBrace,
        Made::CloseBrace => TokenKind::CloseBrace,
        Made::Colon => TokenKind::Colon,
        Made::Comma => TokenKind::Comma,
        Made::Question => TokenKind::Question,
        Made::Arrow => TokenKind::Arrow,
        Made::Ellipsis => TokenKind::Ellipsis,
    }
}

/// How it is spelled, without the number of a name.
pub fn front_of(made: Made) -> &'static str
    ensures { result.now ≡ front_of made }
{
    match made {
        Made::Any => "any",
        Made::BigInt => "bigint",
        Made::Boolean => "boolean",
        Made::Const => "const",
        Made::Declare => "declare",
        Made::Default => "default",
        Made::Export => "export",
        Made::Null => "null",
        Made::Number => "number",
        Made::Readonly => "readonly",
        Made::String => "string",
        Made::Typeof => "typeof",
        Made::Undefined => "undefined",
        Made::RegExp => "RegExp",
        Made::Name(_) => "_dts_",
        Made::OpenParen => "(",
        Made::CloseParen => ")",
        Made::OpenBracket => "[",
        Made::CloseBracket => "]",
        Made::OpenBrace => "{",
        Made::CloseBrace => "}",
        Made::Colon => ":",
        Made::Comma => ",",
        Made::Question => "?",
        Made::Arrow => "=>",
        Made::Ellipsis => "...",
    }
}

/// The number of a name.
pub fn number_of(made: Made) -> Option<u32>
    ensures { result ≡ number_of made }
{
    match made {
        Made::Name(number) => Some(number),
        Made::Any
        | Made::BigInt
        | Made::Boolean
        | Made::Const
        | Made::Declare
        | Made::Default
        | Made::Export
        | Made::Null
        | Made::Number
        | Made::Readonly
        | Made::String
        | Made::Typeof
        | Made::Undefined
        | Made::RegExp
        | Made::OpenParen
        | Made::CloseParen
        | Made::OpenBracket
        | Made::CloseBracket
        | Made::OpenBrace
        | Made::CloseBrace
        | Made::Colon
        | Made::Comma
        | Made::Question
        | Made::Arrow
        | Made::Ellipsis => None,
    }
}
