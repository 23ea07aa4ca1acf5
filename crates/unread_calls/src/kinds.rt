//! Kinds of tokens that tell a call.
ghost use Rattle.std.specs.Prelude.{◌≡◌};
ghost use Rattle.unread_calls.specs.Kinds as spec;

use es_token::TokenKind;

/// `(`
pub fn is_opening(kind: Option<TokenKind>) -> bool
    ensures { result ≡ spec.is_opening kind }
{
    matches!(kind, Some(TokenKind::OpenParen))
}

/// `)`
pub fn is_closing(kind: Option<TokenKind>) -> bool
    ensures { result ≡ spec.is_closing kind }
{
    matches!(kind, Some(TokenKind::CloseParen))
}

/// `)` or `,`
pub fn ends_argument(kind: Option<TokenKind>) -> bool
    ensures { result ≡ spec.ends_argument kind }
{
    matches!(kind, Some(TokenKind::CloseParen | TokenKind::Comma))
}

/// A string literal.
pub fn is_string(kind: Option<TokenKind>) -> bool
    ensures { result ≡ spec.is_string kind }
{
    matches!(kind, Some(TokenKind::Str))
}

/// `:`
pub fn is_colon(kind: Option<TokenKind>) -> bool
    ensures { result ≡ spec.is_colon kind }
{
    matches!(kind, Some(TokenKind::Colon))
}

/// `{`
pub fn is_brace(kind: TokenKind) -> bool
    ensures { result ≡ spec.is_brace kind }
{
    matches!(kind, TokenKind::OpenBrace)
}

/// `=`
pub fn is_equal(kind: Option<TokenKind>) -> bool
    ensures { result ≡ spec.is_equal kind }
{
    matches!(kind, Some(TokenKind::Equal))
}

/// `.`, `?.` or `function`: a word after it is a name.
pub fn names(kind: Option<TokenKind>) -> bool
    ensures { result ≡ spec.names kind }
{
    matches!(
        kind,
        Some(TokenKind::Dot | TokenKind::QuestionDot | TokenKind::FunctionWord)
    )
}

/// `extends` or `new`: a `{` may follow a call.
pub fn is_heritage(kind: Option<TokenKind>) -> bool
    ensures { result ≡ spec.is_heritage kind }
{
    matches!(kind, Some(TokenKind::ExtendsWord | TokenKind::NewWord))
}

/// `import` or `type`, in front of the name that an import-equals declares.
pub fn declares(kind: Option<TokenKind>) -> bool
    ensures { result ≡ spec.declares kind }
{
    matches!(kind, Some(TokenKind::ImportWord | TokenKind::TypeWord))
}

/// `.`
pub fn is_dot(kind: Option<TokenKind>) -> bool
    ensures { result ≡ spec.is_dot kind }
{
    matches!(kind, Some(TokenKind::Dot))
}

/// `import`
pub fn is_import(kind: Option<TokenKind>) -> bool
    ensures { result ≡ spec.is_import kind }
{
    matches!(kind, Some(TokenKind::ImportWord))
}

/// `source` or `defer`.
pub fn is_phase(kind: Option<TokenKind>) -> bool
    ensures { result ≡ spec.is_phase kind }
{
    matches!(kind, Some(TokenKind::SourceWord | TokenKind::DeferWord))
}
