ghost use Rattle.std.specs.Prelude.{◌≡◌, ℕ, [], ◌∷◌};
ghost use Rattle.es_lexer.specs.Signs.{sign_kind, sized, two_before, longest, single, sign_at};

use es_token::TokenKind;

/// A punctuator at the front of a text.
#[derive(Clone, Copy)]
pub struct Sign {
    pub kind: TokenKind,
    /// In bytes.
    pub size: usize,
}

/// The longest punctuator at the front of a text.
#[tactic(auto, unfolding(crate::specs::Signs::sign_at))]
pub fn sign_at(text: &[u8]) -> Option<Sign>
    ensures { result ≡ sign_at text.now }
{
    match text {
        [] => None,
        [a] => sized(1, one_byte(*a), None),
        [a, b] => sized(2, two_bytes(*a, *b), sized(1, one_byte(*a), None)),
        [a, b, c, ..] => sign_before(*a, *b, *c),
    }
}

/// The longest punctuator that begins three bytes, with a short way for a byte with which no longer one begins.
#[tactic(auto, unfolding(crate::specs::Signs::sign_kind, crate::specs::Signs::sign_in, crate::specs::Signs::signs_of_one, crate::specs::Signs::signs_of_two, crate::specs::Signs::signs_of_three, crate::specs::Signs::two_before, crate::specs::Signs::sized))]
fn sign_before(a: u8, b: u8, c: u8) -> Option<Sign>
    ensures { result ≡ longest a b c }
{
    match a {
        b'{' => single(TokenKind::OpenBrace),
        b'}' => single(TokenKind::CloseBrace),
        b'(' => single(TokenKind::OpenParen),
        b')' => single(TokenKind::CloseParen),
        b'[' => single(TokenKind::OpenBracket),
        b']' => single(TokenKind::CloseBracket),
        b';' => single(TokenKind::Semicolon),
        b',' => single(TokenKind::Comma),
        b'>' => single(TokenKind::Greater),
        b'~' => single(TokenKind::Tilde),
        b':' => single(TokenKind::Colon),
        _ => longest(a, b, c),
    }
}

fn single(kind: TokenKind) -> Option<Sign>
    ensures { result ≡ single kind }
{
    Some(Sign { kind, size: 1 })
}

/// The longest punctuator that begins three bytes.
#[tactic(auto, unfolding(crate::specs::Signs::sized))]
fn longest(a: u8, b: u8, c: u8) -> Option<Sign>
    ensures { result ≡ longest a b c }
{
    match three_bytes(a, b, c) {
        Some(kind) => Some(Sign { kind, size: 3 }),
        None => sized(2, two_before(a, b, c), sized(1, one_byte(a), None)),
    }
}

#[tactic(auto, unfolding(crate::specs::Signs::sized))]
fn sized(size: usize, kind: Option<TokenKind>, other: Option<Sign>) -> Option<Sign>
    ensures { result ≡ sized size kind other }
{
    match kind {
        Some(kind) => Some(Sign { kind, size }),
        None => other,
    }
}

/// The punctuator of two bytes before a third: `?.` is none before a digit.
#[tactic(auto, unfolding(crate::specs::Signs::two_before))]
fn two_before(a: u8, b: u8, c: u8) -> Option<TokenKind>
    ensures { result ≡ two_before a b c }
{
    if a == b'?' && b == b'.' && c.is_ascii_digit() {
        None
    } else {
        two_bytes(a, b)
    }
}

#[tactic(auto, unfolding(crate::specs::Signs::sign_kind, crate::specs::Signs::sign_in, crate::specs::Signs::signs_of_one))]
fn one_byte(a: u8) -> Option<TokenKind>
    ensures { result ≡ sign_kind (a ∷ []) }
{
    match a {
        b'{' => Some(TokenKind::OpenBrace),
        b'}' => Some(TokenKind::CloseBrace),
        b'(' => Some(TokenKind::OpenParen),
        b')' => Some(TokenKind::CloseParen),
        b'[' => Some(TokenKind::OpenBracket),
        b']' => Some(TokenKind::CloseBracket),
        b';' => Some(TokenKind::Semicolon),
        b',' => Some(TokenKind::Comma),
        b'.' => Some(TokenKind::Dot),
        b'<' => Some(TokenKind::Less),
        b'>' => Some(TokenKind::Greater),
        b'=' => Some(TokenKind::Equal),
        b'+' => Some(TokenKind::Plus),
        b'-' => Some(TokenKind::Minus),
        b'*' => Some(TokenKind::Star),
        b'/' => Some(TokenKind::Slash),
        b'%' => Some(TokenKind::Percent),
        b'&' => Some(TokenKind::Ampersand),
        b'|' => Some(TokenKind::Bar),
        b'^' => Some(TokenKind::Caret),
        b'!' => Some(TokenKind::Exclamation),
        b'~' => Some(TokenKind::Tilde),
        b'?' => Some(TokenKind::Question),
        b':' => Some(TokenKind::Colon),
        _ => None,
    }
}

#[tactic(auto, unfolding(crate::specs::Signs::sign_kind, crate::specs::Signs::sign_in, crate::specs::Signs::signs_of_two))]
fn two_bytes(a: u8, b: u8) -> Option<TokenKind>
    ensures { result ≡ sign_kind (a ∷ b ∷ []) }
{
    match (a, b) {
        (b'<', b'=') => Some(TokenKind::LessEqual),
        (b'=', b'=') => Some(TokenKind::EqualEqual),
        (b'!', b'=') => Some(TokenKind::NotEqual),
        (b'*', b'*') => Some(TokenKind::StarStar),
        (b'+', b'+') => Some(TokenKind::PlusPlus),
        (b'-', b'-') => Some(TokenKind::MinusMinus),
        (b'<', b'<') => Some(TokenKind::LessLess),
        (b'&', b'&') => Some(TokenKind::AmpersandAmpersand),
        (b'|', b'|') => Some(TokenKind::BarBar),
        (b'?', b'?') => Some(TokenKind::QuestionQuestion),
        (b'?', b'.') => Some(TokenKind::QuestionDot),
        (b'+', b'=') => Some(TokenKind::PlusEqual),
        (b'-', b'=') => Some(TokenKind::MinusEqual),
        (b'*', b'=') => Some(TokenKind::StarEqual),
        (b'/', b'=') => Some(TokenKind::SlashEqual),
        (b'%', b'=') => Some(TokenKind::PercentEqual),
        (b'&', b'=') => Some(TokenKind::AmpersandEqual),
        (b'|', b'=') => Some(TokenKind::BarEqual),
        (b'^', b'=') => Some(TokenKind::CaretEqual),
        (b'=', b'>') => Some(TokenKind::Arrow),
        _ => None,
    }
}

#[tactic(auto, unfolding(crate::specs::Signs::sign_kind, crate::specs::Signs::sign_in, crate::specs::Signs::signs_of_three))]
fn three_bytes(a: u8, b: u8, c: u8) -> Option<TokenKind>
    ensures { result ≡ sign_kind (a ∷ b ∷ c ∷ []) }
{
    match (a, b, c) {
        (b'.', b'.', b'.') => Some(TokenKind::Ellipsis),
        (b'=', b'=', b'=') => Some(TokenKind::EqualEqualEqual),
        (b'!', b'=', b'=') => Some(TokenKind::NotEqualEqual),
        (b'*', b'*', b'=') => Some(TokenKind::StarStarEqual),
        (b'<', b'<', b'=') => Some(TokenKind::LessLessEqual),
        (b'&', b'&', b'=') => Some(TokenKind::AmpersandAmpersandEqual),
        (b'|', b'|', b'=') => Some(TokenKind::BarBarEqual),
        (b'?', b'?', b'=') => Some(TokenKind::QuestionQuestionEqual),
        _ => None,
    }
}
