ghost use Rattle.std.specs.Prelude.{◌≡◌, ◌∷◌, ◌<◌, ℕ, List, length, IfSome};
ghost use Rattle.es_lexer.specs.Goal.{token_state};
ghost use Rattle.es_lexer.specs.Look.{look_at};
ghost use Rattle.es_lexer.specs.Short.{stop_kind, opener_kind, closer_kind, short_found, short_of, short_at};

use crate::bracket::BracketKind;
use crate::goal::{Goal, State, token_state};
use es_token::TokenKind;

/// A punctuator after which an expression may begin, and which is no bracket.
#[derive(Clone, Copy)]
pub enum Stop {
    Semicolon,
    Comma,
    Colon,
}

/// A punctuator of one byte that is given by that byte and the next one.
#[derive(Clone, Copy)]
pub enum Short {
    Stops(Stop),
    Dot,
    Opens(BracketKind),
    Closes(BracketKind),
}

/// The punctuator at the front of `text`, where it is such a one and two more bytes follow.
#[inline(always)]
pub fn short_sign(goal: Goal, text: &[u8]) -> Option<Short>
    ensures value { result ≡ short_at goal.bracket text.now }
    ensures found { IfSome result (λ short. (at : ℕ) → look_at goal at text.now ≡ short_found at short) }
    ensures room { IfSome result (λ short. 0 < length text.now) }
{
    match text {
        [b, c, _, ..] => short_before(goal, *b, *c),
        _ => None,
    }
}

/// The punctuator of this byte, before this one and a third.
#[inline(always)]
#[tactic(auto, unfolding(crate::specs::Short::short_of, crate::specs::Short::closing, crate::specs::Short::short_kind, crate::specs::Short::stop_kind, crate::specs::Short::opener_kind, crate::specs::Short::closer_kind, crate::specs::Look::look_at, crate::specs::Look::class_look, crate::specs::Look::sign_look, crate::specs::Look::brace_look, crate::specs::Look::dot_look, crate::specs::Goal::begins_digit, crate::specs::Bytes::first_of, crate::specs::Brackets::is_open, crate::specs::Brackets::may_close, crate::specs::Brackets::role_of, crate::specs::Signs::sign_at, crate::specs::Signs::sign_kind, crate::specs::Signs::sign_in, crate::specs::Signs::signs_of_one, crate::specs::Signs::signs_of_two, crate::specs::Signs::signs_of_three, crate::specs::Signs::two_before, crate::specs::Signs::sized))]
fn short_before(goal: Goal, b: u8, c: u8) -> Option<Short>
    ensures value { result ≡ short_of goal.bracket b c }
    ensures found { IfSome result (λ short. (at d : ℕ) (rest : List ℕ) → look_at goal at (b ∷ c ∷ d ∷ rest) ≡ short_found at short) }
{
    match b {
        b';' => Some(Short::Stops(Stop::Semicolon)),
        b',' => Some(Short::Stops(Stop::Comma)),
        b':' => Some(Short::Stops(Stop::Colon)),
        b'.' => {
            if c.is_ascii_digit() || c == b'.' {
                None
            } else {
                Some(Short::Dot)
            }
        }
        b'(' => Some(Short::Opens(BracketKind::Round)),
        b'[' => Some(Short::Opens(BracketKind::Square)),
        b'{' => Some(Short::Opens(BracketKind::Curly)),
        b')' => match goal.bracket {
            Some(BracketKind::Round) => Some(Short::Closes(BracketKind::Round)),
            _ => None,
        },
        b']' => match goal.bracket {
            Some(BracketKind::Square) => Some(Short::Closes(BracketKind::Square)),
            _ => None,
        },
        b'}' => match goal.bracket {
            Some(BracketKind::Curly) => Some(Short::Closes(BracketKind::Curly)),
            _ => None,
        },
        _ => None,
    }
}

#[tactic(auto, unfolding(crate::specs::Short::stop_kind))]
pub fn stop_kind(stop: Stop) -> TokenKind
    ensures { result ≡ stop_kind stop }
{
    match stop {
        Stop::Semicolon => TokenKind::Semicolon,
        Stop::Comma => TokenKind::Comma,
        Stop::Colon => TokenKind::Colon,
    }
}

#[tactic(auto, unfolding(crate::specs::Short::opener_kind))]
pub fn opener_kind(bracket: BracketKind) -> TokenKind
    ensures { result ≡ opener_kind bracket }
{
    match bracket {
        BracketKind::Round => TokenKind::OpenParen,
        BracketKind::Square => TokenKind::OpenBracket,
        BracketKind::Curly => TokenKind::OpenBrace,
        BracketKind::Template => TokenKind::TemplateHead,
    }
}

#[tactic(auto, unfolding(crate::specs::Short::closer_kind))]
pub fn closer_kind(bracket: BracketKind) -> TokenKind
    ensures { result ≡ closer_kind bracket }
{
    match bracket {
        BracketKind::Round => TokenKind::CloseParen,
        BracketKind::Square => TokenKind::CloseBracket,
        BracketKind::Curly => TokenKind::CloseBrace,
        BracketKind::Template => TokenKind::TemplateTail,
    }
}

/// The state after such a punctuator: the same for all three.
#[tactic(auto, unfolding(crate::specs::Short::stop_kind))]
pub fn stop_state(state: State, stop: Stop, headed: bool) -> State
    ensures { result ≡ token_state state (stop_kind stop) headed }
{
    match stop {
        Stop::Semicolon => token_state(state, TokenKind::Semicolon, headed),
        Stop::Comma => token_state(state, TokenKind::Comma, headed),
        Stop::Colon => token_state(state, TokenKind::Colon, headed),
    }
}

/// The state after a bracket that opens.
#[tactic(auto, unfolding(crate::specs::Short::opener_kind))]
pub fn opener_state(state: State, bracket: BracketKind, headed: bool) -> State
    ensures { result ≡ token_state state (opener_kind bracket) headed }
{
    match bracket {
        BracketKind::Round => token_state(state, TokenKind::OpenParen, headed),
        BracketKind::Square => token_state(state, TokenKind::OpenBracket, headed),
        BracketKind::Curly => token_state(state, TokenKind::OpenBrace, headed),
        BracketKind::Template => token_state(state, TokenKind::TemplateHead, headed),
    }
}

/// The state after a bracket that closes.
#[tactic(auto, unfolding(crate::specs::Short::closer_kind))]
pub fn closer_state(state: State, bracket: BracketKind, headed: bool) -> State
    ensures { result ≡ token_state state (closer_kind bracket) headed }
{
    match bracket {
        BracketKind::Round => token_state(state, TokenKind::CloseParen, headed),
        BracketKind::Square => token_state(state, TokenKind::CloseBracket, headed),
        BracketKind::Curly => token_state(state, TokenKind::CloseBrace, headed),
        BracketKind::Template => token_state(state, TokenKind::TemplateTail, headed),
    }
}
