ghost use Rattle.std.specs.Prelude.{◌≡◌, ◌++◌, [], ◌∷◌, length, reverse, OnOk, IfOk};
ghost use Rattle.es_token.specs.declared.token.TokenKind.TheVariants as kinds;
ghost use Rattle.es_lexer.specs.declared.bracket.Role.TheVariants.{Opens, Closes, Plain};
ghost use Rattle.es_lexer.specs.Brackets.{role_of};
ghost use Rattle.es_lexer.specs.Goal.{token_state};
ghost use Rattle.es_lexer.specs.Short.{stop_kind, opener_kind, closer_kind, short_kind, short_role};
ghost use Rattle.es_lexer.specs.Scan.{innermost, closed_of, left_of, pushed, joined, numbered, is_headed, token_with};

use crate::bracket::{BracketKind, OpenBracket, Role, role_of};
use crate::goal::{State, token_state};
use crate::short::{
    Short, Stop, closer_kind, closer_state, opener_kind, opener_state, stop_kind, stop_state,
};
use base::{Items, Range};
use es_token::{Token, TokenKind};
use std::alloc::AllocError;

/// The kind of the innermost open bracket, which comes last.
pub fn innermost(brackets: &Items<OpenBracket>) -> Option<BracketKind>
    ensures { result ≡ innermost (reverse brackets.now) }
{
    match brackets.as_slice().last() {
        Some(bracket) => Some(bracket.kind),
        None => None,
    }
}

/// Appends a word, and returns the state after it.
#[inline(always)]
pub fn push_word(
    tokens: &mut Items<Token>,
    brackets: &mut Items<OpenBracket>,
    state: State,
    kind: TokenKind,
    range: Range,
) -> Result<State, AllocError>
    ensures state { IfOk result (λ next. next ≡ token_state state kind (is_headed (closed_of (role_of kind) (reverse brackets.old)))) }
    ensures tokens { OnOk result (tokens.new ≡ joined (closed_of (role_of kind) (reverse brackets.old)) (length tokens.old) tokens.old ++ token_with kind range state.line (role_of kind) (closed_of (role_of kind) (reverse brackets.old)) ∷ []) }
    ensures brackets { OnOk result (reverse brackets.new ≡ pushed (role_of kind) (length tokens.old) state.headed (left_of (role_of kind) (reverse brackets.old))) }
{
    match kind {
        TokenKind::Name => push_known(tokens, brackets, state, TokenKind::Name, range),
        kind => push_known(tokens, brackets, state, kind, range),
    }
}

/// Appends a token of this kind, and returns the state after it.
#[inline(always)]
fn push_known(
    tokens: &mut Items<Token>,
    brackets: &mut Items<OpenBracket>,
    state: State,
    kind: TokenKind,
    range: Range,
) -> Result<State, AllocError>
    ensures state { IfOk result (λ next. next ≡ token_state state kind (is_headed (closed_of (role_of kind) (reverse brackets.old)))) }
    ensures tokens { OnOk result (tokens.new ≡ joined (closed_of (role_of kind) (reverse brackets.old)) (length tokens.old) tokens.old ++ token_with kind range state.line (role_of kind) (closed_of (role_of kind) (reverse brackets.old)) ∷ []) }
    ensures brackets { OnOk result (reverse brackets.new ≡ pushed (role_of kind) (length tokens.old) state.headed (left_of (role_of kind) (reverse brackets.old))) }
{
    let headed = push_token(tokens, brackets, state, kind, range)?;
    Ok(token_state(state, kind, headed))
}

/// Appends a punctuator, and returns the state after it.
#[inline(always)]
#[tactic(auto, unfolding(crate::specs::Short::short_kind, crate::specs::Short::short_role))]
pub fn push_short(
    tokens: &mut Items<Token>,
    brackets: &mut Items<OpenBracket>,
    state: State,
    short: Short,
    range: Range,
) -> Result<State, AllocError>
    ensures state { IfOk result (λ next. next ≡ token_state state (short_kind short) (is_headed (closed_of (short_role short) (reverse brackets.old)))) }
    ensures tokens { OnOk result (tokens.new ≡ joined (closed_of (short_role short) (reverse brackets.old)) (length tokens.old) tokens.old ++ token_with (short_kind short) range state.line (short_role short) (closed_of (short_role short) (reverse brackets.old)) ∷ []) }
    ensures brackets { OnOk result (reverse brackets.new ≡ pushed (short_role short) (length tokens.old) state.headed (left_of (short_role short) (reverse brackets.old))) }
{
    match short {
        Short::Stops(stop) => push_stop(tokens, brackets, state, stop, range),
        Short::Dot => push_dot(tokens, brackets, state, range),
        Short::Opens(bracket) => push_opener(tokens, brackets, state, bracket, range),
        Short::Closes(bracket) => push_closer(tokens, brackets, state, bracket, range),
    }
}

#[inline(always)]
fn push_stop(
    tokens: &mut Items<Token>,
    brackets: &mut Items<OpenBracket>,
    state: State,
    stop: Stop,
    range: Range,
) -> Result<State, AllocError>
    ensures state { IfOk result (λ next. next ≡ token_state state (stop_kind stop) (is_headed (closed_of Plain (reverse brackets.old)))) }
    ensures tokens { OnOk result (tokens.new ≡ joined (closed_of Plain (reverse brackets.old)) (length tokens.old) tokens.old ++ token_with (stop_kind stop) range state.line Plain (closed_of Plain (reverse brackets.old)) ∷ []) }
    ensures brackets { OnOk result (reverse brackets.new ≡ pushed Plain (length tokens.old) state.headed (left_of Plain (reverse brackets.old))) }
{
    let headed = put_token(
        tokens,
        brackets,
        Role::Plain,
        state.headed,
        stop_kind(stop),
        range,
        state.line,
    )?;
    Ok(stop_state(state, stop, headed))
}

#[inline(always)]
#[tactic(auto, unfolding(crate::specs::Brackets::role_of))]
fn push_dot(
    tokens: &mut Items<Token>,
    brackets: &mut Items<OpenBracket>,
    state: State,
    range: Range,
) -> Result<State, AllocError>
    ensures state { IfOk result (λ next. next ≡ token_state state kinds.Dot (is_headed (closed_of Plain (reverse brackets.old)))) }
    ensures tokens { OnOk result (tokens.new ≡ joined (closed_of Plain (reverse brackets.old)) (length tokens.old) tokens.old ++ token_with kinds.Dot range state.line Plain (closed_of Plain (reverse brackets.old)) ∷ []) }
    ensures brackets { OnOk result (reverse brackets.new ≡ pushed Plain (length tokens.old) state.headed (left_of Plain (reverse brackets.old))) }
{
    push_known(tokens, brackets, state, TokenKind::Dot, range)
}

#[inline(always)]
fn push_opener(
    tokens: &mut Items<Token>,
    brackets: &mut Items<OpenBracket>,
    state: State,
    bracket: BracketKind,
    range: Range,
) -> Result<State, AllocError>
    ensures state { IfOk result (λ next. next ≡ token_state state (opener_kind bracket) (is_headed (closed_of (Opens bracket) (reverse brackets.old)))) }
    ensures tokens { OnOk result (tokens.new ≡ joined (closed_of (Opens bracket) (reverse brackets.old)) (length tokens.old) tokens.old ++ token_with (opener_kind bracket) range state.line (Opens bracket) (closed_of (Opens bracket) (reverse brackets.old)) ∷ []) }
    ensures brackets { OnOk result (reverse brackets.new ≡ pushed (Opens bracket) (length tokens.old) state.headed (left_of (Opens bracket) (reverse brackets.old))) }
{
    let role = Role::Opens(bracket);
    let headed = put_token(
        tokens,
        brackets,
        role,
        state.headed,
        opener_kind(bracket),
        range,
        state.line,
    )?;
    Ok(opener_state(state, bracket, headed))
}

#[inline(always)]
fn push_closer(
    tokens: &mut Items<Token>,
    brackets: &mut Items<OpenBracket>,
    state: State,
    bracket: BracketKind,
    range: Range,
) -> Result<State, AllocError>
    ensures state { IfOk result (λ next. next ≡ token_state state (closer_kind bracket) (is_headed (closed_of (Closes bracket) (reverse brackets.old)))) }
    ensures tokens { OnOk result (tokens.new ≡ joined (closed_of (Closes bracket) (reverse brackets.old)) (length tokens.old) tokens.old ++ token_with (closer_kind bracket) range state.line (Closes bracket) (closed_of (Closes bracket) (reverse brackets.old)) ∷ []) }
    ensures brackets { OnOk result (reverse brackets.new ≡ pushed (Closes bracket) (length tokens.old) state.headed (left_of (Closes bracket) (reverse brackets.old))) }
{
    let role = Role::Closes(bracket);
    let headed = put_token(
        tokens,
        brackets,
        role,
        state.headed,
        closer_kind(bracket),
        range,
        state.line,
    )?;
    Ok(closer_state(state, bracket, headed))
}

/// Puts a token at the end, joined to the bracket that it closes. Answers whether that one belongs to a statement's head.
#[inline(always)]
#[tactic(auto, unfolding(crate::specs::Scan::closed_of, crate::specs::Scan::left_of, crate::specs::Scan::joined, crate::specs::Scan::pushed, crate::specs::Scan::numbered, crate::specs::Scan::is_headed))]
pub fn push_token(
    tokens: &mut Items<Token>,
    brackets: &mut Items<OpenBracket>,
    state: State,
    kind: TokenKind,
    range: Range,
) -> Result<bool, AllocError>
    ensures closed { IfOk result (λ headed. headed ≡ is_headed (closed_of (role_of kind) (reverse brackets.old))) }
    ensures tokens { OnOk result (tokens.new ≡ joined (closed_of (role_of kind) (reverse brackets.old)) (length tokens.old) tokens.old ++ token_with kind range state.line (role_of kind) (closed_of (role_of kind) (reverse brackets.old)) ∷ []) }
    ensures brackets { OnOk result (reverse brackets.new ≡ pushed (role_of kind) (length tokens.old) state.headed (left_of (role_of kind) (reverse brackets.old))) }
{
    match role_of(kind) {
        Role::Plain => {
            tokens.push(Token::new(kind, range, state.line, None)?)?;
            Ok(false)
        }
        role => push_bracket(
            tokens,
            brackets,
            role,
            state.headed,
            kind,
            range,
            state.line,
        ),
    }
}

/// The same for a token of this role.
#[inline(never)]
fn push_bracket(
    tokens: &mut Items<Token>,
    brackets: &mut Items<OpenBracket>,
    role: Role,
    headed: bool,
    kind: TokenKind,
    range: Range,
    line: bool,
) -> Result<bool, AllocError>
    ensures closed { IfOk result (λ headed. headed ≡ is_headed (closed_of role (reverse brackets.old))) }
    ensures tokens { OnOk result (tokens.new ≡ joined (closed_of role (reverse brackets.old)) (length tokens.old) tokens.old ++ token_with kind range line role (closed_of role (reverse brackets.old)) ∷ []) }
    ensures brackets { OnOk result (reverse brackets.new ≡ pushed role (length tokens.old) headed (left_of role (reverse brackets.old))) }
{
    put_token(tokens, brackets, role, headed, kind, range, line)
}

/// The same, for callers that know the role.
#[inline(always)]
fn put_token(
    tokens: &mut Items<Token>,
    brackets: &mut Items<OpenBracket>,
    role: Role,
    headed: bool,
    kind: TokenKind,
    range: Range,
    line: bool,
) -> Result<bool, AllocError>
    ensures closed { IfOk result (λ headed. headed ≡ is_headed (closed_of role (reverse brackets.old))) }
    ensures tokens { OnOk result (tokens.new ≡ joined (closed_of role (reverse brackets.old)) (length tokens.old) tokens.old ++ token_with kind range line role (closed_of role (reverse brackets.old)) ∷ []) }
    ensures brackets { OnOk result (reverse brackets.new ≡ pushed role (length tokens.old) headed (left_of role (reverse brackets.old))) }
{
    let number = tokens.len();
    let closed = take_closed(brackets, role);
    let token = Token::new(kind, range, line, numbered(role, closed))?;
    join(tokens, closed, number)?;
    tokens.push(token)?;
    push_open(brackets, role, number, headed)?;
    Ok(is_headed(closed))
}

/// Takes the bracket that a token of this role closes.
#[tactic(auto, unfolding(crate::specs::Scan::closed_of, crate::specs::Scan::left_of))]
fn take_closed(brackets: &mut Items<OpenBracket>, role: Role) -> Option<OpenBracket>
    ensures closed { result ≡ closed_of role (reverse brackets.old) }
    ensures left { reverse brackets.new ≡ left_of role (reverse brackets.old) }
{
    match role {
        Role::Closes(_) => brackets.pop(),
        Role::Continues => brackets.pop(),
        Role::Opens(_) => None,
        Role::Plain => None,
    }
}

/// Pushes the bracket that a token of this role opens onto the others.
#[tactic(auto, unfolding(crate::specs::Scan::pushed))]
fn push_open(
    brackets: &mut Items<OpenBracket>,
    role: Role,
    number: usize,
    headed: bool,
) -> Result<(), AllocError>
    ensures { OnOk result (reverse brackets.new ≡ pushed role number headed (reverse brackets.old)) }
{
    match role {
        Role::Opens(kind) => brackets.push(OpenBracket {
            kind,
            number,
            headed,
        }),
        Role::Continues => brackets.push(OpenBracket {
            kind: BracketKind::Template,
            number,
            headed,
        }),
        Role::Closes(_) => Ok(()),
        Role::Plain => Ok(()),
    }
}

/// Gives the bracket that is closed its partner.
#[tactic(auto, unfolding(crate::specs::Scan::joined))]
fn join(
    tokens: &mut Items<Token>,
    closed: Option<OpenBracket>,
    number: usize,
) -> Result<(), AllocError>
    ensures { OnOk result (tokens.new ≡ joined closed number tokens.old) }
{
    if let Some(bracket) = closed {
        if let Some(token) = tokens.get_mut(bracket.number) {
            token.set_partner(number)?;
        }
    }
    Ok(())
}

/// The partner of a closing token.
#[tactic(auto, unfolding(crate::specs::Scan::numbered))]
fn numbered(role: Role, closed: Option<OpenBracket>) -> Option<usize>
    ensures { result ≡ numbered role closed }
{
    match (role, closed) {
        (Role::Closes(_), Some(bracket)) => Some(bracket.number),
        _ => None,
    }
}

/// Whether the bracket belongs to a statement's head.
#[tactic(auto, unfolding(crate::specs::Scan::is_headed))]
fn is_headed(closed: Option<OpenBracket>) -> bool
    ensures { result ≡ is_headed closed }
{
    match closed {
        Some(bracket) => bracket.headed,
        None => false,
    }
}
