ghost use Rattle.std.specs.Prelude.{◌≡◌};
ghost use Rattle.es_lexer.specs.Goal.{slash_rule, is_member, is_for, divides_behind, is_headed, token_state, blank_state, line_state, comment_state, goal_in};

use crate::bracket::BracketKind;
use es_token::TokenKind;

/// What is allowed at an offset, by what precedes it (ECMA-262, "Lexical Grammar", its goal symbols).
#[derive(Clone, Copy)]
pub struct Goal {
    /// The innermost open bracket.
    pub bracket: Option<BracketKind>,
    /// Whether `/` begins a regular expression.
    pub regexp: bool,
    /// Whether the latest token is `.` or `?.`, so that a keyword is a name.
    pub member: bool,
    /// Whether the text begins here.
    pub front: bool,
}

/// What a token says of a `/` after it.
#[derive(Clone, Copy)]
pub enum SlashRule {
    /// It divides.
    Divides,
    /// By what precedes the parenthesis that the token closes.
    ByParenthesis,
    /// As after the token before, where that one is on the same line.
    ByLine,
    /// It begins a regular expression.
    Begins,
}

/// What is kept of the pieces before a place, its open brackets aside.
#[derive(Clone, Copy)]
pub struct State {
    /// Whether a token was read.
    pub any: bool,
    /// Whether a line end follows the latest token.
    pub line: bool,
    /// Whether `/` divides.
    pub divides: bool,
    pub member: bool,
    /// Whether a parenthesis here belongs to `if`, `for`, `while`, `with` or `for await`.
    pub headed: bool,
    /// Whether the latest token is `for`.
    pub after_for: bool,
    /// Whether nothing was read.
    pub front: bool,
}

#[tactic(auto, unfolding(crate::specs::Goal::slash_rule))]
fn slash_rule(kind: TokenKind) -> SlashRule
    ensures { result ≡ slash_rule kind }
{
    match kind {
        TokenKind::Name => SlashRule::Divides,
        TokenKind::PrivateName => SlashRule::Divides,
        TokenKind::Number => SlashRule::Divides,
        TokenKind::BigInt => SlashRule::Divides,
        TokenKind::Str => SlashRule::Divides,
        TokenKind::TemplateWhole => SlashRule::Divides,
        TokenKind::TemplateTail => SlashRule::Divides,
        TokenKind::RegExp => SlashRule::Divides,
        TokenKind::CloseBracket => SlashRule::Divides,
        TokenKind::CloseBrace => SlashRule::Divides,
        TokenKind::PlusPlus => SlashRule::Divides,
        TokenKind::MinusMinus => SlashRule::Divides,
        TokenKind::ThisWord => SlashRule::Divides,
        TokenKind::SuperWord => SlashRule::Divides,
        TokenKind::NullWord => SlashRule::Divides,
        TokenKind::TrueWord => SlashRule::Divides,
        TokenKind::FalseWord => SlashRule::Divides,
        TokenKind::AbstractWord => SlashRule::Divides,
        TokenKind::AccessorWord => SlashRule::Divides,
        TokenKind::AnyWord => SlashRule::Divides,
        TokenKind::AsWord => SlashRule::Divides,
        TokenKind::AssertsWord => SlashRule::Divides,
        TokenKind::AsyncWord => SlashRule::Divides,
        TokenKind::BigintWord => SlashRule::Divides,
        TokenKind::BooleanWord => SlashRule::Divides,
        TokenKind::ConstructorWord => SlashRule::Divides,
        TokenKind::DeclareWord => SlashRule::Divides,
        TokenKind::DeferWord => SlashRule::Divides,
        TokenKind::FromWord => SlashRule::Divides,
        TokenKind::GetWord => SlashRule::Divides,
        TokenKind::GlobalWord => SlashRule::Divides,
        TokenKind::ImplementsWord => SlashRule::Divides,
        TokenKind::InferWord => SlashRule::Divides,
        TokenKind::InterfaceWord => SlashRule::Divides,
        TokenKind::IsWord => SlashRule::Divides,
        TokenKind::KeyofWord => SlashRule::Divides,
        TokenKind::MetaWord => SlashRule::Divides,
        TokenKind::ModuleWord => SlashRule::Divides,
        TokenKind::NamespaceWord => SlashRule::Divides,
        TokenKind::NeverWord => SlashRule::Divides,
        TokenKind::NumberWord => SlashRule::Divides,
        TokenKind::ObjectWord => SlashRule::Divides,
        TokenKind::OfWord => SlashRule::Divides,
        TokenKind::OutWord => SlashRule::Divides,
        TokenKind::OverrideWord => SlashRule::Divides,
        TokenKind::PrivateWord => SlashRule::Divides,
        TokenKind::ProtectedWord => SlashRule::Divides,
        TokenKind::PublicWord => SlashRule::Divides,
        TokenKind::ReadonlyWord => SlashRule::Divides,
        TokenKind::RequireWord => SlashRule::Divides,
        TokenKind::SatisfiesWord => SlashRule::Divides,
        TokenKind::SetWord => SlashRule::Divides,
        TokenKind::SourceWord => SlashRule::Divides,
        TokenKind::StaticWord => SlashRule::Divides,
        TokenKind::StringWord => SlashRule::Divides,
        TokenKind::SymbolWord => SlashRule::Divides,
        TokenKind::TargetWord => SlashRule::Divides,
        TokenKind::TypeWord => SlashRule::Divides,
        TokenKind::UndefinedWord => SlashRule::Divides,
        TokenKind::UniqueWord => SlashRule::Divides,
        TokenKind::UnknownWord => SlashRule::Divides,
        TokenKind::UsingWord => SlashRule::Divides,
        TokenKind::CloseParen => SlashRule::ByParenthesis,
        TokenKind::Exclamation => SlashRule::ByLine,
        _ => SlashRule::Begins,
    }
}

#[tactic(auto, unfolding(crate::specs::Goal::divides_behind))]
fn divides_behind(rule: SlashRule, line: bool, divides: bool, headed: bool) -> bool
    ensures { result ≡ divides_behind rule line divides headed }
{
    match rule {
        SlashRule::Divides => true,
        SlashRule::ByParenthesis => !headed,
        SlashRule::ByLine => divides && !line,
        SlashRule::Begins => false,
    }
}

/// Whether a parenthesis after a token of this kind belongs to a statement's head.
#[tactic(auto, unfolding(crate::specs::Goal::is_headed))]
fn is_headed(kind: TokenKind, after_for: bool) -> bool
    ensures { result ≡ is_headed kind after_for }
{
    match kind {
        TokenKind::IfWord => true,
        TokenKind::ForWord => true,
        TokenKind::WhileWord => true,
        TokenKind::WithWord => true,
        TokenKind::AwaitWord => after_for,
        _ => false,
    }
}

#[tactic(auto, unfolding(crate::specs::Goal::is_member))]
fn is_member(kind: TokenKind) -> bool
    ensures { result ≡ is_member kind }
{
    match kind {
        TokenKind::Dot => true,
        TokenKind::QuestionDot => true,
        _ => false,
    }
}

#[tactic(auto, unfolding(crate::specs::Goal::is_for))]
fn is_for(kind: TokenKind) -> bool
    ensures { result ≡ is_for kind }
{
    match kind {
        TokenKind::ForWord => true,
        _ => false,
    }
}

/// The state after a token. `headed` is that of the bracket that it closes.
#[inline(always)]
#[tactic(auto, unfolding(crate::specs::Goal::token_state))]
pub fn token_state(state: State, kind: TokenKind, headed: bool) -> State
    ensures { result ≡ token_state state kind headed }
{
    State {
        any: true,
        line: false,
        divides: divides_behind(slash_rule(kind), state.line, state.divides, headed),
        member: is_member(kind),
        headed: is_headed(kind, state.after_for),
        after_for: is_for(kind),
        front: false,
    }
}

/// The state after a blank.
pub fn blank_state(state: State) -> State
    ensures { result ≡ blank_state state }
{
    State {
        front: false,
        ..state
    }
}

/// The state after a line end.
pub fn line_state(state: State) -> State
    ensures { result ≡ line_state state }
{
    State {
        line: state.any,
        front: false,
        ..state
    }
}

/// The state after a comment, which has a line end or not.
pub fn comment_state(state: State, line_end: bool) -> State
    ensures { result ≡ comment_state state line_end }
{
    State {
        line: state.line || state.any && line_end,
        front: false,
        ..state
    }
}

/// What is allowed there.
pub fn goal_in(state: State, bracket: Option<BracketKind>) -> Goal
    ensures { result ≡ goal_in state bracket }
{
    Goal {
        bracket,
        regexp: !state.divides,
        member: state.member,
        front: state.front,
    }
}
