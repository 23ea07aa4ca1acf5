ghost use Rattle.std.specs.Prelude.{◌≡◌};
ghost use Rattle.es_lexer.specs.Brackets.{role_of, is_open, may_close};

use es_token::TokenKind;

/// The kinds of brackets. A template's `${` opens one too.
#[derive(Clone, Copy)]
pub enum BracketKind {
    Round,
    Square,
    Curly,
    Template,
}

/// What a token does to the brackets around it.
#[derive(Clone, Copy)]
pub enum Role {
    Opens(BracketKind),
    Closes(BracketKind),
    /// Closes a template's `${` and opens the next one.
    Continues,
    Plain,
}

/// A bracket that isn't closed yet.
#[derive(Clone, Copy, Drop)]
pub struct OpenBracket {
    pub kind: BracketKind,
    /// The number of its token.
    pub number: usize,
    /// Whether it follows `if`, `for`, `while`, `with` or `for await`.
    pub headed: bool,
}

#[tactic(auto, unfolding(crate::specs::Brackets::role_of))]
pub fn role_of(kind: TokenKind) -> Role
    ensures { result ≡ role_of kind }
{
    match kind {
        TokenKind::OpenParen => Role::Opens(BracketKind::Round),
        TokenKind::CloseParen => Role::Closes(BracketKind::Round),
        TokenKind::OpenBracket => Role::Opens(BracketKind::Square),
        TokenKind::CloseBracket => Role::Closes(BracketKind::Square),
        TokenKind::OpenBrace => Role::Opens(BracketKind::Curly),
        TokenKind::CloseBrace => Role::Closes(BracketKind::Curly),
        TokenKind::TemplateHead => Role::Opens(BracketKind::Template),
        TokenKind::TemplateMiddle => Role::Continues,
        TokenKind::TemplateTail => Role::Closes(BracketKind::Template),
        _ => Role::Plain,
    }
}

#[tactic(auto, unfolding(crate::specs::Brackets::is_open))]
pub fn is_open(bracket: Option<BracketKind>, kind: BracketKind) -> bool
    ensures { result ≡ is_open bracket kind }
{
    match (bracket, kind) {
        (Some(BracketKind::Round), BracketKind::Round) => true,
        (Some(BracketKind::Square), BracketKind::Square) => true,
        (Some(BracketKind::Curly), BracketKind::Curly) => true,
        (Some(BracketKind::Template), BracketKind::Template) => true,
        _ => false,
    }
}

/// Whether a token of this role is allowed where this is the innermost open bracket.
#[tactic(auto, unfolding(crate::specs::Brackets::may_close))]
pub fn may_close(bracket: Option<BracketKind>, role: Role) -> bool
    ensures { result ≡ may_close bracket role }
{
    match role {
        Role::Closes(kind) => is_open(bracket, kind),
        Role::Continues => is_open(bracket, BracketKind::Template),
        Role::Opens(_) => true,
        Role::Plain => true,
    }
}
