//! A text and its tokens.

ghost use Rattle.std.specs.Prelude.{◌≡◌, None, Some, slice_get, slice_range, MatchOption};
ghost use Rattle.es_variables.specs.scope_numbers.Cuts.{Cuts, IsCut};
ghost use Rattle.es_variables.specs.scope_analysis.Events.{is_kind, told, spelled, same, word_by};

use crate::scope_analysis::BindingKind;
use es_token::{Token, TokenKind};

/// A text and its tokens, which cut it between characters.
#[derive(Clone, Copy)]
pub struct Source<'a> {
    pub text: &'a str,
    pub tokens: &'a [Token],
    pub ghost cut: { IsCut text.now tokens.now },
}

impl Source<'_> {
    /// The token of this number.
    fn numbered(&self, at: u32) -> Option<Token>
        ensures { result ≡ slice_get self.now.tokens.now at }
    {
        self.tokens.get(at as usize).copied()
    }

    /// The token of this number, where there is one.
    fn told(&self, at: Option<u32>) -> Option<Token>
        ensures { result ≡ told self.now.tokens.now at }
    {
        match at {
            Some(at) => self.numbered(at),
            None => None,
        }
    }

    /// Whether the token of this number is of this kind.
    pub fn is_kind(&self, kind: TokenKind, at: Option<u32>) -> bool
        ensures { is_kind self.now.tokens.now kind at ≡ result }
    {
        match self.told(at) {
            Some(token) => token.kind() == kind,
            None => false,
        }
    }

    /// `var`, `let`, or else `const`.
    pub fn word(&self, at: Option<u32>) -> BindingKind
        ensures { word_by self.now.tokens.now at ≡ result }
    {
        if self.is_kind(TokenKind::VarWord, at) {
            BindingKind::Var
        } else if self.is_kind(TokenKind::LetWord, at) {
            BindingKind::Let
        } else {
            BindingKind::Const
        }
    }

    /// The text of a token.
    fn cut(&self, token: Token) -> &str
        requires { Cuts self.now.text.now token }
        ensures { result.now ≡ slice_range self.now.text.now token.range.start token.range.end }
    {
        let range = token.range();
        &self.text[range.start..range.end]
    }

    /// The text of the token of this number.
    #[tactic(auto, unfolding(es_lowering::specs::Texts::ident_of))]
    fn spelled(&self, at: Option<u32>) -> Option<&str>
        ensures { MatchOption result (spelled self.now.text.now self.now.tokens.now at ≡ None) (λ name. spelled self.now.text.now self.now.tokens.now at ≡ Some name.now) }
    {
        match self.told(at) {
            Some(token) => Some(self.cut(token)),
            None => None,
        }
    }

    /// Whether two tokens are there, of the same text.
    pub fn are_same(&self, a: Option<u32>, b: Option<u32>) -> bool
        ensures { result ≡ same (spelled self.now.text.now self.now.tokens.now a) (spelled self.now.text.now self.now.tokens.now b) }
    {
        match self.spelled(a) {
            None => false,
            Some(a) => match self.spelled(b) {
                None => false,
                Some(b) => a == b,
            },
        }
    }
}
