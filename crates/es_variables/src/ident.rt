//! An occurrence of a name in a text.

ghost use Rattle.std.specs.Prelude.{◌≡◌, None, slice_get, slice_range, MatchOption};
ghost use Rattle.es_lexer.specs.Reads.{ReadsTokens};
ghost use Rattle.es_variables.specs.scope_numbers.Cuts.{Cuts};
ghost use Rattle.es_variables.specs.Kept.{Names};

use crate::ids::ScopeIds;
use base::Range;
use es_token::Token;

/// An occurrence of a name in a text: how it is spelled, where it is, and the number of the scope that declares it.
#[derive(Clone, Copy, Debug)]
pub struct Ident<'a> {
    pub sym: &'a str,
    pub span: Range,
    /// 0 where no scope around declares it.
    pub ctxt: u32,
}

/// The token of this number.
pub(crate) fn token_at(tokens: &[Token], at: u32) -> Option<Token>
    ensures { result ≡ slice_get tokens.now at }
{
    tokens.get(at as usize).copied()
}

/// The text of a token.
pub(crate) fn cut<'a>(text: &'a str, token: Token) -> &'a str
    requires { Cuts text.now token }
    ensures { result.now ≡ slice_range text.now token.range.start token.range.end }
{
    let range = token.range();
    &text[range.start..range.end]
}

/// The name that the token of this number is.
#[tactic(auto, using(crate::proofs::KeptLemmas::names_made))]
pub fn ident_at<'a>(text: &'a str, tokens: &[Token], ids: &ScopeIds, at: u32) -> Option<Ident<'a>>
    requires { ReadsTokens text.now tokens.now }
    ensures { MatchOption result (slice_get tokens.now at ≡ None) (λ ident. Names text.now tokens.now ids.now at ident) }
{
    match token_at(tokens, at) {
        Some(token) => Some(Ident {
            sym: cut(text, token),
            span: token.range(),
            ctxt: ids.number(at),
        }),
        None => None,
    }
}
