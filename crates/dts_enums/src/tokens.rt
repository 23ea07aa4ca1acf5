//! Words.

ghost use Rattle.std.specs.Prelude.{◌≡◌, ◌&&◌};
ghost use Rattle.es_syntax.specs.Held.{token_there};
ghost use Rattle.dts_enums.specs.Forms.{is_word};

use es_token::{Token, TokenKind};

/// Whether the token of this number is this word.
#[tactic(auto, using(crate::proofs::ValueLemmas::word_is, crate::proofs::ValueLemmas::no_word))]
pub(crate) fn is_word(tokens: &[Token], at: Option<u32>, word: TokenKind) -> bool
    ensures { result ≡ is_word word (token_there tokens.now at) }
{
    match at {
        Some(at) => match tokens.get(at as usize) {
            Some(token) => token.kind() == word,
            None => false,
        },
        None => false,
    }
}

/// Whether both are so.
pub(crate) fn both(first: bool, second: bool) -> bool
    ensures { result ≡ (first && second) }
{
    first && second
}
