//! Kinds of tokens, by their numbers.

ghost use Rattle.std.specs.Prelude.{◌≡◌, slice_get};
ghost use Rattle.dts_draft.specs.Drafts.{is_kind};

use es_token::{Token, TokenKind};

/// Whether the token of this number is of this kind; not so where there is none.
pub fn is_kind(tokens: &[Token], at: u32, kind: TokenKind) -> bool
    ensures { is_kind kind (slice_get tokens.now at) ≡ result }
{
    match tokens.get(at as usize) {
        Some(token) => token.kind() == kind,
        None => false,
    }
}
