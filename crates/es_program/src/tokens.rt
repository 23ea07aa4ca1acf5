//! Tokens that are shared.
ghost use Rattle.std.specs.Prelude.{◌≡◌, IfOk};

use base::Items;
use es_token::Token;
use std::alloc::{AllocError, Global};
use std::marker::Model;
use std::sync::Arc;

/// The tokens of a text, which do not change and are shared by their copies.
#[derive(Drop)]
pub struct SharedTokens {
    inner: Arc<Items<Token>>,
}

impl Model for SharedTokens {
    ghost use Rattle.std.specs.Prelude.{List};
    ghost use Rattle.std.specs.Arc.{arc_value};
    ghost use Rattle.es_token.specs.declared.token.Token.{Token};

    ghost Value = { List Token };

    ghost view = { λ t. arc_value t.inner };
}

impl SharedTokens {
    pub fn new(alloc: Global, tokens: Items<Token>) -> Result<SharedTokens, AllocError>
        ensures { IfOk result (λ t. t ≡ tokens) }
    {
        Ok(SharedTokens {
            inner: Arc::new(alloc, tokens)?,
        })
    }

    pub fn as_slice(&self) -> &[Token]
        ensures { result.now ≡ self.now }
    {
        self.inner.as_slice()
    }

    /// One more reference to the same tokens.
    pub fn copy(&self) -> Result<SharedTokens, AllocError>
        ensures { IfOk result (λ t. t ≡ self.now) }
    {
        Ok(SharedTokens {
            inner: self.inner.clone()?,
        })
    }
}
