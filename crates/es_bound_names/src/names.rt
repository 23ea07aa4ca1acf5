//! Names that are found, and how a name is read from its token.

ghost use Rattle.std.specs.Prelude.{◌≡◌, ◌++◌, ◌∷◌, [], true, false, slice_get, slice_range, IfOk};
ghost use Rattle.es_lowering.specs.Texts.{ident_of};
ghost use Rattle.es_bound_names.specs.Names.{ident_names};
ghost use Rattle.es_bound_names.specs.Adds.{Adds};
ghost use Rattle.es_bound_names.specs.Cuts.{Cuts, IsCut};
ghost use Rattle.std.specs.Option.{option_map};

use base::{Items, Text};
use es_token::Token;
use std::alloc::{AllocError, Global};

/// Names that are found, in order, and whether memory ran out on the way: from then on nothing is said of them.
#[derive(Drop)]
pub struct Names {
    pub found: Items<Text>,
    pub failed: bool,
}

impl Names {
    pub fn new(alloc: Global) -> Names
        ensures found { result.found ≡ [] }
        ensures failed { result.failed ≡ false }
    {
        Names {
            found: Items::new(alloc),
            failed: false,
        }
    }

    /// Memory ran out: from now on nothing is said of the names.
    pub fn fail(&mut self, _memory: AllocError)
        ensures { self.new.failed ≡ true }
    {
        self.failed = true;
    }

    /// The names, unless memory ran out.
    pub fn done(self) -> Result<Items<Text>, AllocError>
        ensures { IfOk result (λ found. (self.failed ≡ false) × (found ≡ self.found)) }
    {
        let Names { found, failed } = self;
        if failed { Err(AllocError) } else { Ok(found) }
    }

    fn push(&mut self, name: Text)
        ensures { self.new.failed ≡ false → (self.old.failed ≡ false) × (self.new.found ≡ self.old.found ++ name ∷ []) }
    {
        match self.found.push(name) {
            Ok(()) => {}
            Err(memory) => self.fail(memory),
        }
    }

    /// One name more, a copy of this text.
    pub fn add(&mut self, name: &str)
        ensures { self.new.failed ≡ false → (self.old.failed ≡ false) × (self.new.found ≡ self.old.found ++ name.now ∷ []) }
    {
        match Text::from_str(self.found.allocator(), name) {
            Ok(name) => self.push(name),
            Err(memory) => self.fail(memory),
        }
    }

    /// The name that the token of this number is.
    #[tactic(auto, using(crate::proofs::Leaves::adds_ident, crate::proofs::Lists::adds_nothing))]
    pub fn token(&mut self, text: &str, tokens: &[Token], at: u32)
        requires { IsCut text.now tokens.now }
        ensures before { self.new.failed ≡ false → self.old.failed ≡ false }
        ensures adds { self.new.failed ≡ false → Adds ident_names self.old.found self.new.found (option_map (ident_of text.now) (slice_get tokens.now at)) }
    {
        match token_at(tokens, at) {
            Some(token) => self.add(cut(text, token)),
            None => {}
        }
    }
}

/// The token of this number.
pub fn token_at(tokens: &[Token], at: u32) -> Option<Token>
    ensures { result ≡ slice_get tokens.now at }
{
    tokens.get(at as usize).copied()
}

/// The text of a token.
pub fn cut(text: &str, token: Token) -> &str
    requires { Cuts text.now token }
    ensures { result.now ≡ slice_range text.now token.range.start token.range.end }
{
    let range = token.range();
    &text[range.start..range.end]
}
