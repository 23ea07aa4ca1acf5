//! Tests of tokens, what is said of a token that is kept, and when a part is there.

ghost use Rattle.std.specs.Prelude.{◌≡◌, ℕ, Bool, List};
ghost use Rattle.es_token.specs.declared.token.TokenKind.{TokenKind as Kind};
ghost use Rattle.grammar_theory.specs.Key.{Key, TokenTest, keys_of, seen, has_kind};
ghost use Rattle.grammar_theory.specs.Productions.{Predicate, Predict, by_lookahead, greedy, by_predicate, test};
ghost use Rattle.es_rules.specs.Steps.{keys_in};

use crate::cursor::Input;
use es_lookahead::Tokens;

/// Kinds of tokens.
pub trait IsOfKinds {
    // Those that are meant.
    ghost kinds: { Self → Kind → Bool };

    /// Whether the token at this place is of one of them.
    fn is_there(&self, tokens: &Tokens<'_>, at: usize) -> bool
        ensures { result ≡ has_kind (kinds self.now) (seen (keys_of tokens.now.tokens.now) at) };
}

/// A test of the next token, or of the end.
pub trait Sees {
    // The test.
    ghost look: { Self → TokenTest };

    /// Whether it holds at this place.
    fn sees(&self, tokens: &Tokens<'_>, at: usize) -> bool
        ensures { result ≡ look self.now (seen (keys_of tokens.now.tokens.now) at) };
}

/// A predicate, which may look at any of the tokens.
pub trait Holds {
    // The predicate.
    ghost predicate: { Self → Predicate };

    /// Whether it holds at this place.
    fn holds(&self, input: &Input<'_>, at: usize) -> bool
        ensures { result ≡ predicate self.now (keys_in input.now) at };
}

/// When an optional part, or another turn of a list, is there.
pub trait Tells {
    // When it is said to be.
    ghost told: { Self → Predict };

    /// Whether the part is there.
    fn is_there(&self, input: &Input<'_>, at: usize) -> bool
        ensures { result ≡ test (told self.now) (keys_in input.now) at };
}

/// It may always be there or not: the test says which of the two is read, and bars no reading.
#[derive(Clone, Copy)]
pub struct ByLookahead<A>(pub A);

impl<A: Sees> Tells for ByLookahead<A> {
    ghost told = { λ s. by_lookahead (A.look s.0) };

    #[inline(always)]
    fn is_there(&self, input: &Input<'_>, at: usize) -> bool {
        self.0.sees(&input.tokens, at)
    }
}

/// It is there wherever the test holds.
#[derive(Clone, Copy)]
pub struct Greedy<A>(pub A);

impl<A: Sees> Tells for Greedy<A> {
    ghost told = { λ s. greedy (A.look s.0) };

    #[inline(always)]
    fn is_there(&self, input: &Input<'_>, at: usize) -> bool {
        self.0.sees(&input.tokens, at)
    }
}

/// It is there exactly where the predicate holds.
#[derive(Clone, Copy)]
pub struct ByPredicate<G>(pub G);

impl<G: Holds> Tells for ByPredicate<G> {
    ghost told = { λ s. by_predicate (G.predicate s.0) };

    #[inline(always)]
    fn is_there(&self, input: &Input<'_>, at: usize) -> bool {
        self.0.holds(input, at)
    }
}

/// What the typed tree keeps of a token.
#[derive(Clone, Copy)]
pub enum LeafKind {
    /// A string literal, with its value.
    Str,
    /// A name, with its text.
    Name,
    /// Its text as written.
    Raw,
    /// Which token it is.
    Kind,
    /// Only that it is there.
    There,
}
