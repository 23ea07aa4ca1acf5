ghost use Rattle.std.specs.Prelude.{[], ◌∷◌};
ghost use Rattle.monch.specs.Parts.{GivesFirst};
ghost use Rattle.monch.specs.Suffix.{GivesFirst-suffix};
ghost use Rattle.monch.specs.Advance.{first_advances};

use crate::choices::Or;
use crate::core_parsers::{Combinator, ParseError, ParseResult};

/// What `or3` answers: the first of three alternatives that does not backtrack.
#[derive(Drop)]
pub struct Or3<A, B, C> {
    pub(crate) first: A,
    pub(crate) rest: Or<B, C>,
}

impl<
    'a,
    A: Combinator<'a>,
    B: Combinator<'a, Output = A::Output>,
    C: Combinator<'a, Output = A::Output>,
> Combinator<'a> for Or3<A, B, C> {
    type Output = A::Output;

    ghost can_parse = { λ s. A.can_parse s.first × B.can_parse s.rest.first × C.can_parse s.rest.second };

    ghost gives = { λ s text outcome. GivesFirst (A.gives s.first ∷ B.gives s.rest.first ∷ C.gives s.rest.second ∷ []) text outcome };

    ghost advances = { λ s. A.advances s.first × B.advances s.rest.first × C.advances s.rest.second };

    fn parse(&self, input: &'a str) -> ParseResult<'a, A::Output> {
        match self.first.parse(input) {
            Err(ParseError::Backtrace) => self.rest.parse(input),
            other => other,
        }
    }

    ghost leaves_suffix = { λ s can. GivesFirst-suffix (A.gives s.first ∷ B.gives s.rest.first ∷ C.gives s.rest.second ∷ []) (A.leaves_suffix s.first can.0, (B.leaves_suffix s.rest.first can.1, (C.leaves_suffix s.rest.second can.2, tt))) };

    ghost leaves_less = { λ s can told. first_advances (A.gives s.first ∷ B.gives s.rest.first ∷ C.gives s.rest.second ∷ []) (A.leaves_less s.first can.0 told.0, (B.leaves_less s.rest.first can.1 told.1, (C.leaves_less s.rest.second can.2 told.2, tt))) };
}

/// What `or4` answers: the first of four alternatives that does not backtrack.
#[derive(Drop)]
pub struct Or4<A, B, C, D> {
    pub(crate) first: A,
    pub(crate) rest: Or3<B, C, D>,
}

impl<
    'a,
    A: Combinator<'a>,
    B: Combinator<'a, Output = A::Output>,
    C: Combinator<'a, Output = A::Output>,
    D: Combinator<'a, Output = A::Output>,
> Combinator<'a> for Or4<A, B, C, D> {
    type Output = A::Output;

    ghost can_parse = { λ s. A.can_parse s.first × B.can_parse s.rest.first × C.can_parse s.rest.rest.first × D.can_parse s.rest.rest.second };

    ghost gives = { λ s text outcome. GivesFirst (A.gives s.first ∷ B.gives s.rest.first ∷ C.gives s.rest.rest.first ∷ D.gives s.rest.rest.second ∷ []) text outcome };

    ghost advances = { λ s. A.advances s.first × B.advances s.rest.first × C.advances s.rest.rest.first × D.advances s.rest.rest.second };

    fn parse(&self, input: &'a str) -> ParseResult<'a, A::Output> {
        match self.first.parse(input) {
            Err(ParseError::Backtrace) => self.rest.parse(input),
            other => other,
        }
    }

    ghost leaves_suffix = { λ s can. GivesFirst-suffix (A.gives s.first ∷ B.gives s.rest.first ∷ C.gives s.rest.rest.first ∷ D.gives s.rest.rest.second ∷ []) (A.leaves_suffix s.first can.0, (B.leaves_suffix s.rest.first can.1, (C.leaves_suffix s.rest.rest.first can.2, (D.leaves_suffix s.rest.rest.second can.3, tt)))) };

    ghost leaves_less = { λ s can told. first_advances (A.gives s.first ∷ B.gives s.rest.first ∷ C.gives s.rest.rest.first ∷ D.gives s.rest.rest.second ∷ []) (A.leaves_less s.first can.0 told.0, (B.leaves_less s.rest.first can.1 told.1, (C.leaves_less s.rest.rest.first can.2 told.2, (D.leaves_less s.rest.rest.second can.3 told.3, tt)))) };
}

/// What `or5` answers: the first of five alternatives that does not backtrack.
#[derive(Drop)]
pub struct Or5<A, B, C, D, E> {
    pub(crate) first: A,
    pub(crate) rest: Or4<B, C, D, E>,
}

impl<
    'a,
    A: Combinator<'a>,
    B: Combinator<'a, Output = A::Output>,
    C: Combinator<'a, Output = A::Output>,
    D: Combinator<'a, Output = A::Output>,
    E: Combinator<'a, Output = A::Output>,
> Combinator<'a> for Or5<A, B, C, D, E> {
    type Output = A::Output;

    ghost can_parse = { λ s. A.can_parse s.first × B.can_parse s.rest.first × C.can_parse s.rest.rest.first × D.can_parse s.rest.rest.rest.first × E.can_parse s.rest.rest.rest.second };

    ghost gives = { λ s text outcome. GivesFirst (A.gives s.first ∷ B.gives s.rest.first ∷ C.gives s.rest.rest.first ∷ D.gives s.rest.rest.rest.first ∷ E.gives s.rest.rest.rest.second ∷ []) text outcome };

    ghost advances = { λ s. A.advances s.first × B.advances s.rest.first × C.advances s.rest.rest.first × D.advances s.rest.rest.rest.first × E.advances s.rest.rest.rest.second };

    fn parse(&self, input: &'a str) -> ParseResult<'a, A::Output> {
        match self.first.parse(input) {
            Err(ParseError::Backtrace) => self.rest.parse(input),
            other => other,
        }
    }

    ghost leaves_suffix = { λ s can. GivesFirst-suffix (A.gives s.first ∷ B.gives s.rest.first ∷ C.gives s.rest.rest.first ∷ D.gives s.rest.rest.rest.first ∷ E.gives s.rest.rest.rest.second ∷ []) (A.leaves_suffix s.first can.0, (B.leaves_suffix s.rest.first can.1, (C.leaves_suffix s.rest.rest.first can.2, (D.leaves_suffix s.rest.rest.rest.first can.3, (E.leaves_suffix s.rest.rest.rest.second can.4, tt))))) };

    ghost leaves_less = { λ s can told. first_advances (A.gives s.first ∷ B.gives s.rest.first ∷ C.gives s.rest.rest.first ∷ D.gives s.rest.rest.rest.first ∷ E.gives s.rest.rest.rest.second ∷ []) (A.leaves_less s.first can.0 told.0, (B.leaves_less s.rest.first can.1 told.1, (C.leaves_less s.rest.rest.first can.2 told.2, (D.leaves_less s.rest.rest.rest.first can.3 told.3, (E.leaves_less s.rest.rest.rest.second can.4 told.4, tt))))) };
}

/// What `or6` answers: the first of six alternatives that does not backtrack.
#[derive(Drop)]
pub struct Or6<A, B, C, D, E, F> {
    pub(crate) first: A,
    pub(crate) rest: Or5<B, C, D, E, F>,
}

impl<
    'a,
    A: Combinator<'a>,
    B: Combinator<'a, Output = A::Output>,
    C: Combinator<'a, Output = A::Output>,
    D: Combinator<'a, Output = A::Output>,
    E: Combinator<'a, Output = A::Output>,
    F: Combinator<'a, Output = A::Output>,
> Combinator<'a> for Or6<A, B, C, D, E, F> {
    type Output = A::Output;

    ghost can_parse = { λ s. A.can_parse s.first × B.can_parse s.rest.first × C.can_parse s.rest.rest.first × D.can_parse s.rest.rest.rest.first × E.can_parse s.rest.rest.rest.rest.first × F.can_parse s.rest.rest.rest.rest.second };

    ghost gives = { λ s text outcome. GivesFirst (A.gives s.first ∷ B.gives s.rest.first ∷ C.gives s.rest.rest.first ∷ D.gives s.rest.rest.rest.first ∷ E.gives s.rest.rest.rest.rest.first ∷ F.gives s.rest.rest.rest.rest.second ∷ []) text outcome };

    ghost advances = { λ s. A.advances s.first × B.advances s.rest.first × C.advances s.rest.rest.first × D.advances s.rest.rest.rest.first × E.advances s.rest.rest.rest.rest.first × F.advances s.rest.rest.rest.rest.second };

    fn parse(&self, input: &'a str) -> ParseResult<'a, A::Output> {
        match self.first.parse(input) {
            Err(ParseError::Backtrace) => self.rest.parse(input),
            other => other,
        }
    }

    ghost leaves_suffix = { λ s can. GivesFirst-suffix (A.gives s.first ∷ B.gives s.rest.first ∷ C.gives s.rest.rest.first ∷ D.gives s.rest.rest.rest.first ∷ E.gives s.rest.rest.rest.rest.first ∷ F.gives s.rest.rest.rest.rest.second ∷ []) (A.leaves_suffix s.first can.0, (B.leaves_suffix s.rest.first can.1, (C.leaves_suffix s.rest.rest.first can.2, (D.leaves_suffix s.rest.rest.rest.first can.3, (E.leaves_suffix s.rest.rest.rest.rest.first can.4, (F.leaves_suffix s.rest.rest.rest.rest.second can.5, tt)))))) };

    ghost leaves_less = { λ s can told. first_advances (A.gives s.first ∷ B.gives s.rest.first ∷ C.gives s.rest.rest.first ∷ D.gives s.rest.rest.rest.first ∷ E.gives s.rest.rest.rest.rest.first ∷ F.gives s.rest.rest.rest.rest.second ∷ []) (A.leaves_less s.first can.0 told.0, (B.leaves_less s.rest.first can.1 told.1, (C.leaves_less s.rest.rest.first can.2 told.2, (D.leaves_less s.rest.rest.rest.first can.3 told.3, (E.leaves_less s.rest.rest.rest.rest.first can.4 told.4, (F.leaves_less s.rest.rest.rest.rest.second can.5 told.5, tt)))))) };
}

/// What `or7` answers: the first of seven alternatives that does not backtrack.
#[derive(Drop)]
pub struct Or7<A, B, C, D, E, F, G> {
    pub(crate) first: A,
    pub(crate) rest: Or6<B, C, D, E, F, G>,
}

impl<
    'a,
    A: Combinator<'a>,
    B: Combinator<'a, Output = A::Output>,
    C: Combinator<'a, Output = A::Output>,
    D: Combinator<'a, Output = A::Output>,
    E: Combinator<'a, Output = A::Output>,
    F: Combinator<'a, Output = A::Output>,
    G: Combinator<'a, Output = A::Output>,
> Combinator<'a> for Or7<A, B, C, D, E, F, G> {
    type Output = A::Output;

    ghost can_parse = { λ s. A.can_parse s.first × B.can_parse s.rest.first × C.can_parse s.rest.rest.first × D.can_parse s.rest.rest.rest.first × E.can_parse s.rest.rest.rest.rest.first × F.can_parse s.rest.rest.rest.rest.rest.first × G.can_parse s.rest.rest.rest.rest.rest.second };

    ghost gives = { λ s text outcome. GivesFirst (A.gives s.first ∷ B.gives s.rest.first ∷ C.gives s.rest.rest.first ∷ D.gives s.rest.rest.rest.first ∷ E.gives s.rest.rest.rest.rest.first ∷ F.gives s.rest.rest.rest.rest.rest.first ∷ G.gives s.rest.rest.rest.rest.rest.second ∷ []) text outcome };

    ghost advances = { λ s. A.advances s.first × B.advances s.rest.first × C.advances s.rest.rest.first × D.advances s.rest.rest.rest.first × E.advances s.rest.rest.rest.rest.first × F.advances s.rest.rest.rest.rest.rest.first × G.advances s.rest.rest.rest.rest.rest.second };

    fn parse(&self, input: &'a str) -> ParseResult<'a, A::Output> {
        match self.first.parse(input) {
            Err(ParseError::Backtrace) => self.rest.parse(input),
            other => other,
        }
    }

    ghost leaves_suffix = { λ s can. GivesFirst-suffix (A.gives s.first ∷ B.gives s.rest.first ∷ C.gives s.rest.rest.first ∷ D.gives s.rest.rest.rest.first ∷ E.gives s.rest.rest.rest.rest.first ∷ F.gives s.rest.rest.rest.rest.rest.first ∷ G.gives s.rest.rest.rest.rest.rest.second ∷ []) (A.leaves_suffix s.first can.0, (B.leaves_suffix s.rest.first can.1, (C.leaves_suffix s.rest.rest.first can.2, (D.leaves_suffix s.rest.rest.rest.first can.3, (E.leaves_suffix s.rest.rest.rest.rest.first can.4, (F.leaves_suffix s.rest.rest.rest.rest.rest.first can.5, (G.leaves_suffix s.rest.rest.rest.rest.rest.second can.6, tt))))))) };

    ghost leaves_less = { λ s can told. first_advances (A.gives s.first ∷ B.gives s.rest.first ∷ C.gives s.rest.rest.first ∷ D.gives s.rest.rest.rest.first ∷ E.gives s.rest.rest.rest.rest.first ∷ F.gives s.rest.rest.rest.rest.rest.first ∷ G.gives s.rest.rest.rest.rest.rest.second ∷ []) (A.leaves_less s.first can.0 told.0, (B.leaves_less s.rest.first can.1 told.1, (C.leaves_less s.rest.rest.first can.2 told.2, (D.leaves_less s.rest.rest.rest.first can.3 told.3, (E.leaves_less s.rest.rest.rest.rest.first can.4 told.4, (F.leaves_less s.rest.rest.rest.rest.rest.first can.5 told.5, (G.leaves_less s.rest.rest.rest.rest.rest.second can.6 told.6, tt))))))) };
}
