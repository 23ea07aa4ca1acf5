//! What a test or predicate that is named by a value says at a place.

ghost use Rattle.std.specs.Prelude.{◌≡◌};
ghost use Rattle.grammar_theory.specs.Key.{keys_of};
ghost use Rattle.es_type_rules.specs.predicates.Named.{kinds_of, lookahead_of, predicate_of};

use crate::predicates::looks::{has, looks};
use crate::predicates::named::{Kinds, Lookahead, Predicate};
use crate::predicates::names::{
    is_property_key, opens_accessor, opens_angle, opens_arguments, opens_construct, opens_index,
    opens_method, opens_modifier, opens_readonly, opens_value,
};
use crate::predicates::types::{
    is_keyword_type, is_label, opens_asserts, opens_constructor, opens_function, opens_infer,
    opens_mapped, opens_operator, opens_predicate, opens_this_reference,
};
use es_lookahead::Tokens;
use es_rules::{Holds, Input, IsOfKinds, Sees};

impl IsOfKinds for Kinds {
    ghost kinds = { λ s. kinds_of s };

    #[inline(always)]
    fn is_there(&self, tokens: &Tokens<'_>, at: usize) -> bool {
        has(*self, tokens.seen(at))
    }
}

impl Sees for Lookahead {
    ghost look = { λ s. lookahead_of s };

    #[inline(always)]
    fn sees(&self, tokens: &Tokens<'_>, at: usize) -> bool {
        looks(*self, tokens.seen(at))
    }
}

impl Holds for Predicate {
    ghost predicate = { λ s. predicate_of s };

    #[inline(always)]
    fn holds(&self, input: &Input<'_>, at: usize) -> bool {
        holds(&input.tokens, *self, at)
    }
}

/// Whether the predicate holds at this place.
#[tactic(auto, unfolding(es_grammar::specs::types::TypeNames::no_arguments))]
fn holds(tokens: &Tokens<'_>, predicate: Predicate, at: usize) -> bool
    ensures { result ≡ predicate_of predicate (keys_of tokens.now.tokens.now) at }
{
    match predicate {
        Predicate::OpensModifier => opens_modifier(tokens, at),
        Predicate::OpensArguments => opens_arguments(tokens, at),
        Predicate::NoArguments => !opens_arguments(tokens, at),
        Predicate::OpensAngle => opens_angle(tokens, at),
        Predicate::OpensValue => opens_value(tokens, at),
        Predicate::OpensConstruct => opens_construct(tokens, at),
        Predicate::OpensReadonly => opens_readonly(tokens, at),
        Predicate::OpensIndex => opens_index(tokens, at),
        Predicate::OpensAccessor => opens_accessor(tokens, at),
        Predicate::OpensMethod => opens_method(tokens, at),
        Predicate::IsPropertyKey => is_property_key(tokens, at),
        Predicate::OpensMapped => opens_mapped(tokens, at),
        Predicate::OpensThisReference => opens_this_reference(tokens, at),
        Predicate::IsKeywordType => is_keyword_type(tokens, at),
        Predicate::OpensOperator => opens_operator(tokens, at),
        Predicate::OpensInfer => opens_infer(tokens, at),
        Predicate::OpensFunction => opens_function(tokens, at),
        Predicate::OpensConstructor => opens_constructor(tokens, at),
        Predicate::IsLabel => is_label(tokens, at),
        Predicate::OpensAsserts => opens_asserts(tokens, at),
        Predicate::OpensPredicate => opens_predicate(tokens, at),
    }
}
