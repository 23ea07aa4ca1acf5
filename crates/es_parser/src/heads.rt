//! Predicates of expressions, over tokens.

ghost use Rattle.std.specs.Prelude.{◌≡◌, ◌&&◌};
ghost use Rattle.es_grammar.specs.types.Functions.{opens_inner_pattern};
ghost use Rattle.es_grammar.specs.types.Statements.{opens_head_pattern};
ghost use Rattle.grammar_theory.specs.Key.{keys_of};
ghost use Rattle.es_grammar.specs.Expressions.{opens_any_arrow};
ghost use Rattle.es_parser.specs.Heads.{arrow_place, is_pattern_head};

use es_grammar::Context;
use es_lookahead::Tokens;
use es_shared_rules::predicates::{Predicate, holds};
use es_token::Token;
use grammar_theory::Lang;
use std::alloc::Global;

/// Whether an arrow function opens at a token where an expression may begin: a name, `(`, `async`, in TypeScript `<`.
/// With `colon` a `:` may open its result there: so it is everywhere but in the first branch of a conditional and in a
/// case test, outside deeper brackets.
pub fn is_arrow_head(alloc: Global, lang: Lang, colon: bool, tokens: &[Token], at: usize) -> bool
    ensures { result ≡ opens_any_arrow lang (arrow_place colon) (keys_of tokens.now) at }
{
    let place = Context {
        script: false,
        as_module: true,
        no_in: false,
        in_async: false,
        no_colon: !colon,
        in_constructor: false,
    };
    holds(
        &Tokens {
            tokens,
            angles: &[],
        },
        alloc,
        Predicate::OpensAnyArrow(lang, place),
        at,
    )
}

/// `[` or `{` opens a pattern in the head of a `for`.
fn opens_in_head(tokens: &Tokens<'_>, at: usize, in_for: bool) -> bool
    ensures { result ≡ (in_for && opens_head_pattern (keys_of tokens.now.tokens.now) at) }
{
    in_for && tokens.opens_head_pattern(at)
}

/// `[` or `{` opens a pattern inside one.
fn opens_inside(tokens: &Tokens<'_>, at: usize, in_pattern: bool) -> bool
    ensures { result ≡ (in_pattern && opens_inner_pattern (keys_of tokens.now.tokens.now) at) }
{
    in_pattern && tokens.opens_inner_pattern(at)
}

/// The same over `Tokens`.
#[tactic(auto, unfolding(crate::specs::Heads::is_pattern_head))]
fn opens_pattern_at(tokens: &Tokens<'_>, at: usize, in_for: bool, in_pattern: bool) -> bool
    ensures { result ≡ is_pattern_head in_for in_pattern (keys_of tokens.now.tokens.now) at }
{
    tokens.opens_pattern(at)
        || opens_in_head(tokens, at, in_for)
        || opens_inside(tokens, at, in_pattern)
}

/// Whether `[` or `{` opens a pattern that is assigned to, at a token where an expression may begin; `in_for`: in the
/// head of a `for`; `in_pattern`: inside such a pattern, and no default or key.
pub fn is_pattern_head(tokens: &[Token], at: usize, in_for: bool, in_pattern: bool) -> bool
    ensures { result ≡ is_pattern_head in_for in_pattern (keys_of tokens.now) at }
{
    opens_pattern_at(
        &Tokens {
            tokens,
            angles: &[],
        },
        at,
        in_for,
        in_pattern,
    )
}
