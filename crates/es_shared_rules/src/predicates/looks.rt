//! Tests of what is seen of the next token, or of the end.

ghost use Rattle.std.specs.Prelude.{◌≡◌, true};
ghost use Rattle.grammar_theory.specs.Key.{has_kind, is, is_after_line};
ghost use Rattle.es_grammar.specs.types.Words.{is_near, is_name, begins_key};
ghost use Rattle.es_grammar.specs.types.Expressions.{is_arrow};
ghost use Rattle.es_grammar.specs.types.Functions.{starts_key};
ghost use Rattle.es_grammar.specs.types.Members.{opens_parameters};
ghost use Rattle.es_lookahead.specs.Sight.{sight};
ghost use Rattle.es_grammar.specs.Embedding.{begins_call};
ghost use Rattle.es_grammar.specs.Expressions.{opens_non_null, opens_assertion};
ghost use Rattle.es_grammar.specs.Functions.{is_parameter_mark};
ghost use Rattle.es_grammar.specs.Statements.{is_declarator_mark};
ghost use Rattle.es_shared_rules.specs.predicates.Named.{kinds_of};

use crate::predicates::kinds::is_of;
use crate::predicates::named::Kinds;
use es_lookahead::Seen;
use es_token::TokenKind;

/// The next token is of this kind.
#[tactic(auto, unfolding(es_lookahead::specs::Sight::sight))]
pub fn is(kind: TokenKind, next: Option<Seen>) -> bool
    ensures { result ≡ is kind (sight next) }
{
    match next {
        Some(seen) => seen.kind == kind,
        None => false,
    }
}

/// The next token is of one of these kinds.
#[tactic(auto, unfolding(es_lookahead::specs::Sight::sight))]
#[inline(always)]
pub fn has(kinds: Kinds, next: Option<Seen>) -> bool
    ensures { result ≡ has_kind (kinds_of kinds) (sight next) }
{
    match next {
        Some(seen) => is_of(kinds, seen.kind),
        None => false,
    }
}

/// The next token is a name.
pub fn has_name(next: Option<Seen>) -> bool
    ensures { result ≡ has_kind is_name (sight next) }
{
    has(Kinds::Name, next)
}

/// A line end precedes the next token.
#[tactic(auto, unfolding(es_lookahead::specs::Sight::sight))]
pub fn is_after_line(next: Option<Seen>) -> bool
    ensures { result ≡ is_after_line (sight next) }
{
    match next {
        Some(seen) => seen.line_before,
        None => false,
    }
}

/// ~: the next token is on the line of the one before it.
#[tactic(auto, unfolding(es_grammar::specs::types::Words::is_near))]
pub fn is_near(next: Option<Seen>) -> bool
    ensures { result ≡ is_near (sight next) }
{
    !is_after_line(next)
}

/// A token that can begin the key of a property.
#[tactic(auto, unfolding(es_grammar::specs::types::Words::begins_key))]
fn begins_key(next: Option<Seen>) -> bool
    ensures { result ≡ begins_key (sight next) }
{
    has(Kinds::Word, next)
        || is(TokenKind::Str, next)
        || has(Kinds::Numeric, next)
        || is(TokenKind::OpenBracket, next)
}

/// A token that can begin the key of a member.
pub fn starts_member_key(next: Option<Seen>) -> bool
    ensures { result ≡ starts_key true (sight next) }
{
    is(TokenKind::PrivateName, next) || begins_key(next)
}

/// `=>` on the line of the token before it.
#[tactic(auto, unfolding(es_grammar::specs::types::Expressions::is_arrow))]
pub fn is_arrow(next: Option<Seen>) -> bool
    ensures { result ≡ is_arrow (sight next) }
{
    is_near(next) && is(TokenKind::Arrow, next)
}

/// `(` or `<`
#[tactic(auto, unfolding(es_grammar::specs::types::Members::opens_parameters))]
pub fn opens_parameters(next: Option<Seen>) -> bool
    ensures { result ≡ opens_parameters (sight next) }
{
    is(TokenKind::OpenParen, next) || is(TokenKind::Less, next)
}

/// `(` or the start of a template.
#[tactic(auto, unfolding(es_grammar::specs::Embedding::begins_call))]
pub fn begins_call(next: Option<Seen>) -> bool
    ensures { result ≡ begins_call (sight next) }
{
    is(TokenKind::OpenParen, next)
        || is(TokenKind::TemplateWhole, next)
        || is(TokenKind::TemplateHead, next)
}

/// `!` on the line of the token before it.
#[tactic(auto, unfolding(es_grammar::specs::Expressions::opens_non_null))]
pub fn opens_non_null(next: Option<Seen>) -> bool
    ensures { result ≡ opens_non_null (sight next) }
{
    is_near(next) && is(TokenKind::Exclamation, next)
}

/// `as` or `satisfies` there.
#[tactic(auto, unfolding(es_grammar::specs::Expressions::opens_assertion))]
pub fn opens_assertion(next: Option<Seen>) -> bool
    ensures { result ≡ opens_assertion (sight next) }
{
    is_near(next) && has(Kinds::AssertionWord, next)
}

/// `?`, `:` or `=`
#[tactic(auto, unfolding(es_grammar::specs::Functions::is_parameter_mark))]
pub fn is_parameter_mark(next: Option<Seen>) -> bool
    ensures { result ≡ is_parameter_mark (sight next) }
{
    is(TokenKind::Question, next) || is(TokenKind::Colon, next) || is(TokenKind::Equal, next)
}

/// `!` on its line, `:` or `=`
#[tactic(auto, unfolding(es_grammar::specs::Statements::is_declarator_mark))]
pub fn is_declarator_mark(next: Option<Seen>) -> bool
    ensures { result ≡ is_declarator_mark (sight next) }
{
    opens_non_null(next) || is(TokenKind::Colon, next) || is(TokenKind::Equal, next)
}
