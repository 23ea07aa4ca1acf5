//! Properties of objects.

ghost use Rattle.std.specs.Prelude.{◌≡◌, ℕ, List, IfSome, slice_get};
ghost use Rattle.base.specs.declared.range.Range.{Range};
ghost use Rattle.es_token.specs.declared.token.Token.{Token as Tok};
ghost use Rattle.es_view_expressions.specs.member.Prop.{the_prop};
ghost use Rattle.es_syntax.specs.Held.{valued};
ghost use Rattle.es_syntax.specs.Roles.{expr_in, key_in, prop_in};
ghost use Rattle.cjs_facts.specs.Looks.{name_by};
ghost use Rattle.cjs_looks.specs.Seen.{Tells, look_of};
ghost use Rattle.cjs_looks.specs.Kinds.{body_of};
ghost use Rattle.cjs_looks.specs.objects.Properties.{key_says, body_harmless, IsProperty, Runs, Accesses};

use crate::objects::returned::returned_by;
use crate::{Body, Kind, Look, is_harmless, kind_at, token_at};
use es_syntax::Item;
use es_token::{Token, TokenKind};
use es_view_expressions::member::{Key, Prop, key_at, prop_at};

/// A property of an object.
#[derive(Clone, Copy)]
pub struct Property<'a> {
    /// Its name: what its key looks like.
    pub name: Look,
    /// Whether its name is an export of `module.exports = {..}`.
    pub is_export: bool,
    /// The body of the function that it may be as a `get` of a descriptor.
    pub function: Option<Body<'a>>,
    /// What follows `...`.
    pub spread: Option<Item<'a>>,
}

/// What a key names.
#[tactic(auto, using(crate::proofs::Unknown::says_unknown, crate::proofs::objects_lemmas::Keys::says_word, crate::proofs::objects_lemmas::Keys::says_str, crate::proofs::objects_lemmas::Keys::says_number, crate::proofs::objects_lemmas::Keys::says_computed, crate::proofs::objects_lemmas::Keys::says_private))]
fn key_look(it: &Item<'_>) -> Look
    ensures { (x : List ℕ) (ts : List Tok) → Tells key_says (key_in (valued x ts it.now)) (name_by (look_of x ts result)) }
{
    match key_at(it) {
        Some(Key::Word(name)) => Look::Named(name),
        Some(Key::Str(text)) => Look::Text(text),
        Some(Key::Number(_)) => Look::Other,
        Some(Key::Computed(_)) => Look::Other,
        Some(Key::Private(_)) => Look::Other,
        Some(Key::Broken) => Look::Other,
        None => Look::Other,
    }
}

/// Whether a function only returns what is harmless.
#[tactic(auto, using(crate::proofs::objects_lemmas::Forms::returns_nothing, crate::proofs::objects_lemmas::Forms::returns_some))]
pub fn returns_harmless(text: &str, tokens: &[Token], body: &Body<'_>) -> bool
    ensures { Tells body_harmless (body_of text.now tokens.now body.now) result }
{
    match returned_by(body) {
        Some(expr) => is_harmless(text, tokens, &expr),
        None => false,
    }
}

/// The function that a value is, if it is one.
#[tactic(auto, using(crate::proofs::objects_lemmas::Forms::runs_plain, crate::proofs::objects_lemmas::Forms::runs_object, crate::proofs::objects_lemmas::Forms::runs_paren, crate::proofs::objects_lemmas::Forms::runs_number, crate::proofs::objects_lemmas::Forms::runs_sequence, crate::proofs::objects_lemmas::Forms::runs_spread, crate::proofs::objects_lemmas::Forms::runs_assigned, crate::proofs::objects_lemmas::Forms::runs_function))]
fn value_function<'a>(text: &str, tokens: &[Token], it: &Item<'a>) -> Option<Body<'a>>
    ensures { Runs text.now tokens.now result (expr_in (valued text.now tokens.now it.now)) }
{
    match kind_at(text, tokens, it) {
        Kind::Function(body) => Some(body),
        Kind::Plain(_) => None,
        Kind::Object(_) => None,
        Kind::Paren(_) => None,
        Kind::Number(_) => None,
        Kind::Spread => None,
        Kind::Sequence { .. } => None,
        Kind::Assigned(_) => None,
    }
}

/// Whether the word before an accessor is `get`, and its function only returns what is harmless.
#[tactic(auto, using(crate::proofs::objects_lemmas::Forms::accesses_getter, crate::proofs::objects_lemmas::Forms::accesses_setter, crate::proofs::objects_lemmas::Forms::accesses_nothing))]
fn accessor_exports(text: &str, tokens: &[Token], sign: u32, body: &Item<'_>) -> bool
    ensures { Accesses text.now tokens.now (slice_get tokens.now sign) body.now result }
{
    match token_at(tokens, sign) {
        Some(token) => {
            if token.kind() == TokenKind::GetWord {
                return returns_harmless(text, tokens, &Body::Block(*body));
            }
            false
        }
        None => false,
    }
}

/// What a property is, by its view.
#[tactic(auto, using(crate::proofs::objects_lemmas::Forms::is_method, crate::proofs::objects_lemmas::Forms::is_typed_method, crate::proofs::objects_lemmas::Forms::is_accessor, crate::proofs::objects_lemmas::Forms::is_typed_accessor, crate::proofs::objects_lemmas::Forms::is_key_value, crate::proofs::objects_lemmas::Forms::is_shorthand, crate::proofs::objects_lemmas::Forms::is_spread))]
fn view_property<'a>(text: &str, tokens: &[Token], it: &Prop<'a>) -> Property<'a>
    ensures { (r : Range) → IsProperty text.now tokens.now result (the_prop text.now tokens.now r it.now) }
{
    match *it {
        Prop::Method { key, body, .. } => Property {
            name: key_look(&key),
            is_export: true,
            function: Some(Body::Block(body)),
            spread: None,
        },
        Prop::TypedMethod { key, body, .. } => Property {
            name: key_look(&key),
            is_export: true,
            function: Some(Body::Block(body)),
            spread: None,
        },
        Prop::Accessor {
            sign,
            key,
            body,
            ..
        } => Property {
            name: key_look(&key),
            is_export: accessor_exports(text, tokens, sign, &body),
            function: None,
            spread: None,
        },
        Prop::TypedAccessor {
            sign,
            key,
            body,
            ..
        } => Property {
            name: key_look(&key),
            is_export: accessor_exports(text, tokens, sign, &body),
            function: None,
            spread: None,
        },
        Prop::KeyValue { key, value } => Property {
            name: key_look(&key),
            is_export: true,
            function: value_function(text, tokens, &value),
            spread: None,
        },
        Prop::Shorthand(name) => Property {
            name: Look::Named(name),
            is_export: true,
            function: None,
            spread: None,
        },
        Prop::Spread(expr) => Property {
            name: Look::Other,
            is_export: false,
            function: None,
            spread: Some(expr),
        },
        Prop::Broken => Property {
            name: Look::Other,
            is_export: false,
            function: None,
            spread: None,
        },
    }
}

/// What a property is.
#[tactic(auto, using(crate::proofs::Unknown::property_unknown))]
pub fn property_at<'a>(text: &str, tokens: &[Token], it: &Item<'a>) -> Property<'a>
    ensures { IsProperty text.now tokens.now result (prop_in (valued text.now tokens.now it.now)) }
{
    match prop_at(it) {
        Some(view) => view_property(text, tokens, &view),
        None => view_property(text, tokens, &Prop::Broken),
    }
}
