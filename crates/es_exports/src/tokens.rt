//! Names in braces and strings, after those found before.

ghost use Rattle.std.specs.Prelude.{◌≡◌, ◌++◌, ◌∷◌, [], false, slice_get};
ghost use Rattle.std.specs.Option.{option_map};
ghost use Rattle.es_lowering.specs.Value.{as_group};
ghost use Rattle.es_lowering.specs.Texts.{name_of, str_of, name_at};
ghost use Rattle.es_literal.specs.Values.{value_of};
ghost use Rattle.es_syntax.specs.Held.{valued};
ghost use Rattle.es_exports.specs.Exports.{export_name};
ghost use Rattle.es_exports.specs.Parts.{str_names};
ghost use Rattle.es_bound_names.specs.Adds.{Adds};
ghost use Rattle.es_bound_names.specs.Cuts.{IsCut};

use es_bound_names::{Names, cut, token_at};
use es_literal::literal_value;
use es_syntax::Item;
use es_token::{Token, TokenKind};

/// The value of the string that the token of this number is.
#[tactic(auto, using(crate::proofs::TokenForms::adds_str, es_bound_names::proofs::Lists::adds_nothing))]
pub fn str_name(out: &mut Names, text: &str, tokens: &[Token], at: u32)
    requires { IsCut text.now tokens.now }
    ensures before { out.new.failed ≡ false → out.old.failed ≡ false }
    ensures adds { out.new.failed ≡ false → Adds str_names out.old.found out.new.found (option_map (str_of text.now) (slice_get tokens.now at)) }
{
    match token_at(tokens, at) {
        Some(token) => add_value(out, cut(text, token)),
        None => {}
    }
}

/// The value of a string literal, as one name more.
fn add_value(out: &mut Names, literal: &str)
    ensures { out.new.failed ≡ false → (out.old.failed ≡ false) × (out.new.found ≡ out.old.found ++ value_of literal.now ∷ []) }
{
    let alloc = out.found.allocator();
    match literal_value(alloc, literal) {
        Ok(value) => out.add(value.text.as_str()),
        Err(memory) => out.fail(memory),
    }
}

/// The name that the token of this number is, or the value of the string.
#[tactic(auto, using(crate::proofs::TokenForms::adds_name, crate::proofs::TokenForms::adds_string, es_bound_names::proofs::Lists::adds_nothing))]
pub fn export_name(out: &mut Names, text: &str, tokens: &[Token], at: u32)
    requires { IsCut text.now tokens.now }
    ensures before { out.new.failed ≡ false → out.old.failed ≡ false }
    ensures adds { out.new.failed ≡ false → Adds export_name out.old.found out.new.found (option_map (name_of text.now) (slice_get tokens.now at)) }
{
    match token_at(tokens, at) {
        Some(token) => {
            if token.kind() == TokenKind::Str {
                str_name(out, text, tokens, at);
            } else {
                out.token(text, tokens, at);
            }
        }
        None => {}
    }
}

/// The name, or the value of the string, that is first in a group.
#[tactic(auto, using(es_bound_names::proofs::Lists::adds_nothing))]
pub fn name_part(out: &mut Names, text: &str, tokens: &[Token], it: &Item<'_>)
    requires { IsCut text.now tokens.now }
    ensures before { out.new.failed ≡ false → out.old.failed ≡ false }
    ensures adds { out.new.failed ≡ false → Adds export_name out.old.found out.new.found (name_at text.now tokens.now (as_group (valued text.now tokens.now it.now)) 0) }
{
    match it.group().token_at(0) {
        Some(token) => export_name(out, text, tokens, token),
        None => {}
    }
}
