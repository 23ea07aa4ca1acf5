//! Names that stand for modules, and what they make of a fact.

ghost use Rattle.std.specs.Prelude.{◌≡◌, ℕ, List, Some, IfOk, OnOk, bytes_eq};
ghost use Rattle.std.specs.Option.{option_copied};
ghost use Rattle.es_bound_names.specs.Cuts.{IsCut};
ghost use Rattle.cjs_facts.specs.Exports.{var_in, module_at, starred, bind, key_found, required_found};
ghost use Rattle.cjs_looks.specs.Seen.{name_at, key_of, look_of};

use crate::steps::values::{name_value, plain_value};
use crate::{Key, Look, Object, same_name, spells};
use base::Text;
use cjs_facts::{Found, Var};
use es_token::Token;
use std::alloc::{AllocError, Global};

/// The module that a name stands for.
fn var_at<'a>(text: &str, tokens: &[Token], vars: &'a [Var], at: u32) -> Option<&'a Text>
    ensures { option_copied result ≡ var_in vars.now (name_at text.now tokens.now at) }
{
    let mut last = None;
    for var in vars {
        if spells(text, tokens, at, var.name.as_str()) {
            last = Some(&var.module_name);
        }
    }
    last
}

/// A copy of the module that a name stands for.
pub fn var_value(
    text: &str,
    tokens: &[Token],
    vars: &[Var],
    at: u32,
) -> Result<Option<Text>, AllocError>
    ensures { IfOk result (λ name. name ≡ var_in vars.now (name_at text.now tokens.now at)) }
{
    match var_at(text, tokens, vars, at) {
        Some(name) => {
            let copy = name.copy()?;
            Ok(Some(copy))
        }
        None => Ok(None),
    }
}

/// The module whose member by this name is taken: `a[k]`, where `a` stands for a module.
#[tactic(auto, using(crate::proofs::steps_lemmas::Strings::module_at_text, crate::proofs::steps_lemmas::Strings::module_at_required, crate::proofs::steps_lemmas::Strings::module_at_quoted))]
pub fn module_value(
    text: &str,
    tokens: &[Token],
    vars: &[Var],
    key: u32,
    look: Look,
) -> Result<Option<Text>, AllocError>
    ensures { IfOk result (λ name. name ≡ module_at vars.now (name_at text.now tokens.now key) (look_of text.now tokens.now look)) }
{
    match look {
        Look::Member(Object::One(name), Key::Keyed(by)) => {
            if same_name(text, tokens, by, key) {
                return var_value(text, tokens, vars, name);
            }
            Ok(None)
        }
        Look::Member(Object::One(_), Key::Dotted(_)) => Ok(None),
        Look::Member(Object::One(_), Key::Quoted(_)) => Ok(None),
        Look::Member(Object::One(_), Key::Odd) => Ok(None),
        Look::Member(Object::Within(_, _), _) => Ok(None),
        Look::Member(Object::Odd, _) => Ok(None),
        Look::Named(_) => Ok(None),
        Look::Text(_) => Ok(None),
        Look::Requires(_) => Ok(None),
        Look::Other => Ok(None),
    }
}

/// `__exportStar(a)`
#[tactic(auto, using(crate::proofs::steps_lemmas::Strings::starred_text, crate::proofs::steps_lemmas::Strings::starred_value, crate::proofs::steps_lemmas::Strings::starred_nothing))]
pub fn star(found: &mut Found, text: &str, tokens: &[Token], first: Look) -> Result<(), AllocError>
    requires { IsCut text.now tokens.now }
    ensures { OnOk result (found.new ≡ starred (look_of text.now tokens.now first) found.old) }
{
    match first {
        Look::Requires(at) => match plain_value(found.allocator(), text, tokens, at)? {
            Some(name) => found.add_reexport(name),
            None => Ok(()),
        },
        Look::Named(at) => match var_value(text, tokens, found.vars.as_slice(), at)? {
            Some(name) => found.add_reexport(name),
            None => Ok(()),
        },
        Look::Text(_) => Ok(()),
        Look::Member(_, _) => Ok(()),
        Look::Other => Ok(()),
    }
}

/// `var a = b`
#[tactic(auto, using(crate::proofs::steps_lemmas::Strings::bind_text, crate::proofs::steps_lemmas::Strings::bind_value, crate::proofs::steps_lemmas::Strings::bind_nothing))]
pub fn bind(
    found: &mut Found,
    text: &str,
    tokens: &[Token],
    name: u32,
    value: Look,
) -> Result<(), AllocError>
    requires { IsCut text.now tokens.now }
    ensures { OnOk result (found.new ≡ bind (Some (name_at text.now tokens.now name)) (look_of text.now tokens.now value) found.old) }
{
    match value {
        Look::Requires(at) => {
            let alloc = found.allocator();
            match plain_value(alloc, text, tokens, at)? {
                Some(module_name) => {
                    let name = name_value(alloc, text, tokens, name)?;
                    found.add_var(name, module_name)
                }
                None => Ok(()),
            }
        }
        Look::Named(_) => Ok(()),
        Look::Text(_) => Ok(()),
        Look::Member(_, _) => Ok(()),
        Look::Other => Ok(()),
    }
}

/// `exports.a = b`
#[tactic(auto, using(crate::proofs::steps_lemmas::Strings::key_value, crate::proofs::steps_lemmas::Strings::key_nothing))]
pub fn set_key(
    found: &mut Found,
    text: &str,
    tokens: &[Token],
    key: Key,
    right: Look,
) -> Result<(), AllocError>
    requires { IsCut text.now tokens.now }
    ensures { OnOk result (found.new ≡ key_found (key_of text.now tokens.now key) (look_of text.now tokens.now right) found.old) }
{
    let alloc = found.allocator();
    match key {
        Key::Dotted(at) => {
            let name = name_value(alloc, text, tokens, at)?;
            found.add_export(name)
        }
        Key::Quoted(at) => match plain_value(alloc, text, tokens, at)? {
            Some(name) => found.add_export(name),
            None => Ok(()),
        },
        Key::Keyed(at) => match module_value(text, tokens, found.vars.as_slice(), at, right)? {
            Some(name) => found.add_reexport(name),
            None => Ok(()),
        },
        Key::Odd => Ok(()),
    }
}

/// `module.exports = a`, where a is no object.
#[tactic(auto, using(crate::proofs::steps_lemmas::Strings::required_text, crate::proofs::steps_lemmas::Strings::set_value, crate::proofs::steps_lemmas::Strings::set_nothing))]
pub fn set_exports(
    found: &mut Found,
    text: &str,
    tokens: &[Token],
    right: Look,
) -> Result<(), AllocError>
    requires { IsCut text.now tokens.now }
    ensures { OnOk result (found.new ≡ required_found (look_of text.now tokens.now right) found.old) }
{
    match right {
        Look::Requires(at) => match plain_value(found.allocator(), text, tokens, at)? {
            Some(name) => found.set_reexport(name),
            None => Ok(()),
        },
        Look::Named(_) => Ok(()),
        Look::Text(_) => Ok(()),
        Look::Member(_, _) => Ok(()),
        Look::Other => Ok(()),
    }
}
