//! The types of names.

ghost use Rattle.std.specs.Prelude.{◌≡◌, ◌||◌, ◌&&◌, ◌==◌, false, true, ℕ, List, Bool, bytes_eq, codes, slice_get};
ghost use Rattle.es_token.specs.declared.token.Token.{Token as Tok};
ghost use Rattle.es_ast.specs.declared.ts.leaf.Ident.{Ident as AnIdent};
ghost use Rattle.es_lexer.specs.Reads.{ReadsTokens};
ghost use Rattle.es_lowering.specs.Texts.{ident_of};
ghost use Rattle.es_syntax.specs.Roles.{ts_type_in};
ghost use Rattle.dts_rules.specs.Rules as rules;
ghost use Rattle.dts_draft.specs.Drafts.{state_of};
ghost use Rattle.dts_draft.specs.Written.{IfThere, Gives};
ghost use Rattle.dts_names.specs.Names.{Knows, IsNamed, IsTypeof, IsNameType, IsArrayName, IsCalled, IsClassName};

use crate::env::Env;
use dts_draft::Draft;
use es_changed::{Form, Word};
use es_variables::ident_at;

fn are_same(a: u32, b: u32) -> bool
    ensures { result ≡ (a == b) }
{
    a == b
}

fn is_called(sym: &str, number: u32, name: &str, unresolved: u32) -> bool
    ensures { result ≡ (bytes_eq sym.now name.now && (number == unresolved)) }
{
    sym == name && number == unresolved
}

/// Whether the token of this number is this name, and nothing declares it.
#[tactic(auto, using(crate::proofs::NameLemmas::nothing_there))]
pub fn is_unresolved(env: &Env<'_>, at: u32, name: &str) -> bool
    requires { ReadsTokens env.now.text.now env.now.tokens.now }
    ensures { (by : rules.Env) → Knows env.now by → IfThere (IsCalled by env.now.text.now name.now result) (slice_get env.now.tokens.now at) }
{
    match ident_at(env.text, env.tokens, env.ids, at) {
        Some(id) => is_called(id.sym, id.ctxt, name, env.unresolved),
        None => false,
    }
}

/// A name, as the name of a type.
fn named_type(out: &mut Draft, at: u32)
    ensures before { out.new.failed ≡ false → out.old.failed ≡ false }
    ensures state { state_of out.new ≡ state_of out.old }
    ensures written { out.new.failed ≡ false → (x : List ℕ) (ts : List Tok) → IfThere (IsNamed x ts out.old.row out.new.row) (slice_get ts at) }
{
    out.gone(at);
    out.leaf_form(Form::Named, at);
}

/// `typeof` a name.
fn typeof_name(out: &mut Draft, at: u32)
    ensures before { out.new.failed ≡ false → out.old.failed ≡ false }
    ensures state { state_of out.new ≡ state_of out.old }
    ensures written { out.new.failed ≡ false → (x : List ℕ) (ts : List Tok) → IfThere (IsTypeof x ts out.old.row out.new.row) (slice_get ts at) }
{
    let place = out.open();
    named_type(out, at);
    out.close_form(place, Form::Typeof);
}

fn is_undefined(sym: &str) -> bool
    ensures { result ≡ bytes_eq sym.now (codes "undefined") }
{
    sym == "undefined"
}

fn is_literal_undefined(sym: &str, literal: bool) -> bool
    ensures { result ≡ (literal && bytes_eq sym.now (codes "undefined")) }
{
    literal && is_undefined(sym)
}

fn is_number_name(sym: &str) -> bool
    ensures { result ≡ (bytes_eq sym.now (codes "NaN") || bytes_eq sym.now (codes "Infinity")) }
{
    sym == "NaN" || sym == "Infinity"
}

/// The type of a name that nothing declares.
fn free_type(out: &mut Draft, sym: &str, literal: bool) -> bool
    ensures before { out.new.failed ≡ false → out.old.failed ≡ false }
    ensures state { state_of out.new ≡ state_of out.old }
    ensures written { out.new.failed ≡ false → (env : rules.Env) (x : List ℕ) (ts : List Tok) (id : AnIdent) → id.sym ≡ sym.now → Gives x ts ts_type_in out.old.row out.new.row result (rules.free_type env id literal) }
{
    if is_literal_undefined(sym, literal) {
        out.word(Word::Undefined);
        return true;
    }
    if is_number_name(sym) {
        out.word(Word::Number);
        return true;
    }
    false
}

/// The type of a name, where it has one.
#[tactic(auto, using(crate::proofs::NameLemmas::nothing_there))]
pub fn name_type(out: &mut Draft, env: &Env<'_>, at: u32, literal: bool) -> bool
    requires { ReadsTokens env.now.text.now env.now.tokens.now }
    ensures before { out.new.failed ≡ false → out.old.failed ≡ false }
    ensures state { state_of out.new ≡ state_of out.old }
    ensures written { out.new.failed ≡ false → (by : rules.Env) → Knows env.now by → IfThere (IsNameType by env.now.text.now env.now.tokens.now literal out.old.row out.new.row result) (slice_get env.now.tokens.now at) }
{
    match ident_at(env.text, env.tokens, env.ids, at) {
        Some(id) => {
            if are_same(id.ctxt, env.unresolved) {
                return free_type(out, id.sym, literal);
            }
            if env.known.is_typeof(id.sym, id.ctxt) {
                typeof_name(out, at);
                return true;
            }
            false
        }
        None => false,
    }
}

/// `typeof` a name, where it is that of an array.
#[tactic(auto, using(crate::proofs::NameLemmas::nothing_there))]
pub fn array_name(out: &mut Draft, env: &Env<'_>, at: u32) -> bool
    requires { ReadsTokens env.now.text.now env.now.tokens.now }
    ensures before { out.new.failed ≡ false → out.old.failed ≡ false }
    ensures state { state_of out.new ≡ state_of out.old }
    ensures written { out.new.failed ≡ false → (by : rules.Env) → Knows env.now by → IfThere (IsArrayName by env.now.text.now env.now.tokens.now out.old.row out.new.row result) (slice_get env.now.tokens.now at) }
{
    match ident_at(env.text, env.tokens, env.ids, at) {
        Some(id) => {
            if env.known.is_array(id.sym, id.ctxt) {
                typeof_name(out, at);
                return true;
            }
            false
        }
        None => false,
    }
}

/// The name of a class without type parameters.
#[tactic(auto, using(crate::proofs::NameLemmas::nothing_there))]
pub fn class_name(out: &mut Draft, env: &Env<'_>, at: u32) -> bool
    requires { ReadsTokens env.now.text.now env.now.tokens.now }
    ensures before { out.new.failed ≡ false → out.old.failed ≡ false }
    ensures state { state_of out.new ≡ state_of out.old }
    ensures written { out.new.failed ≡ false → (by : rules.Env) → Knows env.now by → IfThere (IsClassName by env.now.text.now env.now.tokens.now out.old.row out.new.row result) (slice_get env.now.tokens.now at) }
{
    match ident_at(env.text, env.tokens, env.ids, at) {
        Some(id) => {
            if env.known.is_plain(id.sym, id.ctxt) {
                named_type(out, at);
                return true;
            }
            false
        }
        None => false,
    }
}
