//! What declarations add to the sets of a module.

ghost use Rattle.std.specs.Prelude.{◌≡◌, Bool, false, true, slice_get, map};
ghost use Rattle.std.specs.Option.{option_map};
ghost use Rattle.base.specs.declared.range.Range.{Range};
ghost use Rattle.es_lexer.specs.Reads.{ReadsTokens};
ghost use Rattle.es_lowering.specs.Value.{as_group, turns, declarator_at};
ghost use Rattle.es_lowering.specs.Texts.{own_name_of};
ghost use Rattle.es_view_expressions.specs.function.Class.{the_class};
ghost use Rattle.es_view_expressions.specs.function.Head.{the_head};
ghost use Rattle.es_syntax.specs.Held.{held, valued, there};
ghost use Rattle.es_syntax.specs.Roles.{decl_in, declarable_in, declarator_in, variables_in};
ghost use Rattle.dts_rules.specs.Sets.{const_sets, decl_sets, all_sets};
ghost use Rattle.std.specs.Prelude.{IfSome, Option, Some, None};
ghost use Rattle.es_ast.specs.declared.ts.ts.TsPart.{TsPart};
ghost use Rattle.es_ast.specs.declared.ts.ts.TsPart.TheVariants as vPart;
ghost use Rattle.es_ast.specs.declared.ast.Expr.{Expr};
ghost use Rattle.es_lowering.specs.Value.{optional, expr_at, type_at};
ghost use Rattle.es_syntax.specs.Roles.{expr_in, pat_in, marked_in};
ghost use Rattle.es_view_statements.specs.decl.Variables.{var_of};
ghost use Rattle.dts_rules.specs.Sets.{type_in};
ghost use Rattle.dts_sets.specs.Known.{AddsBy, Fits, own_sets, class_of, function_of, pat_sets, marked_sets, consts_of, variables_of, decls_of};

use crate::forms::is_function;
use crate::known::{Flags, Known};
use crate::literals::is_array_literal;
use crate::types::{is_array_type, is_word};
use es_syntax::{Item, Siblings, What};
use es_token::{Token, TokenKind};
use es_variables::ScopeIds;
use es_view_expressions::function::{
    ClassHead, FunctionHead, plain_class, plain_function, typed_class, typed_function,
};
use es_view_expressions::pattern::{Marked, Pat, marked_at, pat_at};
use es_view_statements::decl::{
    Decl, Declarable, Declarator, Variables, decl_at, declarable_at, declarator_at, variables_at,
};

/// The flags of a function's name.
const FUNCTION: Flags = Flags {
    typeofs: true,
    plain: false,
    arrays: false,
};

/// The flags of a name in none of the sets.
const NOTHING: Flags = Flags {
    typeofs: false,
    plain: false,
    arrays: false,
};

/// A name that is first in a group, which may be empty.
#[tactic(auto, using(crate::proofs::Heads::adds_own_first, crate::proofs::Heads::adds_own_empty))]
fn first_token(
    out: &mut Known,
    text: &str,
    tokens: &[Token],
    ids: &ScopeIds,
    row: &Siblings<'_>,
    flags: Flags,
)
    requires { ReadsTokens text.now tokens.now }
    ensures before { out.new.failed ≡ false → out.old.failed ≡ false }
    ensures adds { out.new.failed ≡ false → AddsBy tokens.now ids.now (own_sets flags) out.old out.new (own_name_of text.now tokens.now (held text.now tokens.now row.now.entries.now)) }
{
    match row.split() {
        Some((first, _)) => match first.token() {
            Some(token) => out.token(text, tokens, ids, token, flags),
            None => out.fail(),
        },
        None => {}
    }
}

/// A name that is a token, or is first in a group.
#[tactic(auto, using(crate::proofs::Heads::adds_own_token))]
fn name_in(
    out: &mut Known,
    text: &str,
    tokens: &[Token],
    ids: &ScopeIds,
    it: &Item<'_>,
    flags: Flags,
)
    requires { ReadsTokens text.now tokens.now }
    ensures before { out.new.failed ≡ false → out.old.failed ≡ false }
    ensures adds { out.new.failed ≡ false → AddsBy tokens.now ids.now (own_sets flags) out.old out.new (own_name_of text.now tokens.now (valued text.now tokens.now it.now)) }
{
    match it.what {
        What::Leaf => out.token(text, tokens, ids, it.from, flags),
        What::Parts => first_token(out, text, tokens, ids, &it.parts, flags),
        What::Node(_) => out.fail(),
        What::Role(_) => out.fail(),
        What::Lean(_) => out.fail(),
    }
}

/// The name of a function or a class, which may be absent.
#[tactic(auto, using(crate::proofs::Heads::adds_own_none))]
fn own_name(
    out: &mut Known,
    text: &str,
    tokens: &[Token],
    ids: &ScopeIds,
    name: &Option<Item<'_>>,
    flags: Flags,
)
    requires { ReadsTokens text.now tokens.now }
    ensures before { out.new.failed ≡ false → out.old.failed ≡ false }
    ensures adds { out.new.failed ≡ false → AddsBy tokens.now ids.now (own_sets flags) out.old out.new (own_name_of text.now tokens.now (there text.now tokens.now name.now)) }
{
    match name {
        Some(item) => name_in(out, text, tokens, ids, item, flags),
        None => {}
    }
}

/// The flags of a class's name.
fn class_flags(plain: bool) -> Flags
    ensures typeofs { result.typeofs ≡ true }
    ensures plain { result.plain ≡ plain }
    ensures arrays { result.arrays ≡ false }
{
    Flags {
        typeofs: true,
        plain,
        arrays: false,
    }
}

/// The name of a class.
#[tactic(auto, using(crate::proofs::Heads::adds_plain_class, crate::proofs::Heads::adds_class_with, crate::proofs::Heads::adds_class_without))]
fn class_head(out: &mut Known, text: &str, tokens: &[Token], ids: &ScopeIds, head: &ClassHead<'_>)
    requires { ReadsTokens text.now tokens.now }
    ensures before { out.new.failed ≡ false → out.old.failed ≡ false }
    ensures adds { out.new.failed ≡ false → (r : Range) → AddsBy tokens.now ids.now class_of out.old out.new (the_class text.now tokens.now r head.now) }
{
    match head {
        ClassHead::Plain { name, .. } => own_name(out, text, tokens, ids, name, class_flags(true)),
        ClassHead::Typed {
            name,
            type_params,
            ..
        } => {
            match type_params.split() {
                Some(_) => own_name(out, text, tokens, ids, name, class_flags(false)),
                None => own_name(out, text, tokens, ids, name, class_flags(true)),
            }
        }
        ClassHead::Broken => out.fail(),
    }
}

/// The name of a function.
#[tactic(auto, using(crate::proofs::Heads::adds_plain_function, crate::proofs::Heads::adds_typed_function))]
fn function_head(
    out: &mut Known,
    text: &str,
    tokens: &[Token],
    ids: &ScopeIds,
    head: &FunctionHead<'_>,
)
    requires { ReadsTokens text.now tokens.now }
    ensures before { out.new.failed ≡ false → out.old.failed ≡ false }
    ensures adds { out.new.failed ≡ false → (r : Range) → AddsBy tokens.now ids.now function_of out.old out.new (the_head text.now tokens.now r head.now) }
{
    match head {
        FunctionHead::Plain { name, .. } => own_name(out, text, tokens, ids, name, FUNCTION),
        FunctionHead::Typed { name, .. } => own_name(out, text, tokens, ids, name, FUNCTION),
        FunctionHead::Broken => out.fail(),
    }
}

// ---- constants

/// The flags of a constant without a type and with this value.
#[tactic(auto, using(crate::proofs::DeclLemmas::value_fits))]
fn value_flags(text: &str, tokens: &[Token], ids: &ScopeIds, value: &Item<'_>) -> Flags
    requires { ReadsTokens text.now tokens.now }
    ensures { IfSome (expr_in (valued text.now tokens.now value.now)) (λ e. Fits result None (Some e)) }
{
    let typeofs = is_function(value);
    let arrays = is_array_literal(text, tokens, ids, value);
    Flags {
        typeofs,
        plain: false,
        arrays,
    }
}

/// The flags of a constant whose type and value may be absent.
#[tactic(auto, using(crate::proofs::DeclLemmas::type_fits, crate::proofs::DeclLemmas::maybe_value_fits, crate::proofs::DeclLemmas::nothing_fits))]
fn typed_flags(
    text: &str,
    tokens: &[Token],
    ids: &ScopeIds,
    ty: &Siblings<'_>,
    value: &Siblings<'_>,
) -> Flags
    requires { ReadsTokens text.now tokens.now }
    ensures { IfSome (option_map (λ ty. option_map vPart.TypeAnn ty) (optional type_at (held text.now tokens.now ty.now.entries.now))) (λ part. IfSome (optional expr_at (held text.now tokens.now value.now.entries.now)) (λ init. Fits result (type_in part) init)) }
{
    match ty.split() {
        Some((ty, _)) => Flags {
            typeofs: true,
            plain: false,
            arrays: is_array_type(text, tokens, ids, &ty),
        },
        None => match value.split() {
            Some((value, _)) => value_flags(text, tokens, ids, &value),
            None => NOTHING,
        },
    }
}

/// What a pattern adds to the sets where it is a name with these flags.
#[tactic(auto, using(crate::proofs::DeclLemmas::adds_name, crate::proofs::DeclLemmas::adds_array, crate::proofs::DeclLemmas::adds_object, crate::proofs::DeclLemmas::adds_rest, crate::proofs::DeclLemmas::adds_default, crate::proofs::DeclLemmas::adds_target))]
fn const_pat(
    out: &mut Known,
    text: &str,
    tokens: &[Token],
    ids: &ScopeIds,
    pat: &Item<'_>,
    flags: Flags,
)
    requires { ReadsTokens text.now tokens.now }
    ensures before { out.new.failed ≡ false → out.old.failed ≡ false }
    ensures adds { out.new.failed ≡ false → (init : Option Expr) → Fits flags None init → AddsBy tokens.now ids.now (pat_sets init) out.old out.new (pat_in (valued text.now tokens.now pat.now)) }
{
    match pat_at(pat) {
        Some(Pat::Ident(token)) => out.token(text, tokens, ids, token, flags),
        Some(Pat::Array { .. }) => {}
        Some(Pat::Object(_)) => {}
        Some(Pat::Rest(_)) => {}
        Some(Pat::Default { .. }) => {}
        Some(Pat::Target(_)) => {}
        Some(Pat::Broken) => out.fail(),
        None => out.fail(),
    }
}

/// The same of a pattern that may have a type after it.
#[tactic(auto, using(crate::proofs::DeclLemmas::adds_marked_name, crate::proofs::DeclLemmas::adds_marked_array, crate::proofs::DeclLemmas::adds_marked_object))]
fn const_marked(
    out: &mut Known,
    text: &str,
    tokens: &[Token],
    ids: &ScopeIds,
    pat: &Item<'_>,
    flags: Flags,
)
    requires { ReadsTokens text.now tokens.now }
    ensures before { out.new.failed ≡ false → out.old.failed ≡ false }
    ensures adds { out.new.failed ≡ false → (ty : Option TsPart) (r : Range) (init : Option Expr) → Fits flags (type_in ty) init → AddsBy tokens.now ids.now (marked_sets ty r init) out.old out.new (marked_in (valued text.now tokens.now pat.now)) }
{
    match marked_at(pat) {
        Some(Marked::Ident(token)) => out.token(text, tokens, ids, token, flags),
        Some(Marked::Array { .. }) => {}
        Some(Marked::Object(_)) => {}
        Some(Marked::Broken) => out.fail(),
        None => out.fail(),
    }
}

/// What a declarator of a constant adds to the sets.
#[tactic(auto, using(crate::proofs::DeclLemmas::adds_assigned, crate::proofs::DeclLemmas::adds_typed, crate::proofs::DeclLemmas::adds_pattern))]
fn declarator_sets(out: &mut Known, text: &str, tokens: &[Token], ids: &ScopeIds, it: &Item<'_>)
    requires { ReadsTokens text.now tokens.now }
    ensures before { out.new.failed ≡ false → out.old.failed ≡ false }
    ensures adds { out.new.failed ≡ false → AddsBy tokens.now ids.now const_sets out.old out.new (declarator_in (valued text.now tokens.now it.now)) }
{
    match declarator_at(it) {
        Some(Declarator::Assigned { name, value }) => {
            let flags = value_flags(text, tokens, ids, &value);
            const_pat(out, text, tokens, ids, &name, flags);
        }
        Some(
            Declarator::Typed {
                name,
                ty,
                value,
                ..
            },
        ) => {
            let flags = typed_flags(text, tokens, ids, &ty, &value);
            const_marked(out, text, tokens, ids, &name, flags);
        }
        Some(Declarator::Pattern(node)) => const_pat(out, text, tokens, ids, &node, NOTHING),
        Some(Declarator::Broken) => out.fail(),
        None => out.fail(),
    }
}

/// What the declarator in a turn adds.
fn declarator_turn(out: &mut Known, text: &str, tokens: &[Token], ids: &ScopeIds, turn: &Item<'_>)
    requires { ReadsTokens text.now tokens.now }
    ensures before { out.new.failed ≡ false → out.old.failed ≡ false }
    ensures adds { out.new.failed ≡ false → AddsBy tokens.now ids.now const_sets out.old out.new (declarator_at (as_group (valued text.now tokens.now turn.now)) 0) }
{
    match turn.group().part(0) {
        Some(declarator) => declarator_sets(out, text, tokens, ids, &declarator),
        None => out.fail(),
    }
}

/// What the declarators in turns add.
#[tactic(auto, using(crate::proofs::Grown::turns_all, crate::proofs::Grown::turns_done))]
fn other_sets(out: &mut Known, text: &str, tokens: &[Token], ids: &ScopeIds, others: &Siblings<'_>)
    requires { ReadsTokens text.now tokens.now }
    ensures before { out.new.failed ≡ false → out.old.failed ≡ false }
    ensures adds { out.new.failed ≡ false → AddsBy tokens.now ids.now consts_of out.old out.new (turns (λ turn. declarator_at turn 0) (held text.now tokens.now others.now.entries.now)) }
{
    let mut row = *others;
    while let Some((turn, rest)) = row.split() {
        declarator_turn(out, text, tokens, ids, &turn);
        row = rest;
    }
}

/// What constants add: the first declarator, and turns of the others.
fn all_consts(
    out: &mut Known,
    text: &str,
    tokens: &[Token],
    ids: &ScopeIds,
    first: &Item<'_>,
    others: &Siblings<'_>,
)
    requires { ReadsTokens text.now tokens.now }
    ensures before { out.new.failed ≡ false → out.old.failed ≡ false }
    ensures adds { out.new.failed ≡ false → AddsBy tokens.now ids.now consts_of out.old out.new (decls_of (declarator_in (valued text.now tokens.now first.now)) (turns (λ turn. declarator_at turn 0) (held text.now tokens.now others.now.entries.now))) }
{
    declarator_sets(out, text, tokens, ids, first);
    other_sets(out, text, tokens, ids, others);
}

/// What variables after this word add: nothing but for constants.
#[tactic(auto, using(crate::proofs::DeclLemmas::adds_consts, crate::proofs::DeclLemmas::adds_no_consts))]
fn var_sets(
    out: &mut Known,
    text: &str,
    tokens: &[Token],
    ids: &ScopeIds,
    word: u32,
    first: &Item<'_>,
    others: &Siblings<'_>,
)
    requires { ReadsTokens text.now tokens.now }
    ensures before { out.new.failed ≡ false → out.old.failed ≡ false }
    ensures adds { out.new.failed ≡ false → AddsBy tokens.now ids.now variables_of out.old out.new (var_of (slice_get tokens.now word) (declarator_in (valued text.now tokens.now first.now)) (held text.now tokens.now others.now.entries.now)) }
{
    if is_word(tokens, Some(word), TokenKind::ConstWord) {
        all_consts(out, text, tokens, ids, first, others);
    }
}

/// What variables add.
#[tactic(auto, using(crate::proofs::DeclLemmas::adds_using))]
fn variables_sets(out: &mut Known, text: &str, tokens: &[Token], ids: &ScopeIds, it: &Item<'_>)
    requires { ReadsTokens text.now tokens.now }
    ensures before { out.new.failed ≡ false → out.old.failed ≡ false }
    ensures adds { out.new.failed ≡ false → AddsBy tokens.now ids.now variables_of out.old out.new (variables_in (valued text.now tokens.now it.now)) }
{
    match variables_at(it) {
        Some(
            Variables::Var {
                word,
                first,
                others,
            },
        ) => var_sets(out, text, tokens, ids, word, &first, &others),
        Some(Variables::Using { .. }) => {}
        Some(Variables::Broken) => out.fail(),
        None => out.fail(),
    }
}

// ---- declarations

/// What a declaration adds that is allowed after `declare`.
#[tactic(auto, using(crate::proofs::DeclLemmas::adds_typed_function, crate::proofs::DeclLemmas::adds_typed_class, crate::proofs::DeclLemmas::adds_interface, crate::proofs::DeclLemmas::adds_alias, crate::proofs::DeclLemmas::adds_enum, crate::proofs::DeclLemmas::adds_namespace, crate::proofs::DeclLemmas::adds_module, crate::proofs::DeclLemmas::adds_global))]
fn declarable_sets(out: &mut Known, text: &str, tokens: &[Token], ids: &ScopeIds, it: &Item<'_>)
    requires { ReadsTokens text.now tokens.now }
    ensures before { out.new.failed ≡ false → out.old.failed ≡ false }
    ensures adds { out.new.failed ≡ false → (declare : Bool) (r : Range) → AddsBy tokens.now ids.now (λ number decl. decl_sets number (decl declare r)) out.old out.new (declarable_in (valued text.now tokens.now it.now)) }
{
    match declarable_at(it) {
        Some(Declarable::Function { is_async, parts }) => {
            function_head(out, text, tokens, ids, &typed_function(is_async, &parts))
        }
        Some(Declarable::Class { is_abstract, parts }) => {
            class_head(out, text, tokens, ids, &typed_class(is_abstract, &parts))
        }
        Some(Declarable::Interface { .. }) => {}
        Some(Declarable::Alias { .. }) => {}
        Some(Declarable::Enum { .. }) => {}
        Some(Declarable::Namespace { .. }) => {}
        Some(Declarable::Module { .. }) => {}
        Some(Declarable::Global(_)) => {}
        Some(Declarable::Broken) => out.fail(),
        None => out.fail(),
    }
}

/// What a declaration adds to the sets, which may have failed: out of memory, or a row that no grammar made.
#[tactic(auto, using(crate::proofs::DeclLemmas::adds_function, crate::proofs::DeclLemmas::adds_class, crate::proofs::DeclLemmas::adds_variables, crate::proofs::DeclLemmas::adds_var, crate::proofs::DeclLemmas::adds_using_decl, crate::proofs::DeclLemmas::adds_declared, crate::proofs::DeclLemmas::adds_declared_variables, crate::proofs::DeclLemmas::adds_declarable))]
pub fn decl_sets(out: &mut Known, text: &str, tokens: &[Token], ids: &ScopeIds, it: &Item<'_>)
    requires { ReadsTokens text.now tokens.now }
    ensures before { out.new.failed ≡ false → out.old.failed ≡ false }
    ensures adds { out.new.failed ≡ false → AddsBy tokens.now ids.now decl_sets out.old out.new (decl_in (valued text.now tokens.now it.now)) }
{
    match decl_at(it) {
        Some(Decl::Function { is_async, parts }) => {
            function_head(out, text, tokens, ids, &plain_function(is_async, &parts))
        }
        Some(Decl::Class(parts)) => class_head(out, text, tokens, ids, &plain_class(&parts)),
        Some(Decl::Variables(variables)) => variables_sets(out, text, tokens, ids, &variables),
        Some(
            Decl::Var {
                word,
                first,
                others,
            },
        ) => var_sets(out, text, tokens, ids, word, &first, &others),
        Some(Decl::Using { .. }) => {}
        Some(Decl::Declared(decl)) => declarable_sets(out, text, tokens, ids, &decl),
        Some(Decl::DeclaredVariables(variables)) => variables_sets(
            out, text, tokens, ids, &variables,
        ),
        Some(Decl::Declarable(node)) => declarable_sets(out, text, tokens, ids, &node),
        Some(Decl::Broken) => out.fail(),
        None => out.fail(),
    }
}
