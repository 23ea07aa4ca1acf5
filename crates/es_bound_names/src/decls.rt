//! The names that declarations bind.

ghost use Rattle.std.specs.Prelude.{◌≡◌, Bool, false, slice_get};
ghost use Rattle.std.specs.List.{flat_map};
ghost use Rattle.std.specs.Option.{option_map};
ghost use Rattle.base.specs.declared.range.Range.{Range};
ghost use Rattle.es_lowering.specs.Value.{as_group, turns, declarator_at};
ghost use Rattle.es_lowering.specs.Texts.{own_name_of, this_or_name_of};
ghost use Rattle.es_view_expressions.specs.function.Class.{the_class};
ghost use Rattle.es_view_expressions.specs.function.Head.{the_head};
ghost use Rattle.es_syntax.specs.Held.{held, valued, there};
ghost use Rattle.es_syntax.specs.Roles.{decl_in, declarable_in, declarator_in, variables_in, entity_in};
ghost use Rattle.es_bound_names.specs.Names.{own_names, class_names, function_names, declarator_names, variables_names, entity_names, first_name, declared_names};
ghost use Rattle.es_bound_names.specs.Adds.{Adds, decls_of};
ghost use Rattle.es_bound_names.specs.Cuts.{IsCut};

use crate::names::{Names, token_at};
use crate::pats::{marked_names, part_in, pat_names};
use es_syntax::{Item, Siblings, What};
use es_token::{Token, TokenKind};
use es_view_expressions::function::{
    ClassHead, FunctionHead, plain_class, plain_function, typed_class, typed_function,
};
use es_view_statements::decl::{
    Decl, Declarable, Declarator, Variables, decl_at, declarable_at, declarator_at, variables_at,
};
use es_view_types::names::{Entity, entity_at};

/// A name that is first in a group, which may be empty.
#[tactic(auto, using(crate::proofs::Heads::adds_own_first, crate::proofs::Heads::adds_own_empty, crate::proofs::Others::own_lost))]
fn first_token(out: &mut Names, text: &str, tokens: &[Token], row: &Siblings<'_>)
    requires { IsCut text.now tokens.now }
    ensures before { out.new.failed ≡ false → out.old.failed ≡ false }
    ensures adds { out.new.failed ≡ false → Adds own_names out.old.found out.new.found (own_name_of text.now tokens.now (held text.now tokens.now row.now.entries.now)) }
{
    match row.split() {
        Some((first, _)) => match first.token() {
            Some(token) => out.token(text, tokens, token),
            None => {}
        },
        None => {}
    }
}

/// A name that is a token, or is first in a group.
#[tactic(auto, using(crate::proofs::Heads::adds_own_token, crate::proofs::Others::own_node, crate::proofs::Others::own_role, crate::proofs::Others::own_leant))]
fn name_in(out: &mut Names, text: &str, tokens: &[Token], it: &Item<'_>)
    requires { IsCut text.now tokens.now }
    ensures before { out.new.failed ≡ false → out.old.failed ≡ false }
    ensures adds { out.new.failed ≡ false → Adds own_names out.old.found out.new.found (own_name_of text.now tokens.now (valued text.now tokens.now it.now)) }
{
    match it.what {
        What::Leaf => out.token(text, tokens, it.from),
        What::Parts => first_token(out, text, tokens, &it.parts),
        What::Node(_) => {}
        What::Role(_) => {}
        What::Lean(_) => {}
    }
}

/// The name of a function or a class, which may be absent.
#[tactic(auto, using(crate::proofs::Heads::adds_own_none))]
fn own_name(out: &mut Names, text: &str, tokens: &[Token], name: &Option<Item<'_>>)
    requires { IsCut text.now tokens.now }
    ensures before { out.new.failed ≡ false → out.old.failed ≡ false }
    ensures adds { out.new.failed ≡ false → Adds own_names out.old.found out.new.found (own_name_of text.now tokens.now (there text.now tokens.now name.now)) }
{
    match name {
        Some(item) => name_in(out, text, tokens, item),
        None => {}
    }
}

/// The name of a class.
#[tactic(auto, using(crate::proofs::Heads::adds_plain_class, crate::proofs::Heads::adds_typed_class, crate::proofs::Lists::adds_nothing))]
fn class_head(out: &mut Names, text: &str, tokens: &[Token], head: &ClassHead<'_>)
    requires { IsCut text.now tokens.now }
    ensures before { out.new.failed ≡ false → out.old.failed ≡ false }
    ensures adds { out.new.failed ≡ false → (r : Range) → Adds class_names out.old.found out.new.found (the_class text.now tokens.now r head.now) }
{
    match head {
        ClassHead::Plain { name, .. } => own_name(out, text, tokens, name),
        ClassHead::Typed { name, .. } => own_name(out, text, tokens, name),
        ClassHead::Broken => {}
    }
}

/// The name of a function.
#[tactic(auto, using(crate::proofs::Heads::adds_plain_function, crate::proofs::Heads::adds_typed_function, crate::proofs::Lists::adds_nothing))]
fn function_head(out: &mut Names, text: &str, tokens: &[Token], head: &FunctionHead<'_>)
    requires { IsCut text.now tokens.now }
    ensures before { out.new.failed ≡ false → out.old.failed ≡ false }
    ensures adds { out.new.failed ≡ false → (r : Range) → Adds function_names out.old.found out.new.found (the_head text.now tokens.now r head.now) }
{
    match head {
        FunctionHead::Plain { name, .. } => own_name(out, text, tokens, name),
        FunctionHead::Typed { name, .. } => own_name(out, text, tokens, name),
        FunctionHead::Broken => {}
    }
}

/// The first name of a name with dots; `this` is none.
#[tactic(auto, using(crate::proofs::Heads::adds_this, crate::proofs::Heads::adds_first, crate::proofs::Lists::adds_nothing))]
fn left_name(out: &mut Names, text: &str, tokens: &[Token], at: u32)
    requires { IsCut text.now tokens.now }
    ensures before { out.new.failed ≡ false → out.old.failed ≡ false }
    ensures adds { out.new.failed ≡ false → Adds first_name out.old.found out.new.found (option_map (this_or_name_of text.now) (slice_get tokens.now at)) }
{
    match token_at(tokens, at) {
        Some(token) => {
            if token.kind() == TokenKind::ThisWord {
                return;
            }
            out.token(text, tokens, at);
        }
        None => {}
    }
}

/// What a name with dots declares: its first name.
#[tactic(auto, using(crate::proofs::Heads::adds_entity, crate::proofs::Lists::adds_nothing, crate::proofs::Others::entity_unknown))]
fn entity_name(out: &mut Names, text: &str, tokens: &[Token], it: &Item<'_>)
    requires { IsCut text.now tokens.now }
    ensures before { out.new.failed ≡ false → out.old.failed ≡ false }
    ensures adds { out.new.failed ≡ false → Adds entity_names out.old.found out.new.found (entity_in (valued text.now tokens.now it.now)) }
{
    match entity_at(it) {
        Some(Entity::Names { left, rest: _ }) => left_name(out, text, tokens, left),
        Some(Entity::Broken) => {}
        None => {}
    }
}

// ---- variables

/// The names that a declarator binds.
#[tactic(auto, using(crate::proofs::DeclForms::adds_assigned, crate::proofs::DeclForms::adds_typed, crate::proofs::DeclForms::adds_pattern, crate::proofs::Lists::adds_nothing, crate::proofs::Others::declarator_unknown))]
fn declarator_names(out: &mut Names, text: &str, tokens: &[Token], it: &Item<'_>)
    requires { IsCut text.now tokens.now }
    ensures before { out.new.failed ≡ false → out.old.failed ≡ false }
    ensures adds { out.new.failed ≡ false → Adds declarator_names out.old.found out.new.found (declarator_in (valued text.now tokens.now it.now)) }
{
    match declarator_at(it) {
        Some(Declarator::Assigned { name, value: _ }) => pat_names(out, text, tokens, &name),
        Some(Declarator::Typed { name, .. }) => marked_names(out, text, tokens, &name),
        Some(Declarator::Pattern(node)) => pat_names(out, text, tokens, &node),
        Some(Declarator::Broken) => {}
        None => {}
    }
}

/// The names that the declarator in a turn binds.
#[tactic(auto, using(crate::proofs::Lists::adds_nothing))]
fn declarator_turn(out: &mut Names, text: &str, tokens: &[Token], turn: &Item<'_>)
    requires { IsCut text.now tokens.now }
    ensures before { out.new.failed ≡ false → out.old.failed ≡ false }
    ensures adds { out.new.failed ≡ false → Adds declarator_names out.old.found out.new.found (declarator_at (as_group (valued text.now tokens.now turn.now)) 0) }
{
    match part_in(turn) {
        Some(declarator) => declarator_names(out, text, tokens, &declarator),
        None => {}
    }
}

/// The names that the declarators in turns bind.
#[tactic(auto, using(crate::proofs::Lists::turns_all, crate::proofs::Lists::turns_next, crate::proofs::Lists::turns_done))]
fn other_names(out: &mut Names, text: &str, tokens: &[Token], others: &Siblings<'_>)
    requires { IsCut text.now tokens.now }
    ensures before { out.new.failed ≡ false → out.old.failed ≡ false }
    ensures adds { out.new.failed ≡ false → Adds (flat_map declarator_names) out.old.found out.new.found (turns (λ turn. declarator_at turn 0) (held text.now tokens.now others.now.entries.now)) }
{
    let mut row = *others;
    while let Some((turn, rest)) = row.split() {
        declarator_turn(out, text, tokens, &turn);
        row = rest;
    }
}

/// The names that variables bind: the first declarator, and turns of the others.
#[tactic(auto, using(crate::proofs::DeclForms::adds_decls))]
fn all_names(out: &mut Names, text: &str, tokens: &[Token], first: &Item<'_>, others: &Siblings<'_>)
    requires { IsCut text.now tokens.now }
    ensures before { out.new.failed ≡ false → out.old.failed ≡ false }
    ensures adds { out.new.failed ≡ false → Adds (flat_map declarator_names) out.old.found out.new.found
        (decls_of (declarator_in (valued text.now tokens.now first.now)) (turns (λ turn. declarator_at turn 0) (held text.now tokens.now others.now.entries.now))) }
{
    declarator_names(out, text, tokens, first);
    other_names(out, text, tokens, others);
}

/// The names that variables bind.
#[tactic(auto, using(crate::proofs::DeclForms::adds_var, crate::proofs::DeclForms::adds_using, crate::proofs::Lists::adds_nothing, crate::proofs::Others::variables_unknown))]
fn variables_names(out: &mut Names, text: &str, tokens: &[Token], it: &Item<'_>)
    requires { IsCut text.now tokens.now }
    ensures before { out.new.failed ≡ false → out.old.failed ≡ false }
    ensures adds { out.new.failed ≡ false → Adds variables_names out.old.found out.new.found (variables_in (valued text.now tokens.now it.now)) }
{
    match variables_at(it) {
        Some(
            Variables::Var {
                word: _,
                first,
                others,
            },
        ) => all_names(out, text, tokens, &first, &others),
        Some(
            Variables::Using {
                is_await: _,
                first,
                others,
            },
        ) => all_names(out, text, tokens, &first, &others),
        Some(Variables::Broken) => {}
        None => {}
    }
}

// ---- declarations

/// The names bound by a declaration that may follow `declare`.
#[tactic(auto, using(crate::proofs::DeclForms::adds_typed_function, crate::proofs::DeclForms::adds_typed_class, crate::proofs::DeclForms::adds_interface, crate::proofs::DeclForms::adds_alias, crate::proofs::DeclForms::adds_enum, crate::proofs::DeclForms::adds_namespace, crate::proofs::DeclForms::adds_module, crate::proofs::DeclForms::adds_global, crate::proofs::Lists::adds_nothing, crate::proofs::Others::declarable_unknown))]
fn declarable_names(out: &mut Names, text: &str, tokens: &[Token], it: &Item<'_>)
    requires { IsCut text.now tokens.now }
    ensures before { out.new.failed ≡ false → out.old.failed ≡ false }
    ensures adds { out.new.failed ≡ false → (declare : Bool) (r : Range) → Adds (λ decl. declared_names (decl declare r)) out.old.found out.new.found (declarable_in (valued text.now tokens.now it.now)) }
{
    match declarable_at(it) {
        Some(Declarable::Function { is_async, parts }) => {
            function_head(out, text, tokens, &typed_function(is_async, &parts))
        }
        Some(Declarable::Class { is_abstract, parts }) => {
            class_head(out, text, tokens, &typed_class(is_abstract, &parts))
        }
        Some(Declarable::Interface { .. }) => {}
        Some(Declarable::Alias { .. }) => {}
        Some(Declarable::Enum { name, .. }) => out.token(text, tokens, name),
        Some(Declarable::Namespace { name, .. }) => entity_name(out, text, tokens, &name),
        Some(Declarable::Module { .. }) => {}
        Some(Declarable::Global(_)) => {}
        Some(Declarable::Broken) => {}
        None => {}
    }
}

/// The names that a declaration binds at run time, after those found before.
#[tactic(auto, using(crate::proofs::DeclForms::adds_function, crate::proofs::DeclForms::adds_class, crate::proofs::DeclForms::adds_var_decl, crate::proofs::DeclForms::adds_var_of, crate::proofs::DeclForms::adds_using_of, crate::proofs::DeclForms::adds_declared, crate::proofs::DeclForms::adds_declared_variables, crate::proofs::DeclForms::adds_declarable, crate::proofs::Lists::adds_nothing, crate::proofs::Others::decl_unknown))]
pub fn decl_names(out: &mut Names, text: &str, tokens: &[Token], it: &Item<'_>)
    requires { IsCut text.now tokens.now }
    ensures before { out.new.failed ≡ false → out.old.failed ≡ false }
    ensures adds { out.new.failed ≡ false → Adds declared_names out.old.found out.new.found (decl_in (valued text.now tokens.now it.now)) }
{
    match decl_at(it) {
        Some(Decl::Function { is_async, parts }) => {
            function_head(out, text, tokens, &plain_function(is_async, &parts))
        }
        Some(Decl::Class(parts)) => class_head(out, text, tokens, &plain_class(&parts)),
        Some(Decl::Variables(variables)) => variables_names(out, text, tokens, &variables),
        Some(
            Decl::Var {
                word: _,
                first,
                others,
            },
        ) => all_names(out, text, tokens, &first, &others),
        Some(
            Decl::Using {
                is_await: _,
                first,
                others,
            },
        ) => all_names(out, text, tokens, &first, &others),
        Some(Decl::Declared(decl)) => declarable_names(out, text, tokens, &decl),
        Some(Decl::DeclaredVariables(variables)) => variables_names(out, text, tokens, &variables),
        Some(Decl::Declarable(node)) => declarable_names(out, text, tokens, &node),
        Some(Decl::Broken) => {}
        None => {}
    }
}
