//! The walk over what a program declares.

ghost use Rattle.std.specs.Prelude.{◌≡◌, ◌∷◌, [], ℕ, List, slice_get, OnOk, IfOk};
ghost use Rattle.es_lexer.specs.Reads.{ReadsTokens};
ghost use Rattle.es_syntax.specs.Trees.{first_tree, trees};
ghost use Rattle.es_scopes.specs.Numbers.{ids};
ghost use Rattle.es_variables.specs.scope_numbers.Cuts.{IsCut};
ghost use Rattle.es_variables.specs.declared.scope_analysis.kinds.Id.{Id as AnId};
ghost use Rattle.es_variables.specs.declared.scope_analysis.kinds.Var.{Var as AVar};
ghost use Rattle.es_variables.specs.declared.scope_analysis.steps.Event.{Event as AnEvent};
ghost use Rattle.es_variables.specs.declared.scope_analysis.steps.Event.TheVariants as vEvent;
ghost use Rattle.es_variables.specs.scope_analysis.Scope.{sym_of, declared, shorter};
ghost use Rattle.es_variables.specs.Numbers.{at_in, AreNumbers};
ghost use Rattle.es_variables.specs.Kept.{Keeps, Leaves, left_in};

use crate::declarations::program_events;
use crate::ident::{cut, token_at};
use crate::ids::ScopeIds;
use crate::scope::Scope;
use crate::scope_analysis::{BindingKind, Event, Id, ScopeKind, Var};
use base::{Items, Text};
use es_syntax::Siblings;
use es_token::Token;
use std::alloc::{AllocError, Global};

/// A text, its tokens, and the numbers of its names.
#[derive(Clone, Copy)]
struct Names<'a> {
    alloc: Global,
    text: &'a str,
    tokens: &'a [Token],
    ids: &'a ScopeIds,
}

impl Names<'_> {
    /// The text of the token of this number.
    #[tactic(auto, unfolding(es_lowering::specs::Texts::ident_of))]
    fn sym(&self, at: u32) -> Result<Text, AllocError>
        requires { IsCut self.now.text.now self.now.tokens.now }
        ensures { IfOk result (λ sym. sym ≡ sym_of self.now.text.now self.now.tokens.now (slice_get self.now.tokens.now at)) }
    {
        match token_at(self.tokens, at) {
            Some(token) => Text::from_str(self.alloc, cut(self.text, token)),
            None => Ok(Text::new(self.alloc)),
        }
    }

    /// The name that the token of this number is.
    fn id(&self, at: u32) -> Result<Id, AllocError>
        requires { IsCut self.now.text.now self.now.tokens.now }
        ensures sym { IfOk result (λ id. id.sym ≡ sym_of self.now.text.now self.now.tokens.now (slice_get self.now.tokens.now at)) }
        ensures ctxt { IfOk result (λ id. id.ctxt ≡ at_in self.now.ids.now at) }
    {
        Ok(Id {
            sym: self.sym(at)?,
            ctxt: self.ids.number(at),
        })
    }
}

/// A copy of a path.
fn copy_path(alloc: Global, path: &[ScopeKind]) -> Result<Items<ScopeKind>, AllocError>
    ensures { IfOk result (λ copy. copy ≡ path.now) }
{
    let mut copy = Items::new(alloc);
    for scope in path {
        copy.push(*scope)?;
    }
    Ok(copy)
}

/// The path without its last part.
#[tactic(auto, using(crate::proofs::LeftLemmas::shorter_one, crate::proofs::LeftLemmas::shorter_none))]
fn shorten(path: &mut Items<ScopeKind>)
    ensures { path.new ≡ shorter path.old }
{
    match path.pop() {
        Some(_) => {}
        None => {}
    }
}

/// A name is declared.
#[tactic(auto, using(crate::proofs::LeftLemmas::left_declare))]
fn declare(
    names: &Names<'_>,
    scope: &mut Scope,
    path: &[ScopeKind],
    bound: BindingKind,
    at: u32,
) -> Result<(), AllocError>
    requires { IsCut names.now.text.now names.now.tokens.now }
    ensures { OnOk result ((numbers : List (ℕ × ℕ)) (rest : List AnEvent) (found : List (AnId × AVar)) → AreNumbers names.now.ids.now numbers
        → Leaves scope.old (left_in names.now.text.now names.now.tokens.now numbers path.now (vEvent.Declare bound at ∷ rest)) found
        → Leaves scope.new (left_in names.now.text.now names.now.tokens.now numbers path.now rest) found) }
{
    let id = names.id(at)?;
    let var = Var {
        path: copy_path(names.alloc, path)?,
        kind: bound,
    };
    scope.declare(names.alloc, id, var)
}

/// What an event makes of the path and of what is declared.
#[tactic(auto, using(crate::proofs::LeftLemmas::left_enter, crate::proofs::LeftLemmas::left_leave))]
fn meet(
    names: &Names<'_>,
    scope: &mut Scope,
    path: &mut Items<ScopeKind>,
    event: Event,
) -> Result<(), AllocError>
    requires { IsCut names.now.text.now names.now.tokens.now }
    ensures { OnOk result ((numbers : List (ℕ × ℕ)) (rest : List AnEvent) (found : List (AnId × AVar)) → AreNumbers names.now.ids.now numbers
        → Leaves scope.old (left_in names.now.text.now names.now.tokens.now numbers path.old (event ∷ rest)) found
        → Leaves scope.new (left_in names.now.text.now names.now.tokens.now numbers path.new rest) found) }
{
    match event {
        Event::Enter(kind) => path.push(kind),
        Event::Leave => {
            shorten(path);
            Ok(())
        }
        Event::Declare(bound, at) => declare(names, scope, path.as_slice(), bound, at),
    }
}

/// What these events declare.
#[tactic(auto, using(crate::proofs::LeftLemmas::left_begin, crate::proofs::LeftLemmas::left_more, crate::proofs::LeftLemmas::left_end))]
fn declared_in(names: &Names<'_>, events: &[Event]) -> Result<Scope, AllocError>
    requires { IsCut names.now.text.now names.now.tokens.now }
    ensures { IfOk result (λ scope. (numbers : List (ℕ × ℕ)) → AreNumbers names.now.ids.now numbers
        → Keeps scope (left_in names.now.text.now names.now.tokens.now numbers [] events.now)) }
{
    let mut scope = Scope::new(names.alloc);
    let mut path = Items::new(names.alloc);
    let mut row = events;
    while let Some((event, rest)) = row.split_first() {
        meet(names, &mut scope, &mut path, *event)?;
        row = rest;
    }
    Ok(scope)
}

impl Scope {
    /// What the program that is first in a row declares, over the tokens of a text, by the numbers of its names.
    #[tactic(auto, unfolding(crate::specs::scope_analysis::Scope::declared))]
    pub fn analyze(
        alloc: Global,
        text: &str,
        tokens: &[Token],
        row: &Siblings<'_>,
        numbers: &ScopeIds,
    ) -> Result<Scope, AllocError>
        requires reads { ReadsTokens text.now tokens.now }
        requires numbers { AreNumbers numbers.now (ids text.now tokens.now (first_tree (trees row.now.entries.now))) }
        ensures { IfOk result (λ scope. Keeps scope (declared text.now tokens.now (first_tree (trees row.now.entries.now)))) }
    {
        let events = program_events(alloc, text, tokens, row)?;
        let names = Names {
            alloc,
            text,
            tokens,
            ids: numbers,
        };
        declared_in(&names, events.as_slice())
    }
}
