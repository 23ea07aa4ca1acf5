//! What a program declares, and how its names are looked up.

ghost use Rattle.std.specs.Prelude.{◌≡◌, [], ℕ, List, Some, None, MatchOption, OnOk};
ghost use Rattle.es_variables.specs.declared.scope_analysis.kinds.Id.{Id as AnId};
ghost use Rattle.es_variables.specs.declared.scope_analysis.kinds.Var.{Var as AVar};
ghost use Rattle.es_variables.specs.scope_analysis.Scope.{var, ids_with_symbol, is_global};
ghost use Rattle.es_variables.specs.Table.{ids_at, var_at};
ghost use Rattle.es_variables.specs.Kept.{Keeps, Adds, id_of_ident};

use crate::ident::Ident;
use crate::scope_analysis::{Id, Var};
use crate::table::{Ids, Vars, add_id, ids_of, put_var, var_of};
use std::alloc::{AllocError, Global};
use std::collections::HashMap;

/// What a program declares.
#[derive(Debug, Drop)]
pub struct Scope {
    ids: Ids,
    vars: Vars,
}

impl Scope {
    /// Nothing is declared.
    pub(crate) fn new(alloc: Global) -> Scope
        ensures ids { (q : List ℕ) → ids_at result.ids q ≡ [] }
        ensures vars { (q : List ℕ) (n : ℕ) → var_at result.vars q n ≡ None }
    {
        Scope {
            ids: HashMap::new(alloc),
            vars: HashMap::new(alloc),
        }
    }

    /// One declaration more.
    #[tactic(auto, using(crate::proofs::KeptLemmas::adds_made))]
    pub(crate) fn declare(&mut self, alloc: Global, id: Id, var: Var) -> Result<(), AllocError>
        ensures { OnOk result (Adds self.old id var self.new) }
    {
        let key = String::from_str(alloc, id.sym.as_str())?;
        put_var(&mut self.vars, key, id.ctxt, var)?;
        let key = String::from_str(alloc, id.sym.as_str())?;
        add_id(&mut self.ids, key, id)
    }

    /// The names that are spelled so, in the order in which they are declared, once for each declaration.
    #[tactic(auto, using(crate::proofs::KeptLemmas::ids_none, crate::proofs::KeptLemmas::ids_some))]
    pub fn ids_with_symbol(&self, sym: &str) -> Option<&[Id]>
        ensures { (found : List (AnId × AVar)) → Keeps self.now found
            → MatchOption result (ids_with_symbol found sym.now ≡ None) (λ ids. ids_with_symbol found sym.now ≡ Some ids.now) }
    {
        let found = ids_of(&self.ids, sym);
        if found.is_empty() {
            return None;
        }
        Some(found)
    }

    /// How a name is declared last.
    #[tactic(auto, using(crate::proofs::KeptLemmas::var_is))]
    pub fn var(&self, id: &Id) -> Option<&Var>
        ensures { (found : List (AnId × AVar)) → Keeps self.now found
            → MatchOption result (var found id.now ≡ None) (λ v. var found id.now ≡ Some v.now) }
    {
        var_of(&self.vars, id.sym.as_str(), id.ctxt)
    }

    /// The same, of an occurrence of a name in a text.
    #[tactic(auto, using(crate::proofs::KeptLemmas::var_is))]
    pub fn var_by_ident(&self, ident: &Ident<'_>) -> Option<&Var>
        ensures { (found : List (AnId × AVar)) → Keeps self.now found
            → MatchOption result (var found (id_of_ident ident.now) ≡ None) (λ v. var found (id_of_ident ident.now) ≡ Some v.now) }
    {
        var_of(&self.vars, ident.sym, ident.ctxt)
    }

    /// Whether a name is declared nowhere.
    #[tactic(auto, using(crate::proofs::KeptLemmas::global_is))]
    pub fn is_global(&self, id: &Id) -> bool
        ensures { (found : List (AnId × AVar)) → Keeps self.now found → is_global found id.now ≡ result }
    {
        match self.var(id) {
            Some(_) => false,
            None => true,
        }
    }
}
