//! Scope numbers of a program, and what it declares.
ghost use Rattle.std.specs.Prelude.{IfOk, MatchOption};
ghost use Rattle.deno_ast.specs.Refs.{tree_of};
ghost use Rattle.deno_ast.specs.Scopes.{AreIds, AreScoped, Declares, HasNoToken, NamesIn};

use crate::program_ref::ProgramRef;
use es_program::Program;
use es_variables::{Ident, Scope, ScopeIds, ident_at};
use std::alloc::{AllocError, Global};

/// The numbers of the names of a program.
#[tactic(auto, using(crate::proofs::ScopeLemmas::are_ids))]
pub fn ids_of(alloc: Global, program: &Program) -> Result<ScopeIds, AllocError>
    ensures { IfOk result (λ ids. AreIds program.now ids) }
{
    let (text, tokens, row) = program.parts();
    ScopeIds::of(alloc, text, tokens, &row)
}

/// The same, where they are asked for.
pub fn ids_if(alloc: Global, asked: bool, program: &Program) -> Result<Option<ScopeIds>, AllocError>
    ensures { IfOk result (λ ids. AreScoped asked program.now ids) }
{
    if asked {
        return Ok(Some(ids_of(alloc, program)?));
    }
    Ok(None)
}

/// The name that the token of this number is.
#[tactic(auto, using(crate::proofs::ScopeLemmas::ident_told))]
pub fn ident_in<'a>(program: &'a Program, ids: &ScopeIds, at: u32) -> Option<Ident<'a>>
    ensures { MatchOption result (HasNoToken program.now at) (NamesIn program.now ids.now at) }
{
    let (text, tokens, _) = program.parts();
    ident_at(text, tokens, ids, at)
}

impl ProgramRef<'_> {
    /// What the program declares, with look-ups.
    #[tactic(auto, using(crate::proofs::ScopeLemmas::declares))]
    pub fn scope(self, alloc: Global) -> Result<Scope, AllocError>
        ensures { IfOk result (Declares (tree_of self.entry)) }
    {
        let (text, tokens, row) = self.parts();
        let ids = ScopeIds::of(alloc, text, tokens, &row)?;
        Scope::analyze(alloc, text, tokens, &row, &ids)
    }
}
