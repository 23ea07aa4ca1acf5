//! The sets of a module in the making.

ghost use Rattle.std.specs.Prelude.{◌≡◌, false, true, ℕ, List, option_map, slice_get};
ghost use Rattle.es_lexer.specs.Reads.{ReadsTokens};
ghost use Rattle.es_lowering.specs.Texts.{ident_of};
ghost use Rattle.dts_sets.specs.Ids.{holds};
ghost use Rattle.dts_sets.specs.Known.{AddsBy, Grown, flagged, ident_sets};

use crate::ids::{Ids, add_if, contains};
use es_token::Token;
use es_variables::{ScopeIds, ident_at};
use std::alloc::Global;
use std::collections::HashMap;

/// Which of the sets a name belongs to.
#[derive(Clone, Copy, Debug, PartialEq, Eq)]
pub struct Flags {
    pub typeofs: bool,
    pub plain: bool,
    pub arrays: bool,
}

/// The three sets, and whether a name was lost on the way: from then on nothing is said of them.
#[derive(Drop)]
pub struct Known {
    pub alloc: Global,
    pub typeofs: Ids,
    pub plain: Ids,
    pub arrays: Ids,
    pub failed: bool,
}

impl Known {
    /// No names.
    pub fn new(alloc: Global) -> Known
        ensures typeofs { (q : List ℕ) (n : ℕ) → holds result.typeofs (q, n) ≡ false }
        ensures plain { (q : List ℕ) (n : ℕ) → holds result.plain (q, n) ≡ false }
        ensures arrays { (q : List ℕ) (n : ℕ) → holds result.arrays (q, n) ≡ false }
        ensures failed { result.failed ≡ false }
    {
        Known {
            alloc,
            typeofs: HashMap::new(alloc),
            plain: HashMap::new(alloc),
            arrays: HashMap::new(alloc),
            failed: false,
        }
    }

    /// From now on nothing is said of the names.
    pub fn fail(&mut self)
        ensures { self.new.failed ≡ true }
    {
        self.failed = true;
    }

    /// Whether the type of a name may be asked for by `typeof`.
    pub fn is_typeof(&self, sym: &str, number: u32) -> bool
        ensures { result ≡ holds self.now.typeofs (sym.now, number) }
    {
        contains(&self.typeofs, sym, number)
    }

    /// Whether a name is that of a class without type parameters.
    pub fn is_plain(&self, sym: &str, number: u32) -> bool
        ensures { result ≡ holds self.now.plain (sym.now, number) }
    {
        contains(&self.plain, sym, number)
    }

    /// Whether a name is that of an array.
    pub fn is_array(&self, sym: &str, number: u32) -> bool
        ensures { result ≡ holds self.now.arrays (sym.now, number) }
    {
        contains(&self.arrays, sym, number)
    }

    /// One name more in the sets that are asked for.
    #[tactic(auto, using(crate::proofs::Grown::grown_name))]
    fn add(&mut self, flags: Flags, name: &str, number: u32)
        ensures before { self.new.failed ≡ false → self.old.failed ≡ false }
        ensures grown { self.new.failed ≡ false → Grown self.old self.new (flagged flags (name.now, number)) }
    {
        let alloc = self.alloc;
        let first = add_if(&mut self.typeofs, alloc, flags.typeofs, name, number);
        let second = add_if(&mut self.plain, alloc, flags.plain, name, number);
        let third = add_if(&mut self.arrays, alloc, flags.arrays, name, number);
        if !(first && second && third) {
            self.failed = true;
        }
    }

    /// The name that the token of this number is, in the sets that are asked for.
    #[tactic(auto, using(crate::proofs::Grown::adds_ident, crate::proofs::Grown::adds_no_ident))]
    pub(crate) fn token(
        &mut self,
        text: &str,
        tokens: &[Token],
        ids: &ScopeIds,
        at: u32,
        flags: Flags,
    )
        requires { ReadsTokens text.now tokens.now }
        ensures before { self.new.failed ≡ false → self.old.failed ≡ false }
        ensures adds { self.new.failed ≡ false → AddsBy tokens.now ids.now (ident_sets flags) self.old self.new (option_map (ident_of text.now) (slice_get tokens.now at)) }
    {
        match ident_at(text, tokens, ids, at) {
            Some(id) => self.add(flags, id.sym, id.ctxt),
            None => {}
        }
    }
}
