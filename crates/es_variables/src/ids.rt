//! The numbers of names, by their tokens.

ghost use Rattle.std.specs.Prelude.{◌≡◌, ◌<◌, ◌==◌, ℕ, length, if◌then◌else◌, IfOk};
ghost use Rattle.es_lexer.specs.Reads.{ReadsTokens};
ghost use Rattle.es_syntax.specs.Trees.{first_tree, trees};
ghost use Rattle.es_scopes.specs.Numbers.{number_at, ids};
ghost use Rattle.es_variables.specs.Numbers.{at_in, AreNumbers};

use crate::scope_numbers::scope_ids;
use base::Items;
use es_scopes::program_marks;
use es_syntax::Siblings;
use es_token::Token;
use std::alloc::{AllocError, Global};
use std::marker::Model;
use std::sync::Arc;

/// The number of each name of a program, by its token; shared by its copies.
#[derive(Drop)]
pub struct ScopeIds {
    numbers: Arc<Items<u32>>,
}

impl Model for ScopeIds {
    ghost use Rattle.std.specs.Prelude.{List, ℕ};
    ghost use Rattle.std.specs.Arc.{arc_value};

    ghost Value = { List ℕ };

    ghost view = { λ it. arc_value it.numbers };
}

impl ScopeIds {
    /// The numbers of the names of the program that is first in a row.
    #[tactic(auto, using(crate::proofs::NumberLemmas::numbers_of), unfolding(es_scopes::specs::Numbers::ids))]
    pub fn of(
        alloc: Global,
        text: &str,
        tokens: &[Token],
        row: &Siblings<'_>,
    ) -> Result<ScopeIds, AllocError>
        requires { ReadsTokens text.now tokens.now }
        ensures { IfOk result (λ it. AreNumbers it (ids text.now tokens.now (first_tree (trees row.now.entries.now)))) }
    {
        let marks = program_marks(alloc, tokens, row)?;
        let found = scope_ids(alloc, text, tokens, marks.as_slice())?;
        let numbers = by_tokens(alloc, tokens.len(), found.as_slice())?;
        Ok(ScopeIds {
            numbers: Arc::new(alloc, numbers)?,
        })
    }

    /// The number of the name that is this token; 0 where it is none, and where no scope around declares it.
    pub fn number(&self, token: u32) -> u32
        ensures { result ≡ at_in self.now token }
    {
        number(self.numbers.as_slice(), token as usize)
    }

    /// One more reference to the same numbers.
    pub fn copy(&self) -> Result<ScopeIds, AllocError>
        ensures { IfOk result (λ it. it ≡ self.now) }
    {
        Ok(ScopeIds {
            numbers: self.numbers.clone()?,
        })
    }
}

/// The number at a place; 0 after the last.
fn number(numbers: &[u32], at: usize) -> u32
    ensures { result ≡ at_in numbers.now at }
{
    match numbers.get(at) {
        Some(number) => *number,
        None => 0,
    }
}

/// Zeros.
#[tactic(auto, using(crate::proofs::NumberLemmas::zeros_more))]
fn zeros(alloc: Global, count: usize) -> Result<Items<u32>, AllocError>
    ensures long { IfOk result (λ numbers. length numbers ≡ count) }
    ensures zero { IfOk result (λ numbers. (n : ℕ) → at_in numbers n ≡ 0) }
{
    let mut numbers = Items::new(alloc);
    for _ in 0..count {
        numbers.push(0)?;
    }
    Ok(numbers)
}

/// Another number at a place, where there is one.
#[tactic(auto, using(crate::proofs::NumberLemmas::put_inside, crate::proofs::NumberLemmas::put_outside))]
fn put(numbers: &mut Items<u32>, at: usize, number: u32)
    ensures long { length numbers.new ≡ length numbers.old }
    ensures put { (n : ℕ) → n < length numbers.old → at_in numbers.new n ≡ (if at == n then number else at_in numbers.old n) }
{
    if at < numbers.len() {
        numbers.set(at, number);
    }
}

/// The number of each name at the place of its token; the first counts where a token has several.
#[tactic(auto, using(crate::proofs::NumberLemmas::number_more, crate::proofs::NumberLemmas::number_end, crate::proofs::NumberLemmas::number_begin))]
fn by_tokens(alloc: Global, count: usize, found: &[(u32, u32)]) -> Result<Items<u32>, AllocError>
    ensures long { IfOk result (λ numbers. length numbers ≡ count) }
    ensures numbers { IfOk result (λ numbers. (n : ℕ) → n < count → at_in numbers n ≡ number_at found.now n) }
{
    let mut numbers = zeros(alloc, count)?;
    let mut row = found;
    while let Some((id, before)) = row.split_last() {
        put(&mut numbers, id.0 as usize, id.1);
        row = before;
    }
    Ok(numbers)
}
