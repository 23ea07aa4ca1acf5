//! The tokens of the names that each scope declares.

ghost use Rattle.std.specs.Prelude.{◌≡◌, ◌++◌, [], ℕ, OnOk, IfOk};
ghost use Rattle.es_scopes.specs.Numbers.{named_in};
ghost use Rattle.es_variables.specs.scope_numbers.Stacks.{declared_in};
ghost use Rattle.es_variables.specs.scope_numbers.Meets.{tokens_in, at_home, Meets};

use crate::scope_numbers::opened::Opened;
use es_scopes::Mark;
use std::alloc::{AllocError, Global};
use std::collections::BTreeMap;

/// Tokens by the number of the scope.
pub type Declared = BTreeMap<u32, Vec<u32>>;

/// One token more in a scope.
fn declare(declared: &mut Declared, home: Option<u32>, token: u32) -> Result<(), AllocError>
    ensures { OnOk result ((n : ℕ) → tokens_in declared.new n ≡ tokens_in declared.old n ++ at_home n home token) }
{
    match home {
        Some(home) => {
            declared.entry(home)?.or_default().push(token)?;
            Ok(())
        }
        None => Ok(()),
    }
}

/// What a mark makes of the open scopes and of what they declare.
fn meet(declared: &mut Declared, opened: &mut Opened, mark: Mark) -> Result<(), AllocError>
    ensures { OnOk result (Meets (tokens_in declared.old) opened.old mark (tokens_in declared.new) opened.new) }
{
    match mark {
        Mark::Open(hoists) => opened.open(hoists),
        Mark::Close => {
            opened.close();
            Ok(())
        }
        Mark::Name(place, token) => declare(declared, opened.home(place), token),
    }
}

/// The tokens that each scope declares, by its number.
#[tactic(auto, using(crate::proofs::scope_numbers_lemmas::NameLemmas::met, crate::proofs::scope_numbers_lemmas::NameLemmas::all_met))]
pub fn declared_names(alloc: Global, marks: &[Mark]) -> Result<Declared, AllocError>
    ensures { IfOk result (λ declared. (n : ℕ) → tokens_in declared n ≡ declared_in n (named_in [] 1 marks.now)) }
{
    let mut declared = BTreeMap::new(alloc);
    let mut opened = Opened::new(alloc);
    let mut row = marks;
    while let Some((mark, rest)) = row.split_first() {
        meet(&mut declared, &mut opened, *mark)?;
        row = rest;
    }
    Ok(declared)
}
