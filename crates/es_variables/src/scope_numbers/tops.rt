//! For each spelling the numbers of the open scopes that declare it.

ghost use Rattle.std.specs.Prelude.{◌≡◌, ◌<◌, ◌++◌, ℕ, List, length, string_bytes, OnOk};
ghost use Rattle.es_variables.specs.scope_numbers.Stacks.{last_of};
ghost use Rattle.es_variables.specs.scope_numbers.Spelt.{tops_in, extra, popped};

use std::alloc::{AllocError, Global};
use std::collections::HashMap;

/// Numbers by spellings.
pub type Tops = HashMap<String, Vec<u32>>;

/// One number more at a key.
fn add(tops: &mut Tops, key: String, n: u32) -> Result<(), AllocError>
    ensures { OnOk result ((q : List ℕ) → tops_in tops.new q ≡ tops_in tops.old q ++ extra (string_bytes key) n q) }
{
    tops.entry(key)?.or_default().push(n)?;
    Ok(())
}

/// One number more at a spelling.
pub fn push(tops: &mut Tops, alloc: Global, name: &str, n: u32) -> Result<(), AllocError>
    ensures { OnOk result ((q : List ℕ) → tops_in tops.new q ≡ tops_in tops.old q ++ extra name.now n q) }
{
    let key = String::from_str(alloc, name)?;
    add(tops, key, n)
}

/// The last number at a spelling, away.
pub fn pop(tops: &mut Tops, name: &str)
    ensures { 0 < length (tops_in tops.old name.now) → (q : List ℕ) → tops_in tops.new q ≡ popped name.now q (tops_in tops.old q) }
{
    match tops.get_mut(name) {
        Some(numbers) => {
            numbers.pop();
        }
        None => {}
    }
}

/// The numbers at a spelling.
fn numbers_at<'a>(tops: &'a Tops, name: &str) -> &'a [u32]
    ensures { result.now ≡ tops_in tops.now name.now }
{
    match tops.get(name) {
        Some(numbers) => numbers.as_slice(),
        None => &[],
    }
}

/// The last number at a spelling; 0 where there is none.
#[tactic(auto, using(crate::proofs::scope_numbers_lemmas::TopLemmas::last_some, crate::proofs::scope_numbers_lemmas::TopLemmas::last_none))]
pub fn last(tops: &Tops, name: &str) -> u32
    ensures { last_of (tops_in tops.now name.now) ≡ result }
{
    match numbers_at(tops, name).split_last() {
        Some((n, _)) => *n,
        None => 0,
    }
}
