//! Names by their spellings, each with the numbers of its scopes.

ghost use Rattle.std.specs.Prelude.{◌≡◌, ◌++◌, ℕ, List, true, string_bytes, OnOk};
ghost use Rattle.dts_rules.specs.Sets.{where_};
ghost use Rattle.dts_sets.specs.Ids.{numbers_at, extra, has_number, holds, Extends};

use std::alloc::{AllocError, Global};
use std::collections::HashMap;

/// Names by their spellings.
pub type Ids = HashMap<String, Vec<u32>>;

/// One number more at a key.
fn add_number(ids: &mut Ids, key: String, number: u32) -> Result<(), AllocError>
    ensures { OnOk result ((q : List ℕ) → numbers_at ids.new q ≡ numbers_at ids.old q ++ extra (string_bytes key) number q) }
{
    ids.entry(key)?.or_default().push(number)?;
    Ok(())
}

/// One name more.
#[tactic(auto, using(crate::proofs::NameLemmas::extends_one))]
fn add_name(ids: &mut Ids, alloc: Global, name: &str, number: u32) -> Result<(), AllocError>
    ensures { OnOk result (Extends ids.old ids.new (where_ true (name.now, number))) }
{
    let key = String::from_str(alloc, name)?;
    add_number(ids, key, number)
}

/// One name more where it is asked for, and whether that went.
#[tactic(auto, using(crate::proofs::NameLemmas::extends_none))]
pub fn add_if(ids: &mut Ids, alloc: Global, asked: bool, name: &str, number: u32) -> bool
    ensures { result ≡ true → Extends ids.old ids.new (where_ asked (name.now, number)) }
{
    if !asked {
        return true;
    }
    add_name(ids, alloc, name, number).is_ok()
}

/// The numbers at a spelling.
fn numbers_of<'a>(ids: &'a Ids, sym: &str) -> &'a [u32]
    ensures { result.now ≡ numbers_at ids.now sym.now }
{
    match ids.get(sym) {
        Some(found) => found.as_slice(),
        None => &[],
    }
}

/// Whether a number is one of these.
#[tactic(auto, using(crate::proofs::NameLemmas::has_first, crate::proofs::NameLemmas::has_other, crate::proofs::NameLemmas::has_none))]
fn has(numbers: &[u32], number: u32) -> bool
    ensures { result ≡ has_number numbers.now number }
{
    let mut row = numbers;
    while let Some((first, rest)) = row.split_first() {
        if *first == number {
            return true;
        }
        row = rest;
    }
    false
}

/// Whether a name is one of these.
pub fn contains(ids: &Ids, sym: &str, number: u32) -> bool
    ensures { result ≡ holds ids.now (sym.now, number) }
{
    has(numbers_of(ids, sym), number)
}
