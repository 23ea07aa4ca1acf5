//! The keys of all scopes, each with the length of the longest scope that has it. So a text that no scope has a key for is
//! looked for in none of them, and another one in no longer scope than may have one.
ghost use Rattle.std.specs.Prelude.{◌≡◌, ℕ, ◌≤◌, ◌<◌, List, length, true, IfOk, OnOk};
ghost use Rattle.std.specs.Option.{option_copied};
ghost use Rattle.std.specs.List.{AllByRecursion};
ghost use Rattle.import_map.specs.ImportMap as spec;
ghost use Rattle.import_map.specs.Order.{IsInOrder};
ghost use Rattle.import_map.specs.Names.{IsNoted, AreNoted, IsReached, length_of, is_front};

use crate::table::{Addresses, at, front_at, listed};
use base::{Items, Text};
use std::alloc::{AllocError, Global};
use std::collections::BTreeMap;
use url::Url;

/// Keys with the length of the longest scope that has them, by the bytes of the keys.
pub type Names = Items<(Text, usize)>;

/// The names of these scopes.
pub fn names_of(alloc: Global, scopes: &[(Text, Addresses)]) -> Result<Names, AllocError>
    ensures noted { IfOk result (λ names. AreNoted names scopes.now) }
    ensures in_order { IfOk result (λ names. IsInOrder names) }
{
    let mut names = BTreeMap::new(alloc);
    for (scope, table) in scopes {
        note_all(&mut names, table.as_slice(), scope.len())?;
    }
    let list = listed(alloc, names)?;
    Ok(list)
}

// Notes the keys of a scope of so many bytes.
fn note_all(
    names: &mut BTreeMap<Text, usize>,
    table: &[(Text, Option<Url>)],
    len: usize,
) -> Result<(), AllocError>
    ensures noted { OnOk result (AllByRecursion (λ e. IsNoted names.new.entries e.0 len) table.now) }
    ensures kept { OnOk result ((key : List ℕ) → (n : ℕ) → IsNoted names.old.entries key n → IsNoted names.new.entries key n) }
{
    for (key, _) in table {
        note(names, key, len)?;
    }
    Ok(())
}

// Notes a key of a scope of so many bytes.
fn note(names: &mut BTreeMap<Text, usize>, key: &Text, len: usize) -> Result<(), AllocError>
    ensures noted { OnOk result (IsNoted names.new.entries key.now len) }
    ensures kept { OnOk result ((other : List ℕ) → (n : ℕ) → IsNoted names.old.entries other n → IsNoted names.new.entries other n) }
{
    let longest = match names.get(key) {
        Some(known) => (*known).max(len),
        None => len,
    };
    names.insert(key.copy()?, longest)?;
    Ok(())
}

/// No scope is longer that has a match for a text.
pub fn reach(names: &[(Text, usize)], text: &[u8], fronts: bool) -> usize
    requires { IsInOrder names.now }
    ensures { IsReached (spec.is_match fronts text.now) names.now result }
{
    let entry = at(names, text);
    let whole = noted_at(entry);
    if fronts {
        whole.max(front_reach(names, text))
    } else {
        whole
    }
}

// The same of keys that are fronts of the text and end with `/`.
fn front_reach(names: &[(Text, usize)], text: &[u8]) -> usize
    requires { IsInOrder names.now }
    ensures { IsReached (is_front text.now) names.now result }
{
    let mut longest: usize = 0;
    let mut end = text.len();
    while end > 0 {
        longest = longest.max(noted_at(front_at(names, text, end)));
        end -= 1;
    }
    longest
}

fn noted_at(entry: Option<&(Text, usize)>) -> usize
    ensures { result ≡ length_of (option_copied entry.entry) }
{
    match entry {
        Some(entry) => entry.1,
        None => 0,
    }
}
