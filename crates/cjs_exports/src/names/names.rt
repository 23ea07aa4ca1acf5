//! The two lists.

ghost use Rattle.std.specs.Prelude.{◌≡◌, ℕ, List, IfOk, filter};
ghost use Rattle.std.specs.BTreeSet.{IsOrdered};
ghost use Rattle.std.specs.Cmp.Lexicographic.{slice_cmp};
ghost use Rattle.std.specs.Ordering.{nat_cmp};
ghost use Rattle.cjs_facts.specs.Exports.{AreNames};
ghost use Rattle.cjs_exports.specs.names.Sets.{lacks, Holds};

use base::{Items, Text};
use cjs_facts::Found;
use std::alloc::{AllocError, Global};
use std::collections::BTreeSet;

/// The names as a set.
#[tactic(auto, using(crate::proofs::names_lemmas::Sets::holds_none, crate::proofs::names_lemmas::Sets::holds_more))]
fn set_of(alloc: Global, names: Items<Text>) -> Result<BTreeSet<Text>, AllocError>
    ensures { IfOk result (λ set. Holds set names) }
{
    let mut set = BTreeSet::new(alloc);
    for name in names.into_vec() {
        set.insert(name)?;
    }
    Ok(set)
}

/// Names in their order, without others.
fn without(
    alloc: Global,
    names: BTreeSet<Text>,
    others: &BTreeSet<Text>,
) -> Result<Items<Text>, AllocError>
    ensures left { IfOk result (λ left. left ≡ filter (lacks others.now.keys) names.keys) }
    ensures ordered { IfOk result (λ left. IsOrdered (slice_cmp nat_cmp) names) }
{
    // The proof learns from it that the names are in order.
    let _count = names.len();
    let mut left = Items::new(alloc);
    for name in names {
        if !others.contains(&name) {
            left.push(name)?;
        }
    }
    Ok(left)
}

/// Names ascending by bytes, each once, without these.
#[tactic(auto, using(crate::proofs::names_lemmas::Sets::are_names))]
fn listed(
    alloc: Global,
    found: Items<Text>,
    unsafe_getters: &BTreeSet<Text>,
) -> Result<Items<Text>, AllocError>
    ensures { (left_out : List (List ℕ)) → Holds unsafe_getters.now left_out → IfOk result (AreNames found left_out) }
{
    let names = set_of(alloc, found)?;
    without(alloc, names, unsafe_getters)
}

/// The names that a program exports, and the modules that it exports again; both without getters that may do something.
pub fn export_names(alloc: Global, found: Found) -> Result<(Items<Text>, Items<Text>), AllocError>
    ensures exported { IfOk result (λ names. AreNames found.exports found.unsafe_getters names.0) }
    ensures reexported { IfOk result (λ names. AreNames found.reexports found.unsafe_getters names.1) }
{
    let Found {
        vars: _,
        exports,
        reexports,
        unsafe_getters,
    } = found;
    let left_out = set_of(alloc, unsafe_getters)?;
    let exports = listed(alloc, exports, &left_out)?;
    let reexports = listed(alloc, reexports, &left_out)?;
    Ok((exports, reexports))
}
