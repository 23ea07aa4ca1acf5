//! The numbers of specifiers, by the specifiers' bytes.
ghost use Rattle.std.specs.Prelude.{◌≡◌, map, IfOk, OnOk};
ghost use Rattle.url.specs.Parts.{serialize};
ghost use Rattle.graph_tables.specs.specifier_table.Numbers.{HasNumbers, plain, IsPut, IsByBytes};

use crate::specifier_table::numbered::Numbered;
use base::Items;
use std::alloc::{AllocError, Global};
use std::collections::BTreeMap;
use url::Url;

/// The numbers in the order of their specifiers' bytes.
pub fn numbers_by_bytes<V: Drop>(
    alloc: Global,
    all: &Numbered<V>,
) -> Result<Items<usize>, AllocError>
    ensures { IfOk result (λ order. IsByBytes all.now order) }
{
    // The proof learns from it that no specifier has two numbers.
    let _all = all.len();
    let places = places(alloc, all)?;
    // The proof learns from it that the map is in order.
    let _count = places.len();
    let order = listed(alloc, places)?;
    Ok(order)
}

// Each specifier's number.
fn places<'a, V: Drop>(
    alloc: Global,
    all: &'a Numbered<V>,
) -> Result<BTreeMap<&'a Url, usize>, AllocError>
    ensures { IfOk result (λ map. HasNumbers all.now (plain map.entries)) }
{
    let mut map = BTreeMap::new(alloc);
    for number in 0..all.len() {
        let Some(url) = all.numbered(number) else {
            unreachable!()
        };
        put(&mut map, url, number)?;
    }
    Ok(map)
}

// The numbers of a map, in its order.
fn listed(alloc: Global, places: BTreeMap<&Url, usize>) -> Result<Items<usize>, AllocError>
    ensures { IfOk result (λ order. order ≡ map (λ e. e.1) (plain places.entry.entries)) }
{
    let mut order = Items::from_vec(Vec::with_capacity(alloc, places.len())?);
    for (_, number) in places {
        order.push(number)?;
    }
    Ok(order)
}

// Puts the number at this specifier, in place of what was there.
fn put<'a>(
    map: &mut BTreeMap<&'a Url, usize>,
    url: &'a Url,
    number: usize,
) -> Result<(), AllocError>
    ensures { OnOk result (IsPut (plain map.old.entries) (plain map.new.entries) (serialize url.now) number) }
{
    let _ = map.insert(url, number)?;
    Ok(())
}
