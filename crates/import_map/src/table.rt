//! Tables of texts in the order of their bytes, searched by halves.
ghost use Rattle.std.specs.Prelude.{◌≡◌, ◌<◌, ◌≤◌, true, length, None, IfSome, IfOk};
ghost use Rattle.std.specs.Option.{option_copied};
ghost use Rattle.std.specs.Ordering.{nat_cmp};
ghost use Rattle.std.specs.Cmp.Lexicographic.{slice_cmp};
ghost use Rattle.import_map.specs.ImportMap as spec;
ghost use Rattle.import_map.specs.Order.{IsInOrder, AreInOrder, entry_at, entry_at_front, match_of_entry};
ghost use Rattle.import_map.specs.Names.{AreWithin};

use crate::fronts::longest_front;
use base::{Items, Text};
use std::alloc::{AllocError, Global};
use std::cmp::Ordering;
use std::collections::BTreeMap;
use url::Url;

/// Keys of specifiers with their addresses, by the bytes of the keys. `None` is the null address.
pub type Addresses = Items<(Text, Option<Url>)>;

/// The entries of a map, in their order.
pub fn listed<V: Drop>(
    alloc: Global,
    table: BTreeMap<Text, V>,
) -> Result<Items<(Text, V)>, AllocError>
    ensures entries { IfOk result (λ list. list ≡ table.entries) }
    ensures in_order { IfOk result (λ list. IsInOrder list) }
{
    // The proof learns from it that the map is in order.
    let _count = table.len();
    let list: Vec<(Text, V)> = table.into_iter().collect(alloc)?;
    Ok(Items::from_vec(list))
}

/// The entry at a key.
// Narrows the places where the key can be, by halves.
pub fn at<'a, V>(table: &'a [(Text, V)], key: &[u8]) -> Option<&'a (Text, V)>
    requires { IsInOrder table.now }
    ensures { option_copied result ≡ entry_at table.now key.now }
{
    let mut low = 0;
    let mut high = table.len();
    while low < high {
        let middle = low + (high - low) / 2;
        match compare(&table[middle].0, key) {
            Ordering::Equal => return Some(&table[middle]),
            Ordering::Less => low = middle + 1,
            Ordering::Greater => high = middle,
        }
    }
    None
}

/// How a key compares.
pub fn compare(key: &Text, sought: &[u8]) -> Ordering
    ensures { result ≡ slice_cmp nat_cmp key.now sought.now }
{
    key.as_str().as_bytes().cmp(sought)
}

/// A table's match for a text: the longest key that is the text or, where fronts count, a front of it that ends with `/`.
pub fn match_in<'a>(
    table: &'a [(Text, Option<Url>)],
    text: &[u8],
    fronts: bool,
) -> Option<&'a (Text, Option<Url>)>
    requires { IsInOrder table.now }
    ensures { option_copied result ≡ spec.match_in fronts text.now table.now }
{
    match at(table, text) {
        Some(found) => Some(found),
        None => front_if(table, text, fronts),
    }
}

// The same, where the text itself is no key.
fn front_if<'a>(
    table: &'a [(Text, Option<Url>)],
    text: &[u8],
    fronts: bool,
) -> Option<&'a (Text, Option<Url>)>
    requires in_order { IsInOrder table.now }
    requires absent { entry_at table.now text.now ≡ None }
    ensures { option_copied result ≡ spec.match_in fronts text.now table.now }
{
    if fronts { front_in(table, text) } else { None }
}

// The longest key that is a front of a text and ends with `/`, where the text itself is no key.
fn front_in<'a>(table: &'a [(Text, Option<Url>)], text: &[u8]) -> Option<&'a (Text, Option<Url>)>
    requires in_order { IsInOrder table.now }
    requires absent { entry_at table.now text.now ≡ None }
    ensures { option_copied result ≡ spec.match_in true text.now table.now }
{
    let mut end = text.len();
    while end > 0 {
        if let Some(found) = front_at(table, text, end) {
            return Some(found);
        }
        end = longest_front(table, text, end - 1);
    }
    None
}

/// The entry at the front of so many bytes, if that ends with `/`.
pub fn front_at<'a, V>(table: &'a [(Text, V)], text: &[u8], end: usize) -> Option<&'a (Text, V)>
    requires in_order { IsInOrder table.now }
    requires some { 0 < end }
    requires within { end ≤ length text.now }
    ensures { option_copied result ≡ entry_at_front table.now text.now end }
{
    if text[end - 1] == b'/' {
        at(table, &text[..end])
    } else {
        None
    }
}

/// The match in the scope that decides: the longest that is the referrer's and has one. None has that is longer than `most`.
pub fn scoped_match<'a>(
    scopes: &'a [(Text, Addresses)],
    text: &[u8],
    fronts: bool,
    referrer: &[u8],
    most: usize,
) -> Option<&'a (Text, Option<Url>)>
    requires in_order { AreInOrder scopes.now }
    requires within { AreWithin fronts text.now most scopes.now }
    ensures { option_copied result ≡ spec.scoped_match fronts text.now referrer.now scopes.now }
{
    match match_at(at(scopes, referrer), text, fronts) {
        Some(found) => Some(found),
        None => front_match(scopes, text, fronts, referrer, most),
    }
}

// The same, where the scope of the referrer itself has none.
fn front_match<'a>(
    scopes: &'a [(Text, Addresses)],
    text: &[u8],
    fronts: bool,
    referrer: &[u8],
    most: usize,
) -> Option<&'a (Text, Option<Url>)>
    requires in_order { AreInOrder scopes.now }
    requires within { AreWithin fronts text.now most scopes.now }
    requires absent { match_of_entry fronts text.now (entry_at scopes.now referrer.now) ≡ None }
    ensures { option_copied result ≡ spec.scoped_match fronts text.now referrer.now scopes.now }
{
    let mut end = referrer.len().min(most);
    while end > 0 {
        if let Some(found) = match_at(front_at(scopes, referrer, end), text, fronts) {
            return Some(found);
        }
        end = longest_front(scopes, referrer, end - 1);
    }
    None
}

// The match in a scope, if there is one.
fn match_at<'a>(
    scope: Option<&'a (Text, Addresses)>,
    text: &[u8],
    fronts: bool,
) -> Option<&'a (Text, Option<Url>)>
    requires { IfSome (option_copied scope) (λ e. IsInOrder e.1) }
    ensures { option_copied result ≡ match_of_entry fronts text.now (option_copied scope.entry) }
{
    match_in(scope?.1.as_slice(), text, fronts)
}
