//! What a JSON value says of an import map.
ghost use Rattle.std.specs.Prelude.{◌≡◌, [], IfOk, OnOk, Some, None, codes};
ghost use Rattle.std.specs.Result.{result_ok};
ghost use Rattle.std.specs.List.{AllByRecursion};
ghost use Rattle.serde_json.specs.View.{view, members_view};
ghost use Rattle.url.specs.Parser.{parse_url};
ghost use Rattle.import_map.specs.json_reading.Reading as reading;
ghost use Rattle.import_map.specs.ImportMap as spec;
ghost use Rattle.import_map.specs.Order.{IsInOrder, AreInOrder};

use crate::json_reading::{Reading, escaped, pointer};
use crate::table::{Addresses, listed};
use base::{Items, Text};
use lexical_path::has_relative_prefix;
use serde_json::{Map, Value};
use std::alloc::{AllocError, Global};
use std::collections::BTreeMap;
use url::{ParseError, Url};

/// A text read URL-like at a base, if it is read.
pub fn url_like(alloc: Global, base: &Url, text: &str) -> Result<Option<Url>, AllocError>
    ensures { IfOk result (λ url. url ≡ spec.url_like base.now text.now) }
{
    if has_relative_prefix(text) {
        joined(base, text)
    } else {
        read(alloc, text)
    }
}

fn joined(base: &Url, text: &str) -> Result<Option<Url>, AllocError>
    ensures { IfOk result (λ url. url ≡ result_ok (parse_url (Some base.now) text.now)) }
{
    match base.join(text) {
        Ok(url) => Ok(Some(url)),
        Err(ParseError::OutOfMemory | ParseError::Overflow) => Err(AllocError),
        Err(_) => Ok(None),
    }
}

fn read(alloc: Global, text: &str) -> Result<Option<Url>, AllocError>
    ensures { IfOk result (λ url. url ≡ result_ok (parse_url None text.now)) }
{
    match Url::parse(alloc, text) {
        Ok(url) => Ok(Some(url)),
        Err(ParseError::OutOfMemory | ParseError::Overflow) => Err(AllocError),
        Err(_) => Ok(None),
    }
}

// The addresses that an object's members say.
fn addresses_in(
    alloc: Global,
    base: &Url,
    members: &Map<String, Value>,
) -> Result<Addresses, AllocError>
    ensures table { IfOk result (λ table. table ≡ spec.addresses_onto base.now [] (members_view members.now.entries)) }
    ensures in_order { IfOk result (λ table. IsInOrder table) }
{
    let mut table = BTreeMap::new(alloc);
    for (key, value) in members.iter() {
        add_import(alloc, base, &mut table, key.as_str(), value)?;
    }
    listed(alloc, table)
}

fn add_import(
    alloc: Global,
    base: &Url,
    table: &mut BTreeMap<Text, Option<Url>>,
    key: &str,
    value: &Value,
) -> Result<(), AllocError>
    ensures { OnOk result (table.new.entries ≡ spec.with_import base.now table.old.entries key.now (view value.now)) }
{
    if key.is_empty() {
        return Ok(());
    }
    let kept = key_in(alloc, base, key)?;
    let address = address_in(alloc, base, key, value)?;
    table.insert(kept, address)?;
    Ok(())
}

// A key as it is kept: the text of the URL that it is read as, or itself.
fn key_in(alloc: Global, base: &Url, key: &str) -> Result<Text, AllocError>
    ensures { IfOk result (λ kept. kept ≡ spec.text_or (spec.url_like base.now key.now) key.now) }
{
    match url_like(alloc, base, key)? {
        Some(url) => Text::from_str(alloc, url.as_str()),
        None => Text::from_str(alloc, key),
    }
}

fn address_in(
    alloc: Global,
    base: &Url,
    key: &str,
    value: &Value,
) -> Result<Option<Url>, AllocError>
    ensures { IfOk result (λ address. address ≡ spec.address_of base.now key.now (view value.now)) }
{
    match value.as_str() {
        Some(text) => {
            let url = url_like(alloc, base, text)?;
            Ok(fitting(key, url))
        }
        None => Ok(None),
    }
}

// The address that a URL is for a key as written.
fn fitting(key: &str, url: Option<Url>) -> Option<Url>
    ensures { result ≡ spec.fitting key.now url }
{
    let address = url?;
    if ends_with_slash(key) && !ends_with_slash(address.as_str()) {
        return None;
    }
    Some(address)
}

fn ends_with_slash(text: &str) -> bool
    ensures { result ≡ spec.ends_with_slash text.now }
{
    match text.as_bytes().last() {
        Some(last) => *last == b'/',
        None => false,
    }
}

// The scopes that an object's members say, or the pointer to the first that is no object.
fn scopes_in(
    alloc: Global,
    base: &Url,
    members: &Map<String, Value>,
) -> Result<Reading<Items<(Text, Addresses)>>, AllocError>
    ensures scopes { IfOk result (λ r. r ≡ spec.scopes_onto base.now [] (members_view members.now.entries)) }
    ensures in_order { IfOk result (λ r. IfOk r AreInOrder) }
{
    let mut scopes = BTreeMap::new(alloc);
    for (key, value) in members.iter() {
        match scope_in(alloc, base, key.as_str(), value)? {
            Ok(table) => add_scope(alloc, base, &mut scopes, key.as_str(), table)?,
            Err(at) => return Ok(Err(at)),
        }
    }
    Ok(Ok(listed_scopes(alloc, scopes)?))
}

// The scopes of a map, in their order.
fn listed_scopes(
    alloc: Global,
    scopes: BTreeMap<Text, Addresses>,
) -> Result<Items<(Text, Addresses)>, AllocError>
    requires { AllByRecursion (λ e. IsInOrder e.1) scopes.entries }
    ensures entries { IfOk result (λ list. list ≡ scopes.entries) }
    ensures in_order { IfOk result (λ list. AreInOrder list) }
{
    match listed(alloc, scopes) {
        Ok(list) => Ok(list),
        Err(error) => Err(error),
    }
}

// The addresses of the scope at a key.
fn scope_in(
    alloc: Global,
    base: &Url,
    key: &str,
    value: &Value,
) -> Result<Reading<Addresses>, AllocError>
    ensures scope { IfOk result (λ r. r ≡ reading.under (reading.escaped key.now) (spec.addresses_of base.now (view value.now))) }
    ensures in_order { IfOk result (λ r. IfOk r IsInOrder) }
{
    let part = escaped(alloc, key)?;
    match addresses_of(alloc, base, value)? {
        Ok(table) => Ok(Ok(table)),
        Err(at) => Ok(Err(pointer(alloc, part.as_str(), at.as_str())?)),
    }
}

// The addresses that a value says, or that it is no object.
fn addresses_of(alloc: Global, base: &Url, value: &Value) -> Result<Reading<Addresses>, AllocError>
    ensures table { IfOk result (λ r. r ≡ spec.addresses_of base.now (view value.now)) }
    ensures in_order { IfOk result (λ r. IfOk r IsInOrder) }
{
    match value.as_object() {
        Some(members) => Ok(Ok(addresses_in(alloc, base, members)?)),
        None => Ok(Err(Text::new(alloc))),
    }
}

// The scopes that a value says.
fn scopes_of(
    alloc: Global,
    base: &Url,
    value: &Value,
) -> Result<Reading<Items<(Text, Addresses)>>, AllocError>
    ensures scopes { IfOk result (λ r. r ≡ spec.scopes_of base.now (view value.now)) }
    ensures in_order { IfOk result (λ r. IfOk r AreInOrder) }
{
    match value.as_object() {
        Some(members) => scopes_in(alloc, base, members),
        None => Ok(Err(Text::new(alloc))),
    }
}

// Puts the addresses at the URL that a key is at the base, if it is one.
fn add_scope(
    alloc: Global,
    base: &Url,
    scopes: &mut BTreeMap<Text, Addresses>,
    key: &str,
    table: Addresses,
) -> Result<(), AllocError>
    ensures put { OnOk result (scopes.new.entries ≡ spec.with_scope (parse_url (Some base.now) key.now) scopes.old.entries table) }
    ensures in_order { AllByRecursion (λ e. IsInOrder e.1) scopes.old.entries → IsInOrder table →
        OnOk result (AllByRecursion (λ e. IsInOrder e.1) scopes.new.entries) }
{
    match put_scope(alloc, base, scopes, key, table) {
        Ok(()) => Ok(()),
        Err(error) => Err(error),
    }
}

fn put_scope(
    alloc: Global,
    base: &Url,
    scopes: &mut BTreeMap<Text, Addresses>,
    key: &str,
    table: Addresses,
) -> Result<(), AllocError>
    ensures { OnOk result (scopes.new.entries ≡ spec.with_scope (parse_url (Some base.now) key.now) scopes.old.entries table) }
{
    match base.join(key) {
        Ok(url) => {
            scopes.insert(Text::from_str(alloc, url.as_str())?, table)?;
            Ok(())
        }
        Err(ParseError::OutOfMemory | ParseError::Overflow) => Err(AllocError),
        Err(_) => Ok(()),
    }
}

/// The addresses at `imports`.
pub fn imports_at(
    alloc: Global,
    base: &Url,
    value: &Value,
) -> Result<Reading<Addresses>, AllocError>
    ensures table { IfOk result (λ r. r
        ≡ reading.optional (spec.addresses_of base.now) [] (codes "imports") (view value.now)) }
    ensures in_order { IfOk result (λ r. IfOk r IsInOrder) }
{
    match value.get("imports") {
        Some(imports) => match addresses_of(alloc, base, imports)? {
            Ok(table) => Ok(Ok(table)),
            Err(at) => Ok(Err(pointer(alloc, "imports", at.as_str())?)),
        },
        None => Ok(Ok(Items::new(alloc))),
    }
}

/// The scopes at `scopes`.
pub fn scopes_at(
    alloc: Global,
    base: &Url,
    value: &Value,
) -> Result<Reading<Items<(Text, Addresses)>>, AllocError>
    ensures scopes { IfOk result (λ r. r
        ≡ reading.optional (spec.scopes_of base.now) [] (codes "scopes") (view value.now)) }
    ensures in_order { IfOk result (λ r. IfOk r AreInOrder) }
{
    match value.get("scopes") {
        Some(scopes) => match scopes_of(alloc, base, scopes)? {
            Ok(scopes) => Ok(Ok(scopes)),
            Err(at) => Ok(Err(pointer(alloc, "scopes", at.as_str())?)),
        },
        None => Ok(Ok(Items::new(alloc))),
    }
}
