//! Where a match leads.
ghost use Rattle.std.specs.Prelude.{◌≡◌, true, length, drop, Ok, Some};
ghost use Rattle.std.specs.Option.{option_copied};
ghost use Rattle.url.specs.Parser.{parse_url};
ghost use Rattle.lexical_path.specs.Specifiers.{begins as begins_with};
ghost use Rattle.specifier_resolver.specs.Resolver.{IsResolved};
ghost use Rattle.import_map.specs.ImportMap as spec;
ghost use Rattle.import_map.specs.Follow.{IsRefusal};

use base::Text;
use lexical_path::begins;
use specifier_resolver::ResolveFault;
use std::alloc::Global;
use url::{ParseError, Url};

/// Where the match of a text leads: the key is the text or a front of it.
pub fn led_by(
    alloc: Global,
    text: &str,
    key: &str,
    address: Option<&Url>,
) -> Result<Url, ResolveFault>
    requires { begins_with text.now key.now ≡ true }
    ensures { IsResolved (spec.led_by text.now key.now (option_copied address.entry)) result }
{
    let Some(address) = address else {
        return Err(refused(alloc, "import map: null"));
    };
    if text == key {
        return match address.clone() {
            Ok(url) => Ok(url),
            Err(_) => Err(ResolveFault::OutOfMemory),
        };
    }
    led_on(alloc, address, rest_behind(text, key))
}

// What follows the key in a text.
fn rest_behind<'a>(text: &'a str, key: &str) -> &'a str
    requires { begins_with text.now key.now ≡ true }
    ensures { result.now ≡ drop (length key.now) text.now }
{
    match text.strip_prefix(key) {
        Some(rest) => rest,
        None => unreachable!(),
    }
}

// Where an address leads that a rest is joined to: never out of it.
fn led_on(alloc: Global, address: &Url, rest: &str) -> Result<Url, ResolveFault>
    ensures { IsResolved (spec.led_on address.now (parse_url (Some address.now) rest.now)) result }
{
    match address.join(rest) {
        Ok(url) => within(alloc, address, url),
        Err(ParseError::OutOfMemory | ParseError::Overflow) => Err(ResolveFault::OutOfMemory),
        Err(_) => Err(refused(alloc, "import map: bad address")),
    }
}

fn within(alloc: Global, address: &Url, url: Url) -> Result<Url, ResolveFault>
    ensures { IsResolved (spec.led_on address.now (Ok url)) result }
{
    if begins(url.as_str(), address.as_str()) {
        Ok(url)
    } else {
        Err(refused(alloc, "import map: backtracks"))
    }
}

// A refusal for this reason.
fn refused(alloc: Global, why: &str) -> ResolveFault
    ensures { IsRefusal why.now result }
{
    match Text::from_str(alloc, why) {
        Ok(why) => ResolveFault::Refused(why),
        Err(_) => ResolveFault::OutOfMemory,
    }
}
