//! The parts of a reference, read from left to right with combinators.
ghost use Rattle.std.specs.Prelude.{◌≡◌, ℕ, true};
ghost use Rattle.monch.specs.Seen.{seen};
ghost use Rattle.package_ref.specs.Reference as grammar;
ghost use Rattle.package_ref.specs.Steps as steps;
ghost use Rattle.package_ref.specs.Steps.{Tells, TellsMaybe, bytes_of, maybe};

use crate::reference::PackageKind;
use monch::{
    Combinator, ParseResult, ch, if_not_empty, maybe, or, pair, preceded, substring, take_while,
};

/// The optional `/` before a name.
pub fn read_slash(input: &str) -> ParseResult<'_, Option<char>>
    ensures { TellsMaybe (λ (c : ℕ). c) (maybe (steps.read_char 47 input.now) input.now) (seen result) }
{
    maybe(ch('/')).parse(input)
}

/// A name of this kind.
pub fn read_name(kind: PackageKind, input: &str) -> ParseResult<'_, &str>
    ensures { Tells bytes_of (steps.read_name kind input.now) (seen result) }
{
    match kind {
        PackageKind::Npm => npm_name(input),
        PackageKind::Jsr => scoped_name(input),
    }
}

fn npm_name(input: &str) -> ParseResult<'_, &str>
    ensures { Tells bytes_of (steps.or_else (steps.read_scoped input.now) (steps.read_part input.now)) (seen result) }
{
    let scope = preceded(ch('@'), if_not_empty(take_while(is_of_part)));
    let part = preceded(ch('/'), if_not_empty(take_while(is_of_part)));
    let plain = if_not_empty(take_while(is_of_part));
    or(substring(pair(scope, part)), plain).parse(input)
}

fn scoped_name(input: &str) -> ParseResult<'_, &str>
    ensures { Tells bytes_of (steps.read_scoped input.now) (seen result) }
{
    let scope = preceded(ch('@'), if_not_empty(take_while(is_of_part)));
    let behind = preceded(ch('/'), if_not_empty(take_while(is_of_part)));
    substring(pair(scope, behind)).parse(input)
}

/// What follows the `@` of a name.
pub fn read_requirement(input: &str) -> ParseResult<'_, Option<&str>>
    ensures { TellsMaybe bytes_of (maybe (steps.read_requirement input.now) input.now) (seen result) }
{
    maybe(preceded(ch('@'), if_not_empty(take_while(is_no_slash)))).parse(input)
}

/// What follows the `/`.
pub fn read_sub_path(input: &str) -> ParseResult<'_, Option<&str>>
    ensures { TellsMaybe bytes_of (maybe (steps.read_sub_path input.now) input.now) (seen result) }
{
    maybe(preceded(ch('/'), take_while(is_any))).parse(input)
}

fn is_of_part(c: char) -> bool
    ensures { result ≡ grammar.is_of_part c }
{
    c != '/' && c != '@'
}

fn is_no_slash(c: char) -> bool
    ensures { result ≡ grammar.is_no_slash c }
{
    c != '/'
}

fn is_any(_c: char) -> bool
    ensures { result ≡ true }
{
    true
}
