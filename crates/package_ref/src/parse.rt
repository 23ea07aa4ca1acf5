//! The package that a URL names.
ghost use Rattle.std.specs.Prelude.{◌≡◌, ◌==◌, IfOk, Err};
ghost use Rattle.std.specs.List.{before_first};
ghost use Rattle.std.specs.Option.{option_copied};
ghost use Rattle.url.specs.Parts.{serialize};
ghost use Rattle.package_ref.specs.declared.reference.PackageRef.{PackageRef};
ghost use Rattle.package_ref.specs.Reference.{IsReference, Gives, ends_body};
ghost use Rattle.package_ref.specs.Steps as steps;
ghost use Rattle.package_ref.specs.Steps.{AnswersReference, IsAnswer, SplitsScheme};

use crate::error::PackageError;
use crate::grammar::{read_name, read_requirement, read_slash, read_sub_path};
use crate::reference::{PackageKind, PackageRef};
use base::Text;
use std::alloc::{AllocError, Global};
use url::Url;

/// The package that the URL names. A query and a fragment play no part.
///
/// - `NotAReference`: the text is no reference of the grammar, as of a URL whose scheme is neither `npm` nor `jsr`.
pub fn parse_package_ref(alloc: Global, url: &Url) -> Result<PackageRef, PackageError>
    // What is answered is derived.
    ensures read { IfOk result (IsReference (serialize url.now)) }
    // What is derived is answered, unless memory runs out.
    ensures only { (r : PackageRef) → IsReference (serialize url.now) r → Gives result r }
    // A refusal says that nothing is derived.
    ensures refused { result ≡ Err PackageError.NotAReference
        → (r : PackageRef) → ¬ IsReference (serialize url.now) r }
{
    reference_in(alloc, url.as_str())
}

fn reference_in(alloc: Global, text: &str) -> Result<PackageRef, PackageError>
    ensures { AnswersReference text.now result }
{
    match behind_scheme(text) {
        Some((kind, rest)) => read_body(alloc, kind, body_of(rest)),
        None => Err(PackageError::NotAReference),
    }
}

fn behind_scheme(text: &str) -> Option<(PackageKind, &str)>
    ensures { SplitsScheme text.now result }
{
    if let Some(rest) = text.strip_prefix("npm:") {
        return Some((PackageKind::Npm, rest));
    }
    match text.strip_prefix("jsr:") {
        Some(rest) => Some((PackageKind::Jsr, rest)),
        None => None,
    }
}

// What precedes the first `?` or `#`.
fn body_of(rest: &str) -> &str
    ensures { result.now ≡ before_first ends_body rest.now }
{
    before_query(before_fragment(rest))
}

fn before_fragment(text: &str) -> &str
    ensures { result.now ≡ before_first (λ b. b == 35) text.now }
{
    match text.split_once('#') {
        Some((front, _)) => front,
        None => text,
    }
}

fn before_query(text: &str) -> &str
    ensures { result.now ≡ before_first (λ b. b == 63) text.now }
{
    match text.split_once('?') {
        Some((front, _)) => front,
        None => text,
    }
}

// The package of this kind whose body is the text.
fn read_body(alloc: Global, kind: PackageKind, text: &str) -> Result<PackageRef, PackageError>
    ensures { IsAnswer (steps.read_body kind text.now) result }
{
    let (rest, _) = read_slash(text)?;
    let (rest, name) = read_name(kind, rest)?;
    let (rest, requirement) = read_requirement(rest)?;
    let (rest, sub_path) = read_sub_path(rest)?;
    if !rest.is_empty() {
        return Err(PackageError::NotAReference);
    }
    Ok(PackageRef {
        kind,
        name: Text::from_str(alloc, name)?,
        requirement: owned(alloc, requirement)?,
        sub_path: owned(alloc, unless_empty(sub_path))?,
    })
}

fn unless_empty(text: Option<&str>) -> Option<&str>
    ensures { option_copied result ≡ steps.unless_empty (option_copied text.entry) }
{
    match text {
        Some(text) if !text.is_empty() => Some(text),
        _ => None,
    }
}

fn owned(alloc: Global, text: Option<&str>) -> Result<Option<Text>, AllocError>
    ensures { IfOk result (λ t. t ≡ option_copied text.entry) }
{
    match text {
        Some(text) => Ok(Some(Text::from_str(alloc, text)?)),
        None => Ok(None),
    }
}
