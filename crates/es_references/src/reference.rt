//! What the text of a comment refers to.
ghost use Rattle.std.specs.Prelude.{◌≡◌};
ghost use Rattle.std.specs.Option.{option_copied, option_map};
ghost use Rattle.es_references.specs.References as spec;
ghost use Rattle.es_references.specs.Steps.{reference_of_parts};

use crate::parts::{begins, behind, behind_blanks, behind_gap, has_end, quoted};
use es_site::DependencyKind;

/// What a comment refers to.
#[derive(Clone, Copy)]
pub struct Reference<'a> {
    pub kind: DependencyKind,
    pub value: &'a str,
    /// The text from the value's quote on.
    pub from: &'a str,
    /// The text after its closing quote.
    pub behind: &'a str,
}

/// What the text of a line comment refers to.
#[tactic(auto, unfolding(crate::specs::References::reference_in))]
pub fn reference_in(text: &str) -> Option<Reference<'_>>
    ensures { option_map reference_of_parts result ≡ spec.reference_in text.now }
{
    let (kind, rest) = named(behind_opening(text)?)?;
    reference_named(kind, rest)
}

// After the word for the kind.
fn reference_named(kind: DependencyKind, rest: &str) -> Option<Reference<'_>>
    ensures { option_map reference_of_parts result ≡ spec.reference_named (kind, rest.now) }
{
    reference_from(kind, behind_equals(rest)?)
}

// From the value's quote on.
fn reference_from(kind: DependencyKind, from: &str) -> Option<Reference<'_>>
    ensures { option_map reference_of_parts result ≡ spec.reference_from kind from.now }
{
    let (value, behind) = quoted(from)?;
    if has_end(behind) {
        Some(Reference {
            kind,
            value,
            from,
            behind,
        })
    } else {
        None
    }
}

// The text after `/ <reference `.
fn behind_opening(text: &str) -> Option<&str>
    ensures { option_copied result ≡ spec.behind_opening text.now }
{
    let inner = behind("/", text)?;
    let rest = behind("<reference", behind_blanks(inner))?;
    behind_gap(rest)
}

// The kind of the reference, and the text after the word for it.
fn named(text: &str) -> Option<(DependencyKind, &str)>
    ensures { option_map (λ n. (n.0, n.1.now)) result ≡ spec.named text.now }
{
    if let Some(rest) = behind("path", text) {
        return Some((DependencyKind::ReferencePath, rest));
    }
    let rest = behind("types", text)?;
    Some((DependencyKind::ReferenceTypes, rest))
}

// The text after the `=`.
fn behind_equals(text: &str) -> Option<&str>
    ensures { option_copied result ≡ spec.behind_equals text.now }
{
    let rest = behind("=", behind_blanks(text))?;
    Some(behind_blanks(rest))
}
