//! The text with other specifiers.
ghost use Rattle.std.specs.Prelude.{◌≡◌, ℕ, ◌<◌, length, map, All, IfOk, string_bytes};
ghost use Rattle.source_text.specs.declared.text_changes.error.TextChangeError.{TextChangeError as Fault};
ghost use Rattle.source_text.specs.text_changes.Changes.{changed, IsChanged, IsRefused};
ghost use Rattle.specifier_edits.specs.Sites.{AreSites};
ghost use Rattle.specifier_edits.specs.Edits.{NamesLiterals, ReadsMoved, KeepsTexts, CutsSpecifiers, KeepsSites};
ghost use Rattle.specifier_edits.specs.Edits as spec;

use es_literal::quote;
use es_site::Site;
use source_text::text_changes::{TextChange, TextChangeError, apply_text_changes};
use std::alloc::{AllocError, Global};

/// The text with other specifiers at these of its sites: the number of each, from 0, with its new specifier. A new
/// literal is in double quotes; all else stays as it is.
#[tactic(auto, using(crate::proofs::Theorems::names_within))]
pub fn rewrite_sites(
    alloc: Global,
    text: &str,
    sites: &[Site],
    changes: &[(usize, String)],
) -> Result<String, AllocError>
    // They are the sites of the text, as it was read.
    requires sites { AreSites text.now sites.now }
    // The numbers ascend strictly, and each is that of a literal.
    requires numbers { NamesLiterals sites.now 0 changes.now }
    // The new text is the old one with the new literals in the places of these sites.
    ensures text { IfOk result (λ new. string_bytes new ≡ changed text.now 0 (spec.edits sites.now changes.now)) }
    // It is read as the tokens and comments of the old one, moved.
    ensures read { IfOk result (λ new. ReadsMoved text.now (spec.edits sites.now changes.now) (string_bytes new)) }
    // All other tokens keep their texts.
    ensures texts { IfOk result (λ new. KeepsTexts text.now (spec.edits sites.now changes.now) (string_bytes new)) }
    // Where a site moved to, there is a literal of its new specifier.
    ensures cuts { IfOk result (λ new. CutsSpecifiers sites.now changes.now (string_bytes new)) }
    // Wherever the old one is read as a tree, it is read as this tree, moved, with the new literals; so its sites are the
    // old ones, moved. Those in comments stay.
    ensures sites { IfOk result (λ new. KeepsSites text.now sites.now changes.now (string_bytes new)) }
{
    let edits = edits(alloc, sites, changes)?;
    applied(alloc, text, edits)
}

// The text with changes of which none is faulty.
fn applied(alloc: Global, text: &str, edits: Vec<TextChange>) -> Result<String, AllocError>
    requires { (fault : Fault) → ¬ IsRefused text.now edits.items fault }
    ensures { IfOk result (λ new. IsChanged text.now edits.items (string_bytes new)) }
{
    match apply_text_changes(alloc, text, edits) {
        Ok(new) => Ok(new),
        Err(TextChangeError::OutOfMemory) => Err(AllocError),
        // None of the changes is faulty.
        Err(TextChangeError::Reversed(_)) => unreachable!(),
        Err(TextChangeError::Overlapping(_)) => unreachable!(),
        Err(TextChangeError::MidCharacter(_)) => unreachable!(),
    }
}

// The changes of the text, in the order of the sites.
fn edits(
    alloc: Global,
    sites: &[Site],
    changes: &[(usize, String)],
) -> Result<Vec<TextChange>, AllocError>
    requires { All (λ change. change.0 < length sites.now) changes.now }
    ensures { IfOk result (λ edits. edits.items ≡ spec.edits sites.now changes.now) }
{
    let mut edits = Vec::new(alloc);
    for (number, specifier) in changes {
        edits.push(edit(alloc, sites, *number, specifier.as_str())?)?;
    }
    Ok(edits)
}

fn edit(
    alloc: Global,
    sites: &[Site],
    number: usize,
    specifier: &str,
) -> Result<TextChange, AllocError>
    requires { number < length sites.now }
    ensures { IfOk result (λ change. change ≡ spec.edit sites.now number specifier.now) }
{
    match sites.get(number) {
        Some(site) => Ok(TextChange {
            range: site.range,
            new_text: quote(alloc, specifier)?,
        }),
        None => unreachable!(),
    }
}
