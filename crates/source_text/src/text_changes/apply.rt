//! The source with changes applied.
ghost use Rattle.std.specs.Prelude.{◌≡◌, ◌≢◌, ◌≤◌, [], true, false, drop, slice_range, None, Some, Err, IfOk, OnOk, MatchResult, string_bytes};
ghost use Rattle.source_text.specs.declared.text_changes.error.TextChangeError.{TextChangeError};
ghost use Rattle.source_text.specs.declared.text_changes.error.TextChangeError.TheVariants.{OutOfMemory};
ghost use Rattle.source_text.specs.text_changes.Changes.{AreInOrder, IsChanged, IsRefused, fault_of, first_fault, changed};
ghost use Rattle.source_text.specs.text_changes.Changes as spec;

use crate::text_changes::change::TextChange;
use crate::text_changes::error::TextChangeError;
use std::alloc::{AllocError, Global};

/// The source between the changes and the new texts. The changes are taken by start, then by end, and equal ranges in
/// the order given. A range is cut at the source's end.
///
/// - `Reversed`, `Overlapping`, `MidCharacter`: that change is the first faulty one, tried in this order.
pub fn apply_text_changes(
    alloc: Global,
    source: &str,
    changes: Vec<TextChange>,
) -> Result<String, TextChangeError>
    // No change is faulty, and the answer is the changed text.
    ensures value { IfOk result (λ text. IsChanged source.now changes.items (string_bytes text)) }
    // A refusal, but for memory, names the first faulty change and its fault.
    ensures refused { (e : TextChangeError) → result ≡ Err e → e ≢ OutOfMemory → IsRefused source.now changes.items e }
    // Of no changes it is the source.
    ensures unchanged { changes.items ≡ [] → IfOk result (λ text. string_bytes text ≡ source.now) }
{
    let changes = in_order(changes)?;
    applied(alloc, source, changes.as_slice())
}

fn in_order(changes: Vec<TextChange>) -> Result<Vec<TextChange>, AllocError>
    ensures { IfOk result (λ sorted. AreInOrder changes.items sorted.items) }
{
    let mut sorted = changes;
    sorted.sort_by_key(|change| (change.range.start, change.range.end))?;
    Ok(sorted)
}

// The source with the changes applied in this order.
fn applied(alloc: Global, source: &str, changes: &[TextChange]) -> Result<String, TextChangeError>
    ensures faultless { OnOk result (first_fault source.now 0 0 changes.now ≡ None) }
    ensures value { IfOk result (λ text. string_bytes text ≡ changed source.now 0 changes.now) }
    ensures refused { (e : TextChangeError) → result ≡ Err e → e ≢ OutOfMemory
        → first_fault source.now 0 0 changes.now ≡ Some e }
{
    let mut text = String::new(alloc);
    let mut past = 0;
    for (number, change) in changes.iter().enumerate() {
        check(source, past, number, change)?;
        text.push_str(part(source, past, change.range.start))?;
        text.push_str(change.new_text.as_str())?;
        past = change.range.end;
    }
    text.push_str(rest(source, past))?;
    Ok(text)
}

// Whether this change, after one that ends at `past`, can be applied.
fn check(
    source: &str,
    past: usize,
    number: usize,
    change: &TextChange,
) -> Result<(), TextChangeError>
    ensures fault { MatchResult result (λ _. fault_of source.now past number change.now ≡ None)
        (λ e. fault_of source.now past number change.now ≡ Some e) }
    ensures behind { OnOk result (past ≤ change.now.range.start) }
    ensures starts { OnOk result (spec.cuts_character source.now change.now.range.start ≡ false) }
    ensures ends { OnOk result (spec.cuts_character source.now change.now.range.end ≡ false) }
{
    let range = change.range;
    if range.end < range.start {
        return Err(TextChangeError::Reversed(number));
    }
    if range.start < past {
        return Err(TextChangeError::Overlapping(number));
    }
    if cuts_character(source, range.start) || cuts_character(source, range.end) {
        return Err(TextChangeError::MidCharacter(number));
    }
    Ok(())
}

fn cuts_character(source: &str, place: usize) -> bool
    ensures { result ≡ spec.cuts_character source.now place }
{
    match source.as_bytes().get(place) {
        Some(byte) => 128 <= *byte && *byte < 192,
        None => false,
    }
}

// The source from one place up to another, both cut at its end.
fn part(source: &str, start: usize, end: usize) -> &str
    requires order { start ≤ end }
    requires starts { spec.cuts_character source.now start ≡ false }
    requires ends { spec.cuts_character source.now end ≡ false }
    ensures { result.now ≡ slice_range source.now start end }
{
    let len = source.len();
    &source[start.min(len)..end.min(len)]
}

// The source from a place on, which is cut at its end.
fn rest(source: &str, start: usize) -> &str
    requires { spec.cuts_character source.now start ≡ false }
    ensures { result.now ≡ drop start source.now }
{
    &source[start.min(source.len())..]
}
