//! Whether the bundle of a plan's files is read as what it was written of.
ghost use Rattle.std.specs.Prelude.{◌≡◌, ◌↔◌, None, IsTrue, IfOk, map, string_bytes};
ghost use Rattle.std.specs.Option.{option_copied};
ghost use Rattle.std.specs.List.{AllByRecursion};
ghost use Rattle.base64.specs.GeneralPurpose.{IsBytes};
ghost use Rattle.file_url.specs.canonical_url.OwnText.{ReadsAsItself};
ghost use Rattle.vendor_run.specs.Readable.{IsFirstUnread, HasBytes, specifiers_in, target_of};
ghost use Rattle.vendor_run.specs.Readable as spec;

use file_url::canonical_url::reads_as_itself;
use graph_vendor::{VendorFile, VendorPlan};
use std::alloc::{AllocError, Global};
use url::Url;

/// The first of the specifiers that the plan's bundle names which isn't what its own text is read as.
pub fn first_unread(plan: &VendorPlan) -> Option<&Url>
    ensures first { IsFirstUnread (specifiers_in plan.now) (option_copied result) }
    ensures bytes { option_copied result ≡ None → AllByRecursion HasBytes plan.now.files }
{
    if let Some(name) = unread_target(plan.files.as_slice()) {
        return Some(name);
    }
    if let Some(name) = unread_among(plan.externals.as_slice()) {
        return Some(name);
    }
    unread_among(plan.roots.as_slice())
}

fn unread_target(files: &[VendorFile]) -> Option<&Url>
    ensures first { IsFirstUnread (map target_of files.now) (option_copied result) }
    ensures bytes { option_copied result ≡ None → AllByRecursion HasBytes files.now }
{
    for file in files {
        if !is_target_read(file) {
            return Some(&file.target);
        }
    }
    None
}

fn is_target_read(file: &VendorFile) -> bool
    ensures reads { IsTrue result ↔ ReadsAsItself file.now.target }
    ensures bytes { HasBytes file.now }
{
    state_bytes(file.bytes.as_slice());
    reads_as_itself(&file.target)
}

// States what their type says: each is below 256.
fn state_bytes(bytes: &[u8])
    ensures { IsBytes bytes.now }
{
    let _ = bytes;
}

fn unread_among(names: &[Url]) -> Option<&Url>
    ensures { IsFirstUnread names.now (option_copied result) }
{
    for name in names {
        if !reads_as_itself(name) {
            return Some(name);
        }
    }
    None
}

/// The line of a specifier that isn't what its own text is read as.
#[tactic(auto, unfolding(crate::specs::Readable::unread_line, graph_entry::specs::Specifier::text_of))]
pub fn unread_line(alloc: Global, name: &Url) -> Result<String, AllocError>
    ensures { IfOk result (λ line. string_bytes line ≡ spec.unread_line name.now) }
{
    let mut line = String::from_str(alloc, "error Vendor NameNotRead ")?;
    line.push_str(name.as_str())?;
    line.push_str("\n")?;
    Ok(line)
}
