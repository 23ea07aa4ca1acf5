//! The line of a refusal.
ghost use Rattle.std.specs.Prelude.{◌≡◌, IfOk, string_bytes};
ghost use Rattle.vendor_report.specs.Plans as spec;

use graph_vendor::VendorCause;
use std::alloc::{AllocError, Global};
use url::Url;

/// Why a bundle can't be vendored, with the specifier that has the cause, and a line end.
#[tactic(auto, unfolding(crate::specs::Plans::refused_line, graph_entry::specs::Specifier::text_of))]
pub fn refused_line(
    alloc: Global,
    cause: VendorCause,
    specifier: &Url,
) -> Result<String, AllocError>
    ensures { IfOk result (λ line. string_bytes line ≡ spec.refused_line cause specifier.now) }
{
    let mut line = String::from_str(alloc, "error Vendor ")?;
    line.push_str(cause_name(cause))?;
    line.push_str(" ")?;
    line.push_str(specifier.as_str())?;
    line.push_str("\n")?;
    Ok(line)
}

fn cause_name(cause: VendorCause) -> &'static str
    ensures { result.now ≡ spec.cause_word cause }
{
    match cause {
        VendorCause::ReferrerImport => "ReferrerImport",
        VendorCause::DataName => "DataName",
        VendorCause::EntryError => "EntryError",
        VendorCause::OtherAnalyser => "OtherAnalyser",
        VendorCause::RefusedEdge => "RefusedEdge",
        VendorCause::ReferenceComment => "ReferenceComment",
        VendorCause::WasmImport => "WasmImport",
        VendorCause::NameTaken => "NameTaken",
        VendorCause::NameNotKept => "NameNotKept",
    }
}
