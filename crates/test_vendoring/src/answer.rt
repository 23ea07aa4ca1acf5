//! What becomes of the graph of a row.
ghost use Rattle.std.specs.Prelude.{◌≡◌, ℕ, List, Ok};
ghost use Rattle.media_type.specs.declared.media_type.MediaType.{MediaType};
ghost use Rattle.es_site.specs.declared.site.Site.{Site};
ghost use Rattle.graph_entry.specs.Reading.{ReadsSource};

use crate::given::{graph_of, url};
use deno_graph::analyzer::ParserModuleAnalyzer;
use graph_vendor::{VendorCause, VendorError, VendorPlan, plan_vendor};
use std::alloc::{AllocError, Global};
use std::str;
use test_rows::Row;

/// The plan of a row's graph: the roots, the files with their texts, and what stays outside; or why there is none.
pub fn answer(alloc: Global, row: &Row) -> Result<String, AllocError> {
    let Some(base) = url(alloc, row.at(1)) else {
        return String::from_str(alloc, "no folder");
    };
    match graph_of(alloc, row)? {
        Some(graph) => match plan_vendor(alloc, &ParserModuleAnalyzer, &graph, &base) {
            Ok(plan) => told(alloc, &plan),
            Err(VendorError::Refused(cause, specifier)) => {
                format!(in alloc; "{} {}", word_of(cause), specifier.as_str())
            }
            Err(VendorError::OutOfMemory) => Err(AllocError),
        },
        None => String::from_str(alloc, "no graph"),
    }
}

fn told(alloc: Global, plan: &VendorPlan) -> Result<String, AllocError> {
    let mut told = String::new(alloc);
    for root in plan.roots.as_slice() {
        told.push_str(format!(in alloc; "root {}; ", root.as_str())?.as_str())?;
    }
    for file in plan.files.as_slice() {
        let text = str::from_utf8(file.bytes.as_slice()).unwrap_or("bytes");
        let line = format!(in alloc;
            "{} {} {text}; ",
            file.target.as_str(),
            file.source.as_str()
        )?;
        told.push_str(line.as_str())?;
    }
    for external in plan.externals.as_slice() {
        told.push_str(format!(in alloc; "outside {}; ", external.as_str())?.as_str())?;
    }
    Ok(told)
}

fn word_of(cause: VendorCause) -> &'static str {
    match cause {
        VendorCause::ReferrerImport => "ReferrerImport",
        VendorCause::DataName => "DataName",
        VendorCause::EntryError => "EntryError",
        VendorCause::OtherAnalyser => "OtherAnalyser",
        VendorCause::RefusedEdge => "RefusedEdge",
        VendorCause::ReferenceComment => "ReferenceComment",
        VendorCause::WasmImport => "WasmImport",
        VendorCause::NameTaken => "NameTaken",
        VendorCause::NameNotKept => "NameNotKept",
    }
}
