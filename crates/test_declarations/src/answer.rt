//! The declarations of the source of a row, printed, with the diagnostics.

use crate::ranges::ranges_of;
use deno_ast::{EmitOptions, ParseParams, ParsedSource, parse_program};
use deno_dts::{
    Declarations, FastCheckDtsDiagnostic, FastCheckDtsTransformer, ModulePublicRanges,
    emit_declarations, print_declarations,
};
use media_type::MediaType;
use source_text::SourceText;
use std::alloc::{AllocError, Global};
use test_rows::Row;
use url::Url;

/// What a row gets: after `ranges`, `text`, `twice` and `said` come the extension of a file and its source; before a source alone
/// the extension is the call.
pub fn answer(alloc: Global, row: &Row) -> Result<String, AllocError> {
    match row.call() {
        "ranges" => parsed_as(alloc, row, row.at(1), row.at(2)),
        "text" => parsed_as(alloc, row, row.at(1), row.at(2)),
        "twice" => parsed_as(alloc, row, row.at(1), row.at(2)),
        "said" => parsed_as(alloc, row, row.at(1), row.at(2)),
        extension => parsed_as(alloc, row, extension, row.at(1)),
    }
}

fn parsed_as(alloc: Global, row: &Row, extension: &str, text: &str) -> Result<String, AllocError> {
    let name = format!(in alloc; "file:///a.{extension}")?;
    let Ok(specifier) = Url::parse(alloc, name.as_str()) else {
        return String::from_str(alloc, "no URL");
    };
    let media_type = MediaType::from_specifier(alloc, &specifier)?;
    let params = ParseParams {
        specifier,
        text: SourceText::from_string(String::from_str(alloc, text)?)?,
        media_type,
        capture_tokens: false,
        scope_analysis: true,
        maybe_syntax: None,
    };
    match parse_program(alloc, params) {
        Ok(parsed) => of_parsed(alloc, row, &parsed),
        Err(_) => String::from_str(alloc, "no program"),
    }
}

fn of_parsed(alloc: Global, row: &Row, parsed: &ParsedSource) -> Result<String, AllocError> {
    if !parsed.has_scope_analysis() {
        return String::from_str(alloc, "no numbers");
    }
    let program = parsed.program()?;
    let ranges = ModulePublicRanges::of(alloc, &program)?;
    if row.call() == "ranges" {
        return ranges_of(alloc, parsed, &ranges);
    }
    let mut transformer = FastCheckDtsTransformer::new(
        alloc,
        parsed.text_info_lazy(),
        &ranges,
        parsed.specifier(),
        parsed.unresolved_context(),
    );
    let declarations = transformer.transform(alloc, &program, parsed.scope_ids())?;
    let mut out = printed(alloc, row, parsed, &declarations)?;
    if row.call() == "twice" {
        let again = transformer.transform(alloc, &program, parsed.scope_ids())?;
        out.push_str(printed(alloc, row, parsed, &again)?.as_str())?;
    }
    diagnostics(
        alloc,
        &mut out,
        row.call() == "said",
        transformer.diagnostics.as_slice(),
    )?;
    Ok(out)
}

fn printed(
    alloc: Global,
    row: &Row,
    parsed: &ParsedSource,
    declarations: &Declarations,
) -> Result<String, AllocError> {
    if row.call() == "text" {
        return print_declarations(alloc, declarations);
    }
    let options = EmitOptions::default();
    let emitted = emit_declarations(alloc, declarations, parsed.comments(), &options)?;
    String::from_str(alloc, emitted.text.as_str())
}

fn diagnostics(
    alloc: Global,
    printed: &mut String,
    said: bool,
    found: &[FastCheckDtsDiagnostic],
) -> Result<(), AllocError> {
    for it in found {
        let line = if said {
            format!(in alloc;
                "# {it} {} {}\n",
                it.specifier().as_str(),
                it.range().range().start
            )?
        } else {
            let place = it.range().range();
            format!(in alloc; "# {:?} {}-{}\n", it.found().kind, place.start, place.end)?
        };
        printed.push_str(line.as_str())?;
    }
    Ok(())
}
