//! The exports of a source, in buffers of the caller's.
ghost use Rattle.std.specs.Prelude.{◌≡◌, ◌+◌, ◌++◌, [], ◌∷◌, length, vec_len, IfOk, OnOk, OnErr};
ghost use Rattle.graph_c.specs.Exports.{AnswersExports, TellsExports, exports_in, reexports_in, ranges_from, joined};
ghost use Rattle.graph_c.specs.Told.{fault_of, place_of, status_of};

use crate::answer::are_within;
use crate::exporting::exports_found;
use crate::finding::Finding;
use crate::room::put;
use crate::told::{NO_MEMORY, fault_of, place_of, status_of};
use base::Text;
use std::alloc::{AllocError, Global};

/// A name that a source exports, or a module whose names it exports again: where its text is in the buffer for values.
#[repr(C)]
#[derive(Clone, Copy)]
pub struct SourceName {
    pub start: usize,
    pub end: usize,
}

/// What a call reports beside its buffers.
#[repr(C)]
#[derive(Clone, Copy)]
pub struct ExportsAnswer {
    /// How many names the source exports, how many modules' names it exports again, and how many bytes all of these have.
    pub exports: usize,
    pub reexports: usize,
    pub value_bytes: usize,
    /// The kind of the lexical fault, or 0, and the byte of the text where a fault is.
    pub fault: u32,
    pub place: usize,
}

/// Writes the exports of the source into the buffers, and answers how that ended.
pub fn answer_exports(
    alloc: Global,
    text: &[u8],
    media_type: u32,
    common_js: bool,
    names: &mut [SourceName],
    values: &mut [u8],
    answer: &mut ExportsAnswer,
) -> u32
    ensures { AnswersExports common_js media_type text.now names.old names.new values.old values.new answer.new result }
{
    let Ok(finding) = exports_found(alloc, common_js, media_type, text) else {
        return no_memory(answer);
    };
    match tell_exports(alloc, &finding, names, values, answer) {
        Ok(status) => status,
        Err(_) => no_memory(answer),
    }
}

fn no_memory(answer: &mut ExportsAnswer) -> u32
    ensures status { result ≡ 5 }
    ensures told { answer.new ≡ record { exports = 0; reexports = 0; value_bytes = 0; fault = 0; place = 0 } }
{
    *answer = ExportsAnswer {
        exports: 0,
        reexports: 0,
        value_bytes: 0,
        fault: 0,
        place: 0,
    };
    NO_MEMORY
}

fn tell_exports(
    alloc: Global,
    finding: &Finding,
    names: &mut [SourceName],
    values: &mut [u8],
    answer: &mut ExportsAnswer,
) -> Result<u32, AllocError>
    ensures told { IfOk result
        (TellsExports finding.now names.old names.new values.old values.new answer.new) }
    ensures kept { OnErr result ((names.new ≡ names.old) × (values.new ≡ values.old)) }
{
    let exports = exports_in(finding);
    let reexports = reexports_in(finding);
    let laid = lay_out(alloc, exports, reexports)?;
    let needed_names = laid.names.len();
    let needed_values = laid.values.len();
    let fit = are_within(needed_names, names.len(), needed_values, values.len());
    *answer = ExportsAnswer {
        exports: exports.len(),
        reexports: reexports.len(),
        value_bytes: needed_values,
        fault: fault_of(finding),
        place: place_of(finding),
    };
    if fit {
        put(names, laid.names.as_slice());
        put(values, laid.values.as_slice());
    }
    Ok(status_of(finding, fit))
}

fn exports_in(finding: &Finding) -> &[Text]
    ensures { result.now ≡ exports_in finding.now }
{
    match finding {
        Finding::Exports(found) => found.exports.as_slice(),
        _ => &[],
    }
}

fn reexports_in(finding: &Finding) -> &[Text]
    ensures { result.now ≡ reexports_in finding.now }
{
    match finding {
        Finding::Exports(found) => found.reexports.as_slice(),
        _ => &[],
    }
}

/// Records of names, and their texts, one after the other.
#[derive(Drop)]
struct Names {
    names: Vec<SourceName>,
    values: Vec<u8>,
}

#[tactic(auto, using(crate::proofs::ExportLemmas::laid_ranges, crate::proofs::ExportLemmas::laid_texts, crate::proofs::ExportLemmas::laid_count, crate::proofs::ExportLemmas::laid_length))]
fn lay_out(alloc: Global, exports: &[Text], reexports: &[Text]) -> Result<Names, AllocError>
    ensures names { IfOk result (λ laid. laid.names.items ≡ ranges_from 0 (exports.now ++ reexports.now)) }
    ensures values { IfOk result (λ laid. laid.values.items ≡ joined (exports.now ++ reexports.now)) }
    ensures counted { IfOk result (λ laid. vec_len laid.names ≡ length (exports.now ++ reexports.now)) }
    ensures filled { IfOk result (λ laid. vec_len laid.values ≡ length (joined (exports.now ++ reexports.now))) }
{
    let mut laid = Names {
        names: Vec::new(alloc),
        values: Vec::new(alloc),
    };
    add_names(&mut laid, exports)?;
    add_names(&mut laid, reexports)?;
    Ok(laid)
}

// Puts the records of the names after the others, and their texts.
fn add_names(laid: &mut Names, names: &[Text]) -> Result<(), AllocError>
    ensures names { OnOk result (laid.new.names.items ≡ laid.old.names.items ++ ranges_from (vec_len laid.old.values) names.now) }
    ensures values { OnOk result (laid.new.values.items ≡ laid.old.values.items ++ joined names.now) }
    ensures counted { OnOk result (vec_len laid.new.names ≡ vec_len laid.old.names + length names.now) }
    ensures filled { OnOk result (vec_len laid.new.values ≡ vec_len laid.old.values + length (joined names.now)) }
{
    for name in names {
        add_name(laid, name)?;
    }
    Ok(())
}

#[tactic(auto, using(crate::proofs::ExportLemmas::one_range))]
fn add_name(laid: &mut Names, name: &Text) -> Result<(), AllocError>
    ensures names { OnOk result (laid.new.names.items ≡ laid.old.names.items ++ ranges_from (vec_len laid.old.values) (name.now ∷ [])) }
    ensures values { OnOk result (laid.new.values.items ≡ laid.old.values.items ++ name.now) }
    ensures counted { OnOk result (vec_len laid.new.names ≡ vec_len laid.old.names + 1) }
    ensures filled { OnOk result (vec_len laid.new.values ≡ vec_len laid.old.values + length name.now) }
{
    let start = laid.values.len();
    laid.values.extend_from_slice(name.as_str().as_bytes())?;
    let end = laid.values.len();
    laid.names.push(SourceName { start, end })?;
    Ok(())
}
