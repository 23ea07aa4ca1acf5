//! The declarations of a source, in buffers of the caller's.
ghost use Rattle.std.specs.Prelude.{◌≡◌, length, map, vec_len, IfOk, OnErr};
ghost use Rattle.graph_c.specs.Declarations.{AnswersDeclarations, TellsDeclarations, declared_text, diagnostics_in, kind_number, diagnostic_record};

use crate::answer::are_within;
use crate::declaring::declarations_found;
use crate::finding::Finding;
use crate::room::put;
use crate::told::{NO_MEMORY, fault_of, place_of, status_of};
use source_declarations::{Found, FoundKind};
use std::alloc::{AllocError, Global};

/// What couldn't be determined of a source. Offsets are in bytes from 0, and an end is exclusive.
#[repr(C)]
#[derive(Clone, Copy)]
pub struct SourceDiagnostic {
    pub kind: u32,
    pub start: usize,
    pub end: usize,
}

/// What a call reports beside its buffers.
#[repr(C)]
#[derive(Clone, Copy)]
pub struct DeclarationsAnswer {
    /// How many diagnostics there are, and how many bytes the declarations have.
    pub diagnostics: usize,
    pub text_bytes: usize,
    /// The kind of the lexical fault, or 0, and the byte of the text where a fault is.
    pub fault: u32,
    pub place: usize,
}

/// Writes the declarations of the source into the buffers, and answers how that ended.
pub fn answer_declarations(
    alloc: Global,
    text: &[u8],
    media_type: u32,
    with_comments: bool,
    diagnostics: &mut [SourceDiagnostic],
    room: &mut [u8],
    answer: &mut DeclarationsAnswer,
) -> u32
    ensures { AnswersDeclarations with_comments media_type text.now diagnostics.old diagnostics.new room.old room.new answer.new result }
{
    let Ok(finding) = declarations_found(alloc, with_comments, media_type, text) else {
        return no_memory(answer);
    };
    match tell_declarations(alloc, &finding, diagnostics, room, answer) {
        Ok(status) => status,
        Err(_) => no_memory(answer),
    }
}

fn no_memory(answer: &mut DeclarationsAnswer) -> u32
    ensures status { result ≡ 5 }
    ensures told { answer.new ≡ record { diagnostics = 0; text_bytes = 0; fault = 0; place = 0 } }
{
    *answer = DeclarationsAnswer {
        diagnostics: 0,
        text_bytes: 0,
        fault: 0,
        place: 0,
    };
    NO_MEMORY
}

fn tell_declarations(
    alloc: Global,
    finding: &Finding,
    diagnostics: &mut [SourceDiagnostic],
    room: &mut [u8],
    answer: &mut DeclarationsAnswer,
) -> Result<u32, AllocError>
    ensures told { IfOk result
        (TellsDeclarations finding.now diagnostics.old diagnostics.new room.old room.new answer.new) }
    ensures kept { OnErr result ((diagnostics.new ≡ diagnostics.old) × (room.new ≡ room.old)) }
{
    let records = records_of(alloc, diagnostics_in(finding))?;
    let text = declared_text(finding);
    let needed = records.len();
    let needed_text = text.len();
    let fit = are_within(needed, diagnostics.len(), needed_text, room.len());
    *answer = DeclarationsAnswer {
        diagnostics: needed,
        text_bytes: needed_text,
        fault: fault_of(finding),
        place: place_of(finding),
    };
    if fit {
        put(diagnostics, records.as_slice());
        put(room, text);
    }
    Ok(status_of(finding, fit))
}

fn diagnostics_in(finding: &Finding) -> &[Found]
    ensures { result.now ≡ diagnostics_in finding.now }
{
    match finding {
        Finding::Declared(it) => it.found.as_slice(),
        _ => &[],
    }
}

fn declared_text(finding: &Finding) -> &[u8]
    ensures { result.now ≡ declared_text finding.now }
{
    match finding {
        Finding::Declared(it) => it.text.as_str().as_bytes(),
        _ => &[],
    }
}

fn records_of(alloc: Global, found: &[Found]) -> Result<Vec<SourceDiagnostic>, AllocError>
    ensures records { IfOk result (λ records. records.items ≡ map diagnostic_record found.now) }
    ensures counted { IfOk result (λ records. vec_len records ≡ length found.now) }
{
    found.iter().map(diagnostic_record).collect(alloc)
}

fn diagnostic_record(found: &Found) -> SourceDiagnostic
    ensures { result ≡ diagnostic_record found.now }
{
    SourceDiagnostic {
        kind: kind_number(found.kind),
        start: found.range.start,
        end: found.range.end,
    }
}

fn kind_number(kind: FoundKind) -> u32
    ensures { result ≡ kind_number kind }
{
    match kind {
        FoundKind::UnableToInferType => 0,
        FoundKind::UnableToInferTypeFallbackAny => 1,
        FoundKind::UnableToInferTypeFromProp => 2,
        FoundKind::UnableToInferTypeFromSpread => 3,
        FoundKind::UnsupportedUsing => 4,
    }
}
