//! Faults of a text.
ghost use Rattle.std.specs.Prelude.{◌≡◌, IfOk};
ghost use Rattle.url.specs.Parts.{serialize};
ghost use Rattle.base.specs.declared.range.Range.{Range as Place};
ghost use Rattle.es_lexer.specs.declared.error.LexicalError.{LexicalError as Fault};
ghost use Rattle.parse_diagnostic.specs.Diagnosis.{IsDiagnosis};
ghost use Rattle.source_reading.specs.Read.{at_place};
ghost use Rattle.source_reading.specs.Fault.{Refuses};

use base::Range;
use es_lexer::LexError;
use es_token::Token;
use parse_diagnostic::{ParseDiagnostic, ParseFault, SyntaxErrorKind};
use source_text::{SourceText, SourceTextInfo};
use std::alloc::{AllocError, Global};
use url::Url;

/// A lexical fault of a text, or that memory ran out.
pub fn lexical_fault(
    alloc: Global,
    specifier: &Url,
    text: &SourceText,
    error: LexError,
) -> ParseFault
    ensures { Refuses (λ d. (fault : Fault) × (error ≡ LexError.Lexical fault)
        × IsDiagnosis text.now (serialize specifier.now) (SyntaxErrorKind.Lexical fault.kind) (at_place fault.at) d) result }
{
    match error {
        LexError::Lexical(fault) => {
            let range = Range {
                start: fault.at,
                end: fault.at,
            };
            fault_at(
                alloc,
                specifier,
                text,
                SyntaxErrorKind::Lexical(fault.kind),
                range,
            )
        }
        LexError::OutOfMemory => ParseFault::OutOfMemory,
    }
}

/// That the tokens of a text have no tree, as is noticed at this one, or at the end; or that memory ran out.
pub fn syntax_fault(
    alloc: Global,
    specifier: &Url,
    text: &SourceText,
    tokens: &[Token],
    token: usize,
) -> ParseFault
    ensures { Refuses (λ d. (range : Place)
        × IsDiagnosis text.now (serialize specifier.now) SyntaxErrorKind.Syntax range d) result }
{
    let range = range_at(text.as_str(), tokens, token);
    fault_at(alloc, specifier, text, SyntaxErrorKind::Syntax, range)
}

// The fault of this kind at this range, or that memory ran out.
fn fault_at(
    alloc: Global,
    specifier: &Url,
    text: &SourceText,
    kind: SyntaxErrorKind,
    range: Range,
) -> ParseFault
    ensures { Refuses (IsDiagnosis text.now (serialize specifier.now) kind range) result }
{
    match diagnostic_at(alloc, specifier, text, kind, range) {
        Ok(diagnostic) => ParseFault::Diagnostic(diagnostic),
        Err(_) => ParseFault::OutOfMemory,
    }
}

fn diagnostic_at(
    alloc: Global,
    specifier: &Url,
    text: &SourceText,
    kind: SyntaxErrorKind,
    range: Range,
) -> Result<ParseDiagnostic, AllocError>
    ensures { IfOk result (IsDiagnosis text.now (serialize specifier.now) kind range) }
{
    let info = SourceTextInfo::new(alloc, text.copy()?)?;
    Ok(ParseDiagnostic::new(specifier.clone()?, range, kind, &info))
}

// The range of the token, or the empty one at the end of the text.
fn range_at(text: &str, tokens: &[Token], token: usize) -> Range {
    match tokens.get(token) {
        Some(token) => token.range(),
        None => Range {
            start: text.len(),
            end: text.len(),
        },
    }
}
