//! Diagnostics of a text.
ghost use Rattle.std.specs.Prelude.{◌≡◌, IfOk, bytes_eq};
ghost use Rattle.std.specs.Str.{IsCharBoundary};
ghost use Rattle.url.specs.Parts.{serialize};
ghost use Rattle.source_text.specs.Lines.{IsDisplay};
ghost use Rattle.parse_diagnostic.specs.Diagnosis.{IsDiagnosis, ends_of, same, told};
ghost use Rattle.parse_diagnostic.specs.SameLaws.{same_is_symmetric_and_transitive, same_is_an_equivalence};
ghost use Rattle.parse_diagnostic.specs.declared.diagnostic.ParseFault.TheVariants.{OutOfMemory};

use crate::kind::SyntaxErrorKind;
use base::Range;
use source_text::{LineAndColumnDisplay, SourceTextInfo};
use std::alloc::AllocError;
use std::error::Error;
use std::fmt;
use std::marker::Model;
use url::Url;

/// Why the text at a specifier is no program. Ranges are in bytes of the text, which has no byte order mark.
/// A lexical fault has the empty range at its place. The range of a `Syntax` fault is where reading came to a stop.
#[derive(Debug, Drop)]
pub struct ParseDiagnostic {
    specifier: Url,
    range: Range,
    kind: SyntaxErrorKind,
    position: LineAndColumnDisplay,
}

impl Model for ParseDiagnostic {
    ghost use Rattle.url.specs.Parts.{serialize};
    ghost use Rattle.parse_diagnostic.specs.Diagnosis.{Diagnosis};

    ghost Value = { Diagnosis };

    ghost view = { λ d. record {
      specifier = serialize d.specifier;
      kind = d.kind;
      range = d.range;
      position = d.position;
    } };
}

impl ParseDiagnostic {
    /// A fault of the text that these are the lines of.
    pub fn new(
        specifier: Url,
        range: Range,
        kind: SyntaxErrorKind,
        info: &SourceTextInfo,
    ) -> ParseDiagnostic
        ensures { IsDiagnosis info.now (serialize specifier) kind range result }
    {
        ParseDiagnostic {
            specifier,
            range,
            kind,
            position: display_of(info, range.start),
        }
    }

    pub fn specifier(&self) -> &Url
        ensures { serialize result.now ≡ self.now.specifier }
    {
        &self.specifier
    }

    pub fn range(&self) -> Range
        ensures { result ≡ self.now.range }
    {
        self.range
    }

    pub fn kind(&self) -> &SyntaxErrorKind
        ensures { result.now ≡ self.now.kind }
    {
        &self.kind
    }

    /// Line and column of the range's start, from 1: columns count characters.
    pub fn display_position(&self) -> LineAndColumnDisplay
        ensures { result ≡ self.now.position }
    {
        self.position
    }

    /// The same diagnostic.
    pub fn copy(&self) -> Result<ParseDiagnostic, AllocError>
        ensures { IfOk result (λ copy. copy ≡ self.now) }
    {
        Ok(ParseDiagnostic {
            specifier: self.specifier.clone()?,
            range: self.range,
            kind: self.kind,
            position: self.position,
        })
    }
}

/// By the specifier, the kind and the range.
impl PartialEq for ParseDiagnostic {
    ghost eq = { same };

    ghost laws = { same_is_symmetric_and_transitive };

    fn eq(&self, other: &ParseDiagnostic) -> bool {
        self.specifier.as_str() == other.specifier.as_str()
            && self.kind.name() == other.kind.name()
            && same_range(self.range, other.range)
    }
}

impl Eq for ParseDiagnostic {
    ghost laws = { same_is_an_equivalence };
}

fn same_range(one: Range, other: Range) -> bool
    ensures { result ≡ bytes_eq (ends_of one) (ends_of other) }
{
    one.start == other.start && one.end == other.end
}

// The line and the column of a place. A place inside a character, which no fault has, counts as the text's front.
fn display_of(info: &SourceTextInfo, place: usize) -> LineAndColumnDisplay
    ensures { IsCharBoundary info.now place → IsDisplay info.now place result }
{
    if info.text_str().is_char_boundary(place) {
        info.line_and_column_display(place)
    } else {
        LineAndColumnDisplay {
            line_number: 1,
            column_number: 1,
        }
    }
}

impl fmt::Display for ParseDiagnostic {
    fn fmt<W: fmt::Write>(&self, f: &mut fmt::Formatter<W>) -> fmt::Result {
        let specifier = self.specifier.as_str();
        let kind = self.kind.name();
        let line = self.position.line_number;
        let column = self.position.column_number;
        write!(f, "SyntaxError: {kind}\n    at {specifier}:{line}:{column}")
    }
}

impl Error for ParseDiagnostic {}

/// A diagnostic that is kept as the meaning of a text. Contracts see a part of it: the specifier, the kind and, of a lexical
/// fault, the range; the range of a `Syntax` fault is left free.
#[derive(Debug, Drop)]
pub struct KeptDiagnostic {
    diagnostic: ParseDiagnostic,
}

impl Model for KeptDiagnostic {
    ghost use Rattle.parse_diagnostic.specs.Diagnosis.{Told, told};

    ghost Value = { Told };

    ghost view = { λ kept. told kept.diagnostic };
}

impl KeptDiagnostic {
    pub fn new(diagnostic: ParseDiagnostic) -> KeptDiagnostic
        ensures { result ≡ told diagnostic }
    {
        KeptDiagnostic { diagnostic }
    }

    pub fn diagnostic(&self) -> &ParseDiagnostic
        ensures { told result.now ≡ self.now }
    {
        &self.diagnostic
    }
}

impl fmt::Display for KeptDiagnostic {
    fn fmt<W: fmt::Write>(&self, f: &mut fmt::Formatter<W>) -> fmt::Result {
        write!(f, "{}", self.diagnostic)
    }
}

impl Error for KeptDiagnostic {}

/// Several diagnostics.
#[derive(Debug, Drop)]
pub struct ParseDiagnosticsError(pub Vec<ParseDiagnostic>);

impl fmt::Display for ParseDiagnosticsError {
    fn fmt<W: fmt::Write>(&self, f: &mut fmt::Formatter<W>) -> fmt::Result {
        for (number, diagnostic) in self.0.iter().enumerate() {
            if 0 < number {
                f.write_str("\n\n")?;
            }
            write!(f, "{diagnostic}")?;
        }
        Ok(())
    }
}

impl Error for ParseDiagnosticsError {}

/// Why a text isn't parsed.
#[derive(Debug, Drop)]
pub enum ParseFault {
    Diagnostic(ParseDiagnostic),
    OutOfMemory,
}

impl fmt::Display for ParseFault {
    fn fmt<W: fmt::Write>(&self, f: &mut fmt::Formatter<W>) -> fmt::Result {
        match self {
            ParseFault::Diagnostic(diagnostic) => write!(f, "{diagnostic}"),
            ParseFault::OutOfMemory => f.write_str("out of memory"),
        }
    }
}

impl Error for ParseFault {}

impl From<AllocError> for ParseFault {
    ghost from_gives = { λ _ e. e ≡ OutOfMemory };

    fn from(_: AllocError) -> ParseFault {
        ParseFault::OutOfMemory
    }
}
