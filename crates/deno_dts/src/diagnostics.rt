//! What couldn't be determined of a program.

ghost use Rattle.std.specs.Prelude.{◌≡◌, IfOk};
ghost use Rattle.url.specs.Parts.{serialize};
ghost use Rattle.deno_dts.specs.Diagnostics.{diagnostic, found_of, range_of};

use base::Range;
use dts_rules::{Found, FoundKind};
use std::alloc::AllocError;
use std::marker::Model;
use thiserror::Error;
use url::Url;

/// A place: the specifier of a module, and bytes of its text, counted from 0.
#[derive(Debug, Drop)]
pub struct FastCheckDiagnosticRange {
    specifier: Url,
    range: Range,
}

impl Model for FastCheckDiagnosticRange {
    ghost use Rattle.url.specs.Parts.{serialize};
    ghost use Rattle.deno_dts.specs.Places.{Place};

    ghost Value = { Place };

    ghost view = { λ it. record { specifier = serialize it.specifier; range = it.range } };
}

impl FastCheckDiagnosticRange {
    pub fn new(specifier: Url, range: Range) -> FastCheckDiagnosticRange
        ensures { result ≡ record { specifier = serialize specifier; range = range } }
    {
        FastCheckDiagnosticRange { specifier, range }
    }

    pub fn specifier(&self) -> &Url
        ensures { serialize result.now ≡ self.now.specifier }
    {
        &self.specifier
    }

    pub fn range(&self) -> Range
        ensures { result ≡ self.now.range }
    {
        self.range
    }

    /// The same place.
    pub fn copy(&self) -> Result<FastCheckDiagnosticRange, AllocError>
        ensures { IfOk result (λ copy. copy ≡ self.now) }
    {
        Ok(FastCheckDiagnosticRange {
            specifier: self.specifier.clone()?,
            range: self.range,
        })
    }
}

/// What couldn't be determined, and where. None of them ends a `transform`.
#[derive(Debug, Drop, Error)]
pub enum FastCheckDtsDiagnostic {
    /// An element of an array has no type, and is `any`; a pattern has none; an exported `using` is dropped.
    #[error("unable to infer type from expression or declaration")]
    UnableToInferType { range: FastCheckDiagnosticRange },
    /// A variable, a parameter or the value of a property has no type, and is `any`.
    #[error("unable to infer type, falling back to any type")]
    UnableToInferTypeFallbackAny { range: FastCheckDiagnosticRange },
    /// A property of an object is dropped.
    #[error("unable to infer type from object property, skipping")]
    UnableToInferTypeFromProp { range: FastCheckDiagnosticRange },
    /// A spread has no type: that of an object is dropped, and an array with one has no type.
    #[error("unable to infer type from spread, skipping")]
    UnableToInferTypeFromSpread { range: FastCheckDiagnosticRange },
    /// An exported `using` is dropped.
    #[error("cannot infer type from using, skipping")]
    UnsupportedUsing { range: FastCheckDiagnosticRange },
}

impl FastCheckDtsDiagnostic {
    /// The diagnostic of this kind.
    pub fn new(kind: FoundKind, range: FastCheckDiagnosticRange) -> FastCheckDtsDiagnostic
        ensures diagnostic { result ≡ diagnostic kind range }
        ensures found { found_of result ≡ record { kind = kind; range = range.range } }
        ensures range { range_of result ≡ range }
    {
        match kind {
            FoundKind::UnableToInferType => FastCheckDtsDiagnostic::UnableToInferType { range },
            FoundKind::UnableToInferTypeFallbackAny => {
                FastCheckDtsDiagnostic::UnableToInferTypeFallbackAny { range }
            }
            FoundKind::UnableToInferTypeFromProp => {
                FastCheckDtsDiagnostic::UnableToInferTypeFromProp { range }
            }
            FoundKind::UnableToInferTypeFromSpread => {
                FastCheckDtsDiagnostic::UnableToInferTypeFromSpread { range }
            }
            FoundKind::UnsupportedUsing => FastCheckDtsDiagnostic::UnsupportedUsing { range },
        }
    }

    pub fn range(&self) -> &FastCheckDiagnosticRange
        ensures { result.now ≡ range_of self.now }
    {
        match self {
            FastCheckDtsDiagnostic::UnableToInferType { range } => range,
            FastCheckDtsDiagnostic::UnableToInferTypeFallbackAny { range } => range,
            FastCheckDtsDiagnostic::UnableToInferTypeFromProp { range } => range,
            FastCheckDtsDiagnostic::UnableToInferTypeFromSpread { range } => range,
            FastCheckDtsDiagnostic::UnsupportedUsing { range } => range,
        }
    }

    pub fn specifier(&self) -> &Url
        ensures { serialize result.now ≡ (range_of self.now).specifier }
    {
        self.range().specifier()
    }

    /// The kind and the range, without the specifier.
    pub fn found(&self) -> Found
        ensures { result ≡ found_of self.now }
    {
        Found {
            kind: self.kind(),
            range: self.range().range(),
        }
    }

    fn kind(&self) -> FoundKind
        ensures { result ≡ (found_of self.now).kind }
    {
        match self {
            FastCheckDtsDiagnostic::UnableToInferType { .. } => FoundKind::UnableToInferType,
            FastCheckDtsDiagnostic::UnableToInferTypeFallbackAny { .. } => {
                FoundKind::UnableToInferTypeFallbackAny
            }
            FastCheckDtsDiagnostic::UnableToInferTypeFromProp { .. } => {
                FoundKind::UnableToInferTypeFromProp
            }
            FastCheckDtsDiagnostic::UnableToInferTypeFromSpread { .. } => {
                FoundKind::UnableToInferTypeFromSpread
            }
            FastCheckDtsDiagnostic::UnsupportedUsing { .. } => FoundKind::UnsupportedUsing,
        }
    }

    /// The same diagnostic.
    pub fn copy(&self) -> Result<FastCheckDtsDiagnostic, AllocError>
        ensures { IfOk result (λ copy. copy ≡ self.now) }
    {
        Ok(FastCheckDtsDiagnostic::new(self.kind(), self.range().copy()?))
    }
}
