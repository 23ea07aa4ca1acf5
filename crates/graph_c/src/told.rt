//! How a call ended, by the numbers of the header.
ghost use Rattle.std.specs.Prelude.{◌≡◌};
ghost use Rattle.graph_c.specs.Told.{lexical_number, fault_of, place_of, status_of};

use crate::finding::Finding;
use crate::text::NoText;
use es_lexer::LexicalKind;

pub const NO_MEMORY: u32 = 5;

/// The kind of the lexical fault, or 0.
pub fn fault_of(finding: &Finding) -> u32
    ensures { result ≡ fault_of finding.now }
{
    match finding {
        Finding::Lexical(fault) => lexical_number(fault.kind),
        _ => 0,
    }
}

fn lexical_number(kind: LexicalKind) -> u32
    ensures { result ≡ lexical_number kind }
{
    match kind {
        LexicalKind::UnterminatedString => 1,
        LexicalKind::UnterminatedComment => 2,
        LexicalKind::UnterminatedTemplate => 3,
        LexicalKind::UnterminatedRegExp => 4,
        LexicalKind::InvalidEscape => 5,
        LexicalKind::InvalidChar => 6,
        LexicalKind::Unbalanced => 7,
    }
}

/// Where a fault is, or 0.
pub fn place_of(finding: &Finding) -> usize
    ensures { result ≡ place_of finding.now }
{
    match finding {
        Finding::Lexical(fault) => fault.at,
        Finding::Syntax(at) => *at,
        Finding::NoText(NoText::NoUtf8(at)) => *at,
        _ => 0,
    }
}

/// How a call ended, by whether what there is to tell fits into the buffers.
pub fn status_of(finding: &Finding, fit: bool) -> u32
    ensures { result ≡ status_of fit finding.now }
{
    match finding {
        Finding::Found(_)
        | Finding::Calls(_)
        | Finding::Exports(_)
        | Finding::Mentions(_)
        | Finding::Declared(_) => { if fit { 0 } else { 4 } }
        Finding::NoText(NoText::TooLong) => 6,
        Finding::NoText(NoText::NoUtf8(_)) => 7,
        Finding::NoMediaType => 8,
        Finding::NotRead => 9,
        Finding::Lexical(_) => 10,
        Finding::Syntax(_) => 11,
    }
}
