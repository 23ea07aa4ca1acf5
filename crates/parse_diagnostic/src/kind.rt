//! What is wrong with a text.
ghost use Rattle.std.specs.Prelude.{◌≡◌};
ghost use Rattle.parse_diagnostic.specs.Diagnosis.{name_of_kind};

use es_lexer::LexicalKind;
use std::fmt;

/// What is wrong with a text.
#[derive(Clone, Copy, Debug, PartialEq, Eq)]
pub enum SyntaxErrorKind {
    /// No tokens read the text.
    Lexical(LexicalKind),
    /// The tokens are those of no program.
    Syntax,
}

impl SyntaxErrorKind {
    /// The variant's name, or the lexical fault's, as reports write it.
    pub fn name(self) -> &'static str
        ensures { result.now ≡ name_of_kind self }
    {
        match self {
            SyntaxErrorKind::Lexical(kind) => lexical_name(kind),
            SyntaxErrorKind::Syntax => "Syntax",
        }
    }
}

fn lexical_name(kind: LexicalKind) -> &'static str
    ensures { result.now ≡ name_of_kind (SyntaxErrorKind.Lexical kind) }
{
    match kind {
        LexicalKind::UnterminatedString => "UnterminatedString",
        LexicalKind::UnterminatedComment => "UnterminatedComment",
        LexicalKind::UnterminatedTemplate => "UnterminatedTemplate",
        LexicalKind::UnterminatedRegExp => "UnterminatedRegExp",
        LexicalKind::InvalidEscape => "InvalidEscape",
        LexicalKind::InvalidChar => "InvalidChar",
        LexicalKind::Unbalanced => "Unbalanced",
    }
}

impl fmt::Display for SyntaxErrorKind {
    fn fmt<W: fmt::Write>(&self, f: &mut fmt::Formatter<W>) -> fmt::Result {
        f.write_str(self.name())
    }
}
