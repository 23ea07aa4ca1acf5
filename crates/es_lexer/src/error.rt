use std::alloc::AllocError;
use std::error::Error;
use std::fmt;

/// Why a text has no tokens.
#[derive(Clone, Copy, Debug, PartialEq, Eq)]
pub enum LexicalKind {
    UnterminatedString,
    UnterminatedComment,
    UnterminatedTemplate,
    UnterminatedRegExp,
    InvalidEscape,
    InvalidChar,
    Unbalanced,
}

impl fmt::Display for LexicalKind {
    fn fmt<W: fmt::Write>(&self, f: &mut fmt::Formatter<W>) -> fmt::Result {
        f.write_str(match self {
            LexicalKind::UnterminatedString => "UnterminatedString",
            LexicalKind::UnterminatedComment => "UnterminatedComment",
            LexicalKind::UnterminatedTemplate => "UnterminatedTemplate",
            LexicalKind::UnterminatedRegExp => "UnterminatedRegExp",
            LexicalKind::InvalidEscape => "InvalidEscape",
            LexicalKind::InvalidChar => "InvalidChar",
            LexicalKind::Unbalanced => "Unbalanced",
        })
    }
}

/// The first lexical fault of a text.
#[derive(Clone, Copy, Debug, PartialEq, Eq)]
pub struct LexicalError {
    pub kind: LexicalKind,
    /// Its byte in the text.
    pub at: usize,
}

impl fmt::Display for LexicalError {
    fn fmt<W: fmt::Write>(&self, f: &mut fmt::Formatter<W>) -> fmt::Result {
        let kind = self.kind;
        let at = self.at;
        write!(f, "{kind} at byte {at}")
    }
}

impl Error for LexicalError {}

/// Why `lex_tokens` answers no tokens.
#[derive(Clone, Copy, Debug, PartialEq, Eq)]
pub enum LexError {
    Lexical(LexicalError),
    OutOfMemory,
}

impl fmt::Display for LexError {
    fn fmt<W: fmt::Write>(&self, f: &mut fmt::Formatter<W>) -> fmt::Result {
        match self {
            LexError::Lexical(error) => write!(f, "{error}"),
            LexError::OutOfMemory => write!(f, "out of memory"),
        }
    }
}

impl Error for LexError {}

impl From<AllocError> for LexError {
    ghost use Rattle.std.specs.Prelude.{◌≡◌};
    ghost use Rattle.es_lexer.specs.declared.error.LexError.TheVariants.{OutOfMemory};

    ghost from_gives = { λ _ e. e ≡ OutOfMemory };

    fn from(_: AllocError) -> LexError {
        LexError::OutOfMemory
    }
}
