ghost use Rattle.std.specs.Prelude.{◌≡◌};
ghost use Rattle.grammar_theory.specs.declared.error.SyntaxError.TheVariants.{OutOfMemory};
ghost use Rattle.grammar_theory.specs.Languages.{typed, elements, asserts, decorates};

use std::alloc::AllocError;
use std::error::Error;
use std::fmt;

/// The language of a text.
#[derive(Clone, Copy, Debug, PartialEq, Eq, Hash)]
pub enum Lang {
    /// ECMAScript alone.
    Es,
    /// ECMAScript with the types and declarations of TypeScript.
    Typescript,
    /// ECMAScript alone: elements of JSX and decorators have no row yet.
    Jsx,
    /// TypeScript: elements of JSX and decorators have no row yet.
    Tsx,
    /// TypeScript with assertions that precede what is asserted, such as `<a>b`; decorators have no row yet.
    Wide,
}

impl Lang {
    /// Whether the language has the types and declarations of TypeScript.
    pub fn is_typed(self) -> bool
        ensures { result ≡ typed self }
    {
        matches!(self, Lang::Typescript | Lang::Tsx | Lang::Wide)
    }

    /// Whether the language has elements of JSX.
    pub fn has_elements(self) -> bool
        ensures { result ≡ elements self }
    {
        matches!(self, Lang::Jsx | Lang::Tsx)
    }

    /// Whether a type in angle brackets before an operand asserts it.
    pub fn has_assertions(self) -> bool
        ensures { result ≡ asserts self }
    {
        matches!(self, Lang::Wide)
    }

    /// Whether classes, their members and parameters may have decorators.
    pub fn has_decorators(self) -> bool
        ensures { result ≡ decorates self }
    {
        matches!(self, Lang::Jsx | Lang::Tsx | Lang::Wide)
    }
}

/// The goal symbol that a text is read by (ECMA-262, "Scripts and Modules").
#[derive(Clone, Copy, Debug, PartialEq, Eq, Hash)]
pub enum Mode {
    Module,
    Script,
}

/// Why a text has no tree.
#[derive(Clone, Copy, Debug, PartialEq, Eq)]
pub enum SyntaxError {
    /// No tree can be read. `token` is the number of the token where reading stopped, or that of all tokens at the end.
    Syntax { token: usize },
    /// Memory ran out: nothing is said of the text.
    OutOfMemory,
}

impl fmt::Display for SyntaxError {
    fn fmt<W: fmt::Write>(&self, f: &mut fmt::Formatter<W>) -> fmt::Result {
        match self {
            SyntaxError::Syntax { token } => write!(f, "unexpected token (number {token})"),
            SyntaxError::OutOfMemory => write!(f, "out of memory"),
        }
    }
}

impl Error for SyntaxError {}

impl From<AllocError> for SyntaxError {
    ghost from_gives = { λ _ e. e ≡ OutOfMemory };

    fn from(_e: AllocError) -> SyntaxError {
        SyntaxError::OutOfMemory
    }
}
