ghost use Rattle.std.specs.Prelude.{ℕ, List, ◌≡◌};
ghost use Rattle.monch.specs.core_parsers.Outcome.{Advances, Outcome, LeavesSuffix};
ghost use Rattle.monch.specs.core_parsers.Seen.{seen};

use crate::core_parsers::error::ParseError;

/// What is left of the text and the value that was read, or why there is none.
pub type ParseResult<'a, O> = Result<(&'a str, O), ParseError<'a>>;

/// Something that reads a value from the front of a text.
pub trait Combinator<'a> {
    type Output;

    // Where `parse` may be called: the closures within may be called, and the conditions of the parts hold.
    ghost can_parse: { Self → Type 0 };

    // Which outcomes there may be on a text.
    ghost gives: { Self → List ℕ → Outcome Self.Output → Type 0 };

    // Where each success is known to take something, as a repetition asks of its items.
    ghost advances: { Self → Type 0 };

    // The rest of a success is a suffix of the text. This law and the next come before `parse`, so that they are data, which
    // generic code can name.
    ghost leaves_suffix: { (s : Self) → can_parse s → LeavesSuffix (gives s) };

    // The rest of a success is shorter than the text.
    ghost leaves_less: { (s : Self) → can_parse s → advances s → Advances (gives s) };

    /// Reads a value from the front of the text.
    fn parse(&self, input: &'a str) -> ParseResult<'a, Self::Output>
        requires { can_parse self.now }
        ensures { gives self.now input.now (seen result) };
}
