//! What is printed, piece by piece, and how it is placed on its line.

use crate::made::Made;
use es_comments::MultiThreadedComments;
use es_token::{Token, TokenKind};

/// What is printed: a text, its tokens, and its comments, where they are printed.
#[derive(Clone, Copy)]
pub struct Source<'a> {
    pub text: &'a str,
    pub tokens: &'a [Token],
    pub comments: Option<&'a MultiThreadedComments>,
}

/// What a token asks of what precedes it on its line.
#[derive(Clone, Copy, Debug, PartialEq, Eq)]
pub enum Left {
    /// A word: a blank after a word, a literal and `}`.
    Word,
    /// What begins an operand, a key or a list, and a literal: a blank after a word.
    Begins,
    /// A blank.
    Apart,
    /// A blank, but none after another token of the same operator.
    Run,
    /// A blank only where the other asks for one.
    Tight,
    /// No blank, whatever the other asks for.
    Never,
}

/// What a token asks of what follows it on its line.
#[derive(Clone, Copy, Debug, PartialEq, Eq)]
pub enum Right {
    /// A word.
    Word,
    /// A literal, and `}`.
    Ends,
    /// The `}` of a body, which no `;` follows.
    Body,
    /// A blank.
    Apart,
    /// A blank, but none before another token of the same operator.
    Run,
    /// A blank only where the other asks for one.
    Tight,
}

/// How a token is placed.
#[derive(Clone, Copy, Debug, PartialEq, Eq)]
pub struct Stand {
    /// If the line ends before it: how much less deep it is.
    pub out: Option<u8>,
    pub left: Left,
    pub right: Right,
    /// If the line ends after it: how much deeper the next one is.
    pub into: Option<u8>,
}

/// What is printed, in its order.
#[derive(Clone, Copy, Debug, PartialEq, Eq)]
pub enum Piece {
    /// The comments before the token of this number, each on a line.
    Leading(u32),
    /// What follows is written directly after what precedes.
    Close,
    /// The token of this number.
    Token(Stand, u32),
    /// A token that no text has.
    Made(Made),
    /// `;`
    End,
    /// `;`, but none after a body.
    BareEnd,
    /// The line ends.
    Line,
}

/// What was printed last.
#[derive(Clone, Copy, Debug, PartialEq, Eq)]
pub enum Last {
    Nothing,
    /// A line that has ended.
    Line,
    /// A token, what it asks of the next one, and its kind.
    Token(Right, TokenKind),
}
