//! A text, its tokens, and what is asked of it.

ghost use Rattle.std.specs.Prelude.{◌≡◌, None, Some, slice_get, slice_range, bytes_eq, MatchOption};
ghost use Rattle.es_lowering.specs.Texts as texts;
ghost use Rattle.es_variables.specs.scope_numbers.Cuts.{Cuts, IsCut};
ghost use Rattle.es_variables.specs.scope_analysis.Events.{told, spelled, is_kind};
ghost use Rattle.es_mentions.specs.Words as words;

use base::{Range, Text};
use es_token::{Token, TokenKind};

/// A text and its tokens, which cut it between characters; the names that are allowed; whether more is listed; whether the
/// program is a script.
#[derive(Clone, Copy)]
pub struct Source<'a> {
    pub text: &'a str,
    pub tokens: &'a [Token],
    pub allowed: &'a [Text],
    pub strict: bool,
    pub script: bool,
    pub ghost cut: { IsCut text.now tokens.now },
}

impl Source<'_> {
    fn numbered(&self, at: u32) -> Option<Token>
        ensures { result ≡ slice_get self.now.tokens.now at }
    {
        self.tokens.get(at as usize).copied()
    }

    /// The token of this number, where there is one.
    fn told(&self, at: Option<u32>) -> Option<Token>
        ensures { result ≡ told self.now.tokens.now at }
    {
        match at {
            Some(at) => self.numbered(at),
            None => None,
        }
    }

    /// Whether the token of this number is of this kind.
    pub fn is_kind(&self, kind: TokenKind, at: Option<u32>) -> bool
        ensures { is_kind self.now.tokens.now kind at ≡ result }
    {
        match self.told(at) {
            Some(token) => token.kind() == kind,
            None => false,
        }
    }

    /// The text of a token.
    fn cut(&self, token: Token) -> &str
        requires { Cuts self.now.text.now token }
        ensures { result.now ≡ slice_range self.now.text.now token.range.start token.range.end }
    {
        let range = token.range();
        &self.text[range.start..range.end]
    }

    /// The text of the token of this number.
    #[tactic(auto, unfolding(es_lowering::specs::Texts::ident_of))]
    fn spelled(&self, at: Option<u32>) -> Option<&str>
        ensures { MatchOption result (spelled self.now.text.now self.now.tokens.now at ≡ None) (λ name. spelled self.now.text.now self.now.tokens.now at ≡ Some name.now) }
    {
        match self.told(at) {
            Some(token) => Some(self.cut(token)),
            None => None,
        }
    }

    /// Whether the token of this number is this word.
    pub fn is_spelled(&self, word: &str, at: Option<u32>) -> bool
        ensures { result ≡ words.is_spelled self.now.text.now self.now.tokens.now word.now at }
    {
        match self.spelled(at) {
            Some(text) => are_equal(text, word),
            None => false,
        }
    }

    /// Whether the token of this number is a word or a literal of one that leads to what makes code.
    pub fn is_risky(&self, at: Option<u32>) -> bool
        ensures { result ≡ words.is_risky self.now.text.now self.now.tokens.now at }
    {
        match self.spelled(at) {
            Some(text) => is_risky_text(text),
            None => false,
        }
    }

    /// Whether the token of this number is an allowed name.
    pub fn is_allowed(&self, at: u32) -> bool
        ensures { result ≡ words.is_allowed self.now.text.now self.now.tokens.now self.now.allowed.now self.now.script at }
    {
        match self.spelled(Some(at)) {
            Some(text) => is_allowed_name(self.allowed, self.script, text),
            None => false,
        }
    }

    fn start_of(&self, at: u32) -> usize
        ensures { result ≡ texts.start_of (slice_get self.now.tokens.now at) }
    {
        match self.numbered(at) {
            Some(token) => token.range().start,
            None => 0,
        }
    }

    fn end_of(&self, at: u32) -> usize
        ensures { result ≡ texts.end_of (slice_get self.now.tokens.now at) }
    {
        match self.numbered(at) {
            Some(token) => token.range().end,
            None => 0,
        }
    }

    #[tactic(auto, unfolding(es_lowering::specs::Texts::end_before))]
    fn end_before(&self, at: u32) -> usize
        ensures { result ≡ texts.end_before self.now.tokens.now at }
    {
        if at == 0 {
            return 0;
        }
        self.end_of(at - 1)
    }

    /// The bytes from a token up to the one before another.
    pub fn range(&self, from: u32, to: u32) -> Range
        ensures { result ≡ words.range_of self.now.tokens.now from to }
    {
        Range {
            start: self.start_of(from),
            end: self.end_before(to),
        }
    }

    /// The bytes of a token.
    pub fn range_at(&self, at: u32) -> Range
        ensures { result ≡ words.range_at self.now.tokens.now at }
    {
        Range {
            start: self.start_of(at),
            end: self.end_of(at),
        }
    }
}

fn is_risky_word(text: &str) -> bool
    ensures { result ≡ words.is_risky_word text.now }
{
    text == "constructor" || text == "__proto__" || text == "__defineGetter__"
}

fn is_risky_double(text: &str) -> bool
    ensures { result ≡ words.is_risky_double text.now }
{
    text == "\"constructor\"" || text == "\"__proto__\"" || text == "\"__defineGetter__\""
}

fn is_risky_single(text: &str) -> bool
    ensures { result ≡ words.is_risky_single text.now }
{
    text == "'constructor'" || text == "'__proto__'" || text == "'__defineGetter__'"
}

fn has_escape(text: &str) -> bool
    ensures { result ≡ words.has_escape text.now }
{
    text.as_bytes().iter().any(|b| *b == b'\\')
}

fn is_risky_text(text: &str) -> bool
    ensures { result ≡ words.is_risky_text text.now }
{
    is_risky_word(text) || is_risky_double(text) || is_risky_single(text) || has_escape(text)
}

fn is_among(names: &[Text], text: &str) -> bool
    ensures { result ≡ words.is_among names.now text.now }
{
    for name in names {
        if are_equal(name.as_str(), text) {
            return true;
        }
    }
    false
}

fn is_arguments(text: &str) -> bool
    ensures { result ≡ words.is_arguments text.now }
{
    text == "arguments"
}

/// Outside a script `arguments` is always those of a function.
fn is_allowed_name(allowed: &[Text], script: bool, text: &str) -> bool
    ensures { result ≡ words.is_allowed_name allowed.now script text.now }
{
    (!script && is_arguments(text)) || is_among(allowed, text)
}

fn are_equal(text: &str, other: &str) -> bool
    ensures { result ≡ bytes_eq text.now other.now }
{
    text == other
}
