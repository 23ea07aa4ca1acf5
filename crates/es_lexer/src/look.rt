ghost use Rattle.std.specs.Prelude.{◌≡◌, ◌+◌, ◌<◌, ◌≤◌, ◌^◌, ◌∷◌, false, true, length, drop, IfSome, IfNone};
ghost use Rattle.std.specs.Bool.{OnTrue};
ghost use Rattle.es_lexer.specs.Bytes.{begins_closer, begins_letter};
ghost use Rattle.es_lexer.specs.Signs.{sign_at};
ghost use Rattle.es_lexer.specs.Short.{word_found};
ghost use Rattle.es_lexer.specs.Spelling.{number_kind};
ghost use Rattle.es_lexer.specs.Stops.{backslash_fault};
ghost use Rattle.es_lexer.specs.Look.{line_stop, blanks_end, word_end, flags_end, word_look, string_look, block_look, sign_look, template_look, number_stop, number_look, dot_look, brace_look, name_look, wide_look, backslash_look, hash_look, regexp_look, divide_look, slash_look, end_look, look_at};

use crate::bracket::{BracketKind, is_open, may_close, role_of};
use crate::bytes::{
    First, begins_backslash, begins_escape, begins_name, ends_word, first_of, is_blank, is_letter,
    is_part, joins, part_unit, word_unit,
};
use crate::error::LexicalKind;
use crate::goal::Goal;
use crate::signs::{Sign, sign_at};
use crate::spans::{number_end_from, string_end_from};
use crate::words::kind_at;
use es_literal::StringEnd;
use es_literal::spelling::{NumberEnd, TemplateEnd, begins_line_end, regexp_from, template_from};
use es_token::{CommentKind, TokenKind};
use es_unicode::{wide_blank, wide_line, wide_size};

/// What is at an offset of a text. An end is the offset after it.
#[derive(Clone, Copy)]
pub enum Look {
    /// The text's end.
    End,
    Blank {
        end: usize,
    },
    LineEnd {
        end: usize,
    },
    Comment {
        kind: CommentKind,
        end: usize,
        line_end: bool,
    },
    Token {
        kind: TokenKind,
        end: usize,
    },
    Fault {
        kind: LexicalKind,
        at: usize,
    },
}

/// A word, and the offset after it.
#[derive(Clone, Copy)]
pub struct Word {
    pub kind: TokenKind,
    pub end: usize,
}

/// What is at `at`, at the front of `text`.
#[tactic(auto, unfolding(crate::specs::Look::look_at, crate::specs::Look::class_look))]
pub fn look_from(goal: Goal, at: usize, text: &[u8]) -> Look
    requires { at + length text.now < 2 ^ 64 }
    ensures { result ≡ look_at goal at text.now }
{
    match text {
        [] => end_from(goal.bracket, at),
        [b, rest @ ..] => match first_of(*b) {
            First::Blank => Look::Blank { end: at + 1 },
            First::LineEnd => Look::LineEnd { end: at + 1 },
            First::Start => word_from(goal.member, at, text),
            First::Quote => string_token(at, string_end_from(at, text)),
            First::Slash => slash_from(goal, at, text, rest),
            First::Backtick => template_token(true, at, template_from(at + 1, rest)),
            First::Brace => brace_from(goal, at, text, rest),
            First::Hash => hash_from(goal.front, at, rest),
            First::Digit => number_token(at, text),
            First::Dot => dot_from(goal, at, text, rest),
            First::Backslash => backslash_from(goal, at, text),
            First::Wide => wide_from(goal, at, text),
            First::Other => sign_from(goal.bracket, at, text),
        },
    }
}

/// The number at the front of `text`.
#[tactic(auto, unfolding(crate::specs::Look::number_look))]
fn number_token(at: usize, text: &[u8]) -> Look
    requires { at + length text.now < 2 ^ 64 }
    ensures { result ≡ number_look at text.now }
{
    let number = number_end_from(at, text);
    number_before(number, &text[number.end - at..])
}

/// A number before this text.
#[tactic(auto, unfolding(crate::specs::Look::number_stop))]
fn number_before(number: NumberEnd, after: &[u8]) -> Look
    ensures { result ≡ number_stop number after.now }
{
    if joins(after) {
        Look::Fault {
            kind: LexicalKind::InvalidChar,
            at: number.end,
        }
    } else {
        Look::Token {
            kind: number_kind(number.big),
            end: number.end,
        }
    }
}

#[tactic(auto, unfolding(crate::specs::Spelling::number_kind))]
fn number_kind(big: bool) -> TokenKind
    ensures { result ≡ number_kind big }
{
    if big {
        TokenKind::BigInt
    } else {
        TokenKind::Number
    }
}

/// What begins with a point: a number, where a digit follows.
#[tactic(auto, unfolding(crate::specs::Look::dot_look, crate::specs::Goal::begins_digit))]
fn dot_from(goal: Goal, at: usize, whole: &[u8], rest: &[u8]) -> Look
    requires room { at + length whole.now < 2 ^ 64 }
    requires dot { whole.now ≡ 46 ∷ rest.now }
    ensures { result ≡ dot_look goal at rest.now }
{
    match rest {
        [] => sign_from(goal.bracket, at, whole),
        [b, ..] => {
            if b.is_ascii_digit() {
                number_token(at, whole)
            } else {
                sign_from(goal.bracket, at, whole)
            }
        }
    }
}

/// A template, or what goes on in one, by what ends it.
#[tactic(auto, unfolding(crate::specs::Look::template_look, crate::specs::Spelling::template_kind))]
fn template_token(opens: bool, at: usize, end: TemplateEnd) -> Look
    ensures { result ≡ template_look opens at end }
{
    match (end, opens) {
        (TemplateEnd::Closes(end), true) => Look::Token {
            kind: TokenKind::TemplateWhole,
            end,
        },
        (TemplateEnd::Closes(end), false) => Look::Token {
            kind: TokenKind::TemplateTail,
            end,
        },
        (TemplateEnd::Substitutes(end), true) => Look::Token {
            kind: TokenKind::TemplateHead,
            end,
        },
        (TemplateEnd::Substitutes(end), false) => Look::Token {
            kind: TokenKind::TemplateMiddle,
            end,
        },
        (TemplateEnd::Unclosed, _) => Look::Fault {
            kind: LexicalKind::UnterminatedTemplate,
            at,
        },
    }
}

/// What begins with a `}`: after an open `${` its template continues.
#[tactic(auto, unfolding(crate::specs::Look::brace_look))]
fn brace_from(goal: Goal, at: usize, whole: &[u8], rest: &[u8]) -> Look
    requires room { at + 1 + length rest.now < 2 ^ 64 }
    requires brace { whole.now ≡ 125 ∷ rest.now }
    ensures { result ≡ brace_look goal at rest.now }
{
    if is_open(goal.bracket, BracketKind::Template) {
        template_token(false, at, template_from(at + 1, rest))
    } else {
        sign_from(goal.bracket, at, whole)
    }
}

/// What begins with a `#`: a private name, or at the text's front a shebang.
#[tactic(auto, unfolding(crate::specs::Look::hash_look))]
fn hash_from(front: bool, at: usize, rest: &[u8]) -> Look
    requires { at + 1 + length rest.now < 2 ^ 64 }
    ensures { result ≡ hash_look front at rest.now }
{
    match rest {
        [] => Look::Fault {
            kind: LexicalKind::InvalidChar,
            at,
        },
        [b, more @ ..] => {
            if front && *b == b'!' {
                Look::Token {
                    kind: TokenKind::Shebang,
                    end: line_end_from(at + 2, more),
                }
            } else {
                name_from(at, rest)
            }
        }
    }
}

/// A private name, whose name is at the front of the text.
#[tactic(auto, unfolding(crate::specs::Look::name_look))]
fn name_from(at: usize, text: &[u8]) -> Look
    requires { at + 1 + length text.now < 2 ^ 64 }
    ensures { result ≡ name_look at text.now }
{
    if begins_name(text) {
        Look::Token {
            kind: TokenKind::PrivateName,
            end: word_end_from(at + 1, text),
        }
    } else if begins_backslash(text) {
        Look::Fault {
            kind: backslash_fault(text),
            at: at + 1,
        }
    } else {
        Look::Fault {
            kind: LexicalKind::InvalidChar,
            at,
        }
    }
}

/// What begins with a `\`: a word.
#[tactic(auto, unfolding(crate::specs::Look::backslash_look))]
fn backslash_from(goal: Goal, at: usize, text: &[u8]) -> Look
    requires { at + length text.now < 2 ^ 64 }
    ensures { result ≡ backslash_look goal at text.now }
{
    if begins_name(text) {
        word_from(goal.member, at, text)
    } else {
        Look::Fault {
            kind: backslash_fault(text),
            at,
        }
    }
}

/// The fault of a `\` that begins no name.
#[tactic(auto, unfolding(crate::specs::Stops::backslash_fault))]
fn backslash_fault(text: &[u8]) -> LexicalKind
    ensures { result ≡ backslash_fault text.now }
{
    if begins_escape(text) {
        LexicalKind::InvalidEscape
    } else {
        LexicalKind::InvalidChar
    }
}

/// What begins with a character past ASCII: a word, a blank, or a line end.
#[tactic(auto, unfolding(crate::specs::Look::wide_look))]
fn wide_from(goal: Goal, at: usize, text: &[u8]) -> Look
    requires { at + length text.now < 2 ^ 64 }
    ensures { result ≡ wide_look goal at text.now }
{
    if wide_size(text) != 0 {
        return word_from(goal.member, at, text);
    }
    let blank = wide_blank(text);
    if blank != 0 {
        return Look::Blank { end: at + blank };
    }
    let line = wide_line(text);
    if line != 0 {
        Look::LineEnd { end: at + line }
    } else {
        Look::Fault {
            kind: LexicalKind::InvalidChar,
            at,
        }
    }
}

#[tactic(auto, unfolding(crate::specs::Look::end_look))]
fn end_from(bracket: Option<BracketKind>, at: usize) -> Look
    ensures { result ≡ end_look bracket at }
{
    match bracket {
        None => Look::End,
        Some(_) => Look::Fault {
            kind: LexicalKind::Unbalanced,
            at,
        },
    }
}

/// The punctuator at the front of `text`, where this is the innermost open bracket.
#[tactic(auto, unfolding(crate::specs::Look::sign_look))]
fn sign_from(bracket: Option<BracketKind>, at: usize, text: &[u8]) -> Look
    requires { at + length text.now < 2 ^ 64 }
    ensures { result ≡ sign_look bracket at (sign_at text.now) }
{
    match sign_at(text) {
        None => Look::Fault {
            kind: LexicalKind::InvalidChar,
            at,
        },
        Some(sign) => {
            if may_close(bracket, role_of(sign.kind)) {
                Look::Token {
                    kind: sign.kind,
                    end: at + sign.size,
                }
            } else {
                Look::Fault {
                    kind: LexicalKind::Unbalanced,
                    at,
                }
            }
        }
    }
}

/// A string literal, by its end.
#[tactic(auto, unfolding(crate::specs::Look::string_look))]
fn string_token(at: usize, end: StringEnd) -> Look
    ensures { result ≡ string_look at end }
{
    match end {
        StringEnd::Closes(end) => Look::Token {
            kind: TokenKind::Str,
            end,
        },
        StringEnd::InvalidEscape(at) => Look::Fault {
            kind: LexicalKind::InvalidEscape,
            at,
        },
        StringEnd::Unclosed => Look::Fault {
            kind: LexicalKind::UnterminatedString,
            at,
        },
    }
}

#[tactic(auto, unfolding(crate::specs::Look::slash_look))]
fn slash_from(goal: Goal, at: usize, whole: &[u8], rest: &[u8]) -> Look
    requires room { at + 1 + length rest.now < 2 ^ 64 }
    requires slash { whole.now ≡ 47 ∷ rest.now }
    ensures { result ≡ slash_look goal at rest.now }
{
    match rest {
        [b'/', text @ ..] => Look::Comment {
            kind: CommentKind::Line,
            end: line_end_from(at + 2, text),
            line_end: false,
        },
        [b'*', text @ ..] => block_from(at, at + 2, text),
        _ => divide_from(goal, at, whole, rest),
    }
}

/// A `/` that begins no comment.
#[tactic(auto, unfolding(crate::specs::Look::divide_look))]
fn divide_from(goal: Goal, at: usize, whole: &[u8], rest: &[u8]) -> Look
    requires room { at + 1 + length rest.now < 2 ^ 64 }
    requires slash { whole.now ≡ 47 ∷ rest.now }
    ensures { result ≡ divide_look goal at rest.now }
{
    if goal.regexp {
        regexp_token(at, regexp_from(at + 1, rest), rest)
    } else {
        sign_from(goal.bracket, at, whole)
    }
}

/// A regular expression, by the offset after its body. The text follows the `/` that begins it.
#[tactic(auto, unfolding(crate::specs::Look::regexp_look))]
fn regexp_token(at: usize, body: Option<usize>, text: &[u8]) -> Look
    requires room { at + 1 + length text.now < 2 ^ 64 }
    requires within { IfSome body (λ end. (at + 1 ≤ end) × (end ≤ at + 1 + length text.now)) }
    ensures { result ≡ regexp_look at body text.now }
{
    match body {
        Some(end) => Look::Token {
            kind: TokenKind::RegExp,
            end: flags_end_from(end, &text[end - (at + 1)..]),
        },
        None => Look::Fault {
            kind: LexicalKind::UnterminatedRegExp,
            at,
        },
    }
}

#[tactic(auto, unfolding(crate::specs::Look::block_look))]
fn block_from(start: usize, first: usize, bytes: &[u8]) -> Look
    requires { first + length bytes.now < 2 ^ 64 }
    ensures { result ≡ block_look start false first bytes.now }
{
    let mut at = first;
    let mut rest = bytes;
    let mut line = false;
    while let [b, after @ ..] = rest {
        if is_closer(*b, after) {
            return Look::Comment {
                kind: CommentKind::Block,
                end: at + 2,
                line_end: line,
            };
        }
        line = line || begins_line_end(rest);
        rest = after;
        at += 1;
    }
    Look::Fault {
        kind: LexicalKind::UnterminatedComment,
        at: start,
    }
}

/// Whether `*/` comes next.
#[tactic(auto, unfolding(crate::specs::Bytes::begins_closer))]
fn is_closer(b: u8, after: &[u8]) -> bool
    ensures value { result ≡ begins_closer (b ∷ after.now) }
    ensures room { OnTrue result (0 < length after.now) }
{
    match after {
        [c, ..] => b == b'*' && *c == b'/',
        [] => false,
    }
}

/// The word at `at`, where `text` begins with a letter, `$` or `_`.
#[inline(always)]
#[tactic(auto, unfolding(crate::specs::Look::look_at, crate::specs::Look::class_look, crate::specs::Look::word_look, crate::specs::Bytes::begins_letter, crate::specs::Bytes::is_letter))]
pub fn short_word(goal: Goal, at: usize, text: &[u8]) -> Option<Word>
    requires { at + length text.now < 2 ^ 64 }
    ensures found { IfSome result (λ word. look_at goal at text.now ≡ word_found word) }
    ensures missed { IfNone result (begins_letter text.now ≡ false) }
{
    match text {
        [] => None,
        [b, ..] => {
            if is_letter(*b) {
                let end = behind_letter(at, text);
                Some(Word {
                    kind: kind_at(goal.member, &text[..end - at]),
                    end,
                })
            } else {
                None
            }
        }
    }
}

/// The offset after the word at `first`, where `text` begins with a letter, `$` or `_`.
#[inline(always)]
fn behind_letter(first: usize, text: &[u8]) -> usize
    requires room { first + length text.now < 2 ^ 64 }
    requires letter { begins_letter text.now ≡ true }
    ensures value { result ≡ word_end first text.now }
    ensures forward { first ≤ result }
    ensures within { result ≤ first + length text.now }
{
    match text {
        [] => first,
        [_, after @ ..] => word_end_from(first + 1, after),
    }
}

#[tactic(auto, unfolding(crate::specs::Look::word_look))]
fn word_from(member: bool, at: usize, text: &[u8]) -> Look
    requires { at + length text.now < 2 ^ 64 }
    ensures { result ≡ word_look member at text.now }
{
    let end = word_end_from(at, text);
    Look::Token {
        kind: kind_at(member, &text[..end - at]),
        end,
    }
}

/// The offset after the parts of a name at `first`.
fn word_end_from(first: usize, text: &[u8]) -> usize
    requires { first + length text.now < 2 ^ 64 }
    ensures value { result ≡ word_end first text.now }
    ensures forward { first ≤ result }
    ensures within { result ≤ first + length text.now }
{
    let mut at = first;
    let mut rest = text;
    while let [b, after @ ..] = rest {
        if !is_part(*b) {
            return behind_plain(at, rest);
        }
        rest = after;
        at += 1;
    }
    at
}

/// The same, where the text is unlikely to begin with a letter, digit, `$` or `_`.
#[inline(always)]
fn behind_plain(first: usize, text: &[u8]) -> usize
    requires { first + length text.now < 2 ^ 64 }
    ensures value { result ≡ word_end first text.now }
    ensures forward { first ≤ result }
    ensures within { result ≤ first + length text.now }
{
    if ends_word(text) {
        first
    } else {
        parts_end_from(first, text)
    }
}

/// The same, in general.
#[inline(never)]
#[tactic(auto, unfolding(crate::specs::Look::word_end))]
fn parts_end_from(first: usize, text: &[u8]) -> usize
    requires { first + length text.now < 2 ^ 64 }
    ensures value { result ≡ word_end first text.now }
    ensures forward { first ≤ result }
    ensures within { result ≤ first + length text.now }
{
    let mut at = first;
    let mut rest = text;
    'parts: loop {
        let size = word_unit(rest);
        if size == 0 {
            break;
        }
        rest = &rest[size..];
        at += size;
    }
    at
}

/// The offset after the flags at `first`.
#[tactic(auto, unfolding(crate::specs::Look::flags_end))]
fn flags_end_from(first: usize, text: &[u8]) -> usize
    requires { first + length text.now < 2 ^ 64 }
    ensures { result ≡ flags_end first text.now }
{
    let mut at = first;
    let mut rest = text;
    'parts: loop {
        let size = part_unit(rest);
        if size == 0 {
            break;
        }
        rest = &rest[size..];
        at += size;
    }
    at
}

/// Where the line ends.
#[tactic(auto, unfolding(crate::specs::Look::line_stop))]
fn line_end_from(first: usize, bytes: &[u8]) -> usize
    requires { first + length bytes.now < 2 ^ 64 }
    ensures { result ≡ line_stop first bytes.now }
{
    let mut at = first;
    let mut rest = bytes;
    while let [_, after @ ..] = rest {
        if begins_line_end(rest) {
            break;
        }
        rest = after;
        at += 1;
    }
    at
}

/// The offset after the blanks of one byte at `from`.
pub fn behind_blanks(bytes: &[u8], from: usize) -> usize
    requires { from ≤ length bytes.now }
    ensures { result ≡ blanks_end from (drop from bytes.now) }
{
    blanks_end_from(from, &bytes[from..])
}

#[tactic(auto, unfolding(crate::specs::Look::blanks_end))]
fn blanks_end_from(first: usize, bytes: &[u8]) -> usize
    requires { first + length bytes.now < 2 ^ 64 }
    ensures { result ≡ blanks_end first bytes.now }
{
    let mut at = first;
    let mut rest = bytes;
    while let [b, after @ ..] = rest {
        if !is_blank(*b) {
            break;
        }
        rest = after;
        at += 1;
    }
    at
}
