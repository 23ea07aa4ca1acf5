//! A grammar after JSON: words, numbers and texts, lists of them, and records of lists. Texts have no escapes.
ghost use Rattle.std.specs.Prelude.{IfOk};
ghost use Rattle.monch.specs.core_parsers.Outcome.{IsSuffix};

use monch::{
    Combinator, ParseResult, ch, delimited, from_fn, if_not_empty, map, or3, pair, separated_list,
    tag, take_while, take_while_byte, terminated,
};
use std::alloc::Global;

/// A value without parts, as it is in the text.
#[derive(Debug, Drop)]
pub enum Scalar<'a> {
    Word(&'a str),
    Number(&'a str),
    Text(&'a str),
}

/// The fields of a record, in their order.
pub type Fields<'a> = Vec<(&'a str, Vec<Scalar<'a>>)>;

// Reads with the part. What is left is a suffix, as `from_fn` wants it of the functions below.
#[tactic(auto, using(monch::proofs::Theorems::suffix_of_result))]
fn read_with<'a, A: Combinator<'a>>(part: &A, input: &'a str) -> ParseResult<'a, A::Output>
    requires { A.can_parse part.now }
    ensures { IfOk result (λ p. IsSuffix p.0.now input.now) }
{
    part.parse(input)
}

/// text: '"' characters other than '"' '"'
pub fn read_text<'a>(input: &'a str) -> ParseResult<'a, &'a str>
    ensures { IfOk result (λ p. IsSuffix p.0.now input.now) }
{
    read_with(
        &delimited(ch('"'), take_while(|c: char| c != '"'), ch('"')),
        input,
    )
}

/// scalar: 'null' | 'true' | 'false' | digits | text
pub fn read_scalar<'a>(input: &'a str) -> ParseResult<'a, Scalar<'a>>
    ensures { IfOk result (λ p. IsSuffix p.0.now input.now) }
{
    let word = map(
        or3(tag("null"), tag("true"), tag("false")),
        |w| Scalar::Word(w),
    );
    let digits = if_not_empty(take_while_byte(|b: u8| b'0' <= b && b <= b'9'));
    let number = map(digits, |n| Scalar::Number(n));
    let quoted = map(from_fn(read_text), |t| Scalar::Text(t));
    read_with(&or3(word, number, quoted), input)
}

/// list: '[' (scalar (',' scalar)*)? ']'
pub fn read_list<'a>(alloc: Global, input: &'a str) -> ParseResult<'a, Vec<Scalar<'a>>>
    ensures { IfOk result (λ p. IsSuffix p.0.now input.now) }
{
    let items = separated_list(alloc, from_fn(read_scalar), ch(','));
    read_with(&delimited(ch('['), items, ch(']')), input)
}

/// record: '{' (text ':' list (',' text ':' list)*)? '}'
pub fn read_record<'a>(alloc: Global, input: &'a str) -> ParseResult<'a, Fields<'a>>
    ensures { IfOk result (λ p. IsSuffix p.0.now input.now) }
{
    let lists = from_fn(move |input| read_list(alloc, input));
    let field = pair(terminated(from_fn(read_text), ch(':')), lists);
    let fields = separated_list(alloc, field, ch(','));
    read_with(&delimited(ch('{'), fields, ch('}')), input)
}
