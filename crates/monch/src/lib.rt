//! Parser combinators: a maker answers a struct of its name, and its `parse` reads a value from the front of a text.
//!
//! - Each `parse` answers an outcome that the combinator's meaning has for the text (`specs/Leaves.antt` for those
//!   without parts, `specs/Parts.antt` over the meanings of the parts, `specs/Calls.antt` for closures,
//!   `specs/Handled.antt`). The makers with their rows are in `README.md`.
//! - What a success leaves is a suffix of the text: the law `leaves_suffix` of the trait, from `monch::core_parsers`.
//! - `or` to `or7` answer as the first alternative that does not backtrack (`GivesFirst-answers`,
//!   `proofs/Theorems.antt`), and `OutOfMemory` comes only where memory is allocated (the laws `..-in_room`).
//!
//! The repetitions are in `monch::repeats`. Not promised: when memory runs out, and how long a call takes.
#![tactic(auto)]

mod alternatives;
mod asserts;
mod blanks;
mod choices;
mod conditions;
pub mod core_parsers;
mod failures;
mod functions;
mod handling;
mod leaves;
mod makers;
mod pairs;
pub mod repeats;
mod tags;
mod text;
mod values;
mod whiles;

pub use crate::core_parsers::{
    Combinator, HandledError, ParseError, ParseErrorFailure, ParseErrorFailureError, ParseResult,
};
pub use crate::repeats::{
    Many0, Many0Count, Many1, ManyTill, ManyTillFold, SeparatedCount, SeparatedFold, SeparatedList,
    many_till, many_till_fold, many0, many0_count, many1, separated_count, separated_fold,
    separated_list,
};
pub use alternatives::{Or3, Or4, Or5, Or6, Or7};
pub use asserts::{Assert, AssertExists};
pub use blanks::{skip_whitespace, whitespace};
pub use choices::{Maybe, Or};
pub use conditions::{CheckNot, IfNotEmpty, IfTrue, IsEmptyable};
pub use failures::{WithErrorContext, WithFailureInput};
pub use functions::FnCombinator;
pub use handling::{MapRes, WithFailureHandling};
pub use leaves::{Ch, OneOf};
pub use makers::{
    assert, assert_exists, ch, check_not, delimited, from_fn, if_not_empty, if_true, map, map_res,
    maybe, one_of, or, or3, or4, or5, or6, or7, pair, preceded, skip_while, skip_while_byte,
    substring, tag, tag_owned, take_while, take_while_byte, terminated, with_error_context,
    with_failure_handling, with_failure_input,
};
pub use pairs::{Delimited, Pair, Preceded, Terminated};
pub use tags::{Tag, TagOwned};
pub use text::next_char;
pub use values::{Map, Substring};
pub use whiles::{SkipWhile, SkipWhileByte, TakeWhile, TakeWhileByte};
