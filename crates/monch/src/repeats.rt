//! Combinators that repeat a part.
//!
//! - `many_till`, `many0`, `many1`: a list of items, until an end is read or no item follows (`GivesItems`,
//!   `specs/repeats/Items.antt`). `separated_list`: the same with a separator after each item (`GivesSeparated`,
//!   `specs/repeats/Separated.antt`).
//! - `many_till_fold`, `separated_fold`: what a function makes of the values (`GivesFold`, `specs/repeats/Repeat.antt`).
//! - `many0_count`, `separated_count`: how many values there are (`GivesCount`), without a list.
//!
//! Each needs of its parts that an item, or an item with its separator, leaves a strictly shorter rest: `parse` asks
//! for it. Where the parts leave one rest of a text, a count is the length of the list (`many0_count_is_length`,
//! `separated_count_is_length`, `proofs/repeats_lemmas/Theorems.antt`). Not promised: when memory runs out.

mod count;
mod fold;
mod makers;
mod repeat;
mod rounds;

pub use count::{Many0Count, SeparatedCount};
pub use fold::{ManyTillFold, SeparatedFold};
pub use makers::{
    many_till, many_till_fold, many0, many0_count, many1, separated_count, separated_fold,
    separated_list,
};
pub use repeat::{Many0, Many1, ManyTill, SeparatedList};
