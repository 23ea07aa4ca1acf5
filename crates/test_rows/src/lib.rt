//! Rows of tests as data: a row names a call, gives it texts, and says what is wanted of it. A program asks the calls and adds
//! what it got of each row to a tally, which reports the rows that got something else.
#![tactic(auto)]

mod row;
mod tally;

pub use row::Row;
pub use tally::Tally;
