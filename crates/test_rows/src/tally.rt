//! What came of rows.

use crate::row::Row;
use std::alloc::{AllocError, Global};

/// How many rows there were, and those that got something else than they wanted.
#[derive(Drop)]
pub struct Tally {
    rows: usize,
    others: usize,
    told: String,
}

impl Tally {
    pub fn new(alloc: Global) -> Tally {
        Tally {
            rows: 0,
            others: 0,
            told: String::new(alloc),
        }
    }

    /// Adds what a row got.
    pub fn add(&mut self, alloc: Global, row: &Row, got: &str) -> Result<(), AllocError> {
        self.rows = self.rows.saturating_add(1);
        if got == row.wanted() {
            return Ok(());
        }
        self.others = self.others.saturating_add(1);
        let (number, call, text, wanted) = (self.rows, row.call(), row.at(1), row.wanted());
        let told = format!(in alloc;
            "row {number}, {call} {text:?}: wanted {wanted:?}, got {got:?}\n"
        )?;
        self.told.push_str(told.as_str())
    }

    /// A line for each row that got something else, and how many rows there were.
    pub fn told(&self, alloc: Global) -> Result<String, AllocError> {
        let (told, rows, others) = (self.told.as_str(), self.rows, self.others);
        format!(in alloc; "{told}{rows} rows, {others} of them got something else\n")
    }
}
