//! A table, as its readers see it: the rows that a rule names, each of which can be read.

ghost use Rattle.std.specs.Prelude.{ℕ};
ghost use Rattle.grammar_theory.specs.Reader.{Out};
ghost use Rattle.es_rules.specs.declared.cursor.Input.{Input as Source};
ghost use Rattle.es_rules.specs.Bounded.{Read};
ghost use Rattle.es_rules.specs.Steps.{IsRead};

use crate::cursor::{Cursor, Input};
use grammar_theory::SyntaxError;

/// What reads the rows of a table, which are named by `R`.
pub trait Rows<R> {
    // What is needed, so that each row of a text can be read.
    ghost ready: { Self → Source → Type 0 };
    // What the reader of the table answers of each row.
    ghost below: { Self → Source → R → ℕ → Out Read };

    /// A row.
    fn row(&self, input: &Input<'_>, row: R, cursor: &mut Cursor) -> Result<usize, SyntaxError>
        requires { ready self.now input.now }
        ensures { IsRead input.now.keeps (below self.now input.now row cursor.old.at) cursor.old.row cursor.new result };
}

/// A text, and what reads the rows that a rule names.
#[derive(Clone, Copy)]
pub struct Grammar<'a, T> {
    pub input: Input<'a>,
    pub rows: T,
}

impl<T> Grammar<'_, T> {
    /// A row.
    #[inline(always)]
    pub fn row<R>(&self, row: R, cursor: &mut Cursor) -> Result<usize, SyntaxError>
    where
        T: Rows<R>,
        requires { T.ready self.now.rows self.now.input }
        ensures { IsRead self.now.input.keeps (T.below self.now.rows self.now.input row cursor.old.at) cursor.old.row cursor.new result }
    {
        self.rows.row(&self.input, row, cursor)
    }
}
