//! Whole programs.

ghost use Rattle.std.specs.Prelude.{◌≡◌, true, IfOk};
ghost use Rattle.grammar_theory.specs.Key.{keys_of};
ghost use Rattle.grammar_theory.specs.Fits.{most_nodes};
ghost use Rattle.es_grammar.specs.Table.{rule};
ghost use Rattle.es_grammar.specs.Conditions.{program_row};
ghost use Rattle.es_grammar.specs.declared.cst.tree.Cst.{Cst as Kept};
ghost use Rattle.es_rules.specs.Steps.{IsRing};
ghost use Rattle.es_program_reader.specs.Derived.{HoldsShaped, IsShaped, GivesTree, IsWritten};

use crate::row_reader::Ring;
use es_grammar::Row;
use es_rules::{Cursor, Grammar, Input};
use es_syntax::{Entry, Writer};
use grammar_theory::{Mode, SyntaxError};

/// The row of a program.
fn program_row(mode: Mode) -> Row
    ensures { result ≡ program_row mode }
{
    match mode {
        Mode::Module => Row::ModuleRow,
        Mode::Script => Row::ScriptRow,
    }
}

/// The tree of a program in the language of the input, as a row of entries, by a function that reads each row of the table.
pub fn whole<F: Fn(Input<'_>, usize, Row, &mut Cursor) -> Result<usize, SyntaxError>>(
    grammar: &Grammar<'_, Ring<F>>,
    mode: Mode,
) -> Result<Vec<Entry>, SyntaxError>
    requires ring { IsRing (rule grammar.now.input.lang) grammar.now.input grammar.now.rows.room (F.pre grammar.now.rows.read) (F.post grammar.now.rows.read) }
    requires room { grammar.now.rows.room ≡ most_nodes }
    requires keeps { grammar.now.input.keeps ≡ true }
    // What is answered is kept of a plain tree of the program.
    ensures shaped { IfOk result (λ row. HoldsShaped grammar.now.input.lang mode (keys_of grammar.now.input.tokens.tokens.now) row.items) }
    // It is as a writer leaves it.
    ensures written { IfOk result (λ row. IsWritten row.items) }
    // What is kept of one is answered, unless memory runs out: so `Syntax` comes only where there is none.
    ensures only { (tree : Kept) → IsShaped grammar.now.input.lang mode (keys_of grammar.now.input.tokens.tokens.now) tree → GivesTree result tree }
{
    let tokens = grammar.input.tokens.tokens;
    let row = program_row(mode);
    let mut cursor = Cursor {
        at: 0,
        row: Writer::new(grammar.input.alloc),
    };
    let _height = grammar.row(row, &mut cursor)?;
    if cursor.at != tokens.len() {
        return Err(SyntaxError::Syntax { token: cursor.at });
    }
    let Cursor { at: _, row } = cursor;
    Ok(row.into_entries())
}
