//! Programs.

ghost use Rattle.std.specs.Prelude.{IfOk};
ghost use Rattle.es_grammar.specs.Table.{rule};
ghost use Rattle.es_rules.specs.Bounded.{row_at};
ghost use Rattle.es_rules.specs.Steps.{keys_in, IsRead};
ghost use Rattle.grammar_theory.specs.Key.{keys_of};
ghost use Rattle.es_lookahead.specs.Ends.{AreRight};
ghost use Rattle.es_grammar.specs.declared.cst.tree.Cst.{Cst as Kept};
ghost use Rattle.es_program_reader.specs.Derived.{HoldsShaped, IsShaped, GivesTree, IsWritten};
ghost use Rattle.es_program_reader.specs.Program.{HoldsKept, IsKept};

use crate::program::whole;
use crate::row_reader::{Ring, read_row};
use crate::written::first_unsound_written;
use es_grammar::Row;
use es_lookahead::Angle;
use es_rules::{Cursor, Grammar, Input, Tokens};
use es_syntax::{Entry, Siblings as Entries};
use es_token::Token;
use es_type_rules::ends::angles_of;
use grammar_theory::{Lang, Mode, SyntaxError};
use std::alloc::{AllocError, Global};

/// The most nodes on a path of a tree: the program's own, and 500 below it.
const MOST_NODES: usize = 501;

/// A row of the table, with at most `room` rows on a path.
fn row(input: Input<'_>, room: usize, row: Row, cursor: &mut Cursor) -> Result<usize, SyntaxError>
    ensures { IsRead input.entry.keeps (row_at (rule input.entry.lang) (keys_in input.entry) room row cursor.old.at) cursor.old.row cursor.new result }
{
    read_row(input, room, row, cursor)
}

/// What is known of each `<` before programs are read: in JavaScript nobody asks.
fn angles_in(alloc: Global, lang: Lang, tokens: &[Token]) -> Result<Vec<Angle>, AllocError>
    ensures { IfOk result (λ angles. AreRight (keys_of tokens.now) angles.items) }
{
    if lang.is_typed() {
        angles_of(alloc, tokens)
    } else {
        Ok(Vec::new(alloc))
    }
}

/// The tree of a module or a script by the rows of the table alone, where anything may be assigned to.
#[tactic(auto, using(crate::proofs::AnswerLemmas::most))]
pub fn read_tree(
    alloc: Global,
    lang: Lang,
    mode: Mode,
    tokens: &[Token],
) -> Result<Vec<Entry>, SyntaxError>
    // What is answered is kept of a plain tree that has the shape of a program.
    ensures shaped { IfOk result (λ row. HoldsShaped lang mode (keys_of tokens.now) row.items) }
    // It is as a writer leaves it.
    ensures written { IfOk result (λ row. IsWritten row.items) }
    // What is kept of one is answered, unless memory runs out.
    ensures only { (tree : Kept) → IsShaped lang mode (keys_of tokens.now) tree → GivesTree result tree }
{
    let angles = angles_in(alloc, lang, tokens)?;
    let grammar = Grammar {
        input: Input {
            alloc,
            lang,
            tokens: Tokens {
                tokens,
                angles: angles.as_slice(),
            },
            keeps: true,
        },
        rows: Ring {
            room: MOST_NODES,
            read: row,
        },
    };
    whole(&grammar, mode)
}

/// The tree of a module or a script, as one row of entries. `Syntax` names the token where reading stopped, or the first
/// one of the first node in which no simple target is assigned to, or updated.
pub fn read_program(
    alloc: Global,
    lang: Lang,
    mode: Mode,
    tokens: &[Token],
) -> Result<Vec<Entry>, SyntaxError>
    // What is answered is kept of a plain tree of a program.
    ensures kept { IfOk result (λ row. HoldsKept lang mode (keys_of tokens.now) row.items) }
    // What is kept of one is answered, unless memory runs out: so `Syntax` comes only where there is none.
    ensures only { (tree : Kept) → IsKept lang mode (keys_of tokens.now) tree → GivesTree result tree }
{
    let row = read_tree(alloc, lang, mode, tokens)?;
    let entries = Entries {
        entries: row.as_slice(),
    };
    match first_unsound_written(entries) {
        Some(token) => Err(SyntaxError::Syntax {
            token: token as usize,
        }),
        None => Ok(row),
    }
}
