//! The rows of types among those of programs.

ghost use Rattle.es_grammar.specs.types.TypeTable.{type_rule};
ghost use Rattle.es_grammar.specs.declared.rows.Row.TheVariants as rows;
ghost use Rattle.es_grammar.specs.Embedding.{types_rule};

use crate::ends::rows::ProductionOf;
use es_grammar::{Row, TypeRow};
use es_rules::{Cursor, Grammar, Input, ReadsProduction, Rows};
use grammar_theory::SyntaxError;

/// What reads the rows of programs, as what reads the rows of types.
#[derive(Clone, Copy)]
struct InPrograms<'a, T>(&'a T);

impl<T: Rows<Row>> Rows<TypeRow> for InPrograms<'_, T> {
    ghost ready = { λ s input. T.ready s.0.now input };

    ghost below = { λ s input r at. T.below s.0.now input (rows.TypesRow r) at };

    #[inline(always)]
    fn row(
        &self,
        input: &Input<'_>,
        row: TypeRow,
        cursor: &mut Cursor,
    ) -> Result<usize, SyntaxError> {
        self.0.row(input, Row::TypesRow(row), cursor)
    }
}

/// The rule of a row of types, in the table of programs.
#[derive(Clone, Copy)]
pub struct OfTypes(pub TypeRow);

impl ReadsProduction<Row> for OfTypes {
    ghost rule = { λ s. types_rule (type_rule s.0) };

    #[tactic(auto, using(crate::proofs::ends_lemmas::EmbeddedLemmas::types_read))]
    fn read<T: Rows<Row>>(
        &self,
        grammar: &Grammar<'_, T>,
        cursor: &mut Cursor,
    ) -> Result<usize, SyntaxError> {
        let types = Grammar {
            input: grammar.input,
            rows: InPrograms(&grammar.rows),
        };
        ProductionOf(self.0).read(&types, cursor)
    }
}
