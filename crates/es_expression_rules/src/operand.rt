//! An operand, and the turns after it, if any.

ghost use Rattle.grammar_theory.specs.Productions.{wrap};

use es_grammar::{NodeKind, Row};
use es_rules::{Cursor, Grammar, ReadsBehind, ReadsProduction, ReadsRhs, Rows, Tells, Turns};
use grammar_theory::SyntaxError;

/// What `Wrap` reads. Most operands have no turns: such an operand is returned as it was read, without `Turns`.
#[derive(Clone, Copy)]
pub struct Operand<A, C, P>(pub NodeKind, pub A, pub C, pub P);

impl<A: ReadsProduction<Row>, C: Tells + Copy, P: ReadsRhs<Row> + Copy> ReadsProduction<Row>
    for Operand<A, C, P> {
    ghost rule = { λ s. wrap s.0 (A.rule s.1) (C.told s.2) (P.form s.3) };

    #[inline(always)]
    fn read<T: Rows<Row>>(
        &self,
        grammar: &Grammar<'_, T>,
        cursor: &mut Cursor,
    ) -> Result<usize, SyntaxError> {
        let from = cursor.here();
        let operand = self.1.read(grammar, cursor);
        if !self.2.is_there(&grammar.input, cursor.at) {
            return operand;
        }
        Turns(self.0, self.2, self.3).read(from, operand, grammar, cursor)
    }
}
