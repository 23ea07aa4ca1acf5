//! What is read after an operand that was read already.

ghost use Rattle.std.specs.Prelude.{◌≡◌, List, length};
ghost use Rattle.es_syntax.specs.declared.entry.Entry.{Entry};
ghost use Rattle.grammar_theory.specs.Productions.{Production, wrap};
ghost use Rattle.es_grammar.specs.declared.rows.NodeKind.{NodeKind};
ghost use Rattle.es_rules.specs.Bounded.{rule_at};
ghost use Rattle.es_rules.specs.Steps.{keys_in, IsRead};

use crate::cursor::{Cursor, Place};
use crate::forms::ReadsRhs;
use crate::predict::Tells;
use crate::table::{Grammar, Rows};
use crate::wraps::wraps;
use es_grammar::NodeKind;
use grammar_theory::SyntaxError;

/// What reads turns after an operand.
pub trait ReadsBehind<R> {
    // The rule of an operand of this rule with them.
    ghost over: { Self → Production R NodeKind → Production R NodeKind };

    /// The tree of an operand that any rule read from a place on, with the turns that follow it.
    fn read<T: Rows<R>>(
        &self,
        from: Place,
        operand: Result<usize, SyntaxError>,
        grammar: &Grammar<'_, T>,
        cursor: &mut Cursor,
    ) -> Result<usize, SyntaxError>
        requires { T.ready grammar.now.rows grammar.now.input }
        ensures { (a : Production R NodeKind) (base : List Entry) → length base ≡ from.entry
            → IsRead grammar.now.input.keeps (rule_at (keys_in grammar.now.input) (T.below grammar.now.rows grammar.now.input) a from.token) base cursor.old operand
            → IsRead grammar.now.input.keeps (rule_at (keys_in grammar.now.input) (T.below grammar.now.rows grammar.now.input) (over self.now a) from.token) base cursor.new result };
}

/// Turns that each make a node, whose first part is what was read before it.
#[derive(Clone, Copy)]
pub struct Turns<C, P>(pub NodeKind, pub C, pub P);

impl<R, C: Tells, P: ReadsRhs<R>> ReadsBehind<R> for Turns<C, P> {
    ghost over = { λ s a. wrap s.0 a (C.told s.1) (P.form s.2) };

    #[inline(always)]
    fn read<T: Rows<R>>(
        &self,
        from: Place,
        operand: Result<usize, SyntaxError>,
        grammar: &Grammar<'_, T>,
        cursor: &mut Cursor,
    ) -> Result<usize, SyntaxError> {
        let first = operand?;
        wraps(self.0, &self.1, &self.2, from, first, grammar, cursor)
    }
}

/// Some turns, and others after them.
#[derive(Clone, Copy)]
pub struct Both<A, B>(pub A, pub B);

impl<R, A: ReadsBehind<R>, B: ReadsBehind<R>> ReadsBehind<R> for Both<A, B> {
    ghost over = { λ s a. B.over s.1 (A.over s.0 a) };

    #[inline(always)]
    fn read<T: Rows<R>>(
        &self,
        from: Place,
        operand: Result<usize, SyntaxError>,
        grammar: &Grammar<'_, T>,
        cursor: &mut Cursor,
    ) -> Result<usize, SyntaxError> {
        let inner = self.0.read(from, operand, grammar, cursor);
        self.1.read(from, inner, grammar, cursor)
    }
}
