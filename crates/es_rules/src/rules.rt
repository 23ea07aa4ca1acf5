//! Rules: the alternatives of a row.

ghost use Rattle.std.specs.Prelude.{◌≡◌};
ghost use Rattle.grammar_theory.specs.Productions.{Production, refuse, make, choose, as_, pick, wrap};
ghost use Rattle.grammar_theory.specs.Reader.{and_then};
ghost use Rattle.es_grammar.specs.declared.rows.NodeKind.{NodeKind};
ghost use Rattle.es_grammar.specs.Embedding.{label_by};
ghost use Rattle.es_rules.specs.Bounded.{form_at, node_at, rule_at};
ghost use Rattle.es_rules.specs.Steps.{keys_in, IsRead};

use crate::cursor::{Cursor, close, counted, open};
use crate::forms::ReadsRhs;
use crate::predict::{Holds, Sees, Tells};
use crate::table::{Grammar, Rows};
use crate::wraps::wraps;
use es_grammar::NodeKind;
use es_syntax::What;
use grammar_theory::{Lang, SyntaxError};

/// What reads a rule, whose rows are those of a table.
pub trait ReadsProduction<R> {
    // The rule that is read.
    ghost rule: { Self → Production R NodeKind };

    /// The tree that begins here.
    fn read<T: Rows<R>>(
        &self,
        grammar: &Grammar<'_, T>,
        cursor: &mut Cursor,
    ) -> Result<usize, SyntaxError>
        requires { T.ready grammar.now.rows grammar.now.input }
        ensures { IsRead grammar.now.input.keeps (rule_at (keys_in grammar.now.input) (T.below grammar.now.rows grammar.now.input) (rule self.now) cursor.old.at) cursor.old.row cursor.new result };
}

/// A node with these parts.
#[inline(always)]
fn made<R, P: ReadsRhs<R>, T: Rows<R>>(
    label: NodeKind,
    parts: &P,
    grammar: &Grammar<'_, T>,
    cursor: &mut Cursor,
) -> Result<usize, SyntaxError>
    requires { T.ready grammar.now.rows grammar.now.input }
    ensures { IsRead grammar.now.input.keeps (and_then (form_at (keys_in grammar.now.input) (T.below grammar.now.rows grammar.now.input) (P.form parts.now) cursor.old.at)
        (λ ps to. node_at label cursor.old.at to ps)) cursor.old.row cursor.new result }
{
    let keeps = grammar.input.keeps;
    let from = cursor.at;
    let opened = open(&mut cursor.row, keeps)?;
    let parts = parts.read(grammar, cursor)?;
    let height = counted(parts, cursor)?;
    close(
        &mut cursor.row,
        keeps,
        opened,
        What::Node(label),
        from,
        cursor.at,
    )?;
    Ok(height)
}

/// Nothing.
#[derive(Clone, Copy)]
pub struct Refuse;

impl<R> ReadsProduction<R> for Refuse {
    ghost rule = { λ _. refuse };

    #[inline(always)]
    fn read<T: Rows<R>>(
        &self,
        _grammar: &Grammar<'_, T>,
        cursor: &mut Cursor,
    ) -> Result<usize, SyntaxError> {
        Err(SyntaxError::Syntax { token: cursor.at })
    }
}

/// A node with these parts.
#[derive(Clone, Copy)]
pub struct Make<P>(pub NodeKind, pub P);

impl<R, P: ReadsRhs<R>> ReadsProduction<R> for Make<P> {
    ghost rule = { λ s. make s.0 (P.form s.1) };

    #[inline(always)]
    fn read<T: Rows<R>>(
        &self,
        grammar: &Grammar<'_, T>,
        cursor: &mut Cursor,
    ) -> Result<usize, SyntaxError> {
        made(self.0, &self.1, grammar, cursor)
    }
}

/// The label of a node by the language.
#[inline(always)]
fn label_by(lang: Lang, plain: NodeKind, typed: NodeKind) -> NodeKind
    ensures { result ≡ label_by lang plain typed }
{
    if lang.is_typed() { typed } else { plain }
}

/// A node with these parts, whose alternative is another one in TypeScript.
#[derive(Clone, Copy)]
pub struct MakeBy<P>(pub Lang, pub NodeKind, pub NodeKind, pub P);

impl<R, P: ReadsRhs<R>> ReadsProduction<R> for MakeBy<P> {
    ghost rule = { λ s. make (label_by s.0 s.1 s.2) (P.form s.3) };

    #[inline(always)]
    fn read<T: Rows<R>>(
        &self,
        grammar: &Grammar<'_, T>,
        cursor: &mut Cursor,
    ) -> Result<usize, SyntaxError> {
        made(label_by(self.0, self.1, self.2), &self.3, grammar, cursor)
    }
}

/// One of two: the test says which.
#[derive(Clone, Copy)]
pub struct Choose<S, A, B>(pub S, pub A, pub B);

impl<R, S: Sees, A: ReadsProduction<R>, B: ReadsProduction<R>> ReadsProduction<R>
    for Choose<S, A, B> {
    ghost rule = { λ s. choose (S.look s.0) (A.rule s.1) (B.rule s.2) };

    #[inline(always)]
    fn read<T: Rows<R>>(
        &self,
        grammar: &Grammar<'_, T>,
        cursor: &mut Cursor,
    ) -> Result<usize, SyntaxError> {
        if self.0.sees(&grammar.input.tokens, cursor.at) {
            return self.1.read(grammar, cursor);
        }
        self.2.read(grammar, cursor)
    }
}

/// One of two: a written predicate says which.
#[derive(Clone, Copy)]
pub struct Pick<G, A, B>(pub G, pub A, pub B);

impl<R, G: Holds, A: ReadsProduction<R>, B: ReadsProduction<R>> ReadsProduction<R>
    for Pick<G, A, B> {
    ghost rule = { λ s. pick (G.predicate s.0) (A.rule s.1) (B.rule s.2) };

    #[inline(always)]
    fn read<T: Rows<R>>(
        &self,
        grammar: &Grammar<'_, T>,
        cursor: &mut Cursor,
    ) -> Result<usize, SyntaxError> {
        if self.0.holds(&grammar.input, cursor.at) {
            return self.1.read(grammar, cursor);
        }
        self.2.read(grammar, cursor)
    }
}

/// What another rule makes, in another role.
#[derive(Clone, Copy)]
pub struct As<A>(pub NodeKind, pub A);

impl<R, A: ReadsProduction<R>> ReadsProduction<R> for As<A> {
    ghost rule = { λ s. as_ s.0 (A.rule s.1) };

    #[inline(always)]
    fn read<T: Rows<R>>(
        &self,
        grammar: &Grammar<'_, T>,
        cursor: &mut Cursor,
    ) -> Result<usize, SyntaxError> {
        let keeps = grammar.input.keeps;
        let opened = open(&mut cursor.row, keeps)?;
        let height = self.1.read(grammar, cursor)?;
        close(&mut cursor.row, keeps, opened, What::Role(self.0), 0, 0)?;
        Ok(height)
    }
}

/// An operand, and turns after it: each makes a node, whose first part is what was read before it.
#[derive(Clone, Copy)]
pub struct Wrap<A, C, P>(pub NodeKind, pub A, pub C, pub P);

impl<R, A: ReadsProduction<R>, C: Tells, P: ReadsRhs<R>> ReadsProduction<R> for Wrap<A, C, P> {
    ghost rule = { λ s. wrap s.0 (A.rule s.1) (C.told s.2) (P.form s.3) };

    #[inline(always)]
    fn read<T: Rows<R>>(
        &self,
        grammar: &Grammar<'_, T>,
        cursor: &mut Cursor,
    ) -> Result<usize, SyntaxError> {
        let from = cursor.here();
        let first = self.1.read(grammar, cursor)?;
        wraps(self.0, &self.2, &self.3, from, first, grammar, cursor)
    }
}
