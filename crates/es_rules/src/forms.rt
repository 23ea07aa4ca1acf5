//! Forms: parts of a node, one after another.

ghost use Rattle.std.specs.Prelude.{◌≡◌, ◌+◌, length};
ghost use Rattle.grammar_theory.specs.Key.{keys_of, seen};
ghost use Rattle.grammar_theory.specs.Productions.{Rhs, done, tok, punct, row, opt, many, alt, when_, where_, test};
ghost use Rattle.grammar_theory.specs.Reader.{gives, either, read_turns};
ghost use Rattle.es_rules.specs.Predict.{leaf_kind_of};
ghost use Rattle.es_rules.specs.Bounded.{makes, form_at};
ghost use Rattle.es_rules.specs.Steps.{keys_in, IsPart, Adds};

use crate::cursor::{Cursor, absent, close, expect, higher, highest, leaf, open, take};
use crate::predict::{Holds, IsOfKinds, LeafKind, Sees, Tells};
use crate::table::{Grammar, Rows};
use es_syntax::What;
use es_token::TokenKind;
use grammar_theory::SyntaxError;

/// What reads parts of a node, whose rows are those of a table.
pub trait ReadsRhs<R> {
    // The form that is read.
    ghost form: { Self → Rhs R };

    /// Appends the parts at this place to those that were read.
    fn read<T: Rows<R>>(
        &self,
        grammar: &Grammar<'_, T>,
        cursor: &mut Cursor,
    ) -> Result<usize, SyntaxError>
        requires { T.ready grammar.now.rows grammar.now.input }
        ensures { Adds grammar.now.input.keeps (form_at (keys_in grammar.now.input) (T.below grammar.now.rows grammar.now.input) (form self.now) cursor.old.at) cursor.old.row cursor.new result };
}

/// The parts of a form, as one part.
#[inline(always)]
fn group<R, P: ReadsRhs<R>, T: Rows<R>>(
    part: &P,
    grammar: &Grammar<'_, T>,
    cursor: &mut Cursor,
) -> Result<usize, SyntaxError>
    requires { T.ready grammar.now.rows grammar.now.input }
    ensures { IsPart grammar.now.input.keeps (form_at (keys_in grammar.now.input) (T.below grammar.now.rows grammar.now.input) (P.form part.now) cursor.old.at) cursor.old.row cursor.new result }
{
    let keeps = grammar.input.keeps;
    let opened = open(&mut cursor.row, keeps)?;
    let height = part.read(grammar, cursor)?;
    close(&mut cursor.row, keeps, opened, What::Parts, 0, 0)?;
    Ok(height)
}

/// A part that may be absent.
#[inline(always)]
fn optional<R, C: Tells, P: ReadsRhs<R>, T: Rows<R>>(
    told: &C,
    part: &P,
    grammar: &Grammar<'_, T>,
    cursor: &mut Cursor,
) -> Result<usize, SyntaxError>
    requires { T.ready grammar.now.rows grammar.now.input }
    ensures { IsPart grammar.now.input.keeps (either (test (C.told told.now) (keys_in grammar.now.input) cursor.old.at)
        (form_at (keys_in grammar.now.input) (T.below grammar.now.rows grammar.now.input) (P.form part.now) cursor.old.at) (gives makes.of_nil cursor.old.at)) cursor.old.row cursor.new result }
{
    if told.is_there(&grammar.input, cursor.at) {
        return group(part, grammar, cursor);
    }
    absent(&mut cursor.row, grammar.input.keeps)?;
    Ok(0)
}

/// A part by either of two forms.
#[inline(always)]
fn alternative<R, S: Sees, A: ReadsRhs<R>, B: ReadsRhs<R>, T: Rows<R>>(
    lookahead: &S,
    one: &A,
    other: &B,
    grammar: &Grammar<'_, T>,
    cursor: &mut Cursor,
) -> Result<usize, SyntaxError>
    requires { T.ready grammar.now.rows grammar.now.input }
    ensures { IsPart grammar.now.input.keeps (either (S.look lookahead.now (seen (keys_in grammar.now.input) cursor.old.at))
        (form_at (keys_in grammar.now.input) (T.below grammar.now.rows grammar.now.input) (A.form one.now) cursor.old.at)
        (form_at (keys_in grammar.now.input) (T.below grammar.now.rows grammar.now.input) (B.form other.now) cursor.old.at)) cursor.old.row cursor.new result }
{
    if lookahead.sees(&grammar.input.tokens, cursor.at) {
        return group(one, grammar, cursor);
    }
    group(other, grammar, cursor)
}

/// The turns of a list: no more than there are tokens.
fn turns<R, C: Tells, P: ReadsRhs<R>, T: Rows<R>>(
    told: &C,
    turn: &P,
    grammar: &Grammar<'_, T>,
    cursor: &mut Cursor,
) -> Result<usize, SyntaxError>
    requires { T.ready grammar.now.rows grammar.now.input }
    ensures { IsPart grammar.now.input.keeps (read_turns makes (keys_in grammar.now.input) (test (C.told told.now))
        (form_at (keys_in grammar.now.input) (T.below grammar.now.rows grammar.now.input) (P.form turn.now)) (length (keys_in grammar.now.input)) cursor.old.at) cursor.old.row cursor.new result }
{
    let opened = open(&mut cursor.row, grammar.input.keeps)?;
    let mut height = 0;
    let mut left = grammar.input.tokens.tokens.len();
    'turns: while told.is_there(&grammar.input, cursor.at) {
        if left == 0 {
            return Err(SyntaxError::Syntax { token: cursor.at });
        }
        left -= 1;
        let part = group(turn, grammar, cursor)?;
        height = highest(height, part);
    }
    close(
        &mut cursor.row,
        grammar.input.keeps,
        opened,
        What::Parts,
        0,
        0,
    )?;
    Ok(height)
}

/// Nothing more.
#[derive(Clone, Copy)]
pub struct Done;

impl<R> ReadsRhs<R> for Done {
    ghost form = { λ _. done };

    #[inline(always)]
    fn read<T: Rows<R>>(
        &self,
        _grammar: &Grammar<'_, T>,
        _cursor: &mut Cursor,
    ) -> Result<usize, SyntaxError> {
        Ok(0)
    }
}

/// A token that is kept, and more.
#[derive(Clone, Copy)]
pub struct Tok<K, N>(pub LeafKind, pub K, pub N);

impl<R, K: IsOfKinds, N: ReadsRhs<R>> ReadsRhs<R> for Tok<K, N> {
    ghost form = { λ s. tok (leaf_kind_of s.0) (K.kinds s.1) (N.form s.2) };

    #[inline(always)]
    fn read<T: Rows<R>>(
        &self,
        grammar: &Grammar<'_, T>,
        cursor: &mut Cursor,
    ) -> Result<usize, SyntaxError> {
        let at = cursor.at;
        take(&grammar.input.tokens, &self.1, cursor)?;
        leaf(&mut cursor.row, grammar.input.keeps, at)?;
        self.2.read(grammar, cursor)
    }
}

/// A token that is dropped, and more.
#[derive(Clone, Copy)]
pub struct Punct<N>(pub TokenKind, pub N);

impl<R, N: ReadsRhs<R>> ReadsRhs<R> for Punct<N> {
    ghost form = { λ s. punct s.0 (N.form s.1) };

    #[inline(always)]
    fn read<T: Rows<R>>(
        &self,
        grammar: &Grammar<'_, T>,
        cursor: &mut Cursor,
    ) -> Result<usize, SyntaxError> {
        expect(&grammar.input.tokens, self.0, cursor)?;
        self.1.read(grammar, cursor)
    }
}

/// A node of a row, and more.
#[derive(Clone, Copy)]
pub struct OfRow<R, N>(pub R, pub N);

impl<R: Copy, N: ReadsRhs<R>> ReadsRhs<R> for OfRow<R, N> {
    ghost form = { λ s. row s.0 (N.form s.1) };

    #[inline(always)]
    fn read<T: Rows<R>>(
        &self,
        grammar: &Grammar<'_, T>,
        cursor: &mut Cursor,
    ) -> Result<usize, SyntaxError> {
        let part = grammar.row(self.0, cursor)?;
        higher(part, self.1.read(grammar, cursor))
    }
}

/// A part that may be absent, and more.
#[derive(Clone, Copy)]
pub struct Opt<C, P, N>(pub C, pub P, pub N);

impl<R, C: Tells, P: ReadsRhs<R>, N: ReadsRhs<R>> ReadsRhs<R> for Opt<C, P, N> {
    ghost form = { λ s. opt (C.told s.0) (P.form s.1) (N.form s.2) };

    #[inline(always)]
    fn read<T: Rows<R>>(
        &self,
        grammar: &Grammar<'_, T>,
        cursor: &mut Cursor,
    ) -> Result<usize, SyntaxError> {
        let part = optional(&self.0, &self.1, grammar, cursor)?;
        higher(part, self.2.read(grammar, cursor))
    }
}

/// A list, by its turn, and more.
#[derive(Clone, Copy)]
pub struct Many<C, P, N>(pub C, pub P, pub N);

impl<R, C: Tells, P: ReadsRhs<R>, N: ReadsRhs<R>> ReadsRhs<R> for Many<C, P, N> {
    ghost form = { λ s. many (C.told s.0) (P.form s.1) (N.form s.2) };

    #[inline(always)]
    fn read<T: Rows<R>>(
        &self,
        grammar: &Grammar<'_, T>,
        cursor: &mut Cursor,
    ) -> Result<usize, SyntaxError> {
        let part = turns(&self.0, &self.1, grammar, cursor)?;
        higher(part, self.2.read(grammar, cursor))
    }
}

/// A part by either of two forms, and more: the test says which.
#[derive(Clone, Copy)]
pub struct Alt<S, A, B, N>(pub S, pub A, pub B, pub N);

impl<R, S: Sees, A: ReadsRhs<R>, B: ReadsRhs<R>, N: ReadsRhs<R>> ReadsRhs<R> for Alt<S, A, B, N> {
    ghost form = { λ s. alt (S.look s.0) (A.form s.1) (B.form s.2) (N.form s.3) };

    #[inline(always)]
    fn read<T: Rows<R>>(
        &self,
        grammar: &Grammar<'_, T>,
        cursor: &mut Cursor,
    ) -> Result<usize, SyntaxError> {
        let part = alternative(&self.0, &self.1, &self.2, grammar, cursor)?;
        higher(part, self.3.read(grammar, cursor))
    }
}

/// What is allowed only where the test holds.
#[derive(Clone, Copy)]
pub struct When<S, N>(pub S, pub N);

impl<R, S: Sees, N: ReadsRhs<R>> ReadsRhs<R> for When<S, N> {
    ghost form = { λ s. when_ (S.look s.0) (N.form s.1) };

    #[inline(always)]
    fn read<T: Rows<R>>(
        &self,
        grammar: &Grammar<'_, T>,
        cursor: &mut Cursor,
    ) -> Result<usize, SyntaxError> {
        if self.0.sees(&grammar.input.tokens, cursor.at) {
            return self.1.read(grammar, cursor);
        }
        Err(SyntaxError::Syntax { token: cursor.at })
    }
}

/// What is allowed only where the predicate holds.
#[derive(Clone, Copy)]
pub struct Where<G, N>(pub G, pub N);

impl<R, G: Holds, N: ReadsRhs<R>> ReadsRhs<R> for Where<G, N> {
    ghost form = { λ s. where_ (G.predicate s.0) (N.form s.1) };

    #[inline(always)]
    fn read<T: Rows<R>>(
        &self,
        grammar: &Grammar<'_, T>,
        cursor: &mut Cursor,
    ) -> Result<usize, SyntaxError> {
        if self.0.holds(&grammar.input, cursor.at) {
            return self.1.read(grammar, cursor);
        }
        Err(SyntaxError::Syntax { token: cursor.at })
    }
}
