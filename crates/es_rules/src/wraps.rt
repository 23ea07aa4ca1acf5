//! Turns after an operand: each makes a node, whose first part is what was read before it.

ghost use Rattle.std.specs.Prelude.{◌≡◌, ◌∷◌, [], length, true, false, List, leb, ◌+◌, ◌<◌, IfSome, IfOk, IfNone, OnOk, OnErr};
ghost use Rattle.grammar_theory.specs.Key.{keys_of};
ghost use Rattle.grammar_theory.specs.Productions.{test};
ghost use Rattle.grammar_theory.specs.Fits.{most_nodes};
ghost use Rattle.grammar_theory.specs.Plain.{over};
ghost use Rattle.grammar_theory.specs.Reader.{and_then};
ghost use Rattle.es_grammar.specs.Conditions.{leans};
ghost use Rattle.es_grammar.specs.declared.cst.tree.Cst.{Cst};
ghost use Rattle.es_syntax.specs.declared.entry.Entry.{Entry};
ghost use Rattle.es_syntax.specs.Held.{label_of};
ghost use Rattle.es_syntax.specs.declared.entry.What.TheVariants as vWhat;
ghost use Rattle.es_rules.specs.Bounded.{form_at, turned_at, wraps_at};
ghost use Rattle.es_rules.specs.Steps.{keys_in, IsRead, IsTurn, LeadsChain, Reopens, Writes, single};

use crate::cursor::{Cursor, Place, close, counted, highest, open, open_before, reached};
use crate::forms::ReadsRhs;
use crate::predict::Tells;
use crate::table::{Grammar, Rows};
use es_grammar::NodeKind;
use es_syntax::{Entry, Lean, What, Writer};
use grammar_theory::SyntaxError;
use std::alloc::AllocError;

/// The left-associative alternatives: a chain of them is one entry.
#[inline(always)]
fn lean_of(label: NodeKind) -> Option<Lean>
    ensures some { IfSome result (λ lean. label_of lean ≡ label) }
    ensures leaning { IfSome result (λ lean. leans label ≡ true) }
    ensures none { IfNone result (leans label ≡ false) }
{
    match label {
        NodeKind::Binary => Some(Lean::Binary),
        NodeKind::TypedBinary => Some(Lean::TypedBinary),
        _ => None,
    }
}

/// The most nodes on a path of a node of an operand and of a turn after it, where no path of it has too many: where it is
/// left-associative, the operand is as deep as the node.
#[inline(always)]
fn turned(
    label: NodeKind,
    first: usize,
    parts: usize,
    cursor: &Cursor,
) -> Result<usize, SyntaxError>
    ensures counted { IfOk result (λ n. (n ≡ over (leans label) first parts) × (leb (over (leans label) first parts) most_nodes ≡ true)) }
    ensures many { OnErr result (leb (over (leans label) first parts) most_nodes ≡ false) }
{
    match lean_of(label) {
        None => counted(highest(first, parts), cursor),
        Some(_) => reached(first, parts, cursor),
    }
}

/// One turn after an operand: a node of both.
fn wrapped<R, P: ReadsRhs<R>, T: Rows<R>>(
    label: NodeKind,
    turn: &P,
    from: Place,
    first: usize,
    grammar: &Grammar<'_, T>,
    cursor: &mut Cursor,
) -> Result<usize, SyntaxError>
    requires { T.ready grammar.now.rows grammar.now.input }
    ensures { (base : List Entry) (t : Cst) → length base ≡ from.entry → Writes grammar.now.input.keeps base cursor.old.row (t ∷ [])
        → IsRead grammar.now.input.keeps (and_then (form_at (keys_in grammar.now.input) (T.below grammar.now.rows grammar.now.input) (P.form turn.now) cursor.old.at)
        (λ ps to. turned_at label from.token to (single t first) ps)) base cursor.new result }
{
    let keeps = grammar.input.keeps;
    open_before(&mut cursor.row, keeps, from.entry)?;
    let parts = turn.read(grammar, cursor)?;
    let height = turned(label, first, parts, cursor)?;
    close(
        &mut cursor.row,
        keeps,
        from.entry,
        What::Node(label),
        from.token,
        cursor.at,
    )?;
    Ok(height)
}

/// The turns after an operand, each of which makes a node of its own.
fn nests<R, C: Tells, P: ReadsRhs<R>, T: Rows<R>>(
    label: NodeKind,
    told: &C,
    turn: &P,
    from: Place,
    first: usize,
    grammar: &Grammar<'_, T>,
    cursor: &mut Cursor,
) -> Result<usize, SyntaxError>
    requires { T.ready grammar.now.rows grammar.now.input }
    ensures { (base : List Entry) (t : Cst) → length base ≡ from.entry → Writes grammar.now.input.keeps base cursor.old.row (t ∷ [])
        → IsRead grammar.now.input.keeps (wraps_at (keys_in grammar.now.input) label (test (C.told told.now)) (form_at (keys_in grammar.now.input) (T.below grammar.now.rows grammar.now.input) (P.form turn.now)) from.token (length (keys_in grammar.now.input)) (single t first) cursor.old.at) base cursor.new result }
{
    let mut height = first;
    let mut left = grammar.input.tokens.tokens.len();
    'turns: while told.is_there(&grammar.input, cursor.at) {
        if left == 0 {
            return Err(SyntaxError::Syntax { token: cursor.at });
        }
        left -= 1;
        height = wrapped(label, turn, from, height, grammar, cursor)?;
    }
    Ok(height)
}

/// One turn of a left-associative chain.
fn leaned<R, P: ReadsRhs<R>, T: Rows<R>>(
    turn: &P,
    first: usize,
    grammar: &Grammar<'_, T>,
    cursor: &mut Cursor,
) -> Result<usize, SyntaxError>
    requires ready { T.ready grammar.now.rows grammar.now.input }
    requires keeps { grammar.now.input.keeps ≡ true }
    ensures { IsTurn (form_at (keys_in grammar.now.input) (T.below grammar.now.rows grammar.now.input) (P.form turn.now) cursor.old.at) first cursor.old.row cursor.new result }
{
    let opened = open(&mut cursor.row, true)?;
    let parts = turn.read(grammar, cursor)?;
    let height = reached(first, parts, cursor)?;
    close(&mut cursor.row, true, opened, What::Parts, 0, cursor.at)?;
    Ok(height)
}

/// An entry with its first part is such a chain, from this token on, of two parts at least.
fn leads(head: &Entry, first: &Entry, lean: Lean, token: usize) -> bool
    ensures { result ≡ true → (head.now.what ≡ vWhat.Lean lean) × (head.now.from ≡ token) × (first.now.size + 1 < head.now.size) }
{
    match head.what {
        What::Lean(other) => {
            other == lean
                && head.from as usize == token
                && (first.size as usize) + 1 < head.size as usize
        }
        What::Leaf => false,
        What::Node(_) => false,
        What::Role(_) => false,
        What::Parts => false,
    }
}

/// Whether the operand that was written from this place on is such a chain already, of a tighter level.
fn is_chain(row: &Writer, lean: Lean, from: Place) -> bool
    ensures { result ≡ true → LeadsChain lean from.token from.entry row.now }
{
    let entries = row.row().entries;
    match entries.get(from.entry) {
        None => false,
        Some(head) => match entries.get(from.entry + 1) {
            None => false,
            Some(first) => leads(head, first, lean, from.token),
        },
    }
}

/// Opens a chain before an operand; one that is a chain itself goes on.
fn open_chain(row: &mut Writer, lean: Lean, from: Place) -> Result<(), AllocError>
    ensures opened { OnOk result (Reopens lean from.token from.entry row.old row.new) }
    ensures kept { OnErr result (row.new ≡ row.old) }
{
    if is_chain(row, lean, from) {
        return Ok(());
    }
    open_before(row, true, from.entry)
}

/// The turns after an operand as one chain: at least one turn.
fn leans<R, C: Tells, P: ReadsRhs<R>, T: Rows<R>>(
    lean: Lean,
    told: &C,
    turn: &P,
    from: Place,
    first: usize,
    grammar: &Grammar<'_, T>,
    cursor: &mut Cursor,
) -> Result<usize, SyntaxError>
    requires ready { T.ready grammar.now.rows grammar.now.input }
    requires keeps { grammar.now.input.keeps ≡ true }
    requires there { test (C.told told.now) (keys_in grammar.now.input) cursor.old.at ≡ true }
    ensures { (base : List Entry) (t : Cst) → length base ≡ from.entry → Writes true base cursor.old.row (t ∷ [])
        → IsRead true (wraps_at (keys_in grammar.now.input) (label_of lean) (test (C.told told.now)) (form_at (keys_in grammar.now.input) (T.below grammar.now.rows grammar.now.input) (P.form turn.now)) from.token (length (keys_in grammar.now.input)) (single t first) cursor.old.at) base cursor.new result }
{
    open_chain(&mut cursor.row, lean, from)?;
    let mut height = first;
    let mut left = grammar.input.tokens.tokens.len();
    'turns: while told.is_there(&grammar.input, cursor.at) {
        if left == 0 {
            return Err(SyntaxError::Syntax { token: cursor.at });
        }
        left -= 1;
        height = leaned(turn, height, grammar, cursor)?;
    }
    close(
        &mut cursor.row,
        true,
        from.entry,
        What::Lean(lean),
        from.token,
        cursor.at,
    )?;
    Ok(height)
}

/// The turns after an operand that was read from a place on: no more than there are tokens.
#[inline(always)]
pub fn wraps<R, C: Tells, P: ReadsRhs<R>, T: Rows<R>>(
    label: NodeKind,
    told: &C,
    turn: &P,
    from: Place,
    first: usize,
    grammar: &Grammar<'_, T>,
    cursor: &mut Cursor,
) -> Result<usize, SyntaxError>
    requires { T.ready grammar.now.rows grammar.now.input }
    ensures { (base : List Entry) (t : Cst) → length base ≡ from.entry → Writes grammar.now.input.keeps base cursor.old.row (t ∷ [])
        → IsRead grammar.now.input.keeps (wraps_at (keys_in grammar.now.input) label (test (C.told told.now)) (form_at (keys_in grammar.now.input) (T.below grammar.now.rows grammar.now.input) (P.form turn.now)) from.token (length (keys_in grammar.now.input)) (single t first) cursor.old.at) base cursor.new result }
{
    if !told.is_there(&grammar.input, cursor.at) {
        return Ok(first);
    }
    if !grammar.input.keeps {
        return nests(label, told, turn, from, first, grammar, cursor);
    }
    match lean_of(label) {
        None => nests(label, told, turn, from, first, grammar, cursor),
        Some(lean) => leans(lean, told, turn, from, first, grammar, cursor),
    }
}
