//! What readers share: the tokens of a text, a place in them, and what is written.

ghost use Rattle.std.specs.Prelude.{◌≡◌, ◌+◌, leb, max, [], ◌++◌, length, take, suc, true, false, IfOk, OnOk, OnErr};
ghost use Rattle.grammar_theory.specs.Key.{keys_of, seen, is, has_kind};
ghost use Rattle.grammar_theory.specs.Fits.{most_nodes};
ghost use Rattle.es_syntax.specs.declared.entry.What.TheVariants as vWhat;
ghost use Rattle.es_syntax.specs.Written.{headed, opened, closed};
ghost use Rattle.es_rules.specs.Steps.{higher_of, with_more, with_opened, with_closed};

use crate::predict::IsOfKinds;
use es_lookahead::Tokens;
use es_syntax::{What, Writer};
use es_token::TokenKind;
use grammar_theory::{Lang, SyntaxError};
use std::alloc::{AllocError, Global};

/// The most nodes on a path of a tree: the program's own, and 500 below it.
const MOST_NODES: usize = 501;

/// The tokens of a text, its language, and whether entries are kept: where none are, no memory is taken.
#[derive(Clone, Copy)]
pub struct Input<'a> {
    pub alloc: Global,
    pub lang: Lang,
    pub tokens: Tokens<'a>,
    pub keeps: bool,
}

/// The number of the next token, and what was written so far.
#[derive(Drop)]
pub struct Cursor {
    pub at: usize,
    pub row: Writer,
}

/// Where an operand begins: the number of its first token, and how many entries precede its own.
#[derive(Clone, Copy)]
pub struct Place {
    pub token: usize,
    pub entry: usize,
}

impl Cursor {
    /// Where the next node begins.
    #[inline(always)]
    pub fn here(&self) -> Place
        ensures token { result.token ≡ self.now.at }
        ensures entry { result.entry ≡ length self.now.row }
    {
        Place {
            token: self.at,
            entry: self.row.len(),
        }
    }

    /// Goes back to a place: what was written from there on is taken away.
    pub fn back_to(&mut self, place: Place)
        ensures token { self.new.at ≡ place.token }
        ensures row { self.new.row ≡ take place.entry self.old.row }
    {
        self.at = place.token;
        self.row.back_to(place.entry);
    }
}

/// Opens a node, where entries are kept.
#[inline(always)]
pub fn open(row: &mut Writer, keeps: bool) -> Result<usize, AllocError>
    ensures place { IfOk result (λ at. at ≡ length row.old) }
    ensures written { OnOk result (row.new ≡ with_more keeps row.old opened) }
    ensures kept { OnErr result (row.new ≡ row.old) }
    ensures memory { OnErr result (keeps ≡ true) }
{
    if !keeps {
        return Ok(row.len());
    }
    row.open()
}

/// Opens a node before what was written from this place on, where entries are kept.
#[inline(always)]
pub fn open_before(row: &mut Writer, keeps: bool, place: usize) -> Result<(), AllocError>
    ensures written { OnOk result (row.new ≡ with_opened keeps place row.old) }
    ensures kept { OnErr result (row.new ≡ row.old) }
    ensures memory { OnErr result (keeps ≡ true) }
{
    if !keeps {
        return Ok(());
    }
    row.open_before(place)
}

/// Closes the node that was opened at this place, where entries are kept; tokens are given by their numbers.
#[inline(always)]
pub fn close(
    row: &mut Writer,
    keeps: bool,
    place: usize,
    what: What,
    from: usize,
    to: usize,
) -> Result<(), AllocError>
    ensures written { OnOk result (row.new ≡ with_closed keeps what from to place row.old) }
    ensures kept { OnErr result (row.new ≡ row.old) }
    ensures memory { OnErr result (keeps ≡ true) }
{
    if !keeps {
        return Ok(());
    }
    close_row(row, place, what, from, to)
}

/// Writes an empty group, where entries are kept.
#[inline(always)]
pub fn absent(row: &mut Writer, keeps: bool) -> Result<(), AllocError>
    ensures written { OnOk result (row.new ≡ with_more keeps row.old (headed vWhat.Parts 0 0 [])) }
    ensures kept { OnErr result (row.new ≡ row.old) }
    ensures memory { OnErr result (keeps ≡ true) }
{
    if !keeps {
        return Ok(());
    }
    row.leaf(What::Parts, 0, 0)
}

/// Writes a token, where entries are kept.
#[inline(always)]
pub fn leaf(row: &mut Writer, keeps: bool, at: usize) -> Result<(), AllocError>
    ensures written { OnOk result (row.new ≡ with_more keeps row.old (headed vWhat.Leaf at (at + 1) [])) }
    ensures kept { OnErr result (row.new ≡ row.old) }
    ensures memory { OnErr result (keeps ≡ true) }
{
    if !keeps {
        return Ok(());
    }
    leaf_row(row, at)
}

/// Closes the node that was opened at this place.
#[inline(always)]
fn close_row(
    row: &mut Writer,
    place: usize,
    what: What,
    from: usize,
    to: usize,
) -> Result<(), AllocError>
    ensures written { OnOk result (row.new ≡ closed what from to place row.old) }
    ensures kept { OnErr result (row.new ≡ row.old) }
{
    let from = number(from)?;
    let to = number(to)?;
    row.close(place, what, from, to)
}

/// Takes the next token, which is of this kind.
#[inline(always)]
pub fn expect(tokens: &Tokens<'_>, kind: TokenKind, cursor: &mut Cursor) -> Result<(), SyntaxError>
    ensures seen { OnOk result (is kind (seen (keys_of tokens.now.tokens.now) cursor.old.at) ≡ true) }
    ensures taken { OnOk result (cursor.new.at ≡ cursor.old.at + 1) }
    ensures other { OnErr result (is kind (seen (keys_of tokens.now.tokens.now) cursor.old.at) ≡ false) }
    ensures row { cursor.new.row ≡ cursor.old.row }
{
    if !tokens.stands(kind, cursor.at) {
        return Err(SyntaxError::Syntax { token: cursor.at });
    }
    let _length = tokens.tokens.len();
    cursor.at += 1;
    Ok(())
}

/// Takes the next token, which is of one of these kinds.
#[inline(always)]
pub fn take<K: IsOfKinds>(
    tokens: &Tokens<'_>,
    kinds: &K,
    cursor: &mut Cursor,
) -> Result<(), SyntaxError>
    ensures seen { OnOk result (has_kind (K.kinds kinds.now) (seen (keys_of tokens.now.tokens.now) cursor.old.at) ≡ true) }
    ensures taken { OnOk result (cursor.new.at ≡ cursor.old.at + 1) }
    ensures other { OnErr result (has_kind (K.kinds kinds.now) (seen (keys_of tokens.now.tokens.now) cursor.old.at) ≡ false) }
    ensures row { cursor.new.row ≡ cursor.old.row }
{
    if cursor.at >= tokens.tokens.len() {
        return Err(SyntaxError::Syntax { token: cursor.at });
    }
    if !kinds.is_there(tokens, cursor.at) {
        return Err(SyntaxError::Syntax { token: cursor.at });
    }
    cursor.at += 1;
    Ok(())
}

/// The number of a token in 32 bits; a greater one is answered as out of memory.
#[inline(always)]
pub fn number(at: usize) -> Result<u32, AllocError>
    ensures { IfOk result (λ n. n ≡ at) }
{
    match u32::try_from(at) {
        Ok(n) => Ok(n),
        Err(_) => Err(AllocError),
    }
}

/// Writes a token that is kept.
#[inline(always)]
fn leaf_row(row: &mut Writer, at: usize) -> Result<(), AllocError>
    ensures written { OnOk result (row.new ≡ row.old ++ headed vWhat.Leaf at (at + 1) []) }
    ensures kept { OnErr result (row.new ≡ row.old) }
{
    let from = number(at)?;
    if from == u32::MAX {
        return Err(AllocError);
    }
    row.leaf(What::Leaf, from, from + 1)
}

/// The greater of two numbers of nodes.
#[inline(always)]
pub fn highest(one: usize, other: usize) -> usize
    ensures { result ≡ max one other }
{
    if one < other { other } else { one }
}

/// The most nodes on a path of a part, and of those after it.
#[inline(always)]
pub fn higher(part: usize, rest: Result<usize, SyntaxError>) -> Result<usize, SyntaxError>
    ensures { result ≡ higher_of part rest }
{
    match rest {
        Ok(rest) => Ok(highest(part, rest)),
        Err(error) => Err(error),
    }
}

/// The most nodes on a path of a node, by that of its parts, where no path of it has too many.
#[tactic(auto, unfolding(grammar_theory::specs::Fits::most_nodes))]
#[inline(always)]
pub fn counted(parts: usize, cursor: &Cursor) -> Result<usize, SyntaxError>
    ensures counted { IfOk result (λ n. (n ≡ suc parts) × (leb (suc parts) most_nodes ≡ true)) }
    ensures many { OnErr result (leb (suc parts) most_nodes ≡ false) }
{
    if parts >= MOST_NODES {
        return Err(SyntaxError::Syntax { token: cursor.at });
    }
    Ok(parts + 1)
}

/// The most nodes on a path of a left-associative node, by that of its first operand, which is as deep as the node, and that
/// of the parts after it, where no path of it has too many.
#[tactic(auto, unfolding(grammar_theory::specs::Fits::most_nodes))]
#[inline(always)]
pub fn reached(first: usize, parts: usize, cursor: &Cursor) -> Result<usize, SyntaxError>
    ensures counted { IfOk result (λ n. (n ≡ max first (suc parts)) × (leb (max first (suc parts)) most_nodes ≡ true)) }
    ensures many { OnErr result (leb (max first (suc parts)) most_nodes ≡ false) }
{
    if parts >= MOST_NODES {
        return Err(SyntaxError::Syntax { token: cursor.at });
    }
    let height = highest(first, parts + 1);
    if height > MOST_NODES {
        return Err(SyntaxError::Syntax { token: cursor.at });
    }
    Ok(height)
}
