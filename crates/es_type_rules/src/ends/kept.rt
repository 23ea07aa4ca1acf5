//! Where type arguments and type parameters end, found out once for each `<` of a text: from the last one to the first.

ghost use Rattle.std.specs.Prelude.{◌≡◌, ℕ, ◌≤◌, ◌<◌, true, false, length, None, IfOk, IfSome, OnOk};
ghost use Rattle.es_token.specs.declared.token.TokenKind.TheVariants as k;
ghost use Rattle.grammar_theory.specs.Key.{keys_of, seen, is};
ghost use Rattle.grammar_theory.specs.Fits.{most_nodes};
ghost use Rattle.es_grammar.specs.types.TypeNames.{begins_angle};
ghost use Rattle.es_rules.specs.Steps.{keys_in, IsRead};
ghost use Rattle.es_lookahead.specs.Ends.{IsRight, AreRight, row_end};
ghost use Rattle.es_type_rules.specs.ends.Kept.{kept_at, kept_or};
ghost use Rattle.es_type_rules.specs.ends.Angles.{is_kept, IsKeptRing};

use crate::ends::rows::ProductionOf;
use es_grammar::TypeRow;
use es_lookahead::{Angle, End, end_in};
use es_rules::{Cursor, Grammar, Input, ReadsProduction, Rows, Tokens};
use es_syntax::Writer;
use es_token::{Token, TokenKind};
use grammar_theory::{Lang, SyntaxError};
use std::alloc::{AllocError, Global};

/// The most rows on a path of a tree.
const MOST_NODES: usize = 501;

/// What is known of the angles after a place, and how many rows are allowed on a path.
#[derive(Clone, Copy)]
pub struct Room<'a> {
    pub angles: &'a [Angle],
    pub rows: usize,
}

/// Rows of which some are cached, where so many are allowed on a path: `read` reads each other one.
#[derive(Clone, Copy)]
struct KeptRing<'a, F> {
    room: Room<'a>,
    read: F,
}

impl<F: Fn(Input<'_>, Room<'_>, TypeRow, &mut Cursor) -> Result<usize, SyntaxError>> Rows<TypeRow>
    for KeptRing<'_, F> {
    ghost ready = { λ s input. IsKeptRing input s.room (F.pre s.read) (F.post s.read) };

    ghost below = { λ s input r at. kept_or (keys_in input) (is_kept s.room.angles.now) s.room.rows r at };

    fn row(
        &self,
        input: &Input<'_>,
        row: TypeRow,
        cursor: &mut Cursor,
    ) -> Result<usize, SyntaxError> {
        match end_in(self.room.angles, row, cursor.at) {
            Some(known) => match known {
                Some(end) => {
                    cursor.at = end.to;
                    Ok(end.height)
                }
                None => Err(SyntaxError::Syntax { token: cursor.at }),
            },
            None => (self.read)(*input, self.room, row, cursor),
        }
    }
}

/// A row, of which some answers are kept.
#[tactic(auto, unfolding(crate::specs::ends::Kept::kept_at))]
fn read_kept(
    input: Input<'_>,
    room: Room<'_>,
    row: TypeRow,
    cursor: &mut Cursor,
) -> Result<usize, SyntaxError>
    requires rights { AreRight (keys_in input) room.angles.now }
    requires silent { input.keeps ≡ false }
    ensures { IsRead input.entry.keeps (kept_at (keys_in input.entry) (is_kept room.entry.angles.now) room.entry.rows row cursor.old.at) cursor.old.row cursor.new result }
{
    if room.rows == 0 {
        return Err(SyntaxError::Syntax { token: cursor.at });
    }
    let below = Room {
        angles: room.angles,
        rows: room.rows - 1,
    };
    let rows = KeptRing {
        room: below,
        read: read_kept,
    };
    ProductionOf(row).read(&Grammar { input, rows }, cursor)
}

/// Where a row ends that is read at a place, by what is kept.
#[tactic(auto, unfolding(grammar_theory::specs::Fits::most_nodes))]
fn end_at(input: Input<'_>, angles: &[Angle], row: TypeRow, at: usize) -> Option<End>
    requires place { at ≤ length input.tokens.tokens.now }
    requires rights { AreRight (keys_in input) angles.now }
    requires silent { input.keeps ≡ false }
    ensures { row_end row (keys_in input.entry) at ≡ result }
{
    let mut cursor = Cursor {
        at,
        row: Writer::new(input.alloc),
    };
    let room = Room {
        angles,
        rows: MOST_NODES,
    };
    match read_kept(input, room, row, &mut cursor) {
        Ok(height) => Some(End {
            to: cursor.at,
            height,
        }),
        Err(_error) => None,
    }
}

/// What is known of an angle, by what is known of those after it.
fn angle_of(input: Input<'_>, angles: &[Angle], at: usize) -> Angle
    requires place { at ≤ length input.tokens.tokens.now }
    requires rights { AreRight (keys_in input) angles.now }
    requires silent { input.keeps ≡ false }
    ensures right { IsRight (keys_in input.entry) result }
    ensures place { result.at ≡ at }
{
    Angle {
        first: at,
        at,
        arguments: end_at(input, angles, TypeRow::ArgumentsRow, at),
        parameters: end_at(input, angles, TypeRow::TypeParametersRow, at),
    }
}

/// `<` or `<<` is there.
#[tactic(auto, unfolding(es_grammar::specs::types::TypeNames::begins_angle))]
fn stands_angle(tokens: &Tokens<'_>, at: usize) -> bool
    ensures kind { result ≡ begins_angle (seen (keys_of tokens.now.tokens.now) at) }
    ensures within { result ≡ true → at < length tokens.now.tokens.now }
{
    tokens.stands(TokenKind::Less, at) || tokens.stands(TokenKind::LessLess, at)
}

/// Nothing opens there.
fn opens_nothing(angle: &Angle) -> bool
    ensures { result ≡ true → (angle.now.arguments ≡ None) × (angle.now.parameters ≡ None) }
{
    angle.arguments.is_none() && angle.parameters.is_none()
}

/// What is known of an angle and of the last item before it, as one, where nothing opens at either. From the place after the angle
/// up to `low` nothing begins.
fn joined(tokens: &Tokens<'_>, last: Angle, low: usize, angle: Angle) -> Option<Angle>
    requires last { IsRight (keys_of tokens.now.tokens.now) last }
    requires right { IsRight (keys_of tokens.now.tokens.now) angle }
    requires between { (q : ℕ) → angle.at < q → q < low → begins_angle (seen (keys_of tokens.now.tokens.now) q) ≡ false }
    ensures { IfSome result (IsRight (keys_of tokens.now.tokens.now)) }
{
    if last.first > low {
        return None;
    }
    if !opens_nothing(&last) {
        return None;
    }
    if !opens_nothing(&angle) {
        return None;
    }
    Some(Angle {
        first: angle.first,
        at: last.at,
        arguments: last.arguments,
        parameters: last.parameters,
    })
}

/// Keeps what is known of an angle, in one item with the last one where nothing opens at either.
fn keep(
    tokens: &Tokens<'_>,
    angles: &mut Vec<Angle>,
    low: usize,
    angle: Angle,
) -> Result<(), AllocError>
    requires rights { AreRight (keys_of tokens.now.tokens.now) angles.now.items }
    requires right { IsRight (keys_of tokens.now.tokens.now) angle }
    requires between { (q : ℕ) → angle.at < q → q < low → begins_angle (seen (keys_of tokens.now.tokens.now) q) ≡ false }
    ensures { OnOk result (AreRight (keys_of tokens.now.tokens.now) angles.new.items) }
{
    let Some(last) = angles.pop() else {
        angles.push(angle)?;
        return Ok(());
    };
    if let Some(both) = joined(tokens, last, low, angle) {
        angles.push(both)?;
        return Ok(());
    }
    angles.push(last)?;
    angles.push(angle)?;
    Ok(())
}

/// The place after the last `>`, or 0.
fn last_closed(tokens: &Tokens<'_>) -> usize
    ensures { (q : ℕ) → result ≤ q → is k.Greater (seen (keys_of tokens.now.tokens.now) q) ≡ false }
{
    let mut left = tokens.tokens.len();
    'tokens: while left > 0 {
        if tokens.sees(TokenKind::Greater, left - 1) {
            return left;
        }
        left -= 1;
    }
    0
}

/// What is known of the tokens after the last `>`: nothing that begins there ends.
fn unclosed(tokens: &Tokens<'_>) -> Angle
    ensures { IsRight (keys_of tokens.now.tokens.now) result }
{
    Angle {
        first: last_closed(tokens),
        at: tokens.tokens.len(),
        arguments: None,
        parameters: None,
    }
}

/// What is known of each `<` and `<<`, from the last one to the first. Those after the last `>` are answered at once: type arguments
/// and type parameters end with one. Neighbours where nothing opens are one item.
pub fn angles_of(alloc: Global, tokens: &[Token]) -> Result<Vec<Angle>, AllocError>
    ensures { IfOk result (λ angles. AreRight (keys_of tokens.now) angles.items) }
{
    let input = Input {
        alloc,
        lang: Lang::Typescript,
        tokens: Tokens {
            tokens,
            angles: &[],
        },
        keeps: false,
    };
    let mut angles: Vec<Angle> = Vec::new(alloc);
    let last = unclosed(&input.tokens);
    angles.push(last)?;
    let mut left = last.first;
    let mut low = left;
    'tokens: while left > 0 {
        left -= 1;
        if stands_angle(&input.tokens, left) {
            let angle = angle_of(input, angles.as_slice(), left);
            keep(&input.tokens, &mut angles, low, angle)?;
            low = left;
        }
    }
    Ok(angles)
}
