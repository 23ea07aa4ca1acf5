//! Parts of types, from tokens.

ghost use Rattle.std.specs.Prelude.{◌≡◌, ◌≤◌, ◌↔◌, ℕ, length, Some, IsTrue, IfSome};
ghost use Rattle.grammar_theory.specs.Key.{keys_of, seen};
ghost use Rattle.grammar_theory.specs.Fits.{most_nodes};
ghost use Rattle.es_rules.specs.Bounded.{row_at};
ghost use Rattle.es_rules.specs.Steps.{keys_in, IsRead};
ghost use Rattle.es_type_rules.specs.declared.ends.types.TypePart.TheVariants.{TParams, TArgs};
ghost use Rattle.es_type_rules.specs.ends.Derived.{named_rule, part_row, Reaches, follows_arguments, OpensArguments};

use crate::ends::rows::read_row;
use es_grammar::TypeRow;
use es_rules::{Cursor, Input, Tokens};
use es_syntax::Writer;
use es_token::{Token, TokenKind};
use grammar_theory::{Lang, SyntaxError};
use std::alloc::Global;

/// The most rows on a path of a tree.
const MOST_NODES: usize = 501;

/// The most nodes on a path of a part that a predicate asks for.
const ROOM: usize = 500;

/// A part that holds types.
#[derive(Clone, Copy)]
pub enum TypePart {
    /// A type.
    Whole,
    /// The result of a function.
    Ret,
    /// Type parameters, with their `<` and `>`.
    TParams,
    /// Type arguments, with their `<` and `>`.
    TArgs,
}

/// The row of a part.
fn part_row(part: TypePart) -> TypeRow
    ensures { result ≡ part_row part }
{
    match part {
        TypePart::Whole => TypeRow::TypeRow(true),
        TypePart::Ret => TypeRow::ResultRow(true),
        TypePart::TParams => TypeRow::TypeParametersRow,
        TypePart::TArgs => TypeRow::ArgumentsRow,
    }
}

/// What the table's reader answers of a part.
#[tactic(auto, unfolding(grammar_theory::specs::Fits::most_nodes))]
fn read_part(input: Input<'_>, part: TypePart, cursor: &mut Cursor) -> Result<usize, SyntaxError>
    ensures { IsRead input.entry.keeps (row_at named_rule (keys_in input.entry) most_nodes (part_row part) cursor.old.at) cursor.old.row cursor.new result }
{
    read_row(input, MOST_NODES, part_row(part), cursor)
}

/// The number after the last token of a part at a place, with at most `room` nodes on a path, or none where there is none.
/// It writes no entry and allocates nothing.
pub fn part_end(
    alloc: Global,
    part: TypePart,
    tokens: &[Token],
    at: usize,
    room: usize,
) -> Option<usize>
    requires place { at ≤ length tokens.now }
    requires room { room ≤ 500 }
    // The part reaches the end that is answered.
    ensures some { IfSome result (λ to. Reaches part (keys_of tokens.now) room at to) }
    // The end that it reaches is answered: there is one at most.
    ensures only { (to : ℕ) → Reaches part (keys_of tokens.now) room at to → result ≡ Some to }
{
    let input = Input {
        alloc,
        lang: Lang::Typescript,
        tokens: Tokens {
            tokens,
            angles: &[],
        },
        keeps: false,
    };
    let mut cursor = Cursor {
        at,
        row: Writer::new(alloc),
    };
    match read_part(input, part, &mut cursor) {
        Ok(height) => {
            if height > room {
                return None;
            }
            Some(cursor.at)
        }
        Err(_error) => None,
    }
}

/// The number after the last token of the type parameters that can be read at a place, or none where none can.
pub fn type_parameters_end(alloc: Global, tokens: &[Token], at: usize) -> Option<usize>
    requires { at ≤ length tokens.now }
    ensures some { IfSome result (λ to. Reaches TParams (keys_of tokens.now) 500 at to) }
    ensures only { (to : ℕ) → Reaches TParams (keys_of tokens.now) 500 at to → result ≡ Some to }
{
    part_end(alloc, TypePart::TParams, tokens, at, ROOM)
}

/// The number after the last token of the type arguments that can be read at a place, or none where none can.
pub fn type_arguments_end(alloc: Global, tokens: &[Token], at: usize) -> Option<usize>
    requires { at ≤ length tokens.now }
    ensures some { IfSome result (λ to. Reaches TArgs (keys_of tokens.now) 500 at to) }
    ensures only { (to : ℕ) → Reaches TArgs (keys_of tokens.now) 500 at to → result ≡ Some to }
{
    part_end(alloc, TypePart::TArgs, tokens, at, ROOM)
}

/// What follows type arguments after an expression.
fn follows_arguments(tokens: &Tokens<'_>, in_extends: bool, at: usize) -> bool
    ensures { result ≡ follows_arguments in_extends (seen (keys_of tokens.now.tokens.now) at) }
{
    if tokens.sees(TokenKind::OpenParen, at)
        || tokens.sees(TokenKind::TemplateWhole, at)
        || tokens.sees(TokenKind::TemplateHead, at)
    {
        return true;
    }
    in_extends
        && (tokens.sees(TokenKind::OpenBrace, at) || tokens.sees(TokenKind::ImplementsWord, at))
}

/// Whether type arguments can be read at a place after an expression, which is in `extends` or not.
pub fn is_type_arguments(alloc: Global, tokens: &[Token], at: usize, in_extends: bool) -> bool
    requires { at ≤ length tokens.now }
    ensures { IsTrue result ↔ OpensArguments in_extends (keys_of tokens.now) at }
{
    match part_end(alloc, TypePart::TArgs, tokens, at, ROOM) {
        Some(end) => follows_arguments(
            &Tokens {
                tokens,
                angles: &[],
            },
            in_extends,
            end,
        ),
        None => false,
    }
}
