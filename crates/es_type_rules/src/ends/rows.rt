//! The rule of each row, and the rows themselves.

ghost use Rattle.es_grammar.specs.types.TypeTable.{type_rule};
ghost use Rattle.es_grammar.specs.TypeNames.{label_name};
ghost use Rattle.es_rules.specs.Labelled.{labelled};
ghost use Rattle.es_rules.specs.Bounded.{row_at};
ghost use Rattle.es_rules.specs.Steps.{keys_in, IsRead, IsRing};
ghost use Rattle.es_type_rules.specs.ends.Derived.{named_rule};

use crate::members::{
    Arguments, EntityOf, ImportType, Key, Member, OpenedFunction, OpenedParameters, Parameter,
    Parameters, Pattern, PatternElement, PatternKey, PatternProperty, ReferenceOf, TypeParameters,
};
use crate::predicates::Kinds;
use crate::{AnyType, Element, IntersectionType, OperandType, ResultType};
use es_grammar::TypeRow;
use es_rules::{Cursor, Grammar, Input, ReadsProduction, Rows};
use grammar_theory::SyntaxError;

/// The rule of a row.
#[derive(Clone, Copy)]
pub struct ProductionOf(pub TypeRow);

impl ReadsProduction<TypeRow> for ProductionOf {
    ghost rule = { λ s. labelled label_name (type_rule s.0) };

    #[tactic(auto, unfolding(es_grammar::specs::types::TypeTable::type_rule))]
    fn read<T: Rows<TypeRow>>(
        &self,
        grammar: &Grammar<'_, T>,
        cursor: &mut Cursor,
    ) -> Result<usize, SyntaxError> {
        match self.0 {
            TypeRow::TypeRow(open) => AnyType(open).read(grammar, cursor),
            TypeRow::IntersectionRow => IntersectionType.read(grammar, cursor),
            TypeRow::OperandRow => OperandType.read(grammar, cursor),
            TypeRow::ReferenceRow => ReferenceOf(Kinds::NameOrThis).read(grammar, cursor),
            TypeRow::EntityRow => EntityOf(Kinds::NameOrThis).read(grammar, cursor),
            TypeRow::ImportRow => ImportType.read(grammar, cursor),
            TypeRow::ArgumentsRow => Arguments.read(grammar, cursor),
            TypeRow::TypeParametersRow => TypeParameters.read(grammar, cursor),
            TypeRow::OpenedFunctionRow => OpenedFunction.read(grammar, cursor),
            TypeRow::OpenedParametersRow => OpenedParameters.read(grammar, cursor),
            TypeRow::ElementRow => Element.read(grammar, cursor),
            TypeRow::MemberRow => Member.read(grammar, cursor),
            TypeRow::KeyRow => Key.read(grammar, cursor),
            TypeRow::ResultRow(open) => ResultType(open).read(grammar, cursor),
            TypeRow::ParametersRow => Parameters.read(grammar, cursor),
            TypeRow::ParameterRow => Parameter.read(grammar, cursor),
            TypeRow::PatternRow => Pattern.read(grammar, cursor),
            TypeRow::PatternElementRow => PatternElement.read(grammar, cursor),
            TypeRow::PatternPropertyRow => PatternProperty.read(grammar, cursor),
            TypeRow::PatternKeyRow => PatternKey.read(grammar, cursor),
        }
    }
}

/// The rows of types, with at most `room` on a path: `read` reads each of them.
#[derive(Clone, Copy)]
struct Ring<F> {
    room: usize,
    read: F,
}

impl<F: Fn(Input<'_>, usize, TypeRow, &mut Cursor) -> Result<usize, SyntaxError>> Rows<TypeRow>
    for Ring<F> {
    ghost ready = { λ s input. IsRing named_rule input s.room (F.pre s.read) (F.post s.read) };

    ghost below = { λ s input r at. row_at named_rule (keys_in input) s.room r at };

    fn row(
        &self,
        input: &Input<'_>,
        row: TypeRow,
        cursor: &mut Cursor,
    ) -> Result<usize, SyntaxError> {
        (self.read)(*input, self.room, row, cursor)
    }
}

/// A row, with at most `room` rows on a path.
#[tactic(auto, unfolding(es_rules::specs::Bounded::row_at))]
pub fn read_row(
    input: Input<'_>,
    room: usize,
    row: TypeRow,
    cursor: &mut Cursor,
) -> Result<usize, SyntaxError>
    ensures { IsRead input.entry.keeps (row_at named_rule (keys_in input.entry) room row cursor.old.at) cursor.old.row cursor.new result }
{
    if room == 0 {
        return Err(SyntaxError::Syntax { token: cursor.at });
    }
    let rows = Ring {
        room: room - 1,
        read: read_row,
    };
    ProductionOf(row).read(&Grammar { input, rows }, cursor)
}
