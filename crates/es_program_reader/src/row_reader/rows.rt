//! The rule of each row, and the rows themselves.

ghost use Rattle.es_grammar.specs.Table.{rule};
ghost use Rattle.es_rules.specs.Bounded.{row_at};
ghost use Rattle.es_rules.specs.Steps.{keys_in, IsRead, IsRing};

use es_expression_rules::{
    And, Arguments, Assignment, BitAnd, BitOr, BitXor, Callee, Chain, Element, Equality,
    Expression, Head, HeadPattern, InnerPattern, MemberPost, PatternElement, Post, Power, Product,
    Relation, RightOperand, Shift, Sum, Template, Unary,
};
use es_grammar::Row;
use es_member_rules::{Key, Member, Parameter, Parameters, PatternProperty, Property, Signature};
use es_rules::{Cursor, Grammar, Input, ReadsProduction, Refuse, Rows};
use es_shared_rules::{AnyClass, AnyFunction, Pattern};
use es_statement_rules::{
    Attributes, Block, Clause, Declaration, Declarator, Declared, Entity, ExportSpecifier,
    ImportSpecifier, Item, Module, Named, Script, Statement, Using, Variables,
};
use es_type_rules::ends::OfTypes;
use grammar_theory::{Lang, SyntaxError};

/// The rule of a row, in a language: each of them.
#[derive(Clone, Copy)]
struct AnyProduction(Lang, Row);

impl ReadsProduction<Row> for AnyProduction {
    ghost rule = { λ s. rule s.0 s.1 };

    #[inline(never)]
    #[tactic(auto, unfolding(es_grammar::specs::Table::rule))]
    fn read<T: Rows<Row>>(
        &self,
        grammar: &Grammar<'_, T>,
        cursor: &mut Cursor,
    ) -> Result<usize, SyntaxError> {
        match self.1 {
            Row::ModuleRow => Module.read(grammar, cursor),
            Row::ScriptRow => Script.read(grammar, cursor),
            Row::ItemRow(context) => Item(self.0, context).read(grammar, cursor),
            Row::ClauseRow => Clause(self.0).read(grammar, cursor),
            Row::NamedRow => Named(self.0).read(grammar, cursor),
            Row::ImportSpecifierRow => ImportSpecifier(self.0).read(grammar, cursor),
            Row::ExportSpecifierRow => ExportSpecifier(self.0).read(grammar, cursor),
            Row::AttributesRow => Attributes.read(grammar, cursor),
            Row::EntityRow => Entity.read(grammar, cursor),
            Row::StatementRow(context) => Statement(self.0, context).read(grammar, cursor),
            Row::BlockRow(context) => Block(context).read(grammar, cursor),
            Row::DeclarationRow(context) => {
                Declaration(self.0, context, Refuse).read(grammar, cursor)
            }
            Row::DeclaredRow(context) => Declared(self.0, context).read(grammar, cursor),
            Row::VariablesRow(context) => Variables(context).read(grammar, cursor),
            Row::DeclaratorRow(context) => Declarator(self.0, context).read(grammar, cursor),
            Row::UsingRow(context) => Using(context).read(grammar, cursor),
            Row::HeadRow(context) => Head(self.0, context).read(grammar, cursor),
            Row::HeadPatternRow(context) => HeadPattern(self.0, context).read(grammar, cursor),
            Row::FunctionRow(named, context) => {
                AnyFunction(self.0, named, context).read(grammar, cursor)
            }
            Row::ClassRow(named, context) => AnyClass(self.0, named, context).read(grammar, cursor),
            Row::SignatureRow(context) => Signature(self.0, context).read(grammar, cursor),
            Row::ParametersRow(context) => Parameters(self.0, context).read(grammar, cursor),
            Row::ParameterRow(context) => Parameter(self.0, context).read(grammar, cursor),
            Row::PatternRow(assigned, context) => {
                Pattern(self.0, assigned, context).read(grammar, cursor)
            }
            Row::InnerPatternRow(assigned, context) => {
                InnerPattern(self.0, assigned, context).read(grammar, cursor)
            }
            Row::PatternElementRow(assigned, context) => {
                PatternElement(self.0, assigned, context).read(grammar, cursor)
            }
            Row::PatternPropertyRow(assigned, context) => {
                PatternProperty(assigned, context).read(grammar, cursor)
            }
            Row::MemberRow(context) => Member(self.0, context).read(grammar, cursor),
            Row::PropertyRow(context) => Property(self.0, context).read(grammar, cursor),
            Row::KeyRow(private, context) => Key(private, context).read(grammar, cursor),
            Row::ExpressionRow(context) => Expression(self.0, context).read(grammar, cursor),
            Row::AssignmentRow(context) => Assignment(self.0, context).read(grammar, cursor),
            Row::AndRow(context) => And(context, BitOr(self.0, context)).read(grammar, cursor),
            Row::BitOrRow(context) => BitOr(self.0, context).read(grammar, cursor),
            Row::BitXorRow(context) => BitXor(self.0, context).read(grammar, cursor),
            Row::BitAndRow(context) => BitAnd(self.0, context).read(grammar, cursor),
            Row::EqualityRow(context) => Equality(self.0, context).read(grammar, cursor),
            Row::RelationRow(context) => Relation(self.0, context).read(grammar, cursor),
            Row::ShiftRow(context) => Shift(self.0, context).read(grammar, cursor),
            Row::SumRow(context) => Sum(self.0, context).read(grammar, cursor),
            Row::ProductRow(context) => Product(self.0, context).read(grammar, cursor),
            Row::PowerRow(context) => Power(self.0, context).read(grammar, cursor),
            Row::UnaryRow(context) => Unary(self.0, context).read(grammar, cursor),
            Row::RightRow(context) => RightOperand(self.0, context).read(grammar, cursor),
            Row::ChainRow(context) => Chain(self.0, context).read(grammar, cursor),
            Row::CalleeRow(context) => Callee(self.0, context).read(grammar, cursor),
            Row::PostRow(context) => Post(self.0, context).read(grammar, cursor),
            Row::MemberPostRow(context) => MemberPost(self.0, context).read(grammar, cursor),
            Row::ArgumentsRow(context) => Arguments(context).read(grammar, cursor),
            Row::ElementRow(context) => Element(self.0, context).read(grammar, cursor),
            Row::TemplateRow(context) => Template(context).read(grammar, cursor),
            Row::TypesRow(row) => OfTypes(row).read(grammar, cursor),
        }
    }
}

/// The rule of a row, in a language. The most read come first, in a stack frame of their own: that of all rows is large.
#[derive(Clone, Copy)]
pub struct ProductionOf(pub Lang, pub Row);

impl ReadsProduction<Row> for ProductionOf {
    ghost rule = { λ s. rule s.0 s.1 };

    #[tactic(auto, unfolding(es_grammar::specs::Table::rule))]
    fn read<T: Rows<Row>>(
        &self,
        grammar: &Grammar<'_, T>,
        cursor: &mut Cursor,
    ) -> Result<usize, SyntaxError> {
        match self.1 {
            Row::PostRow(context) => Post(self.0, context).read(grammar, cursor),
            Row::AssignmentRow(context) => Assignment(self.0, context).read(grammar, cursor),
            Row::ExpressionRow(context) => Expression(self.0, context).read(grammar, cursor),
            Row::ArgumentsRow(context) => Arguments(context).read(grammar, cursor),
            Row::StatementRow(context) => Statement(self.0, context).read(grammar, cursor),
            Row::TypesRow(row) => OfTypes(row).read(grammar, cursor),
            row => AnyProduction(self.0, row).read(grammar, cursor),
        }
    }
}

/// The rows, with at most `room` on a path: `read` reads each of them.
#[derive(Clone, Copy)]
pub struct Ring<F> {
    pub room: usize,
    pub read: F,
}

impl<F: Fn(Input<'_>, usize, Row, &mut Cursor) -> Result<usize, SyntaxError>> Rows<Row>
    for Ring<F> {
    ghost ready = { λ s input. IsRing (rule input.lang) input s.room (F.pre s.read) (F.post s.read) };

    ghost below = { λ s input r at. row_at (rule input.lang) (keys_in input) s.room r at };

    fn row(&self, input: &Input<'_>, row: Row, cursor: &mut Cursor) -> Result<usize, SyntaxError> {
        (self.read)(*input, self.room, row, cursor)
    }
}

/// A row, with at most `room` rows on a path.
#[tactic(auto, unfolding(es_rules::specs::Bounded::row_at))]
pub fn read_row(
    input: Input<'_>,
    room: usize,
    row: Row,
    cursor: &mut Cursor,
) -> Result<usize, SyntaxError>
    ensures { IsRead input.entry.keeps (row_at (rule input.entry.lang) (keys_in input.entry) room row cursor.old.at) cursor.old.row cursor.new result }
{
    if room == 0 {
        return Err(SyntaxError::Syntax { token: cursor.at });
    }
    let rows = Ring {
        room: room - 1,
        read: read_row,
    };
    ProductionOf(input.lang, row).read(&Grammar { input, rows }, cursor)
}
