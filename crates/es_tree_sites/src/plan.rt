//! Which parts of a node, of a group or of a list may have sites in them.

ghost use Rattle.std.specs.Prelude.{◌≡◌};
ghost use Rattle.es_law_sites.specs.plain.Part.{part, group, is_there};
ghost use Rattle.es_tree_sites.specs.Parts.{parts_in};
ghost use Rattle.es_tree_sites.specs.Plan.{is_single, is_token, arguments_ways, returned_ways, handlers_ways, operands_ways, for_ways, ways, rest, plan};

use crate::source::TokenizedText;
use Group::{
    Arguments, Body, Both, Case, Cases, Ends, First, Firsts, Handlers, Hole, Holes, Member,
    Members, Operand, Operands, Optional, Returned, Second, Seconds, Trees, TypedOptional,
};
use Way::{Either, In, Skip, Tree};
use es_grammar::NodeKind as Kind;
use es_syntax::{Lean, Siblings};

/// How a part is taken.
#[derive(Clone, Copy)]
pub enum Way {
    /// Not at all.
    Skip,
    /// As a tree: the sites in it.
    Tree,
    /// As a group or a list: the sites in its parts.
    In(Group),
    /// As a tree or as a group, whichever it is.
    Either(Group),
}

/// Which parts of a group or of a list have sites in them.
#[derive(Clone, Copy)]
pub enum Group {
    /// All parts.
    Trees,
    /// The first part.
    First,
    /// The second part.
    Second,
    /// The first two.
    Both,
    /// The first and the third.
    Ends,
    /// The first part of each turn.
    Firsts,
    /// The second part of each turn.
    Seconds,
    /// What may be in each turn, and in one.
    Holes,
    Hole,
    /// The cases of a `switch`, and one: a test, and statements.
    Cases,
    Case,
    /// The members of an `enum`, and one: a key, and what it may be given.
    Members,
    Member,
    /// The items of a `module "a"`.
    Body,
    /// What follows `?.`: a node, or a group with one.
    Optional,
    /// The same, where it may be arguments after type arguments.
    TypedOptional,
    /// A name, or arguments after type arguments.
    Arguments,
    /// What a `return` gives; a group of one part is its end alone.
    Returned,
    /// What follows the block of a `try`: `finally` alone, or a parameter, a block and what may follow.
    Handlers,
    /// A first operand and turns, one at least: the operands.
    Operands(Lean),
    /// The operand in a turn of `TypedBinary`.
    Operand,
}

/// How the parts after those of `ways` are taken.
pub fn rest(group: Group) -> Way
    ensures { result ≡ rest group }
{
    match group {
        Trees => Tree,
        Firsts => In(First),
        Seconds => In(Second),
        Holes => In(Hole),
        Cases => In(Case),
        Members => In(Member),
        Operands(Lean::Binary) => In(Second),
        Operands(Lean::TypedBinary) => In(Operand),
        _ => Skip,
    }
}

impl TokenizedText<'_> {
    /// How the first parts of a group or of a list are taken.
    #[tactic(auto, unfolding(crate::specs::Plan::ways))]
    pub fn ways(&self, group: Group, parts: &Siblings<'_>) -> &'static [Way]
        ensures { result.now ≡ ways group (parts_in self.now parts.now) }
    {
        match group {
            Trees | Firsts | Seconds | Holes | Cases | Members => &[],
            First => &[Tree],
            Second => &[Skip, Tree],
            Both => &[Tree, Tree],
            Ends => &[Tree, Skip, Tree],
            Hole => &[In(First)],
            Case => &[In(First), In(Firsts)],
            Member => &[Tree, In(First)],
            Body => &[In(Firsts)],
            Optional => &[Either(First)],
            TypedOptional => &[Either(Arguments)],
            Operand => &[In(Second)],
            Arguments => self.arguments(parts),
            Returned => self.returned(parts),
            Handlers => self.handlers(parts),
            Operands(_) => self.operands(parts),
        }
    }

    fn arguments(&self, parts: &Siblings<'_>) -> &'static [Way]
        ensures { result.now ≡ arguments_ways (is_token (part (parts_in self.now parts.now) 0)) }
    {
        if self.is_token_at(parts, 0) {
            return &[];
        }
        &[Skip, Tree]
    }

    fn returned(&self, parts: &Siblings<'_>) -> &'static [Way]
        ensures { result.now ≡ returned_ways (is_single (parts_in self.now parts.now)) }
    {
        if self.is_single(parts) { &[] } else { &[Tree] }
    }

    fn handlers(&self, parts: &Siblings<'_>) -> &'static [Way]
        ensures { result.now ≡ handlers_ways (is_single (parts_in self.now parts.now)) }
    {
        if self.is_single(parts) {
            return &[Tree];
        }
        &[In(First), Tree, In(First)]
    }

    fn operands(&self, parts: &Siblings<'_>) -> &'static [Way]
        ensures { result.now ≡ operands_ways (is_single (parts_in self.now parts.now)) }
    {
        if self.is_single(parts) {
            return &[Skip];
        }
        &[Tree]
    }

    /// The first of the three forms of a `for`'s start that is there, then a test, a step and a body.
    fn for_ways(&self, parts: &Siblings<'_>) -> &'static [Way]
        ensures { result.now ≡ for_ways (is_there (group (parts_in self.now parts.now) 0)) (is_there (group (parts_in self.now parts.now) 1)) }
    {
        if self.is_there(parts, 0) {
            return &[In(First), Skip, Skip, In(First), In(First), Tree];
        }
        if self.is_there(parts, 1) {
            return &[Skip, In(First), Skip, In(First), In(First), Tree];
        }
        &[Skip, Skip, In(First), In(First), In(First), Tree]
    }

    /// How the parts of a node of this alternative are taken, in the order of the text; none after these.
    #[tactic(auto, unfolding(crate::specs::Plan::plan))]
    pub fn plan(&self, label: Kind, parts: &Siblings<'_>) -> &'static [Way]
        ensures { result.now ≡ plan label (parts_in self.now parts.now) }
    {
        match label {
            Kind::ExportDefaultFunction
            | Kind::ExportDefaultClass
            | Kind::ExportDefaultExpression
            | Kind::ExportDeclaration
            | Kind::ExportDefaultInterface
            | Kind::ExportAssignment
            | Kind::Parenthesized
            | Kind::Spread
            | Kind::UpdatePostfix
            | Kind::AwaitExpression
            | Kind::IndexPost
            | Kind::CallPost
            | Kind::TemplatePost
            | Kind::ComputedKey
            | Kind::SpreadProperty
            | Kind::StaticBlock
            | Kind::RestPattern
            | Kind::RestProperty
            | Kind::Signature
            | Kind::ExpressionStatement
            | Kind::ThrowStatement
            | Kind::VariableDeclaration
            | Kind::UsingDeclaration
            | Kind::Declared
            | Kind::DeclaredVariables => &[Tree],
            Kind::Module | Kind::Script => &[Skip, In(Firsts)],
            Kind::TemplateParts => &[Skip, Tree, In(Seconds)],
            Kind::ArrayLiteral | Kind::ArrayPattern => &[In(Holes)],
            Kind::ObjectLiteral | Kind::ObjectPattern | Kind::Block | Kind::GlobalDeclaration => &[
                In(Firsts),
            ],
            Kind::Function | Kind::AsyncFunction => &[Skip, Skip, Tree, Tree],
            Kind::Class => &[Skip, In(First), In(Firsts)],
            Kind::New
            | Kind::ParenthesizedArrow
            | Kind::AsyncParenthesizedArrow
            | Kind::ImportCall
            | Kind::SourceCall
            | Kind::DeferCall => &[Tree, In(First)],
            Kind::Chain | Kind::Sequence => &[Tree, Tree, In(Firsts)],
            Kind::UpdatePrefix
            | Kind::UnaryExpression
            | Kind::TypeAssertion
            | Kind::PrivateIn
            | Kind::TypedCallPost
            | Kind::TypedTemplatePost
            | Kind::TypedSignature
            | Kind::LabelledStatement
            | Kind::VariableHead
            | Kind::TypedVariableHead => &[Skip, Tree],
            Kind::Binary | Kind::Assignment => &[Tree, Skip, Tree],
            Kind::Conditional
            | Kind::MethodProperty
            | Kind::GeneratorProperty
            | Kind::ForAwaitStatement => &[Tree, Tree, Tree],
            Kind::PatternAssignment
            | Kind::KeyValue
            | Kind::DefaultPattern
            | Kind::DefaultParameter
            | Kind::WhileStatement
            | Kind::DoStatement
            | Kind::WithStatement
            | Kind::Declarator => &[Tree, Tree],
            Kind::NameArrow | Kind::AsyncNameArrow | Kind::NameProperty => &[Skip, In(First)],
            Kind::Arguments => &[In(Seconds)],
            Kind::TypedFunction | Kind::TypedAsyncFunction => &[Skip, Skip, Tree, In(First)],
            Kind::TypedClass | Kind::AbstractClass => &[Skip, Skip, In(First), Skip, In(Firsts)],
            Kind::TypedNew => &[Tree, Skip, In(First)],
            Kind::TypedParenthesizedArrow | Kind::TypedAsyncParenthesizedArrow => &[
                Skip,
                Tree,
                Skip,
                In(First),
            ],
            Kind::AsyncProperty
            | Kind::AccessorProperty
            | Kind::MethodMember
            | Kind::GeneratorMember => &[Skip, Tree, Tree, Tree],
            Kind::TypedMethodProperty | Kind::TypedGeneratorProperty => &[In(Both), Tree],
            Kind::TypedAsyncProperty | Kind::TypedAccessorProperty => &[Skip, In(Both), Tree],
            Kind::AsyncMember | Kind::AccessorMember => &[Skip, Skip, Tree, Tree, Tree],
            Kind::FieldMember | Kind::AccessorField => &[Skip, Tree, In(First)],
            Kind::TypedMethodMember | Kind::TypedGeneratorMember => &[Skip, In(Ends), In(First)],
            Kind::TypedAsyncMember | Kind::TypedAccessorMember => &[
                Skip,
                Skip,
                In(Ends),
                In(First),
            ],
            Kind::TypedFieldMember | Kind::TypedAccessorField | Kind::PropertyParameter => &[
                Skip,
                Tree,
                Skip,
                Skip,
                In(First),
            ],
            Kind::KeyPattern | Kind::IfStatement => &[Tree, Tree, In(First)],
            Kind::MarkedParameter | Kind::TypedDeclarator => &[Tree, Skip, Skip, In(First)],
            Kind::ThisParameter => &[Skip, Skip, Skip, In(First)],
            Kind::Parameters | Kind::TypedParameters => &[In(Firsts), In(First)],
            Kind::ForEachStatement => &[Tree, In(Second), Tree],
            Kind::Variables | Kind::Using => &[Skip, Tree, In(Firsts)],
            Kind::NamespaceDeclaration => &[Skip, Skip, In(Firsts)],
            Kind::Yield => &[In(Second)],
            Kind::OptionalPost => &[In(Optional)],
            Kind::TypedBinary => &[Tree, In(Second)],
            Kind::TypedOptionalPost => &[In(TypedOptional)],
            Kind::ForStatement => self.for_ways(parts),
            Kind::ReturnStatement => &[In(Returned)],
            Kind::SwitchStatement => &[Tree, In(Cases)],
            Kind::TryStatement | Kind::TypedTryStatement => &[Tree, In(Handlers)],
            Kind::EnumDeclaration => &[Skip, Skip, In(Members)],
            Kind::ModuleDeclaration => &[Skip, In(Body)],
            _ => &[],
        }
    }
}
