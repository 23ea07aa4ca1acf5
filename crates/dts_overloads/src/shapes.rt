//! Where facts are among the parts of a node.

ghost use Rattle.std.specs.Prelude.{◌≡◌, ◌≤◌, ◌<◌, length, slice_get, IfSome};
ghost use Rattle.dts_overloads.specs.Plan.{plan, inner, shapes};

use es_grammar::NodeKind;

/// Parts in a row, in a part of a node.
#[derive(Clone, Copy)]
pub enum Group {
    Nothing,
    First,
    Second,
    Two,
    /// The first and the third.
    Ends,
    /// A list whose turns have a node first.
    List,
    /// What stands between two commas of an array.
    Element,
    /// A clause of `switch`.
    Clause,
    /// What follows the block of `try`, of more parts than one.
    Handled,
    EnumMember,
    /// What follows `?.`.
    Optional,
    TypedOptional,
    /// Arguments after arguments of types; a name has none.
    Call,
    /// A first operand, and turns.
    Operands,
    TypedOperands,
    TypedTurn,
    /// What follows the first part of a `for` that is variables, or `using`.
    ForVariables,
    ForUsing,
}

/// A part of a node.
#[derive(Clone, Copy)]
pub enum Shape {
    /// It has none.
    Skip,
    /// A node.
    Node,
    /// Parts in a row.
    In(Group),
    /// A list, whose turns have parts in a row.
    Each(Group),
    /// This part and all after it are turns.
    Rest(Group),
    /// A node or nothing. Where it is there, these follow.
    Or(Group),
    /// Parts in a row: one part, or more.
    Ended(Group, Group),
    /// A node, or parts in a row.
    Loose(Group),
    /// Where a token stands here, nothing follows.
    Word,
}

/// Whose parts they are.
#[derive(Clone, Copy)]
pub enum Owner {
    Node(NodeKind),
    Group(Group),
}

/// The parts of the nodes of this alternative, in the order of the text. What follows has none. Types have none.
#[tactic(auto, unfolding(crate::specs::Plan::plan))]
fn plan(label: NodeKind) -> &'static [Shape]
    ensures value { result.now ≡ plan label }
    ensures short { length result.now ≤ 32 }
{
    match label {
        NodeKind::Parenthesized
        | NodeKind::Spread
        | NodeKind::UpdatePostfix
        | NodeKind::AwaitExpression
        | NodeKind::RestPattern
        | NodeKind::VariableDeclaration
        | NodeKind::UsingDeclaration
        | NodeKind::Declared
        | NodeKind::DeclaredVariables
        | NodeKind::ExpressionStatement
        | NodeKind::ThrowStatement
        | NodeKind::Signature
        | NodeKind::RestProperty
        | NodeKind::ComputedKey
        | NodeKind::SpreadProperty
        | NodeKind::StaticBlock
        | NodeKind::IndexPost
        | NodeKind::CallPost
        | NodeKind::TemplatePost
        | NodeKind::ExportDefaultFunction
        | NodeKind::ExportDefaultClass
        | NodeKind::ExportDefaultInterface
        | NodeKind::ExportDefaultExpression
        | NodeKind::ExportDeclaration
        | NodeKind::ExportAssignment => &[Shape::Node],
        NodeKind::PatternAssignment
        | NodeKind::DefaultPattern
        | NodeKind::WhileStatement
        | NodeKind::DoStatement
        | NodeKind::WithStatement
        | NodeKind::Declarator
        | NodeKind::DefaultParameter
        | NodeKind::KeyValue => &[Shape::Node, Shape::Node],
        NodeKind::Conditional
        | NodeKind::ForAwaitStatement
        | NodeKind::GeneratorProperty
        | NodeKind::MethodProperty => &[Shape::Node, Shape::Node, Shape::Node],
        NodeKind::UpdatePrefix
        | NodeKind::UnaryExpression
        | NodeKind::PrivateIn
        | NodeKind::TypeAssertion
        | NodeKind::LabelledStatement
        | NodeKind::VariableHead
        | NodeKind::TypedVariableHead
        | NodeKind::TypedSignature
        | NodeKind::TypedCallPost
        | NodeKind::TypedTemplatePost => &[Shape::Skip, Shape::Node],
        NodeKind::Binary | NodeKind::Assignment => &[Shape::Node, Shape::Skip, Shape::Node],
        NodeKind::TemplateParts => &[Shape::Skip, Shape::Node, Shape::Each(Group::Second)],
        NodeKind::ArrayLiteral | NodeKind::ArrayPattern => &[Shape::Each(Group::Element)],
        NodeKind::ObjectLiteral
        | NodeKind::ObjectPattern
        | NodeKind::GlobalDeclaration
        | NodeKind::Block => &[Shape::Each(Group::First)],
        NodeKind::Arguments => &[Shape::Each(Group::Second)],
        NodeKind::Function | NodeKind::AsyncFunction => &[
            Shape::Skip,
            Shape::Skip,
            Shape::Node,
            Shape::Node,
        ],
        NodeKind::TypedFunction | NodeKind::TypedAsyncFunction => &[
            Shape::Skip,
            Shape::Skip,
            Shape::Node,
            Shape::In(Group::First),
        ],
        NodeKind::Class => &[
            Shape::Skip,
            Shape::In(Group::First),
            Shape::Each(Group::First),
        ],
        NodeKind::TypedClass | NodeKind::AbstractClass => &[
            Shape::Skip,
            Shape::Skip,
            Shape::In(Group::First),
            Shape::Skip,
            Shape::Each(Group::First),
        ],
        NodeKind::ImportCall
        | NodeKind::SourceCall
        | NodeKind::DeferCall
        | NodeKind::New
        | NodeKind::ParenthesizedArrow
        | NodeKind::AsyncParenthesizedArrow => &[Shape::Node, Shape::In(Group::First)],
        NodeKind::TypedNew => &[Shape::Node, Shape::Skip, Shape::In(Group::First)],
        NodeKind::TypedParenthesizedArrow | NodeKind::TypedAsyncParenthesizedArrow => &[
            Shape::Skip,
            Shape::Node,
            Shape::Skip,
            Shape::In(Group::First),
        ],
        NodeKind::NameArrow | NodeKind::AsyncNameArrow | NodeKind::NameProperty => &[
            Shape::Skip,
            Shape::In(Group::First),
        ],
        NodeKind::Chain | NodeKind::Sequence => &[
            Shape::Node,
            Shape::Node,
            Shape::Each(Group::First),
        ],
        NodeKind::Yield => &[Shape::In(Group::Second)],
        NodeKind::TypedBinary => &[Shape::Node, Shape::In(Group::Second)],
        NodeKind::Variables | NodeKind::Using => &[
            Shape::Skip,
            Shape::Node,
            Shape::Each(Group::First),
        ],
        NodeKind::EnumDeclaration => &[Shape::Skip, Shape::Skip, Shape::Each(Group::EnumMember)],
        NodeKind::NamespaceDeclaration => &[Shape::Skip, Shape::Skip, Shape::Each(Group::First)],
        NodeKind::ModuleDeclaration => &[Shape::Skip, Shape::In(Group::List)],
        NodeKind::IfStatement | NodeKind::KeyPattern => &[
            Shape::Node,
            Shape::Node,
            Shape::In(Group::First),
        ],
        NodeKind::ForStatement => &[
            Shape::Or(Group::ForVariables),
            Shape::Or(Group::ForUsing),
            Shape::In(Group::First),
            Shape::In(Group::First),
            Shape::In(Group::First),
            Shape::Node,
        ],
        NodeKind::ForEachStatement => &[Shape::Node, Shape::In(Group::Second), Shape::Node],
        NodeKind::ReturnStatement => &[Shape::Ended(Group::Nothing, Group::First)],
        NodeKind::SwitchStatement => &[Shape::Node, Shape::Each(Group::Clause)],
        NodeKind::TryStatement | NodeKind::TypedTryStatement => &[
            Shape::Node,
            Shape::Ended(Group::First, Group::Handled),
        ],
        NodeKind::TypedDeclarator | NodeKind::MarkedParameter => &[
            Shape::Node,
            Shape::Skip,
            Shape::Skip,
            Shape::In(Group::First),
        ],
        NodeKind::ThisParameter => &[
            Shape::Skip,
            Shape::Skip,
            Shape::Skip,
            Shape::In(Group::First),
        ],
        NodeKind::PropertyParameter | NodeKind::TypedFieldMember | NodeKind::TypedAccessorField =>
            &[
                Shape::Skip,
                Shape::Node,
                Shape::Skip,
                Shape::Skip,
                Shape::In(Group::First),
            ],
        NodeKind::Parameters | NodeKind::TypedParameters => &[
            Shape::Each(Group::First),
            Shape::In(Group::First),
        ],
        NodeKind::AccessorProperty
        | NodeKind::AsyncProperty
        | NodeKind::GeneratorMember
        | NodeKind::MethodMember => &[Shape::Skip, Shape::Node, Shape::Node, Shape::Node],
        NodeKind::TypedAccessorProperty | NodeKind::TypedAsyncProperty => &[
            Shape::Skip,
            Shape::In(Group::Two),
            Shape::Node,
        ],
        NodeKind::TypedGeneratorProperty | NodeKind::TypedMethodProperty => &[
            Shape::In(Group::Two),
            Shape::Node,
        ],
        NodeKind::AccessorMember | NodeKind::AsyncMember => &[
            Shape::Skip,
            Shape::Skip,
            Shape::Node,
            Shape::Node,
            Shape::Node,
        ],
        NodeKind::FieldMember | NodeKind::AccessorField => &[
            Shape::Skip,
            Shape::Node,
            Shape::In(Group::First),
        ],
        NodeKind::TypedAccessorMember | NodeKind::TypedAsyncMember => &[
            Shape::Skip,
            Shape::Skip,
            Shape::In(Group::Ends),
            Shape::In(Group::First),
        ],
        NodeKind::TypedGeneratorMember | NodeKind::TypedMethodMember => &[
            Shape::Skip,
            Shape::In(Group::Ends),
            Shape::In(Group::First),
        ],
        NodeKind::OptionalPost => &[Shape::In(Group::Optional)],
        NodeKind::TypedOptionalPost => &[Shape::In(Group::TypedOptional)],
        NodeKind::Module | NodeKind::Script => &[Shape::Skip, Shape::Each(Group::First)],
        _ => &[],
    }
}

/// The parts in a row.
fn inner(group: Group) -> &'static [Shape]
    ensures value { result.now ≡ inner group }
    ensures short { length result.now ≤ 32 }
{
    match group {
        Group::Nothing => &[],
        Group::First => &[Shape::Node],
        Group::Second => &[Shape::Skip, Shape::Node],
        Group::Two => &[Shape::Node, Shape::Node],
        Group::Ends => &[Shape::Node, Shape::Skip, Shape::Node],
        Group::List => &[Shape::Each(Group::First)],
        Group::Element => &[Shape::In(Group::First)],
        Group::Clause => &[Shape::In(Group::First), Shape::Each(Group::First)],
        Group::Handled => &[
            Shape::In(Group::First),
            Shape::Node,
            Shape::In(Group::First),
        ],
        Group::EnumMember => &[Shape::Node, Shape::In(Group::First)],
        Group::Optional => &[Shape::Loose(Group::First)],
        Group::TypedOptional => &[Shape::Loose(Group::Call)],
        Group::Call => &[Shape::Word, Shape::Node],
        Group::Operands => &[Shape::Node, Shape::Rest(Group::Second)],
        Group::TypedOperands => &[Shape::Node, Shape::Rest(Group::TypedTurn)],
        Group::TypedTurn => &[Shape::In(Group::Second)],
        Group::ForVariables => &[
            Shape::Skip,
            Shape::Skip,
            Shape::In(Group::First),
            Shape::In(Group::First),
            Shape::Node,
        ],
        Group::ForUsing => &[
            Shape::Skip,
            Shape::In(Group::First),
            Shape::In(Group::First),
            Shape::Node,
        ],
    }
}

fn shapes(owner: Owner) -> &'static [Shape]
    ensures value { result.now ≡ shapes owner }
    ensures short { length result.now ≤ 32 }
{
    match owner {
        Owner::Node(label) => plan(label),
        Owner::Group(group) => inner(group),
    }
}

/// One of the parts, where there are as many.
pub fn shape_at(owner: Owner, at: usize) -> Option<Shape>
    ensures value { result ≡ slice_get (shapes owner) at }
    ensures short { IfSome result (λ shape. at < 32) }
{
    shapes(owner).get(at).copied()
}
