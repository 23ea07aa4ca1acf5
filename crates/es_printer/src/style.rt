//! How the tokens of an alternative are printed that belong to it and to none of its parts.

ghost use Rattle.std.specs.Prelude.{◌≡◌};
ghost use Rattle.es_printer.specs.Table.{style, ends};

use es_grammar::NodeKind;

/// How the own tokens of a node are printed, and what is in it.
#[derive(Clone, Copy, Debug, PartialEq, Eq)]
pub enum Style {
    Plain,
    /// Items, each on a line.
    Program,
    /// Statements in braces, each on a line.
    Block,
    /// Items in braces, each on a line.
    Body,
    /// Members in braces, each on a line, after a head.
    Fields,
    /// A member of a class or a type.
    Member,
    /// Members of an enum in braces, each on a line.
    Enum,
    /// Properties in braces, each on a line.
    Object,
    /// Members of a type in braces, each on a line.
    Types,
    /// The cases of a `switch`.
    Cases,
    /// A list in braces on one line.
    Inline,
    /// A `*` that stands for names.
    Star,
    /// `;` alone.
    Empty,
    /// A condition in brackets, with `;` in it.
    Loop,
    /// A condition in brackets.
    Condition,
    /// An operator between operands.
    Operator,
    /// An operator before an operand.
    Prefix,
    /// Brackets after what they are of.
    Index,
    /// `?` and `:` between operands.
    Question,
    /// A template after its tag.
    Tag,
    /// Names with `.` between them.
    Path,
}

/// Whether `;` follows a node.
#[derive(Clone, Copy, Debug, PartialEq, Eq)]
pub enum Ends {
    Never,
    Always,
    /// Where it has no body.
    Bare,
}

/// How the own tokens of a node of this alternative are printed.
#[tactic(auto, unfolding(crate::specs::Table::style))]
pub fn style_of(label: NodeKind) -> Style
    ensures { result ≡ style label }
{
    match label {
        NodeKind::Module | NodeKind::Script => Style::Program,
        NodeKind::Block => Style::Block,
        NodeKind::NamespaceDeclaration
        | NodeKind::ModuleDeclaration
        | NodeKind::GlobalDeclaration => Style::Body,
        NodeKind::Class
        | NodeKind::TypedClass
        | NodeKind::AbstractClass
        | NodeKind::InterfaceDeclaration => Style::Fields,
        NodeKind::EnumDeclaration => Style::Enum,
        NodeKind::ObjectLiteral => Style::Object,
        NodeKind::MembersType => Style::Types,
        NodeKind::SwitchStatement => Style::Cases,
        NodeKind::NamedImports
        | NodeKind::ExportNames
        | NodeKind::Attributes
        | NodeKind::ObjectPattern
        | NodeKind::ObjectPatternOfType
        | NodeKind::MappedType => Style::Inline,
        NodeKind::StaticBlock
        | NodeKind::AccessorMember
        | NodeKind::AsyncMember
        | NodeKind::GeneratorMember
        | NodeKind::MethodMember
        | NodeKind::FieldMember
        | NodeKind::AccessorField
        | NodeKind::IndexMember
        | NodeKind::TypedAccessorMember
        | NodeKind::TypedAsyncMember
        | NodeKind::TypedGeneratorMember
        | NodeKind::TypedMethodMember => Style::Member,
        NodeKind::TypedFieldMember
        | NodeKind::TypedAccessorField
        | NodeKind::CallSignature
        | NodeKind::ConstructSignature
        | NodeKind::IndexSignature
        | NodeKind::AccessorSignature
        | NodeKind::MethodSignature
        | NodeKind::PropertySignature
        | NodeKind::ReadonlyProperty => Style::Member,
        NodeKind::EmptyStatement | NodeKind::EmptyMember => Style::Empty,
        NodeKind::ForStatement => Style::Loop,
        NodeKind::IfStatement
        | NodeKind::ForEachStatement
        | NodeKind::ForAwaitStatement
        | NodeKind::WhileStatement
        | NodeKind::DoStatement
        | NodeKind::WithStatement
        | NodeKind::TryStatement
        | NodeKind::TypedTryStatement => Style::Condition,
        NodeKind::ExportAll | NodeKind::Namespace | NodeKind::DeferImport => Style::Star,
        NodeKind::Binary | NodeKind::TypedBinary | NodeKind::PrivateIn | NodeKind::Assignment =>
            Style::Operator,
        NodeKind::UnaryExpression
        | NodeKind::UpdatePrefix
        | NodeKind::NumberType
        | NodeKind::TypeAssertion => Style::Prefix,
        NodeKind::IndexPost | NodeKind::ArrayTypes => Style::Index,
        NodeKind::Conditional | NodeKind::ConditionalType => Style::Question,
        NodeKind::TemplatePost => Style::Tag,
        NodeKind::Entity => Style::Path,
        NodeKind::BareImport
        | NodeKind::FromImport
        | NodeKind::SourceImport
        | NodeKind::RequireImport
        | NodeKind::EntityImport
        | NodeKind::ExportedRequireImport
        | NodeKind::ExportedEntityImport
        | NodeKind::DefaultClause
        | NodeKind::DefaultAndClause
        | NodeKind::RenamedImport
        | NodeKind::ImportedName
        | NodeKind::ExportNamespace => Style::Plain,
        NodeKind::ExportedName
        | NodeKind::ExportDefaultFunction
        | NodeKind::ExportDefaultClass
        | NodeKind::ExportDefaultExpression
        | NodeKind::ExportDeclaration
        | NodeKind::ExpressionStatement
        | NodeKind::LabelledStatement
        | NodeKind::ContinueStatement
        | NodeKind::BreakStatement
        | NodeKind::ReturnStatement
        | NodeKind::ThrowStatement
        | NodeKind::DebuggerStatement => Style::Plain,
        NodeKind::VariableDeclaration
        | NodeKind::UsingDeclaration
        | NodeKind::Variables
        | NodeKind::Declarator
        | NodeKind::Using
        | NodeKind::VariableHead
        | NodeKind::UsingHead
        | NodeKind::Target
        | NodeKind::AsyncFunction
        | NodeKind::Function
        | NodeKind::Signature
        | NodeKind::Parameters => Style::Plain,
        NodeKind::DefaultParameter
        | NodeKind::NamePattern
        | NodeKind::ArrayPattern
        | NodeKind::RestPattern
        | NodeKind::DefaultPattern
        | NodeKind::RestProperty
        | NodeKind::KeyPattern
        | NodeKind::NameProperty
        | NodeKind::WordKey
        | NodeKind::StrKey
        | NodeKind::NumberKey
        | NodeKind::ComputedKey => Style::Plain,
        NodeKind::PrivateKey
        | NodeKind::Sequence
        | NodeKind::Yield
        | NodeKind::PatternAssignment
        | NodeKind::NameArrow
        | NodeKind::ParenthesizedArrow
        | NodeKind::AsyncNameArrow
        | NodeKind::AsyncParenthesizedArrow
        | NodeKind::AwaitExpression
        | NodeKind::UpdatePostfix
        | NodeKind::Chain
        | NodeKind::MemberPost => Style::Plain,
        NodeKind::CallPost
        | NodeKind::OptionalPost
        | NodeKind::Super
        | NodeKind::ImportCall
        | NodeKind::SourceCall
        | NodeKind::DeferCall
        | NodeKind::ImportMeta
        | NodeKind::NewTarget
        | NodeKind::New
        | NodeKind::Arguments
        | NodeKind::Name
        | NodeKind::Word => Style::Plain,
        NodeKind::Number
        | NodeKind::Str
        | NodeKind::RegExp
        | NodeKind::Template
        | NodeKind::TemplateParts
        | NodeKind::Parenthesized
        | NodeKind::ArrayLiteral
        | NodeKind::Spread
        | NodeKind::SpreadProperty
        | NodeKind::AccessorProperty
        | NodeKind::AsyncProperty
        | NodeKind::GeneratorProperty => Style::Plain,
        NodeKind::MethodProperty
        | NodeKind::KeyValue
        | NodeKind::Shorthand
        | NodeKind::ThisParameter
        | NodeKind::PropertyParameter
        | NodeKind::MarkedParameter
        | NodeKind::NonNullPost
        | NodeKind::DeclaredVariables
        | NodeKind::Declared
        | NodeKind::AliasDeclaration
        | NodeKind::ExportDefaultInterface
        | NodeKind::ExportAssignment => Style::Plain,
        NodeKind::TypedDeclarator
        | NodeKind::TypedVariableHead
        | NodeKind::TypedFunction
        | NodeKind::TypedAsyncFunction
        | NodeKind::TypedSignature
        | NodeKind::TypedParameters
        | NodeKind::TypedAccessorProperty
        | NodeKind::TypedAsyncProperty
        | NodeKind::TypedGeneratorProperty
        | NodeKind::TypedMethodProperty
        | NodeKind::TypedParenthesizedArrow
        | NodeKind::TypedAsyncParenthesizedArrow => Style::Plain,
        NodeKind::TypedNew
        | NodeKind::TypedCallPost
        | NodeKind::TypedTemplatePost
        | NodeKind::TypedOptionalPost
        | NodeKind::FunctionType
        | NodeKind::ConstructorType
        | NodeKind::UnionType
        | NodeKind::LeadingUnionType
        | NodeKind::IntersectionType
        | NodeKind::LeadingIntersectionType
        | NodeKind::TypeOperator
        | NodeKind::InferType => Style::Plain,
        NodeKind::KeywordType
        | NodeKind::ThisType
        | NodeKind::WordType
        | NodeKind::StrType
        | NodeKind::TemplateType
        | NodeKind::TemplateTypes
        | NodeKind::TypeQuery
        | NodeKind::ParenthesizedType
        | NodeKind::TupleType
        | NodeKind::EntityOfType
        | NodeKind::Reference
        | NodeKind::ImportType => Style::Plain,
        NodeKind::TypeArguments
        | NodeKind::TypeParameters
        | NodeKind::RestElement
        | NodeKind::LabelledElement
        | NodeKind::OptionalElement
        | NodeKind::WordKeyOfType
        | NodeKind::StrKeyOfType
        | NodeKind::NumberKeyOfType
        | NodeKind::ComputedKeyOfType
        | NodeKind::AssertsResult
        | NodeKind::PredicateResult
        | NodeKind::ParametersOfType => Style::Plain,
        NodeKind::ThisParameterOfType
        | NodeKind::MarkedParameterOfType
        | NodeKind::NamePatternOfType
        | NodeKind::ArrayPatternOfType
        | NodeKind::RestPatternOfType
        | NodeKind::RestPropertyOfType
        | NodeKind::KeyProperty
        | NodeKind::NamePropertyOfType
        | NodeKind::WordPatternKey
        | NodeKind::StrPatternKey
        | NodeKind::NumberPatternKey => Style::Plain,
    }
}

/// Whether `;` follows a node of this alternative.
#[tactic(auto, unfolding(crate::specs::Table::ends))]
pub fn ends_of(label: NodeKind) -> Ends
    ensures { result ≡ ends label }
{
    match label {
        NodeKind::BareImport
        | NodeKind::FromImport
        | NodeKind::SourceImport
        | NodeKind::DeferImport
        | NodeKind::RequireImport
        | NodeKind::EntityImport
        | NodeKind::ExportedRequireImport
        | NodeKind::ExportedEntityImport
        | NodeKind::ExportAll
        | NodeKind::ExportNames
        | NodeKind::ExportNamespace
        | NodeKind::ExportDefaultExpression => Ends::Always,
        NodeKind::ExportAssignment
        | NodeKind::ExpressionStatement
        | NodeKind::DoStatement
        | NodeKind::ContinueStatement
        | NodeKind::BreakStatement
        | NodeKind::ReturnStatement
        | NodeKind::ThrowStatement
        | NodeKind::DebuggerStatement
        | NodeKind::VariableDeclaration
        | NodeKind::UsingDeclaration
        | NodeKind::DeclaredVariables
        | NodeKind::AliasDeclaration => Ends::Always,
        NodeKind::FieldMember
        | NodeKind::AccessorField
        | NodeKind::IndexMember
        | NodeKind::TypedFieldMember
        | NodeKind::TypedAccessorField
        | NodeKind::CallSignature
        | NodeKind::ConstructSignature
        | NodeKind::IndexSignature
        | NodeKind::AccessorSignature
        | NodeKind::MethodSignature
        | NodeKind::PropertySignature
        | NodeKind::ReadonlyProperty => Ends::Always,
        NodeKind::ModuleDeclaration
        | NodeKind::TypedFunction
        | NodeKind::TypedAsyncFunction
        | NodeKind::TypedAccessorMember
        | NodeKind::TypedAsyncMember
        | NodeKind::TypedGeneratorMember
        | NodeKind::TypedMethodMember => Ends::Bare,
        NodeKind::DefaultClause
        | NodeKind::DefaultAndClause
        | NodeKind::Namespace
        | NodeKind::NamedImports
        | NodeKind::RenamedImport
        | NodeKind::ImportedName
        | NodeKind::ExportedName
        | NodeKind::Attributes
        | NodeKind::Entity
        | NodeKind::ExportDefaultFunction
        | NodeKind::ExportDefaultClass
        | NodeKind::ExportDeclaration => Ends::Never,
        NodeKind::Module
        | NodeKind::Script
        | NodeKind::Block
        | NodeKind::EmptyStatement
        | NodeKind::LabelledStatement
        | NodeKind::IfStatement
        | NodeKind::ForStatement
        | NodeKind::ForEachStatement
        | NodeKind::ForAwaitStatement
        | NodeKind::WhileStatement
        | NodeKind::SwitchStatement
        | NodeKind::TryStatement => Ends::Never,
        NodeKind::WithStatement
        | NodeKind::Variables
        | NodeKind::Declarator
        | NodeKind::Using
        | NodeKind::VariableHead
        | NodeKind::UsingHead
        | NodeKind::Target
        | NodeKind::AsyncFunction
        | NodeKind::Function
        | NodeKind::Signature
        | NodeKind::Parameters
        | NodeKind::DefaultParameter => Ends::Never,
        NodeKind::NamePattern
        | NodeKind::ArrayPattern
        | NodeKind::ObjectPattern
        | NodeKind::RestPattern
        | NodeKind::DefaultPattern
        | NodeKind::RestProperty
        | NodeKind::KeyPattern
        | NodeKind::NameProperty
        | NodeKind::Class
        | NodeKind::EmptyMember
        | NodeKind::StaticBlock
        | NodeKind::AccessorMember => Ends::Never,
        NodeKind::AsyncMember
        | NodeKind::GeneratorMember
        | NodeKind::MethodMember
        | NodeKind::WordKey
        | NodeKind::StrKey
        | NodeKind::NumberKey
        | NodeKind::ComputedKey
        | NodeKind::PrivateKey
        | NodeKind::Sequence
        | NodeKind::Yield
        | NodeKind::PatternAssignment
        | NodeKind::Assignment => Ends::Never,
        NodeKind::NameArrow
        | NodeKind::ParenthesizedArrow
        | NodeKind::AsyncNameArrow
        | NodeKind::AsyncParenthesizedArrow
        | NodeKind::Conditional
        | NodeKind::Binary
        | NodeKind::PrivateIn
        | NodeKind::UnaryExpression
        | NodeKind::AwaitExpression
        | NodeKind::UpdatePrefix
        | NodeKind::UpdatePostfix
        | NodeKind::Chain => Ends::Never,
        NodeKind::MemberPost
        | NodeKind::IndexPost
        | NodeKind::CallPost
        | NodeKind::TemplatePost
        | NodeKind::OptionalPost
        | NodeKind::Super
        | NodeKind::ImportCall
        | NodeKind::SourceCall
        | NodeKind::DeferCall
        | NodeKind::ImportMeta
        | NodeKind::NewTarget
        | NodeKind::New => Ends::Never,
        NodeKind::Arguments
        | NodeKind::Name
        | NodeKind::Word
        | NodeKind::Number
        | NodeKind::Str
        | NodeKind::RegExp
        | NodeKind::Template
        | NodeKind::TemplateParts
        | NodeKind::Parenthesized
        | NodeKind::ArrayLiteral
        | NodeKind::ObjectLiteral
        | NodeKind::Spread => Ends::Never,
        NodeKind::SpreadProperty
        | NodeKind::AccessorProperty
        | NodeKind::AsyncProperty
        | NodeKind::GeneratorProperty
        | NodeKind::MethodProperty
        | NodeKind::KeyValue
        | NodeKind::Shorthand
        | NodeKind::AbstractClass
        | NodeKind::ThisParameter
        | NodeKind::PropertyParameter
        | NodeKind::MarkedParameter
        | NodeKind::NonNullPost => Ends::Never,
        NodeKind::Declared
        | NodeKind::InterfaceDeclaration
        | NodeKind::EnumDeclaration
        | NodeKind::NamespaceDeclaration
        | NodeKind::GlobalDeclaration
        | NodeKind::ExportDefaultInterface
        | NodeKind::TypedDeclarator
        | NodeKind::TypedVariableHead
        | NodeKind::TypedTryStatement
        | NodeKind::TypedSignature
        | NodeKind::TypedParameters
        | NodeKind::TypedClass => Ends::Never,
        NodeKind::TypedAccessorProperty
        | NodeKind::TypedAsyncProperty
        | NodeKind::TypedGeneratorProperty
        | NodeKind::TypedMethodProperty
        | NodeKind::TypedParenthesizedArrow
        | NodeKind::TypedAsyncParenthesizedArrow
        | NodeKind::TypedNew
        | NodeKind::TypedCallPost
        | NodeKind::TypedTemplatePost
        | NodeKind::TypedOptionalPost
        | NodeKind::TypedBinary
        | NodeKind::TypeAssertion
        | NodeKind::FunctionType => Ends::Never,
        NodeKind::ConstructorType
        | NodeKind::ConditionalType
        | NodeKind::UnionType
        | NodeKind::LeadingUnionType
        | NodeKind::IntersectionType
        | NodeKind::LeadingIntersectionType
        | NodeKind::TypeOperator
        | NodeKind::InferType
        | NodeKind::ArrayTypes
        | NodeKind::KeywordType
        | NodeKind::ThisType
        | NodeKind::WordType => Ends::Never,
        NodeKind::StrType
        | NodeKind::NumberType
        | NodeKind::TemplateType
        | NodeKind::TemplateTypes
        | NodeKind::TypeQuery
        | NodeKind::ParenthesizedType
        | NodeKind::MembersType
        | NodeKind::TupleType
        | NodeKind::MappedType
        | NodeKind::EntityOfType
        | NodeKind::Reference
        | NodeKind::ImportType => Ends::Never,
        NodeKind::TypeArguments
        | NodeKind::TypeParameters
        | NodeKind::RestElement
        | NodeKind::LabelledElement
        | NodeKind::OptionalElement
        | NodeKind::WordKeyOfType
        | NodeKind::StrKeyOfType
        | NodeKind::NumberKeyOfType
        | NodeKind::ComputedKeyOfType
        | NodeKind::AssertsResult
        | NodeKind::PredicateResult
        | NodeKind::ParametersOfType => Ends::Never,
        NodeKind::ThisParameterOfType
        | NodeKind::MarkedParameterOfType
        | NodeKind::NamePatternOfType
        | NodeKind::ArrayPatternOfType
        | NodeKind::ObjectPatternOfType
        | NodeKind::RestPatternOfType
        | NodeKind::RestPropertyOfType
        | NodeKind::KeyProperty
        | NodeKind::NamePropertyOfType
        | NodeKind::WordPatternKey
        | NodeKind::StrPatternKey
        | NodeKind::NumberPatternKey => Ends::Never,
    }
}
