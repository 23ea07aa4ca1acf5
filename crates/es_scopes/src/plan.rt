//! Where names and scopes are among the parts of a node.

ghost use Rattle.std.specs.Prelude.{◌≡◌, ◌≤◌, length};
ghost use Rattle.es_scopes.specs.Plan.{plan};

use crate::steps::{Act, Turn, Way, When};
use es_grammar::NodeKind;
use es_walk::{Path, Step};

/// The steps of the nodes of this alternative, in the order of the text. What has no line of its own is used, whole.
#[tactic(auto, unfolding(crate::specs::Plan::plan))]
pub fn plan(label: NodeKind) -> &'static [Step<Way, Act, Turn>]
    ensures value { result.now ≡ plan label }
    ensures short { length result.now ≤ 32 }
{
    match label {
        NodeKind::Module | NodeKind::Script | NodeKind::GlobalDeclaration => &[
            Step::Act(Act::Open(When::Always, true)),
            Step::Rest(Way::Binds),
            Step::Act(Act::Close(When::Always)),
        ],
        NodeKind::SourceImport
        | NodeKind::DeferImport
        | NodeKind::DefaultClause
        | NodeKind::Namespace => &[Step::Act(Act::Name(Way::Binds, 0))],
        NodeKind::DefaultAndClause | NodeKind::InterfaceDeclaration | NodeKind::AliasDeclaration =>
            &[Step::Act(Act::Name(Way::Binds, 0)), Step::Rest(Way::Uses)],
        NodeKind::RenamedImport => &[Step::Act(Act::Name(Way::Binds, 2))],
        NodeKind::ImportedName
        | NodeKind::RequireImport
        | NodeKind::ExportedRequireImport
        | NodeKind::UsingHead => &[Step::Act(Act::Name(Way::Binds, 1))],
        NodeKind::EntityImport | NodeKind::ExportedEntityImport | NodeKind::EnumDeclaration => &[
            Step::Act(Act::Name(Way::Binds, 1)),
            Step::Rest(Way::Uses),
        ],
        NodeKind::ExportNames => &[Step::All(Way::Exported, Path::At(1))],
        NodeKind::ExportedName => &[Step::Act(Act::NameIn(Way::Uses, 1, 0))],
        NodeKind::ExportDeclaration
        | NodeKind::ExportDefaultFunction
        | NodeKind::ExportDefaultClass
        | NodeKind::ExportDefaultInterface
        | NodeKind::LabelledStatement
        | NodeKind::VariableDeclaration
        | NodeKind::UsingDeclaration
        | NodeKind::Using
        | NodeKind::Parameters
        | NodeKind::Declared
        | NodeKind::DeclaredVariables => &[Step::Rest(Way::Binds)],
        NodeKind::Block => &[
            Step::Act(Act::Open(When::Apart, false)),
            Step::Rest(Way::Binds),
            Step::Act(Act::Close(When::Apart)),
        ],
        NodeKind::IfStatement => &[
            Step::At(Way::Uses, Path::At(0)),
            Step::At(Way::Binds, Path::At(1)),
            Step::All(Way::Binds, Path::At(2)),
        ],
        NodeKind::ForStatement => &[
            Step::Act(Act::Open(When::Always, false)),
            Step::All(Way::Binds, Path::At(0)),
            Step::All(Way::Binds, Path::At(1)),
            Step::All(Way::Uses, Path::At(2)),
            Step::All(Way::Uses, Path::At(3)),
            Step::All(Way::Uses, Path::At(4)),
            Step::At(Way::Binds, Path::At(5)),
            Step::Act(Act::Close(When::Always)),
        ],
        NodeKind::ForEachStatement => &[
            Step::Act(Act::Open(When::Always, false)),
            Step::At(Way::Uses, Path::At(0)),
            Step::All(Way::Uses, Path::At(1)),
            Step::At(Way::Binds, Path::At(2)),
            Step::Act(Act::Close(When::Always)),
        ],
        NodeKind::ForAwaitStatement => &[
            Step::Act(Act::Open(When::Always, false)),
            Step::At(Way::Uses, Path::At(0)),
            Step::At(Way::Uses, Path::At(1)),
            Step::At(Way::Binds, Path::At(2)),
            Step::Act(Act::Close(When::Always)),
        ],
        NodeKind::WhileStatement | NodeKind::WithStatement => &[
            Step::At(Way::Uses, Path::At(0)),
            Step::At(Way::Binds, Path::At(1)),
        ],
        NodeKind::DoStatement => &[
            Step::At(Way::Binds, Path::At(0)),
            Step::At(Way::Uses, Path::At(1)),
        ],
        NodeKind::SwitchStatement => &[
            Step::At(Way::Uses, Path::At(0)),
            Step::Act(Act::Open(When::Always, false)),
            Step::Turns(Way::Uses, Path::At(1), Turn::Case),
            Step::Act(Act::Close(When::Always)),
        ],
        NodeKind::TryStatement => &[
            Step::At(Way::Binds, Path::At(0)),
            Step::At(Way::Binds, Path::In(1, 0)),
            Step::Act(Act::Open(When::Caught, false)),
            Step::At(Way::Binds, Path::Deep(1, 0, 0)),
            Step::At(Way::Binds, Path::In(1, 1)),
            Step::Act(Act::Close(When::Caught)),
            Step::At(Way::Binds, Path::Deep(1, 2, 0)),
        ],
        NodeKind::TypedTryStatement => &[
            Step::At(Way::Binds, Path::At(0)),
            Step::At(Way::Binds, Path::In(1, 0)),
            Step::Act(Act::Open(When::Caught, false)),
            Step::At(Way::Binds, Path::Deep(1, 0, 0)),
            Step::At(Way::Uses, Path::Deeper(1, 0, 1, 0)),
            Step::At(Way::Binds, Path::In(1, 1)),
            Step::Act(Act::Close(When::Caught)),
            Step::At(Way::Binds, Path::Deep(1, 2, 0)),
        ],
        NodeKind::Variables | NodeKind::VariableHead => &[Step::Rest(Way::Word)],
        NodeKind::Declarator | NodeKind::DefaultPattern | NodeKind::DefaultParameter => &[
            Step::At(Way::Same, Path::At(0)),
            Step::At(Way::Uses, Path::At(1)),
        ],
        NodeKind::TypedDeclarator | NodeKind::MarkedParameter => &[
            Step::At(Way::Same, Path::At(0)),
            Step::All(Way::Uses, Path::At(2)),
            Step::All(Way::Uses, Path::At(3)),
        ],
        NodeKind::TypedVariableHead => &[
            Step::At(Way::Word, Path::At(1)),
            Step::All(Way::Uses, Path::At(2)),
        ],
        NodeKind::NamePattern | NodeKind::Entity | NodeKind::EntityOfType => &[Step::Act(Act::Name(
            Way::Same,
            0,
        ))],
        NodeKind::ArrayPattern
        | NodeKind::ObjectPattern
        | NodeKind::RestPattern
        | NodeKind::RestProperty => &[Step::Rest(Way::Same)],
        NodeKind::KeyPattern => &[
            Step::At(Way::Uses, Path::At(0)),
            Step::At(Way::Same, Path::At(1)),
            Step::All(Way::Uses, Path::At(2)),
        ],
        NodeKind::NameProperty => &[
            Step::Act(Act::Name(Way::Same, 0)),
            Step::All(Way::Uses, Path::At(1)),
        ],
        NodeKind::TypedParameters => &[
            Step::All(Way::Binds, Path::At(0)),
            Step::At(Way::Binds, Path::In(1, 0)),
            Step::All(Way::Uses, Path::In(1, 1)),
        ],
        NodeKind::PropertyParameter => &[
            Step::At(Way::Same, Path::At(1)),
            Step::All(Way::Uses, Path::At(3)),
            Step::All(Way::Uses, Path::At(4)),
        ],
        NodeKind::Function | NodeKind::AsyncFunction => &[
            Step::Act(Act::Open(When::Named(1), false)),
            Step::Act(Act::Own(1)),
            Step::Act(Act::Open(When::Always, true)),
            Step::At(Way::Uses, Path::At(2)),
            Step::At(Way::Body, Path::At(3)),
            Step::Act(Act::Close(When::Always)),
            Step::Act(Act::Close(When::Named(1))),
        ],
        NodeKind::TypedFunction | NodeKind::TypedAsyncFunction => &[
            Step::Act(Act::Open(When::Named(1), false)),
            Step::Act(Act::Own(1)),
            Step::Act(Act::Open(When::Always, true)),
            Step::At(Way::Uses, Path::At(2)),
            Step::All(Way::Body, Path::At(3)),
            Step::Act(Act::Close(When::Always)),
            Step::Act(Act::Close(When::Named(1))),
        ],
        NodeKind::NameArrow | NodeKind::AsyncNameArrow => &[
            Step::Act(Act::Open(When::Always, true)),
            Step::Act(Act::Name(Way::Binds, 0)),
            Step::All(Way::Body, Path::At(1)),
            Step::Act(Act::Close(When::Always)),
        ],
        NodeKind::ParenthesizedArrow | NodeKind::AsyncParenthesizedArrow => &[
            Step::Act(Act::Open(When::Always, true)),
            Step::At(Way::Uses, Path::At(0)),
            Step::All(Way::Body, Path::At(1)),
            Step::Act(Act::Close(When::Always)),
        ],
        NodeKind::TypedParenthesizedArrow | NodeKind::TypedAsyncParenthesizedArrow => &[
            Step::Act(Act::Open(When::Always, true)),
            Step::All(Way::Uses, Path::At(0)),
            Step::At(Way::Uses, Path::At(1)),
            Step::All(Way::Uses, Path::At(2)),
            Step::All(Way::Body, Path::At(3)),
            Step::Act(Act::Close(When::Always)),
        ],
        NodeKind::Class | NodeKind::TypedClass | NodeKind::AbstractClass => &[
            Step::Act(Act::Open(When::Named(0), false)),
            Step::Act(Act::Own(0)),
            Step::Rest(Way::Uses),
            Step::Act(Act::Close(When::Named(0))),
        ],
        NodeKind::StaticBlock => &[
            Step::Act(Act::Open(When::Always, true)),
            Step::Rest(Way::Body),
            Step::Act(Act::Close(When::Always)),
        ],
        NodeKind::MethodMember
        | NodeKind::GeneratorMember
        | NodeKind::AsyncProperty
        | NodeKind::AccessorProperty => &[
            Step::At(Way::Uses, Path::At(1)),
            Step::Act(Act::Open(When::Always, true)),
            Step::At(Way::Uses, Path::At(2)),
            Step::At(Way::Body, Path::At(3)),
            Step::Act(Act::Close(When::Always)),
        ],
        NodeKind::AsyncMember | NodeKind::AccessorMember => &[
            Step::At(Way::Uses, Path::At(2)),
            Step::Act(Act::Open(When::Always, true)),
            Step::At(Way::Uses, Path::At(3)),
            Step::At(Way::Body, Path::At(4)),
            Step::Act(Act::Close(When::Always)),
        ],
        NodeKind::TypedMethodMember | NodeKind::TypedGeneratorMember => &[
            Step::At(Way::Uses, Path::In(1, 0)),
            Step::Act(Act::Open(When::Always, true)),
            Step::At(Way::Uses, Path::In(1, 2)),
            Step::All(Way::Body, Path::At(2)),
            Step::Act(Act::Close(When::Always)),
        ],
        NodeKind::TypedAsyncMember | NodeKind::TypedAccessorMember => &[
            Step::At(Way::Uses, Path::In(2, 0)),
            Step::Act(Act::Open(When::Always, true)),
            Step::At(Way::Uses, Path::In(2, 2)),
            Step::All(Way::Body, Path::At(3)),
            Step::Act(Act::Close(When::Always)),
        ],
        NodeKind::Shorthand | NodeKind::Name => &[Step::Act(Act::Name(Way::Uses, 0))],
        NodeKind::MethodProperty | NodeKind::GeneratorProperty => &[
            Step::At(Way::Uses, Path::At(0)),
            Step::Act(Act::Open(When::Always, true)),
            Step::At(Way::Uses, Path::At(1)),
            Step::At(Way::Body, Path::At(2)),
            Step::Act(Act::Close(When::Always)),
        ],
        NodeKind::TypedMethodProperty | NodeKind::TypedGeneratorProperty => &[
            Step::At(Way::Uses, Path::In(0, 0)),
            Step::Act(Act::Open(When::Always, true)),
            Step::At(Way::Uses, Path::In(0, 1)),
            Step::At(Way::Body, Path::At(1)),
            Step::Act(Act::Close(When::Always)),
        ],
        NodeKind::TypedAsyncProperty | NodeKind::TypedAccessorProperty => &[
            Step::At(Way::Uses, Path::In(1, 0)),
            Step::Act(Act::Open(When::Always, true)),
            Step::At(Way::Uses, Path::In(1, 1)),
            Step::At(Way::Body, Path::At(2)),
            Step::Act(Act::Close(When::Always)),
        ],
        NodeKind::NamespaceDeclaration => &[
            Step::At(Way::Binds, Path::At(1)),
            Step::Act(Act::Open(When::Always, true)),
            Step::All(Way::Binds, Path::At(2)),
            Step::Act(Act::Close(When::Always)),
        ],
        NodeKind::ModuleDeclaration => &[
            Step::Act(Act::Open(When::Braced, true)),
            Step::Rest(Way::Binds),
            Step::Act(Act::Close(When::Braced)),
        ],
        NodeKind::ImportType => &[Step::All(Way::Uses, Path::At(2))],
        NodeKind::AssertsResult | NodeKind::PredicateResult => &[
            Step::Act(Act::Name(Way::Uses, 0)),
            Step::Rest(Way::Uses),
        ],
        _ => &[Step::Rest(Way::Uses)],
    }
}
