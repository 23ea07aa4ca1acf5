//! Where declarations are among the parts of a node.

ghost use Rattle.std.specs.Prelude.{◌≡◌, ◌≤◌, length};
ghost use Rattle.es_variables.specs.scope_analysis.Plan.{plan};

use crate::scope_analysis::{Act, BindingKind, ScopeKind, Way};
use es_grammar::NodeKind;
use es_walk::{Path, Step};

/// The steps of the nodes of this alternative, in the order of the walk. What has no line of its own is walked, whole.
#[tactic(auto, unfolding(crate::specs::scope_analysis::Plan::plan))]
pub fn plan(label: NodeKind) -> &'static [Step<Way, Act, ()>]
    ensures value { result.now ≡ plan label }
    ensures short { length result.now ≤ 32 }
{
    match label {
        NodeKind::SourceImport | NodeKind::DefaultClause => &[Step::Act(Act::Declare(
            BindingKind::ValueImport,
            0,
        ))],
        NodeKind::DeferImport | NodeKind::Namespace => &[Step::Act(Act::Declare(
            BindingKind::NamespaceImport,
            0,
        ))],
        NodeKind::DefaultAndClause => &[
            Step::Act(Act::Declare(BindingKind::ValueImport, 0)),
            Step::Rest(Way::Walks),
        ],
        NodeKind::RenamedImport => &[Step::Act(Act::Declare(BindingKind::ValueImport, 2))],
        NodeKind::ImportedName => &[Step::Act(Act::Declare(BindingKind::ValueImport, 1))],
        NodeKind::Block => &[
            Step::Act(Act::EnterApart(ScopeKind::Block)),
            Step::Rest(Way::Walks),
            Step::Act(Act::LeaveApart),
        ],
        NodeKind::ForStatement => &[
            Step::All(Way::Walks, Path::At(0)),
            Step::All(Way::Walks, Path::At(1)),
            Step::All(Way::Walks, Path::At(2)),
            Step::All(Way::Walks, Path::At(4)),
            Step::All(Way::Walks, Path::At(3)),
            Step::Act(Act::Enter(ScopeKind::Loop)),
            Step::At(Way::Walks, Path::At(5)),
            Step::Act(Act::Leave),
        ],
        NodeKind::ForEachStatement => &[
            Step::At(Way::Walks, Path::At(0)),
            Step::All(Way::Walks, Path::At(1)),
            Step::Act(Act::Enter(ScopeKind::Loop)),
            Step::At(Way::Walks, Path::At(2)),
            Step::Act(Act::Leave),
        ],
        NodeKind::ForAwaitStatement => &[
            Step::At(Way::Walks, Path::At(0)),
            Step::At(Way::Walks, Path::At(1)),
            Step::Act(Act::Enter(ScopeKind::Loop)),
            Step::At(Way::Walks, Path::At(2)),
            Step::Act(Act::Leave),
        ],
        NodeKind::WhileStatement => &[
            Step::At(Way::Walks, Path::At(0)),
            Step::Act(Act::Enter(ScopeKind::Loop)),
            Step::At(Way::Walks, Path::At(1)),
            Step::Act(Act::Leave),
        ],
        NodeKind::DoStatement => &[
            Step::At(Way::Walks, Path::At(1)),
            Step::Act(Act::Enter(ScopeKind::Loop)),
            Step::At(Way::Walks, Path::At(0)),
            Step::Act(Act::Leave),
        ],
        NodeKind::WithStatement => &[
            Step::At(Way::Walks, Path::At(0)),
            Step::Act(Act::Enter(ScopeKind::With)),
            Step::At(Way::Walks, Path::At(1)),
            Step::Act(Act::Leave),
        ],
        NodeKind::SwitchStatement => &[
            Step::At(Way::Walks, Path::At(0)),
            Step::Act(Act::Enter(ScopeKind::Switch)),
            Step::All(Way::Walks, Path::At(1)),
            Step::Act(Act::Leave),
        ],
        NodeKind::TryStatement | NodeKind::TypedTryStatement => &[
            Step::At(Way::Walks, Path::At(0)),
            Step::At(Way::Walks, Path::In(1, 0)),
            Step::At(Way::Names(BindingKind::CatchClause), Path::Deep(1, 0, 0)),
            Step::Act(Act::Enter(ScopeKind::Catch)),
            Step::At(Way::Walks, Path::In(1, 1)),
            Step::Act(Act::Leave),
            Step::At(Way::Walks, Path::Deep(1, 2, 0)),
        ],
        NodeKind::Variables => &[Step::Rest(Way::Word)],
        NodeKind::Declarator => &[
            Step::At(Way::Walks, Path::At(1)),
            Step::Act(Act::Class(Path::At(1))),
            Step::At(Way::Unless(Path::At(1)), Path::At(0)),
        ],
        NodeKind::TypedDeclarator => &[
            Step::All(Way::Walks, Path::At(3)),
            Step::Act(Act::Class(Path::In(3, 0))),
            Step::At(Way::Unless(Path::In(3, 0)), Path::At(0)),
        ],
        NodeKind::VariableHead | NodeKind::TypedVariableHead => &[Step::At(Way::Word, Path::At(1))],
        NodeKind::NamePattern => &[Step::Act(Act::Name(0))],
        NodeKind::ArrayPattern
        | NodeKind::ObjectPattern
        | NodeKind::RestPattern
        | NodeKind::RestProperty
        | NodeKind::Parameters
        | NodeKind::Signature => &[Step::Rest(Way::Same)],
        NodeKind::DefaultPattern | NodeKind::DefaultParameter => &[
            Step::At(Way::Same, Path::At(0)),
            Step::At(Way::Inner, Path::At(1)),
        ],
        NodeKind::KeyPattern => &[
            Step::At(Way::Inner, Path::At(0)),
            Step::At(Way::Same, Path::At(1)),
            Step::All(Way::Inner, Path::At(2)),
        ],
        NodeKind::NameProperty => &[Step::Act(Act::Name(0)), Step::All(Way::Inner, Path::At(1))],
        NodeKind::TypedParameters => &[
            Step::All(Way::Same, Path::At(0)),
            Step::At(Way::Same, Path::In(1, 0)),
        ],
        NodeKind::MarkedParameter => &[
            Step::At(Way::Same, Path::At(0)),
            Step::All(Way::Inner, Path::At(3)),
        ],
        NodeKind::ThisParameter => &[],
        NodeKind::TypedSignature => &[Step::At(Way::Same, Path::At(1))],
        NodeKind::Function | NodeKind::AsyncFunction => &[
            Step::Act(Act::Own(BindingKind::Function, 1)),
            Step::Act(Act::Enter(ScopeKind::Function)),
            Step::At(Way::Names(BindingKind::Param), Path::At(2)),
            Step::At(Way::Body, Path::At(3)),
            Step::Act(Act::Leave),
        ],
        NodeKind::TypedFunction | NodeKind::TypedAsyncFunction => &[
            Step::Act(Act::Own(BindingKind::Function, 1)),
            Step::Act(Act::Enter(ScopeKind::Function)),
            Step::At(Way::Names(BindingKind::Param), Path::At(2)),
            Step::All(Way::Body, Path::At(3)),
            Step::Act(Act::Leave),
        ],
        NodeKind::NameArrow | NodeKind::AsyncNameArrow => &[
            Step::Act(Act::Enter(ScopeKind::Arrow)),
            Step::Act(Act::Declare(BindingKind::Param, 0)),
            Step::All(Way::Body, Path::At(1)),
            Step::Act(Act::Leave),
        ],
        NodeKind::ParenthesizedArrow | NodeKind::AsyncParenthesizedArrow => &[
            Step::Act(Act::Enter(ScopeKind::Arrow)),
            Step::At(Way::Names(BindingKind::Param), Path::At(0)),
            Step::At(Way::Walks, Path::At(0)),
            Step::All(Way::Body, Path::At(1)),
            Step::Act(Act::Leave),
        ],
        NodeKind::TypedParenthesizedArrow | NodeKind::TypedAsyncParenthesizedArrow => &[
            Step::Act(Act::Enter(ScopeKind::Arrow)),
            Step::At(Way::Names(BindingKind::Param), Path::At(1)),
            Step::At(Way::Walks, Path::At(1)),
            Step::All(Way::Body, Path::At(3)),
            Step::Act(Act::Leave),
        ],
        NodeKind::Class | NodeKind::TypedClass | NodeKind::AbstractClass => &[
            Step::Act(Act::Own(BindingKind::Class, 0)),
            Step::Act(Act::Enter(ScopeKind::Class)),
            Step::Rest(Way::Walks),
            Step::Act(Act::Leave),
        ],
        NodeKind::MethodMember => &[
            Step::At(Way::Walks, Path::At(1)),
            Step::At(Way::Names(BindingKind::Param), Path::At(2)),
            Step::At(Way::Method(Path::At(1)), Path::At(3)),
        ],
        NodeKind::GeneratorMember | NodeKind::AsyncProperty => &[
            Step::At(Way::Walks, Path::At(1)),
            Step::At(Way::Names(BindingKind::Param), Path::At(2)),
            Step::At(Way::Body, Path::At(3)),
        ],
        NodeKind::AsyncMember | NodeKind::AccessorMember => &[
            Step::At(Way::Walks, Path::At(2)),
            Step::At(Way::Names(BindingKind::Param), Path::At(3)),
            Step::At(Way::Body, Path::At(4)),
        ],
        NodeKind::TypedMethodMember => &[
            Step::At(Way::Walks, Path::In(1, 0)),
            Step::At(Way::Names(BindingKind::Param), Path::In(1, 2)),
            Step::All(Way::Method(Path::In(1, 0)), Path::At(2)),
        ],
        NodeKind::TypedGeneratorMember => &[
            Step::At(Way::Walks, Path::In(1, 0)),
            Step::At(Way::Names(BindingKind::Param), Path::In(1, 2)),
            Step::All(Way::Body, Path::At(2)),
        ],
        NodeKind::TypedAsyncMember | NodeKind::TypedAccessorMember => &[
            Step::At(Way::Walks, Path::In(2, 0)),
            Step::At(Way::Names(BindingKind::Param), Path::In(2, 2)),
            Step::All(Way::Body, Path::At(3)),
        ],
        NodeKind::MethodProperty | NodeKind::GeneratorProperty => &[
            Step::At(Way::Walks, Path::At(0)),
            Step::At(Way::Names(BindingKind::Param), Path::At(1)),
            Step::At(Way::Body, Path::At(2)),
        ],
        NodeKind::TypedMethodProperty | NodeKind::TypedGeneratorProperty => &[
            Step::At(Way::Walks, Path::In(0, 0)),
            Step::At(Way::Names(BindingKind::Param), Path::In(0, 1)),
            Step::At(Way::Body, Path::At(1)),
        ],
        NodeKind::TypedAsyncProperty => &[
            Step::At(Way::Walks, Path::In(1, 0)),
            Step::At(Way::Names(BindingKind::Param), Path::In(1, 1)),
            Step::At(Way::Body, Path::At(2)),
        ],
        NodeKind::InterfaceDeclaration | NodeKind::AliasDeclaration => &[Step::Act(Act::Declare(
            BindingKind::TypeName,
            0,
        ))],
        _ => &[Step::Rest(Way::Walks)],
    }
}
