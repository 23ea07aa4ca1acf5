//! Where such names are among the parts of a node.

ghost use Rattle.std.specs.Prelude.{◌≡◌, ◌≤◌, length};
ghost use Rattle.es_required.specs.Required.{plan, operand_plan};

use crate::steps::{Act, Way};
use es_grammar::NodeKind;
use es_syntax::Lean;
use es_walk::{Path, Step};

/// The steps of the nodes of this alternative, in the order of the text.
#[tactic(auto, unfolding(crate::specs::Required::plan))]
pub fn plan(label: NodeKind) -> &'static [Step<Way, Act, ()>]
    ensures value { result.now ≡ plan label }
    ensures short { length result.now ≤ 32 }
{
    match label {
        NodeKind::FromImport => &[Step::At(Way::From, Path::At(1))],
        NodeKind::DefaultAndClause => &[Step::At(Way::Same, Path::At(1))],
        NodeKind::NamedImports => &[Step::Rest(Way::Same)],
        NodeKind::ImportedName => &[Step::Act(Act::Import(Path::At(1), Path::At(1)))],
        NodeKind::RenamedImport => &[Step::Act(Act::Import(Path::In(1, 0), Path::At(2)))],
        NodeKind::Variables => &[Step::Rest(Way::Word)],
        NodeKind::Declarator => &[Step::Act(Act::Declare(Path::At(1))), Step::Rest(Way::Inner)],
        NodeKind::TypedDeclarator => &[
            Step::Act(Act::Declare(Path::In(3, 0))),
            Step::Rest(Way::Inner),
        ],
        _ => &[Step::Rest(Way::Inner)],
    }
}

/// The steps of what follows a first operand.
#[tactic(auto, unfolding(crate::specs::Required::operand_plan))]
pub fn operand_plan(_lean: Lean) -> &'static [Step<Way, Act, ()>]
    ensures value { result.now ≡ operand_plan _lean }
    ensures short { length result.now ≤ 32 }
{
    &[Step::Rest(Way::Inner)]
}
