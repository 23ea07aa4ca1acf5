//! Where forms are among the parts of a node.

ghost use Rattle.std.specs.Prelude.{◌≡◌, ◌≤◌, length};
ghost use Rattle.es_forms.specs.Forms.{plan, operand_plan, arguments_by, made_by};

use crate::steps::{Act, Way};
use es_grammar::NodeKind;
use es_syntax::Lean;
use es_walk::{Path, Step};

/// The steps of the nodes of this alternative, in the order of the text.
#[tactic(auto, unfolding(crate::specs::Forms::plan))]
pub fn plan(label: NodeKind) -> &'static [Step<Way, Act, ()>]
    ensures value { result.now ≡ plan label }
    ensures short { length result.now ≤ 32 }
{
    match label {
        NodeKind::Chain => &[Step::Act(Act::Call), Step::Rest(Way::Inner)],
        NodeKind::New => &[
            Step::Act(Act::New(Path::In(1, 0))),
            Step::Rest(Way::Made(Path::In(1, 0))),
        ],
        NodeKind::TypedNew => &[
            Step::Act(Act::New(Path::In(2, 0))),
            Step::Rest(Way::Made(Path::In(2, 0))),
        ],
        NodeKind::Arguments => &[Step::Rest(Way::Same)],
        NodeKind::ImportType => &[Step::Act(Act::Type), Step::Rest(Way::Inner)],
        NodeKind::WithStatement => &[Step::At(Way::Inner, Path::At(0))],
        _ => &[Step::Rest(Way::Inner)],
    }
}

/// The steps of what follows a first operand.
#[tactic(auto, unfolding(crate::specs::Forms::operand_plan))]
pub fn operand_plan(_lean: Lean) -> &'static [Step<Way, Act, ()>]
    ensures value { result.now ≡ operand_plan _lean }
    ensures short { length result.now ≤ 32 }
{
    &[Step::Rest(Way::Inner)]
}

/// Where the arguments stand in what follows a callee.
pub fn arguments_by(label: NodeKind) -> Option<Path>
    ensures { result ≡ arguments_by label }
{
    match label {
        NodeKind::CallPost => Some(Path::At(0)),
        NodeKind::OptionalPost => Some(Path::Deep(0, 0, 0)),
        NodeKind::TypedCallPost => Some(Path::At(1)),
        NodeKind::TypedOptionalPost => Some(Path::Deep(0, 0, 1)),
        _ => None,
    }
}

/// Where the arguments of `new` stand, if the node is one.
pub fn made_by(label: NodeKind) -> Option<Path>
    ensures { result ≡ made_by label }
{
    match label {
        NodeKind::New => Some(Path::In(1, 0)),
        NodeKind::TypedNew => Some(Path::In(2, 0)),
        _ => None,
    }
}
