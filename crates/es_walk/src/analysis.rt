//! What an analysis says of the nodes of a tree.

ghost use Rattle.std.specs.Prelude.{◌≡◌, ◌≤◌, ◌++◌, length, OnOk};
ghost use Rattle.es_walk.specs.Walk.{Analysis};
ghost use Rattle.es_walk.specs.Rows.{parts_of};

use crate::step::Step;
use base::Items;
use es_grammar::NodeKind;
use es_syntax::{Lean, Siblings};
use std::alloc::AllocError;

/// An analysis of trees: the steps of the nodes of each alternative, the context of their parts, and what is met at a node
/// itself. `Here` is what a node knows of the nodes around it, a `Way` leads from it to that of a part, an `Act` is done at
/// a node, a `Turn` names the steps of a turn of a list, and `Mark` is what is met. A plan has at most 32 steps, so the walk
/// is known to end.
pub trait Walk {
    type Here: Copy;

    type Way: Copy + 'static;

    type Act: Copy + 'static;

    type Turn: Copy + 'static;

    type Mark;

    ghost rules: { Self → Analysis Self.Here Self.Way Self.Act Self.Turn Self.Mark };

    /// The steps of the nodes of an alternative.
    fn plan(&self, label: NodeKind) -> &'static [Step<Self::Way, Self::Act, Self::Turn>]
        ensures value { result.now ≡ (rules self.now).plan label }
        ensures short { length result.now ≤ 32 };

    /// The steps of a turn of a list.
    fn turn(&self, turn: Self::Turn) -> &'static [Step<Self::Way, Self::Act, Self::Turn>]
        ensures value { result.now ≡ (rules self.now).turn turn }
        ensures short { length result.now ≤ 32 };

    /// The steps of what follows the first operand of a left-associative node.
    fn operand(&self, lean: Lean) -> &'static [Step<Self::Way, Self::Act, Self::Turn>]
        ensures value { result.now ≡ (rules self.now).operand lean }
        ensures short { length result.now ≤ 32 };

    /// The context of operands, if not that of their node.
    fn operands(&self, lean: Lean) -> Option<Self::Here>
        ensures { result ≡ (rules self.now).operands lean };

    /// The context of a part; none, if it is passed over.
    fn leads(&self, here: Self::Here, parts: &Siblings<'_>, way: Self::Way) -> Option<Self::Here>
        ensures { result ≡ (rules self.now).leads here (parts_of (rules self.now) parts.now.entries.now) way };

    /// Adds what an act meets.
    fn act(
        &self,
        out: &mut Items<Self::Mark>,
        here: Self::Here,
        parts: &Siblings<'_>,
        act: Self::Act,
    ) -> Result<(), AllocError>
        ensures { OnOk result (out.new ≡ out.old ++ (rules self.now).acts here (parts_of (rules self.now) parts.now.entries.now) act) };
}
