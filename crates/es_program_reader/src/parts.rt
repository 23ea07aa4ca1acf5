//! Parts of a row, as trees.

ghost use Rattle.std.specs.Prelude.{◌≡◌, ◌+◌, ◌<◌, ◌≤◌, length, IfSome};
ghost use Rattle.es_grammar.specs.declared.cst.tree.Cst.{out-Cst};
ghost use Rattle.es_syntax.specs.Trees.{turn_parts};
ghost use Rattle.es_program_reader.specs.Rows.{kept_in, trees_at, tree_at, first_kept};

use es_syntax::{Item, Siblings, What};

/// The first part, and those after it.
#[tactic(auto, using(crate::proofs::RowLemmas::kept_none, crate::proofs::RowLemmas::kept_some))]
pub fn first_part<'a>(row: Siblings<'a>) -> Option<(Item<'a>, Siblings<'a>)>
    ensures kept { kept_in row.entry.entries.now ≡ first_kept result }
    ensures below { IfSome result (λ p. length p.0.parts.entries.now + length p.1.entries.now < length row.entry.entries.now) }
{
    match row.entries.split_first() {
        None => None,
        Some((head, behind)) => {
            let cut = (head.size as usize).min(behind.len());
            let (parts, rest) = behind.split_at(cut);
            let item = Item {
                what: head.what,
                from: head.from,
                to: head.to,
                parts: Siblings { entries: parts },
            };
            Some((item, Siblings { entries: rest }))
        }
    }
}

/// The parts of a turn; none where it is no group.
#[tactic(auto, using(crate::proofs::RowLemmas::kept_nothing, crate::proofs::RowLemmas::turn_leaf, crate::proofs::RowLemmas::turn_node, crate::proofs::RowLemmas::turn_role, crate::proofs::RowLemmas::turn_group, crate::proofs::RowLemmas::turn_leant))]
pub fn parts_of_turn<'a>(turn: Item<'a>) -> Siblings<'a>
    ensures parts { trees_at result ≡ turn_parts (out-Cst (tree_at turn.entry)) }
    ensures below { length result.entries.now ≤ length turn.entry.parts.entries.now }
{
    match turn.what {
        What::Parts => turn.parts,
        What::Leaf => Siblings { entries: &[] },
        What::Node(_) => Siblings { entries: &[] },
        What::Role(_) => Siblings { entries: &[] },
        What::Lean(_) => Siblings { entries: &[] },
    }
}
