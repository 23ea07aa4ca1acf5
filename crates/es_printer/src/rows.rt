//! The parts in a row of entries.

ghost use Rattle.std.specs.Prelude.{◌≡◌, ◌+◌, ◌≤◌, ◌<◌, List, length, IfSome, IsTrue};
ghost use Rattle.es_grammar.specs.declared.cst.tree.Cst.{out-Cst};
ghost use Rattle.es_syntax.specs.Trees.{turn_parts, trees_in};
ghost use Rattle.es_token.specs.declared.token.Token.{Token};
ghost use Rattle.es_printer.specs.declared.style.Style.{Style};
ghost use Rattle.es_printer.specs.Sheet.{Sheet};
ghost use Rattle.es_printer.specs.Rows.{kept, first_kept, tree_at, all};

use es_syntax::{Item, Siblings, What};

/// The first part in a row, and those after it.
#[inline(always)]
#[tactic(auto, using(crate::proofs::RowLemmas::kept_none, crate::proofs::RowLemmas::kept_some))]
pub fn split<'t>(row: &Siblings<'t>) -> Option<(Item<'t>, Siblings<'t>)>
    ensures trees { kept row.now.entries.now ≡ first_kept result }
    ensures below { IfSome result (λ p. length p.0.parts.entries.now + length p.1.entries.now < length row.now.entries.now) }
{
    match row.entries.split_first() {
        None => None,
        Some((head, behind)) => {
            let cut = (head.size as usize).min(behind.len());
            let (parts, rest) = behind.split_at(cut);
            let item = Item {
                what: head.what,
                from: head.from,
                to: head.to,
                parts: Siblings { entries: parts },
            };
            Some((item, Siblings { entries: rest }))
        }
    }
}

/// Nothing is printed of these parts: there are none, or a leaf alone.
#[inline(always)]
#[tactic(auto, using(crate::proofs::RowLemmas::bare_none, crate::proofs::RowLemmas::bare_leaf))]
pub fn is_bare(parts: Siblings<'_>) -> bool
    ensures { IsTrue result → (ts : List Token) (own : Style) (s : Sheet) → all ts (trees_in (kept parts.entry.entries.now)) own s ≡ s }
{
    match split(&parts) {
        None => true,
        Some((part, rest)) => match part.what {
            What::Leaf => rest.entries.is_empty(),
            What::Node(_) | What::Role(_) | What::Parts | What::Lean(_) => false,
        },
    }
}

/// The parts of a turn.
#[tactic(auto, using(crate::proofs::RowLemmas::none_kept, crate::proofs::TurnLemmas::turn_leaf, crate::proofs::TurnLemmas::turn_node, crate::proofs::TurnLemmas::turn_role, crate::proofs::TurnLemmas::turn_group, crate::proofs::TurnLemmas::turn_lean))]
pub fn turn<'t>(item: &Item<'t>) -> Siblings<'t>
    ensures value { trees_in (kept result.entries.now) ≡ turn_parts (out-Cst (tree_at item.now)) }
    ensures below { length result.entries.now ≤ length item.now.parts.entries.now }
{
    match item.what {
        What::Parts => item.parts,
        What::Leaf => Siblings { entries: &[] },
        What::Node(_) => Siblings { entries: &[] },
        What::Role(_) => Siblings { entries: &[] },
        What::Lean(_) => Siblings { entries: &[] },
    }
}
