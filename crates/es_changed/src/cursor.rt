ghost use Rattle.std.specs.Prelude.{◌≡◌, ◌+◌, ◌<◌, ℕ, List, length, IfSome};
ghost use Rattle.es_token.specs.declared.token.Token.{Token as Tok};
ghost use Rattle.es_changed.specs.Changed.{held_in, first_in};

use crate::entry::{Change, ChangedEntry};

/// Entries side by side: the parts of a node, of a group or of a list.
#[derive(Clone, Copy)]
pub struct ChangedSiblings<'a> {
    pub entries: &'a [ChangedEntry],
}

/// What is at a place, with its parts.
#[derive(Clone, Copy)]
pub struct ChangedItem<'a> {
    pub change: Change,
    pub from: u32,
    pub to: u32,
    pub parts: ChangedSiblings<'a>,
}

impl<'a> ChangedSiblings<'a> {
    /// The first item, which may be no part, and the siblings after it.
    #[tactic(auto, using(crate::proofs::Rows::held_none, crate::proofs::Rows::held_some))]
    pub fn split(&self) -> Option<(ChangedItem<'a>, ChangedSiblings<'a>)>
        ensures value { (x : List ℕ) (ts : List Tok) → held_in x ts self.now.entries.now ≡ first_in x ts result }
        ensures below { IfSome result (λ p. length p.0.parts.entries.now + length p.1.entries.now < length self.now.entries.now) }
    {
        match self.entries.split_first() {
            None => None,
            Some((head, behind)) => {
                let cut = (head.size as usize).min(behind.len());
                let (parts, rest) = behind.split_at(cut);
                let item = ChangedItem {
                    change: head.change,
                    from: head.from,
                    to: head.to,
                    parts: ChangedSiblings { entries: parts },
                };
                Some((item, ChangedSiblings { entries: rest }))
            }
        }
    }
}
