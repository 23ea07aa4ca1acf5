ghost use Rattle.std.specs.Prelude.{◌≡◌, ◌+◌, ◌<◌, ◌≤◌, ℕ, List, length, map, IfSome};
ghost use Rattle.es_syntax.specs.Places.{place_of, last_of};
ghost use Rattle.es_token.specs.declared.token.Token.{Token as Tok};
ghost use Rattle.es_lowering.specs.Value.{part, as_group, group, is_there};
ghost use Rattle.es_lowering.specs.Texts.{token_of, token_at};
ghost use Rattle.es_lowering.specs.Lowering.{packed, value_of};
ghost use Rattle.es_syntax.specs.Held.{held, parts_of, valued, leant, first_in, first_of_parts, there, token_there};
ghost use Rattle.es_syntax.specs.Trees.{trees};
ghost use Rattle.es_syntax.specs.declared.entry.Lean.{Lean as ALean};

use crate::entry::{Entry, What};

/// Parts in a row: those of a node, of a group or of a list. A part that may be absent is a group of one part or none.
#[derive(Clone, Copy)]
pub struct Siblings<'a> {
    pub entries: &'a [Entry],
}

/// What is at a place, with its parts.
#[derive(Clone, Copy)]
pub struct Item<'a> {
    pub what: What,
    pub from: u32,
    pub to: u32,
    pub parts: Siblings<'a>,
}

impl<'a> Siblings<'a> {
    /// The first part, and those after it.
    #[tactic(auto, using(crate::proofs::Rows::held_none, crate::proofs::Rows::held_some, crate::proofs::Rows::parts_none, crate::proofs::Rows::parts_some))]
    pub fn split(&self) -> Option<(Item<'a>, Siblings<'a>)>
        ensures value { (x : List ℕ) (ts : List Tok) → held x ts self.now.entries.now ≡ first_in x ts result }
        ensures parts { (x : List ℕ) (ts : List Tok) → parts_of x ts self.now.entries.now ≡ first_of_parts x ts result }
        ensures below { IfSome result (λ p. length p.0.parts.entries.now + length p.1.entries.now < length self.now.entries.now) }
    {
        match self.entries.split_first() {
            None => None,
            Some((head, behind)) => {
                let cut = (head.size as usize).min(behind.len());
                let (parts, rest) = behind.split_at(cut);
                let item = Item {
                    what: head.what,
                    from: head.from,
                    to: head.to,
                    parts: Siblings { entries: parts },
                };
                Some((item, Siblings { entries: rest }))
            }
        }
    }

    /// The part at a place.
    pub fn part(&self, n: usize) -> Option<Item<'a>>
        ensures value { (x : List ℕ) (ts : List Tok) → part (held x ts self.now.entries.now) n ≡ there x ts result }
        ensures below { IfSome result (λ t. length t.parts.entries.now < length self.now.entries.now) }
    {
        match self.split() {
            None => None,
            Some((first, rest)) => {
                if n == 0 {
                    return Some(first);
                }
                rest.part(n - 1)
            }
        }
    }

    /// The parts of the group at a place; none where no group is there.
    #[tactic(auto, using(crate::proofs::Rows::held_nothing))]
    pub fn group_at(&self, n: usize) -> Siblings<'a>
        ensures value { (x : List ℕ) (ts : List Tok) → held x ts result.entries.now ≡ group (held x ts self.now.entries.now) n }
        ensures below { length result.entries.now ≤ length self.now.entries.now }
    {
        match self.part(n) {
            Some(item) => item.group(),
            None => Siblings { entries: &[] },
        }
    }

    /// Whether the group at a place has a part; not so where no group is there.
    pub fn has(&self, n: usize) -> bool
        ensures { (x : List ℕ) (ts : List Tok) → is_there (group (held x ts self.now.entries.now) n) ≡ result }
    {
        match self.group_at(n).split() {
            Some(_) => true,
            None => false,
        }
    }

    /// The token at a place, by its number.
    pub fn token_at(&self, n: usize) -> Option<u32>
        ensures { (x : List ℕ) (ts : List Tok) → token_at ts (held x ts self.now.entries.now) n ≡ token_there ts result }
    {
        match self.part(n) {
            Some(item) => item.token(),
            None => None,
        }
    }
}

impl<'a> Item<'a> {
    /// The token that it is, by its number.
    #[tactic(auto, using(crate::proofs::Rows::token_role, crate::proofs::Rows::token_held, crate::proofs::Rows::token_leant))]
    pub fn token(&self) -> Option<u32>
        ensures { (x : List ℕ) (ts : List Tok) → token_of ts (valued x ts self.now) ≡ token_there ts result }
    {
        match self.what {
            What::Leaf => Some(self.from),
            What::Node(_) => None,
            What::Role(_) => None,
            What::Parts => None,
            What::Lean(_) => None,
        }
    }

    /// The parts, where it is a group.
    #[tactic(auto, using(crate::proofs::Rows::held_nothing, crate::proofs::Rows::held_group, crate::proofs::Rows::group_role, crate::proofs::Rows::group_leant))]
    pub fn group(&self) -> Siblings<'a>
        ensures value { (x : List ℕ) (ts : List Tok) → held x ts result.entries.now ≡ as_group (valued x ts self.now) }
        ensures below { length result.entries.now ≤ length self.now.parts.entries.now }
    {
        match self.what {
            What::Parts => self.parts,
            What::Leaf => Siblings { entries: &[] },
            What::Node(_) => Siblings { entries: &[] },
            What::Role(_) => Siblings { entries: &[] },
            What::Lean(_) => Siblings { entries: &[] },
        }
    }
}

impl<'a> Siblings<'a> {
    /// What the row holds is what its kept trees are: a law, and nothing to run.
    #[tactic(auto, using(crate::proofs::Rows::held_trees))]
    pub fn holds_its_trees(&self)
        ensures { (x : List ℕ) (ts : List Tok) → packed (map (value_of x ts) (trees self.now.entries.now)) ≡ held x ts self.now.entries.now }
    {}

    /// The token after the last of these parts; the given one where there is none.
    #[tactic(auto, using(crate::proofs::Places::last_none, crate::proofs::Places::last_some))]
    fn last(&self, to: u32) -> u32
        ensures { (x : List ℕ) (ts : List Tok) → result ≡ last_of to (parts_of x ts self.now.entries.now) }
    {
        let mut row = *self;
        let mut last = to;
        while let Some((part, rest)) = row.split() {
            last = part.to;
            row = rest;
        }
        last
    }

    /// Where the left-associative nodes over these parts are.
    #[tactic(auto, using(crate::proofs::Places::place_leaned))]
    fn leaning_place(&self, from: u32) -> Option<(u32, u32)>
        ensures { (x : List ℕ) (ts : List Tok) (lean : ALean) → place_of (leant x ts lean from (parts_of x ts self.now.entries.now)) ≡ result }
    {
        match self.split() {
            None => None,
            Some((_, turns)) => match turns.split() {
                None => None,
                Some((turn, others)) => Some((from, others.last(turn.to))),
            },
        }
    }
}

impl<'a> Item<'a> {
    /// The first token of the node that it is, and the one after its last; none where it is no node.
    #[tactic(auto, using(crate::proofs::Places::place_role, crate::proofs::Places::place_held))]
    pub fn place(&self) -> Option<(u32, u32)>
        ensures { (x : List ℕ) (ts : List Tok) → place_of (valued x ts self.now) ≡ result }
    {
        match self.what {
            What::Leaf => None,
            What::Node(_) => Some((self.from, self.to)),
            What::Role(_) => match self.parts.part(0) {
                Some(node) => node.place(),
                None => None,
            },
            What::Parts => None,
            What::Lean(_) => self.parts.leaning_place(self.from),
        }
    }
}
