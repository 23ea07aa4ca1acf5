//! The walk of a row to the sites in it: by loops, with what is left at each level on a stack.

ghost use Rattle.std.specs.Prelude.{◌≡◌, true, ◌+◌, ◌≤◌, [], ◌++◌, length, IfOk, OnOk};
ghost use Rattle.std.specs.List.{flat_map};
ghost use Rattle.es_lexer.specs.Reads.{ReadsTokens};
ghost use Rattle.es_law_sites.specs.plain.Part.{found};
ghost use Rattle.es_law_sites.specs.plain.Own.{plain_sites};
ghost use Rattle.es_syntax.specs.Trees.{trees};
ghost use Rattle.es_tree_sites.specs.Named.{Unnamed};
ghost use Rattle.es_tree_sites.specs.Parts.{parts_in, part_in, HasCut};
ghost use Rattle.es_tree_sites.specs.declared.plan.Way.TheVariants as way;
ghost use Rattle.es_tree_sites.specs.Plan.{on, taken, first_way, other_ways, ways, rest, is_tree};
ghost use Rattle.es_tree_sites.specs.Left.{left_sites, ahead, first_sites, Begins, is_parts, named_if, names_itself, weight};

use crate::plan::{Group, Way, rest};
use crate::search::first_named;
use crate::source::TokenizedText;
use base::Items;
use es_site::Site;
use es_syntax::{Entry, Item, Siblings, What};
use es_token::Token;
use std::alloc::{AllocError, Global};

/// What is left of parts in a row.
#[derive(Clone, Copy)]
pub struct Left<'a> {
    pub parts: Siblings<'a>,
    /// How the first of them are taken.
    pub ways: &'static [Way],
    /// How the others are taken.
    pub rest: Way,
}

/// The first part, how it is taken, and what is left after it.
#[derive(Clone, Copy)]
pub struct First<'a> {
    pub way: Way,
    pub item: Item<'a>,
    pub behind: Left<'a>,
}

/// The sites of the plain trees that these entries are, over the tokens of a text, in the order of the text.
pub fn tree_sites(
    alloc: Global,
    text: &str,
    tokens: &[Token],
    entries: &[Entry],
) -> Result<Items<Site>, AllocError>
    requires { ReadsTokens text.now tokens.now }
    ensures { IfOk result (λ found. found ≡ flat_map (plain_sites text.now tokens.now) (trees entries.now)) }
{
    let mut found = Items::new(alloc);
    // The levels of most rows have room at once.
    let mut around = Items::from_vec(Vec::with_capacity(alloc, 16)?);
    let source = TokenizedText {
        alloc,
        text,
        tokens,
    };
    around.push(source.in_group(Group::Trees, &Siblings { entries }))?;
    while let Some(left) = around.pop() {
        source.take(&mut found, &mut around, left)?;
    }
    Ok(found)
}

impl Left<'_> {
    /// How the first part is taken.
    fn way(&self) -> Way
        ensures { result ≡ first_way self.now.ways.now self.now.rest }
    {
        match self.ways.split_first() {
            Some((way, _)) => *way,
            None => self.rest,
        }
    }

    /// How the others are taken.
    fn others(&self) -> &'static [Way]
        ensures { result.now ≡ other_ways self.now.ways.now }
    {
        match self.ways.split_first() {
            Some((_, ways)) => ways,
            None => &[],
        }
    }
}

impl TokenizedText<'_> {
    /// The first part, where there is one.
    #[tactic(auto, using(crate::proofs::LeftLemmas::taken_more, crate::proofs::LeftLemmas::taken_nil))]
    fn first<'t>(&self, left: &Left<'t>) -> Option<First<'t>>
        ensures sites { left_sites self.now left.now ≡ first_sites self.now result }
        ensures entries { Begins left.now.parts.entries.now result }
    {
        match self.split(&left.parts) {
            None => None,
            Some((item, parts)) => Some(First {
                way: left.way(),
                item,
                behind: Left {
                    parts,
                    ways: left.others(),
                    rest: left.rest,
                },
            }),
        }
    }

    /// The parts of a group or of a list.
    fn in_group<'t>(&self, group: Group, parts: &Siblings<'t>) -> Left<'t>
        ensures sites { left_sites self.now result ≡ taken (ways group (parts_in self.now parts.now)) (rest group) (parts_in self.now parts.now) }
        ensures parts { result.parts.entries.now ≡ parts.now.entries.now }
    {
        Left {
            parts: *parts,
            ways: self.ways(group, parts),
            rest: rest(group),
        }
    }

    /// None of these parts.
    #[tactic(auto, using(crate::proofs::PlanLemmas::skipped_none))]
    fn skipped<'t>(&self, parts: &Siblings<'t>) -> Left<'t>
        ensures sites { left_sites self.now result ≡ [] }
        ensures parts { result.parts.entries.now ≡ parts.now.entries.now }
    {
        Left {
            parts: *parts,
            ways: &[],
            rest: Way::Skip,
        }
    }

    /// The parts of the item, taken as a tree.
    #[tactic(auto, using(crate::proofs::WalkLemmas::tree_leaf, crate::proofs::WalkLemmas::tree_node, crate::proofs::WalkLemmas::tree_role, crate::proofs::WalkLemmas::tree_parts, crate::proofs::WalkLemmas::tree_lean))]
    fn in_tree<'t>(&self, item: &Item<'t>) -> Left<'t>
        ensures sites { found (part_in self.now item.now) ≡ named_if true self.now item.now.what item.now.parts ++ left_sites self.now result }
        ensures parts { result.parts.entries.now ≡ item.now.parts.entries.now }
    {
        match item.what {
            What::Leaf => self.skipped(&item.parts),
            What::Node(label) => Left {
                parts: item.parts,
                ways: self.plan(label, &item.parts),
                rest: Way::Skip,
            },
            What::Role(_) => self.in_group(Group::First, &item.parts),
            What::Parts => self.skipped(&item.parts),
            What::Lean(lean) => self.in_group(Group::Operands(lean), &item.parts),
        }
    }

    /// Its parts, taken as those of a group.
    #[tactic(auto, using(crate::proofs::WalkLemmas::group_leaf_none, crate::proofs::WalkLemmas::group_node_none, crate::proofs::WalkLemmas::group_role_none, crate::proofs::WalkLemmas::group_parts_is, crate::proofs::WalkLemmas::group_lean_none))]
    fn in_parts<'t>(&self, group: Group, item: &Item<'t>) -> Left<'t>
        ensures sites { taken (ways group (part_in self.now item.now)) (rest group) (part_in self.now item.now) ≡ left_sites self.now result }
        ensures parts { result.parts.entries.now ≡ item.now.parts.entries.now }
    {
        match item.what {
            What::Leaf => self.skipped(&item.parts),
            What::Node(_) => self.skipped(&item.parts),
            What::Role(_) => self.skipped(&item.parts),
            What::Parts => self.in_group(group, &item.parts),
            What::Lean(_) => self.skipped(&item.parts),
        }
    }

    /// Its parts, taken either way.
    fn in_either<'t>(&self, group: Group, item: &Item<'t>) -> Left<'t>
        ensures sites { on (way.Either group) (part_in self.now item.now) ≡ named_if true self.now item.now.what item.now.parts ++ left_sites self.now result }
        ensures parts { result.parts.entries.now ≡ item.now.parts.entries.now }
    {
        if is_parts(item.what) {
            return self.in_parts(group, item);
        }
        self.in_tree(item)
    }

    /// The parts of the item, taken this way.
    #[tactic(auto, using(crate::proofs::PlanLemmas::on_skip, crate::proofs::PlanLemmas::on_tree))]
    fn inside<'t>(&self, way: Way, item: &Item<'t>) -> Left<'t>
        ensures sites { on way (part_in self.now item.now) ≡ names_itself self.now way item.now ++ left_sites self.now result }
        ensures parts { result.parts.entries.now ≡ item.now.parts.entries.now }
    {
        match way {
            Way::Skip => self.skipped(&item.parts),
            Way::Tree => self.in_tree(item),
            Way::In(group) => self.in_parts(group, item),
            Way::Either(group) => self.in_either(group, item),
        }
    }

    /// What the item, taken this way, names, if it is a node that names a module by itself.
    fn name_itself(
        &self,
        found: &mut Items<Site>,
        way: Way,
        item: &Item<'_>,
    ) -> Result<(), AllocError>
        requires { HasCut self.now }
        ensures { OnOk result (found.new ≡ found.old ++ names_itself self.now way item.now) }
    {
        match item.what {
            What::Node(label) => {
                if is_tree(way) {
                    return self.names(found, label, &item.parts);
                }
                Ok(())
            }
            What::Leaf => Ok(()),
            What::Role(_) => Ok(()),
            What::Parts => Ok(()),
            What::Lean(_) => Ok(()),
        }
    }

    /// Takes the parts that are left at one level up to the first node that can name a module, and leaves what follows
    /// it. What has no such node in it is passed over.
    fn take<'t>(
        &self,
        found: &mut Items<Site>,
        around: &mut Items<Left<'t>>,
        left: Left<'t>,
    ) -> Result<(), AllocError>
        requires { HasCut self.now }
        ensures sites { OnOk result (found.new ++ ahead self.now around.new ≡ found.old ++ (left_sites self.now left.entry ++ ahead self.now around.old)) }
        ensures less { OnOk result (weight around.new ≤ weight around.old + (length left.entry.parts.entries.now + length left.entry.parts.entries.now)) }
    {
        match first_named(left.parts.entries) {
            Some(named) => self.go_down(found, around, left, named),
            None => Ok(()),
        }
    }

    /// Goes down to that node: the `named` entries before it can name none.
    fn go_down<'t>(
        &self,
        found: &mut Items<Site>,
        around: &mut Items<Left<'t>>,
        left: Left<'t>,
        named: usize,
    ) -> Result<(), AllocError>
        requires cut { HasCut self.now }
        requires unnamed { Unnamed named left.parts.entries.now }
        ensures sites { OnOk result (found.new ++ ahead self.now around.new ≡ found.old ++ (left_sites self.now left.entry ++ ahead self.now around.old)) }
        ensures less { OnOk result (weight around.new ≤ weight around.old + (length left.entry.parts.entries.now + length left.entry.parts.entries.now)) }
    {
        let mut here = left;
        let mut before = named;
        while let Some(first) = self.first(&here) {
            let size = first.item.parts.entries.len();
            if before > size {
                before = before - size - 1;
                here = first.behind;
            } else {
                self.name_itself(found, first.way, &first.item)?;
                around.push(first.behind)?;
                here = self.inside(first.way, &first.item);
                if before == 0 {
                    around.push(here)?;
                    return Ok(());
                }
                before -= 1;
            }
        }
        Ok(())
    }
}

fn is_parts(what: What) -> bool
    ensures { result ≡ is_parts what }
{
    matches!(what, What::Parts)
}

/// Whether an item is taken as a tree, where it is one.
fn is_tree(way: Way) -> bool
    ensures { result ≡ is_tree way }
{
    matches!(way, Way::Tree | Way::Either(_))
}
