//! What the scopes of a program say of its nodes.

ghost use Rattle.std.specs.Prelude.{◌≡◌, ◌≤◌, ◌++◌, ◌∷◌, [], length, is_some, ◌&&◌, ◌||◌, if◌then◌else◌, OnOk};
ghost use Rattle.es_walk.specs.Part.{as_group, follow, number_in, own_in, is_there, has_second};
ghost use Rattle.es_walk.specs.Rows.{parts_of};
ghost use Rattle.es_scopes.specs.Marks.{turn_plan, operand_plan, is_body, hoists_in, is_used, is_kind, is_braced, word_by, leads, named_at, holds, acts, scopes};

use crate::plan::plan;
use crate::steps::{Act, Mark, Place, Turn, Way, When};
use base::Items;
use es_grammar::NodeKind;
use es_syntax::{Lean, Siblings};
use es_token::{Token, TokenKind};
use es_walk::{Path, Step, Walk, has_parts, has_second, number_at, own_at};
use std::alloc::AllocError;

/// The tokens of a text, and whether the body of a function is a scope of its own.
#[derive(Clone, Copy)]
pub struct Scopes<'a> {
    pub tokens: &'a [Token],
    pub bodies: bool,
}

impl Walk for Scopes<'_> {
    type Here = Place;

    type Way = Way;

    type Act = Act;

    type Turn = Turn;

    type Mark = Mark;

    ghost rules = { λ s. scopes s.tokens.now s.bodies };

    fn plan(&self, label: NodeKind) -> &'static [Step<Way, Act, Turn>] {
        plan(label)
    }

    fn turn(&self, turn: Turn) -> &'static [Step<Way, Act, Turn>] {
        turn_plan(turn)
    }

    fn operand(&self, lean: Lean) -> &'static [Step<Way, Act, Turn>] {
        operand_plan(lean)
    }

    fn operands(&self, _lean: Lean) -> Option<Place> {
        Some(Place::Uses)
    }

    fn leads(&self, here: Place, parts: &Siblings<'_>, way: Way) -> Option<Place> {
        self.led(here, parts, way)
    }

    fn act(
        &self,
        out: &mut Items<Mark>,
        here: Place,
        parts: &Siblings<'_>,
        act: Act,
    ) -> Result<(), AllocError> {
        self.meet(out, here, parts, act)
    }
}

/// The steps of a turn of a list.
#[tactic(auto, unfolding(crate::specs::Marks::turn_plan))]
fn turn_plan(turn: Turn) -> &'static [Step<Way, Act, Turn>]
    ensures value { result.now ≡ turn_plan turn }
    ensures short { length result.now ≤ 32 }
{
    match turn {
        Turn::Case => &[
            Step::All(Way::Same, Path::At(0)),
            Step::All(Way::Binds, Path::At(1)),
        ],
    }
}

/// The steps of what follows a first operand.
#[tactic(auto, unfolding(crate::specs::Marks::operand_plan))]
fn operand_plan(_lean: Lean) -> &'static [Step<Way, Act, Turn>]
    ensures value { result.now ≡ operand_plan _lean }
    ensures short { length result.now ≤ 32 }
{
    &[Step::Rest(Way::Same)]
}

fn is_kind(tokens: &[Token], at: usize, kind: TokenKind) -> bool
    ensures { is_kind tokens.now kind at ≡ result }
{
    match tokens.get(at) {
        Some(token) => token.kind() == kind,
        None => false,
    }
}

/// By the first word: `var`, or another.
fn word_by(tokens: &[Token], at: Option<u32>) -> Place
    ensures { word_by tokens.now at ≡ result }
{
    match at {
        Some(at) => {
            if is_kind(tokens, at as usize, TokenKind::VarWord) {
                return Place::Hoists;
            }
            Place::Binds
        }
        None => Place::Binds,
    }
}

fn is_braced(tokens: &[Token], at: Option<u32>) -> bool
    ensures { is_braced tokens.now at ≡ result }
{
    match at {
        Some(at) => is_kind(tokens, at as usize + 1, TokenKind::OpenBrace),
        None => false,
    }
}

fn is_body(here: Place) -> bool
    ensures { is_body here ≡ result }
{
    matches!(here, Place::Body)
}

/// Whether `var` declares in a scope.
fn hoists_in(here: Place, when: When, hoists: bool) -> bool
    ensures { hoists_in here when hoists ≡ result }
{
    match when {
        When::Apart => hoists || is_body(here),
        _ => hoists,
    }
}

fn is_named(here: Place, at: Option<u32>) -> bool
    ensures { is_some at && is_used here ≡ result }
{
    match at {
        Some(_) => matches!(here, Place::Body | Place::Uses),
        None => false,
    }
}

fn mark_if(out: &mut Items<Mark>, so: bool, mark: Mark) -> Result<(), AllocError>
    ensures { OnOk result (out.new ≡ out.old ++ (if so then mark ∷ [] else [])) }
{
    if so {
        return out.push(mark);
    }
    Ok(())
}

/// A name; `this` is none.
fn name(
    out: &mut Items<Mark>,
    tokens: &[Token],
    place: Option<Place>,
    at: Option<u32>,
) -> Result<(), AllocError>
    ensures { OnOk result (out.new ≡ out.old ++ named_at tokens.now place at) }
{
    match place {
        None => Ok(()),
        Some(place) => match at {
            Some(at) => mark_if(
                out,
                !is_kind(tokens, at as usize, TokenKind::ThisWord),
                Mark::Name(place, at),
            ),
            None => Ok(()),
        },
    }
}

// ---- what is asked of the parts of a node, by the rules
impl Scopes<'_> {
    /// The token at a place, by its number.
    fn number(&self, parts: &Siblings<'_>, path: Path) -> Option<u32>
        ensures { number_in (follow (parts_of (scopes self.now.tokens.now self.now.bodies) parts.now.entries.now) path) ≡ result }
    {
        number_at(parts, path)
    }

    /// The token at a place, or the first one of the group there, by its number.
    fn own(&self, parts: &Siblings<'_>, path: Path) -> Option<u32>
        ensures { number_in (own_in (follow (parts_of (scopes self.now.tokens.now self.now.bodies) parts.now.entries.now) path)) ≡ result }
    {
        own_at(parts, path)
    }

    /// Whether the group at a place has a part.
    fn has_one(&self, parts: &Siblings<'_>, path: Path) -> bool
        ensures { is_there (as_group (follow (parts_of (scopes self.now.tokens.now self.now.bodies) parts.now.entries.now) path)) ≡ result }
    {
        has_parts(parts, path)
    }

    /// Whether it has more than one.
    fn has_two(&self, parts: &Siblings<'_>, path: Path) -> bool
        ensures { has_second (as_group (follow (parts_of (scopes self.now.tokens.now self.now.bodies) parts.now.entries.now) path)) ≡ result }
    {
        has_second(parts, path)
    }
}

impl Scopes<'_> {
    fn led(&self, here: Place, parts: &Siblings<'_>, way: Way) -> Option<Place>
        ensures { result ≡ leads self.now.tokens.now here (parts_of (scopes self.now.tokens.now self.now.bodies) parts.now.entries.now) way }
    {
        match way {
            Way::Same => Some(here),
            Way::Uses => Some(Place::Uses),
            Way::Binds => Some(Place::Binds),
            Way::Body => Some(Place::Body),
            Way::Word => Some(word_by(self.tokens, self.number(parts, Path::At(0)))),
            Way::Exported => {
                if self.has_one(parts, Path::At(2)) {
                    return None;
                }
                Some(Place::Uses)
            }
        }
    }

    /// Whether a scope is opened.
    fn holds(&self, here: Place, parts: &Siblings<'_>, when: When) -> bool
        ensures { result ≡ holds self.now.tokens.now self.now.bodies here (parts_of (scopes self.now.tokens.now self.now.bodies) parts.now.entries.now) when }
    {
        match when {
            When::Always => true,
            When::Apart => self.bodies || !is_body(here),
            When::Caught => self.has_two(parts, Path::At(1)),
            When::Braced => is_braced(self.tokens, self.number(parts, Path::At(0))),
            When::Named(n) => is_named(here, self.own(parts, Path::At(n))),
        }
    }

    fn meet(
        &self,
        out: &mut Items<Mark>,
        here: Place,
        parts: &Siblings<'_>,
        act: Act,
    ) -> Result<(), AllocError>
        ensures { OnOk result (out.new ≡ out.old ++ acts self.now.tokens.now self.now.bodies here (parts_of (scopes self.now.tokens.now self.now.bodies) parts.now.entries.now) act) }
    {
        match act {
            Act::Open(when, hoists) => {
                mark_if(
                    out,
                    self.holds(here, parts, when),
                    Mark::Open(hoists_in(here, when, hoists)),
                )
            }
            Act::Close(when) => mark_if(out, self.holds(here, parts, when), Mark::Close),
            Act::Name(way, n) => name(
                out,
                self.tokens,
                self.led(here, parts, way),
                self.number(parts, Path::At(n)),
            ),
            Act::NameIn(way, n, m) => name(
                out,
                self.tokens,
                self.led(here, parts, way),
                self.number(parts, Path::In(n, m)),
            ),
            Act::Own(n) => name(
                out,
                self.tokens,
                Some(Place::Binds),
                self.own(parts, Path::At(n)),
            ),
        }
    }
}
