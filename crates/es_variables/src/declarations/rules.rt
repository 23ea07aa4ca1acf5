//! What declarations say of the nodes of a program.

ghost use Rattle.std.specs.Prelude.{◌≡◌, ◌≤◌, ◌++◌, ◌∷◌, [], length, if◌then◌else◌, OnOk};
ghost use Rattle.es_walk.specs.Part.{follow, number_in, own_in, node_in};
ghost use Rattle.es_walk.specs.Rows.{parts_of};
ghost use Rattle.es_walk.specs.Looks.{node_parts};
ghost use Rattle.es_variables.specs.scope_analysis.Events.{operand_plan, inner, is_body, named, declared, name_by, name_in, class_by, class_in, is_constructor, is_key, method_by, is_of_class, leads, acts, rules};

use crate::declarations::plan::plan;
use crate::declarations::source::Source;
use crate::scope_analysis::{Act, BindingKind, Event, Visit, Way};
use base::Items;
use es_grammar::NodeKind;
use es_syntax::{Lean, Siblings};
use es_token::TokenKind;
use es_walk::{Path, Step, Walk, node_at, number_at, own_at};
use std::alloc::AllocError;

impl Walk for Source<'_> {
    type Here = Visit;

    type Way = Way;

    type Act = Act;

    type Turn = ();

    type Mark = Event;

    ghost rules = { λ s. rules s.text.now s.tokens.now };

    fn plan(&self, label: NodeKind) -> &'static [Step<Way, Act, ()>] {
        plan(label)
    }

    fn turn(&self, _turn: ()) -> &'static [Step<Way, Act, ()>] {
        &[]
    }

    fn operand(&self, lean: Lean) -> &'static [Step<Way, Act, ()>] {
        operand_plan(lean)
    }

    fn operands(&self, _lean: Lean) -> Option<Visit> {
        Some(Visit::Walks)
    }

    fn leads(&self, here: Visit, parts: &Siblings<'_>, way: Way) -> Option<Visit> {
        self.led(here, parts, way)
    }

    fn act(
        &self,
        out: &mut Items<Event>,
        here: Visit,
        parts: &Siblings<'_>,
        act: Act,
    ) -> Result<(), AllocError> {
        self.meet(out, here, parts, act)
    }
}

/// The steps of what follows a first operand.
#[tactic(auto, unfolding(crate::specs::scope_analysis::Events::operand_plan))]
fn operand_plan(_lean: Lean) -> &'static [Step<Way, Act, ()>]
    ensures value { result.now ≡ operand_plan _lean }
    ensures short { length result.now ≤ 32 }
{
    &[Step::Rest(Way::Same)]
}

/// What is walked where its node is.
fn inner(here: Visit) -> Option<Visit>
    ensures { inner here ≡ result }
{
    match here {
        Visit::Walks => Some(Visit::Walks),
        Visit::Body => Some(Visit::Walks),
        Visit::Names(_) => None,
    }
}

fn is_body(here: Visit) -> bool
    ensures { is_body here ≡ result }
{
    matches!(here, Visit::Body)
}

// ---- what is asked of the parts of a node, by the rules
impl Source<'_> {
    /// The token at a place, by its number.
    fn number(&self, parts: &Siblings<'_>, path: Path) -> Option<u32>
        ensures { number_in (follow (parts_of (rules self.now.text.now self.now.tokens.now) parts.now.entries.now) path) ≡ result }
    {
        number_at(parts, path)
    }

    /// The token at a place, or the first one of the group there, by its number.
    fn own(&self, parts: &Siblings<'_>, path: Path) -> Option<u32>
        ensures { number_in (own_in (follow (parts_of (rules self.now.text.now self.now.tokens.now) parts.now.entries.now) path)) ≡ result }
    {
        own_at(parts, path)
    }

    /// The alternative and the parts of the node at a place.
    fn node<'t>(&self, parts: &Siblings<'t>, path: Path) -> Option<(NodeKind, Siblings<'t>)>
        ensures { node_in (follow (parts_of (rules self.now.text.now self.now.tokens.now) parts.now.entries.now) path) ≡ node_parts (rules self.now.text.now self.now.tokens.now) result }
    {
        node_at(parts, path)
    }

    /// The name that a pattern with these parts is.
    fn name_by(&self, label: NodeKind, parts: &Siblings<'_>) -> Option<u32>
        ensures { name_by label (parts_of (rules self.now.text.now self.now.tokens.now) parts.now.entries.now) ≡ result }
    {
        match label {
            NodeKind::NamePattern => self.number(parts, Path::At(0)),
            _ => None,
        }
    }

    /// The name that the pattern at a place is.
    fn name(&self, parts: &Siblings<'_>, path: Path) -> Option<u32>
        ensures { name_in (node_in (follow (parts_of (rules self.now.text.now self.now.tokens.now) parts.now.entries.now) path)) ≡ result }
    {
        match self.node(parts, path) {
            Some((label, parts)) => self.name_by(label, &parts),
            None => None,
        }
    }

    /// The name of a class with these parts.
    fn class_by(&self, label: NodeKind, parts: &Siblings<'_>) -> Option<u32>
        ensures { class_by label (parts_of (rules self.now.text.now self.now.tokens.now) parts.now.entries.now) ≡ result }
    {
        match label {
            NodeKind::Class | NodeKind::TypedClass | NodeKind::AbstractClass => {
                self.own(parts, Path::At(0))
            }
            _ => None,
        }
    }

    /// The name of the class at a place.
    fn class(&self, parts: &Siblings<'_>, path: Path) -> Option<u32>
        ensures { class_in (node_in (follow (parts_of (rules self.now.text.now self.now.tokens.now) parts.now.entries.now) path)) ≡ result }
    {
        match self.node(parts, path) {
            Some((label, parts)) => self.class_by(label, &parts),
            None => None,
        }
    }

    /// Whether a key with these parts is the word `constructor`.
    fn is_key(&self, label: NodeKind, parts: &Siblings<'_>) -> bool
        ensures { is_key self.now.tokens.now label (parts_of (rules self.now.text.now self.now.tokens.now) parts.now.entries.now) ≡ result }
    {
        match label {
            NodeKind::WordKey => {
                self.is_kind(TokenKind::ConstructorWord, self.number(parts, Path::At(0)))
            }
            _ => false,
        }
    }

    /// Whether the key at a place is the word `constructor`.
    fn is_constructor(&self, parts: &Siblings<'_>, path: Path) -> bool
        ensures { is_constructor self.now.tokens.now (node_in (follow (parts_of (rules self.now.text.now self.now.tokens.now) parts.now.entries.now) path)) ≡ result }
    {
        match self.node(parts, path) {
            Some((label, parts)) => self.is_key(label, &parts),
            None => false,
        }
    }
}

impl Source<'_> {
    /// The body of a method whose key is at this place.
    fn method(&self, parts: &Siblings<'_>, path: Path) -> Visit
        ensures { method_by self.now.tokens.now (node_in (follow (parts_of (rules self.now.text.now self.now.tokens.now) parts.now.entries.now) path)) ≡ result }
    {
        if self.is_constructor(parts, path) {
            Visit::Walks
        } else {
            Visit::Body
        }
    }

    /// Whether the class at a place declares the name that is the first part.
    fn is_of_class(&self, here: Visit, parts: &Siblings<'_>, path: Path) -> bool
        ensures { is_of_class self.now.text.now self.now.tokens.now here (parts_of (rules self.now.text.now self.now.tokens.now) parts.now.entries.now) path ≡ result }
    {
        match here {
            Visit::Names(_) => {
                self.are_same(self.name(parts, Path::At(0)), self.class(parts, path))
            }
            Visit::Walks => false,
            Visit::Body => false,
        }
    }

    fn led(&self, here: Visit, parts: &Siblings<'_>, way: Way) -> Option<Visit>
        ensures { result ≡ leads self.now.text.now self.now.tokens.now here (parts_of (rules self.now.text.now self.now.tokens.now) parts.now.entries.now) way }
    {
        match way {
            Way::Same => Some(here),
            Way::Walks => Some(Visit::Walks),
            Way::Body => Some(Visit::Body),
            Way::Inner => inner(here),
            Way::Names(bound) => Some(Visit::Names(bound)),
            Way::Word => Some(Visit::Names(self.word(self.number(parts, Path::At(0))))),
            Way::Method(key) => Some(self.method(parts, key)),
            Way::Unless(class) => {
                if self.is_of_class(here, parts, class) {
                    return None;
                }
                Some(here)
            }
        }
    }

    fn meet(
        &self,
        out: &mut Items<Event>,
        here: Visit,
        parts: &Siblings<'_>,
        act: Act,
    ) -> Result<(), AllocError>
        ensures { OnOk result (out.new ≡ out.old ++ acts self.now.text.now self.now.tokens.now here (parts_of (rules self.now.text.now self.now.tokens.now) parts.now.entries.now) act) }
    {
        match act {
            Act::Enter(scope) => out.push(Event::Enter(scope)),
            Act::EnterApart(scope) => event_unless(out, is_body(here), Event::Enter(scope)),
            Act::Leave => out.push(Event::Leave),
            Act::LeaveApart => event_unless(out, is_body(here), Event::Leave),
            Act::Declare(bound, n) => declare(out, bound, self.number(parts, Path::At(n))),
            Act::Name(n) => name(out, here, self.number(parts, Path::At(n))),
            Act::Own(bound, n) => declare(out, bound, self.own(parts, Path::At(n))),
            Act::Class(path) => {
                if self.is_of_class(here, parts, path) {
                    return declare(out, BindingKind::Class, self.class(parts, path));
                }
                Ok(())
            }
        }
    }
}

// ---- events

fn event_unless(out: &mut Items<Event>, so: bool, event: Event) -> Result<(), AllocError>
    ensures { OnOk result (out.new ≡ out.old ++ (if so then [] else event ∷ [])) }
{
    if so {
        return Ok(());
    }
    out.push(event)
}

/// A name is declared, where there is one.
fn declare(out: &mut Items<Event>, bound: BindingKind, at: Option<u32>) -> Result<(), AllocError>
    ensures { OnOk result (out.new ≡ out.old ++ declared bound at) }
{
    match at {
        Some(at) => out.push(Event::Declare(bound, at)),
        None => Ok(()),
    }
}

/// A name, where names are declared.
fn name(out: &mut Items<Event>, here: Visit, at: Option<u32>) -> Result<(), AllocError>
    ensures { OnOk result (out.new ≡ out.old ++ named here at) }
{
    match here {
        Visit::Names(bound) => declare(out, bound, at),
        Visit::Walks => Ok(()),
        Visit::Body => Ok(()),
    }
}
