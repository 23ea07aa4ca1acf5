//! What is met at the nodes of a program.

ghost use Rattle.std.specs.Prelude.{◌≡◌, ◌++◌, ◌≤◌, length, slice_get, slice_range, OnOk};
ghost use Rattle.es_variables.specs.scope_numbers.Cuts.{Cuts};
ghost use Rattle.es_walk.specs.Part.{as_group, number_in, is_there, node_in};
ghost use Rattle.es_walk.specs.Looks.{node_parts};
ghost use Rattle.es_required.specs.Required.{rules, leads, acts};
ghost use Rattle.es_required.specs.Required as spec;
ghost use Rattle.es_required.specs.Seen.{rules_of, seen, seen_at};

use crate::given::Making;
use crate::plan::{operand_plan, plan};
use crate::steps::{Act, Mark, Place, Way};
use base::Items;
use es_grammar::NodeKind;
use es_syntax::{Lean, Siblings};
use es_token::Token;
use es_walk::{Path, Step, Walk, has_parts, node_at, number_at};
use std::alloc::AllocError;

impl Walk for Making<'_> {
    type Here = Place;

    type Way = Way;

    type Act = Act;

    type Turn = ();

    type Mark = Mark;

    ghost rules = { λ s. rules_of s };

    fn plan(&self, label: NodeKind) -> &'static [Step<Way, Act, ()>] {
        plan(label)
    }

    fn turn(&self, _turn: ()) -> &'static [Step<Way, Act, ()>] {
        &[]
    }

    fn operand(&self, lean: Lean) -> &'static [Step<Way, Act, ()>] {
        operand_plan(lean)
    }

    fn operands(&self, _lean: Lean) -> Option<Place> {
        Some(Place::Plain)
    }

    fn leads(&self, here: Place, parts: &Siblings<'_>, way: Way) -> Option<Place> {
        self.led(here, parts, way)
    }

    fn act(
        &self,
        out: &mut Items<Mark>,
        here: Place,
        parts: &Siblings<'_>,
        act: Act,
    ) -> Result<(), AllocError> {
        self.meet(out, here, parts, act)
    }
}

// ---- what is asked of the parts of a node, by the rules
impl Making<'_> {
    /// The token at a place, by its number.
    fn number(&self, parts: &Siblings<'_>, path: Path) -> Option<u32>
        ensures { number_in (seen_at self.now parts.now.entries.now path) ≡ result }
    {
        number_at(parts, path)
    }

    /// Whether the group at a place has a part.
    fn has_one(&self, parts: &Siblings<'_>, path: Path) -> bool
        ensures { is_there (as_group (seen_at self.now parts.now.entries.now path)) ≡ result }
    {
        has_parts(parts, path)
    }

    /// The alternative and the parts of the node at a place.
    fn node<'t>(&self, parts: &Siblings<'t>, path: Path) -> Option<(NodeKind, Siblings<'t>)>
        ensures { node_in (seen_at self.now parts.now.entries.now path) ≡ node_parts (rules_of self.now) result }
    {
        node_at(parts, path)
    }
}

// ---- the parts of a declaration
impl Making<'_> {
    fn pattern_by(&self, label: NodeKind, parts: &Siblings<'_>) -> Option<u32>
        ensures { spec.pattern_by label (seen self.now parts.now.entries.now) ≡ result }
    {
        match label {
            NodeKind::NamePattern => self.number(parts, Path::At(0)),
            _ => None,
        }
    }

    /// The token of the pattern at a place that is a name.
    fn pattern(&self, parts: &Siblings<'_>, path: Path) -> Option<u32>
        ensures { spec.pattern_in (node_in (seen_at self.now parts.now.entries.now path)) ≡ result }
    {
        match self.node(parts, path) {
            Some((label, parts)) => self.pattern_by(label, &parts),
            None => None,
        }
    }

    fn name_by(&self, label: NodeKind, parts: &Siblings<'_>) -> Option<u32>
        ensures { spec.name_by label (seen self.now parts.now.entries.now) ≡ result }
    {
        match label {
            NodeKind::Name => self.number(parts, Path::At(0)),
            _ => None,
        }
    }

    /// The token of the name at a place.
    fn name(&self, parts: &Siblings<'_>, path: Path) -> Option<u32>
        ensures { spec.name_in (node_in (seen_at self.now parts.now.entries.now path)) ≡ result }
    {
        match self.node(parts, path) {
            Some((label, parts)) => self.name_by(label, &parts),
            None => None,
        }
    }

    /// Whether a call is at a place.
    fn is_call(&self, parts: &Siblings<'_>, path: Path) -> bool
        ensures { spec.is_call (node_in (seen_at self.now parts.now.entries.now path)) ≡ result }
    {
        match self.node(parts, path) {
            Some((label, _)) => is_call_by(label),
            None => false,
        }
    }

    fn called_by(&self, label: NodeKind, parts: &Siblings<'_>) -> Option<u32>
        ensures { spec.called_by label (seen self.now parts.now.entries.now) ≡ result }
    {
        match label {
            NodeKind::Chain => {
                if self.is_call(parts, Path::At(1)) && !self.has_one(parts, Path::At(2)) {
                    return self.name(parts, Path::At(0));
                }
                None
            }
            _ => None,
        }
    }

    /// The token of the name that the value at a place calls.
    fn called(&self, parts: &Siblings<'_>, path: Path) -> Option<u32>
        ensures { spec.called_in (node_in (seen_at self.now parts.now.entries.now path)) ≡ result }
    {
        match self.node(parts, path) {
            Some((label, parts)) => self.called_by(label, &parts),
            None => None,
        }
    }
}

fn is_call_by(label: NodeKind) -> bool
    ensures { spec.is_call_by label ≡ result }
{
    match label {
        NodeKind::CallPost | NodeKind::TypedCallPost => true,
        _ => false,
    }
}

// ---- tokens
impl Making<'_> {
    /// The token of this number.
    fn numbered(&self, at: u32) -> Option<Token>
        ensures { result ≡ slice_get self.now.tokens.now at }
    {
        self.tokens.get(at as usize).copied()
    }

    /// The text of a token.
    fn cut(&self, token: Token) -> &str
        requires { Cuts self.now.text.now token }
        ensures { result.now ≡ slice_range self.now.text.now token.range.start token.range.end }
    {
        let range = token.range();
        &self.text[range.start..range.end]
    }

    #[tactic(auto, unfolding(es_lowering::specs::Texts::ident_of))]
    fn is_spelled(&self, word: &str, at: u32) -> bool
        ensures { spec.same_word self.now.text.now self.now.tokens.now word.now (slice_get self.now.tokens.now at) ≡ result }
    {
        match self.numbered(at) {
            Some(token) => self.cut(token) == word,
            None => false,
        }
    }

    /// Whether the token of this number is spelled so.
    fn is_word(&self, word: &str, at: Option<u32>) -> bool
        ensures { spec.is_word self.now.text.now self.now.tokens.now word.now at ≡ result }
    {
        match at {
            Some(at) => self.is_spelled(word, at),
            None => false,
        }
    }

    fn is_module(&self, at: Option<u32>) -> bool
        ensures { spec.is_module self.now.text.now self.now.tokens.now at ≡ result }
    {
        self.is_word("\"node:module\"", at)
            || self.is_word("'node:module'", at)
            || self.is_word("\"module\"", at)
            || self.is_word("'module'", at)
    }
}

fn from_by(is_module: bool) -> Place
    ensures { result ≡ spec.from_by is_module }
{
    if is_module {
        Place::Imported
    } else {
        Place::Plain
    }
}

fn word_by(is_const: bool) -> Place
    ensures { result ≡ spec.word_by is_const }
{
    if is_const { Place::Const } else { Place::Plain }
}

// ---- marks
impl Making<'_> {
    /// Where a part stands.
    fn led(&self, here: Place, parts: &Siblings<'_>, way: Way) -> Option<Place>
        ensures { result ≡ leads self.now.text.now self.now.tokens.now here (seen self.now parts.now.entries.now) way }
    {
        match way {
            Way::Inner => Some(Place::Plain),
            Way::Same => Some(here),
            Way::From => Some(from_by(self.is_module(self.number(parts, Path::At(2))))),
            Way::Word => Some(word_by(self.is_word("const", self.number(parts, Path::At(0))))),
        }
    }

    fn add_import(
        &self,
        out: &mut Items<Mark>,
        parts: &Siblings<'_>,
        at: Path,
        name: Path,
    ) -> Result<(), AllocError>
        ensures { OnOk result (out.new ≡ out.old ++ spec.import_at self.now.text.now self.now.tokens.now (seen self.now parts.now.entries.now) at name) }
    {
        if self.is_word("createRequire", self.number(parts, at)) {
            return add_imported(out, self.number(parts, name));
        }
        Ok(())
    }

    fn add_declared(
        &self,
        out: &mut Items<Mark>,
        parts: &Siblings<'_>,
        at: Path,
    ) -> Result<(), AllocError>
        ensures { OnOk result (out.new ≡ out.old ++ spec.declare_at self.now.text.now self.now.tokens.now (seen self.now parts.now.entries.now) at) }
    {
        let name = self.pattern(parts, Path::At(0));
        let callee = self.called(parts, at);
        add_made(out, name, callee)
    }

    /// Adds what an act meets.
    fn meet(
        &self,
        out: &mut Items<Mark>,
        here: Place,
        parts: &Siblings<'_>,
        act: Act,
    ) -> Result<(), AllocError>
        ensures { OnOk result (out.new ≡ out.old ++ acts self.now.text.now self.now.tokens.now here (seen self.now parts.now.entries.now) act) }
    {
        match (here, act) {
            (Place::Imported, Act::Import(at, name)) => self.add_import(out, parts, at, name),
            (Place::Const, Act::Declare(at)) => self.add_declared(out, parts, at),
            _ => Ok(()),
        }
    }
}

fn add_imported(out: &mut Items<Mark>, name: Option<u32>) -> Result<(), AllocError>
    ensures { OnOk result (out.new ≡ out.old ++ spec.imported_of name) }
{
    match name {
        Some(name) => out.push(Mark::Imported(name)),
        None => Ok(()),
    }
}

fn add_made(out: &mut Items<Mark>, name: Option<u32>, callee: Option<u32>) -> Result<(), AllocError>
    ensures { OnOk result (out.new ≡ out.old ++ spec.made_of name callee) }
{
    match (name, callee) {
        (Some(name), Some(callee)) => out.push(Mark::Made(name, callee)),
        _ => Ok(()),
    }
}
