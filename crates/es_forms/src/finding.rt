//! What is met at the nodes of a program.

ghost use Rattle.std.specs.Prelude.{◌≡◌, ◌==◌, ◌&&◌, ◌≤◌, ◌++◌, ◌∷◌, [], Some, codes, length, slice_get, slice_range, if◌then◌else◌, IfOk, OnOk};
ghost use Rattle.es_lowering.specs.Texts.{str_of};
ghost use Rattle.es_variables.specs.Numbers.{at_in};
ghost use Rattle.es_variables.specs.scope_numbers.Cuts.{Cuts};
ghost use Rattle.es_walk.specs.Part.{as_group, follow, number_in, is_there, node_in};
ghost use Rattle.es_walk.specs.Looks.{node_parts};
ghost use Rattle.es_required.specs.Required.{is_required};
ghost use Rattle.es_forms.specs.Forms.{rules, leads, acts};
ghost use Rattle.es_forms.specs.Forms as spec;
ghost use Rattle.es_forms.specs.Seen.{rules_of, seen, seen_at};

use crate::given::Finding;
use crate::plan::{arguments_by, made_by, operand_plan, plan};
use crate::steps::{Act, Place, Way};
use base::{Items, Text};
use es_grammar::NodeKind;
use es_literal::literal_text::literal_text;
use es_required::Required;
use es_site::{Attribute, DependencyKind, Site};
use es_syntax::{Lean, Siblings};
use es_token::{Token, TokenKind};
use es_walk::{Path, Step, Walk, has_parts, node_at, number_at};
use std::alloc::AllocError;

impl Walk for Finding<'_> {
    type Here = Place;

    type Way = Way;

    type Act = Act;

    type Turn = ();

    type Mark = Site;

    ghost rules = { λ s. rules_of s };

    fn plan(&self, label: NodeKind) -> &'static [Step<Way, Act, ()>] {
        plan(label)
    }

    fn turn(&self, _turn: ()) -> &'static [Step<Way, Act, ()>] {
        &[]
    }

    fn operand(&self, lean: Lean) -> &'static [Step<Way, Act, ()>] {
        operand_plan(lean)
    }

    fn operands(&self, _lean: Lean) -> Option<Place> {
        Some(Place::Plain)
    }

    fn leads(&self, here: Place, parts: &Siblings<'_>, way: Way) -> Option<Place> {
        self.led(here, parts, way)
    }

    fn act(
        &self,
        out: &mut Items<Site>,
        here: Place,
        parts: &Siblings<'_>,
        act: Act,
    ) -> Result<(), AllocError> {
        self.meet(out, here, parts, act)
    }
}

// ---- what is asked of the parts of a node, by the rules
impl Finding<'_> {
    /// The token at a place, by its number.
    fn number(&self, parts: &Siblings<'_>, path: Path) -> Option<u32>
        ensures { number_in (seen_at self.now parts.now.entries.now path) ≡ result }
    {
        number_at(parts, path)
    }

    /// Whether the group at a place has a part.
    fn has_one(&self, parts: &Siblings<'_>, path: Path) -> bool
        ensures { is_there (as_group (seen_at self.now parts.now.entries.now path)) ≡ result }
    {
        has_parts(parts, path)
    }

    /// The alternative and the parts of the node at a place.
    fn node<'t>(&self, parts: &Siblings<'t>, path: Path) -> Option<(NodeKind, Siblings<'t>)>
        ensures { node_in (seen_at self.now parts.now.entries.now path) ≡ node_parts (rules_of self.now) result }
    {
        node_at(parts, path)
    }
}

// ---- the parts of a form
impl Finding<'_> {
    /// Whether `import.meta` is at a place.
    fn is_meta(&self, parts: &Siblings<'_>, path: Path) -> bool
        ensures { spec.is_meta (node_in (seen_at self.now parts.now.entries.now path)) ≡ result }
    {
        match self.node(parts, path) {
            Some((label, _)) => is_meta_by(label),
            None => false,
        }
    }

    fn name_by(&self, label: NodeKind, parts: &Siblings<'_>) -> Option<u32>
        ensures { spec.name_by label (seen self.now parts.now.entries.now) ≡ result }
    {
        match label {
            NodeKind::Name => self.number(parts, Path::At(0)),
            _ => None,
        }
    }

    /// The token of the name at a place.
    fn name(&self, parts: &Siblings<'_>, path: Path) -> Option<u32>
        ensures { spec.name_in (node_in (seen_at self.now parts.now.entries.now path)) ≡ result }
    {
        match self.node(parts, path) {
            Some((label, parts)) => self.name_by(label, &parts),
            None => None,
        }
    }

    fn member_by(&self, label: NodeKind, parts: &Siblings<'_>) -> Option<u32>
        ensures { spec.member_by label (seen self.now parts.now.entries.now) ≡ result }
    {
        match label {
            NodeKind::MemberPost => self.number(parts, Path::At(0)),
            _ => None,
        }
    }

    /// The token behind the `.` of the member at a place.
    fn member(&self, parts: &Siblings<'_>, path: Path) -> Option<u32>
        ensures { spec.member_in (node_in (seen_at self.now parts.now.entries.now path)) ≡ result }
    {
        match self.node(parts, path) {
            Some((label, parts)) => self.member_by(label, &parts),
            None => None,
        }
    }

    fn literal_by(&self, label: NodeKind, parts: &Siblings<'_>) -> Option<u32>
        ensures { spec.literal_by label (seen self.now parts.now.entries.now) ≡ result }
    {
        match label {
            NodeKind::Str => self.number(parts, Path::At(0)),
            _ => None,
        }
    }

    fn first_by<'t>(
        &self,
        label: NodeKind,
        parts: &Siblings<'t>,
    ) -> Option<(NodeKind, Siblings<'t>)>
        ensures { spec.first_by label (seen self.now parts.now.entries.now) ≡ node_parts (rules_of self.now) result }
    {
        match label {
            NodeKind::Arguments => {
                if self.has_one(parts, Path::Deep(0, 0, 0)) {
                    return None;
                }
                self.node(parts, Path::Deep(0, 0, 1))
            }
            _ => None,
        }
    }

    /// The first of the arguments at a place.
    fn first<'t>(&self, parts: &Siblings<'t>, path: Path) -> Option<(NodeKind, Siblings<'t>)>
        ensures { spec.first_in (node_in (seen_at self.now parts.now.entries.now path)) ≡ node_parts (rules_of self.now) result }
    {
        match self.node(parts, path) {
            Some((label, parts)) => self.first_by(label, &parts),
            None => None,
        }
    }

    fn second_by<'t>(
        &self,
        label: NodeKind,
        parts: &Siblings<'t>,
    ) -> Option<(NodeKind, Siblings<'t>)>
        ensures { spec.second_by label (seen self.now parts.now.entries.now) ≡ node_parts (rules_of self.now) result }
    {
        match label {
            NodeKind::Arguments => {
                if self.has_one(parts, Path::Deep(0, 1, 0)) || self.has_one(parts, Path::In(0, 2)) {
                    return None;
                }
                self.node(parts, Path::Deep(0, 1, 1))
            }
            _ => None,
        }
    }

    /// The second of the two arguments at a place.
    fn second<'t>(&self, parts: &Siblings<'t>, path: Path) -> Option<(NodeKind, Siblings<'t>)>
        ensures { spec.second_in (node_in (seen_at self.now parts.now.entries.now path)) ≡ node_parts (rules_of self.now) result }
    {
        match self.node(parts, path) {
            Some((label, parts)) => self.second_by(label, &parts),
            None => None,
        }
    }

    /// The token of the string literal that is the first of the arguments at a place.
    fn literal(&self, parts: &Siblings<'_>, path: Path) -> Option<u32>
        ensures { spec.literal_in (spec.first_in (node_in (seen_at self.now parts.now.entries.now path))) ≡ result }
    {
        match self.first(parts, path) {
            Some((label, parts)) => self.literal_by(label, &parts),
            None => None,
        }
    }

    fn argument_at(&self, at: Option<Path>, parts: &Siblings<'_>) -> Option<u32>
        ensures { spec.argument_at at (seen self.now parts.now.entries.now) ≡ result }
    {
        match at {
            Some(path) => self.literal(parts, path),
            None => None,
        }
    }

    /// The token of the string literal with which the part at a place calls.
    fn argument(&self, parts: &Siblings<'_>, path: Path) -> Option<u32>
        ensures { spec.argument_in (node_in (seen_at self.now parts.now.entries.now path)) ≡ result }
    {
        match self.node(parts, path) {
            Some((label, parts)) => self.argument_at(arguments_by(label), &parts),
            None => None,
        }
    }
}

fn is_meta_by(label: NodeKind) -> bool
    ensures { spec.is_meta_by label ≡ result }
{
    match label {
        NodeKind::ImportMeta => true,
        _ => false,
    }
}

// ---- tokens
impl Finding<'_> {
    /// The token of this number.
    fn numbered(&self, at: u32) -> Option<Token>
        ensures { result ≡ slice_get self.now.tokens.now at }
    {
        self.tokens.get(at as usize).copied()
    }

    /// The text of a token.
    fn cut(&self, token: Token) -> &str
        requires { Cuts self.now.text.now token }
        ensures { result.now ≡ slice_range self.now.text.now token.range.start token.range.end }
    {
        let range = token.range();
        &self.text[range.start..range.end]
    }

    #[tactic(auto, unfolding(es_lowering::specs::Texts::ident_of))]
    fn is_spelled(&self, word: &str, at: u32) -> bool
        ensures { spec.same_word self.now.text.now self.now.tokens.now word.now (slice_get self.now.tokens.now at) ≡ result }
    {
        match self.numbered(at) {
            Some(token) => self.cut(token) == word,
            None => false,
        }
    }

    /// Whether the token of this number is spelled so.
    fn is_word(&self, word: &str, at: Option<u32>) -> bool
        ensures { spec.is_word self.now.text.now self.now.tokens.now word.now at ≡ result }
    {
        match at {
            Some(at) => self.is_spelled(word, at),
            None => false,
        }
    }

    /// Whether a name is this word, and no scope around declares it.
    fn is_free(&self, word: &str, at: Option<u32>) -> bool
        ensures { spec.is_free self.now.text.now self.now.tokens.now (at_in self.now.ids.now) word.now at ≡ result }
    {
        match at {
            Some(at) => self.is_spelled(word, at) && self.ids.number(at) == 0,
            None => false,
        }
    }

    fn is_worker(&self, at: Option<u32>) -> bool
        ensures { spec.is_worker self.now.text.now self.now.tokens.now (at_in self.now.ids.now) at ≡ result }
    {
        self.is_free("Worker", at) || self.is_free("SharedWorker", at)
    }

    /// Whether a name is a free `require`, or one that is made by `createRequire`.
    fn is_require(&self, at: Option<u32>) -> bool
        ensures { spec.is_require self.now.text.now self.now.tokens.now (at_in self.now.ids.now) self.now.chosen self.now.marks.now at ≡ result }
    {
        self.is_free("require", at) || self.is_required(at)
    }

    fn is_required(&self, at: Option<u32>) -> bool
        ensures { is_required self.now.text.now self.now.tokens.now (at_in self.now.ids.now) self.now.marks.now at ≡ result }
    {
        let required = Required {
            text: self.text,
            tokens: self.tokens,
            ids: self.ids,
            marks: self.marks,
        };
        required.is_required(at)
    }

    /// The value of a string literal.
    #[tactic(auto, unfolding(es_lowering::specs::Texts::str_of))]
    fn value(&self, token: Token) -> Result<Text, AllocError>
        requires { Cuts self.now.text.now token }
        ensures { IfOk result (λ value. value ≡ (str_of self.now.text.now token).value) }
    {
        literal_text(self.alloc, self.cut(token))
    }

    /// Adds the site of a token, where it is a string literal.
    #[tactic(auto, unfolding(es_lowering::specs::Texts::str_of))]
    fn add_literal(
        &self,
        out: &mut Items<Site>,
        kind: DependencyKind,
        type_only: bool,
        token: Token,
    ) -> Result<(), AllocError>
        requires { Cuts self.now.text.now token }
        ensures { OnOk result (out.new ≡ out.old ++ spec.site_by self.now.text.now self.now.tokens.now kind type_only (Some token)) }
    {
        if token.kind() == TokenKind::Str {
            let value = self.value(token)?;
            out.push(Site {
                kind,
                type_only,
                range: token.range(),
                value,
                attribute: Attribute::Unknown,
            })?;
        }
        Ok(())
    }

    /// Adds the site of the token of this number, where it is a string literal.
    fn add_numbered(
        &self,
        out: &mut Items<Site>,
        kind: DependencyKind,
        type_only: bool,
        at: u32,
    ) -> Result<(), AllocError>
        ensures { OnOk result (out.new ≡ out.old ++ spec.site_by self.now.text.now self.now.tokens.now kind type_only (slice_get self.now.tokens.now at)) }
    {
        match self.numbered(at) {
            Some(token) => self.add_literal(out, kind, type_only, token),
            None => Ok(()),
        }
    }

    /// The same, where there is a number.
    fn add(
        &self,
        out: &mut Items<Site>,
        kind: DependencyKind,
        type_only: bool,
        at: Option<u32>,
    ) -> Result<(), AllocError>
        ensures { OnOk result (out.new ≡ out.old ++ spec.site_of self.now.text.now self.now.tokens.now kind type_only at) }
    {
        match at {
            Some(at) => self.add_numbered(out, kind, type_only, at),
            None => Ok(()),
        }
    }
}

// ---- forms
impl Finding<'_> {
    /// The literal with which a chain with these parts calls `.resolve`.
    fn resolved(&self, parts: &Siblings<'_>) -> Option<u32>
        ensures { spec.resolved_in self.now.text.now self.now.tokens.now (seen self.now parts.now.entries.now) ≡ result }
    {
        if self.is_word("resolve", self.member(parts, Path::At(1))) {
            return self.argument(parts, Path::Deep(2, 0, 0));
        }
        None
    }

    fn is_own_by(&self, label: NodeKind, parts: &Siblings<'_>) -> bool
        ensures { spec.is_own_by self.now.text.now self.now.tokens.now label (seen self.now parts.now.entries.now) ≡ result }
    {
        match label {
            NodeKind::Chain => {
                self.is_meta(parts, Path::At(0))
                    && self.is_word("url", self.member(parts, Path::At(1)))
                    && !self.has_one(parts, Path::At(2))
            }
            _ => false,
        }
    }

    /// Whether the second of the arguments at a place is `import.meta.url`.
    fn is_own(&self, parts: &Siblings<'_>, path: Path) -> bool
        ensures { spec.is_own self.now.text.now self.now.tokens.now (spec.second_in (node_in (seen_at self.now parts.now.entries.now path))) ≡ result }
    {
        match self.second(parts, path) {
            Some((label, parts)) => self.is_own_by(label, &parts),
            None => false,
        }
    }

    /// The literal of the arguments at a place that are one and `import.meta.url`.
    fn located(&self, parts: &Siblings<'_>, path: Path) -> Option<u32>
        ensures { spec.located_in self.now.text.now self.now.tokens.now (at_in self.now.ids.now) (node_in (seen_at self.now parts.now.entries.now path)) ≡ result }
    {
        if self.is_own(parts, path) {
            return self.literal(parts, path);
        }
        None
    }

    fn address_by(&self, parts: &Siblings<'_>, at: Option<Path>) -> Option<u32>
        ensures { spec.address_by self.now.text.now self.now.tokens.now (at_in self.now.ids.now) (seen self.now parts.now.entries.now) at ≡ result }
    {
        match at {
            Some(path) => {
                if self.is_free("URL", self.name(parts, Path::At(0))) {
                    return self.located(parts, path);
                }
                None
            }
            None => None,
        }
    }

    /// The literal of such an address that is the first of the arguments at a place.
    fn address(&self, parts: &Siblings<'_>, path: Path) -> Option<u32>
        ensures { spec.address_in self.now.text.now self.now.tokens.now (at_in self.now.ids.now) (spec.first_in (node_in (seen_at self.now parts.now.entries.now path))) ≡ result }
    {
        match self.first(parts, path) {
            Some((label, parts)) => self.address_by(&parts, made_by(label)),
            None => None,
        }
    }

    fn worker_by(&self, parts: &Siblings<'_>, at: Path) -> Option<u32>
        ensures { spec.worker_by self.now.text.now self.now.tokens.now (at_in self.now.ids.now) (seen self.now parts.now.entries.now) at ≡ result }
    {
        if self.is_worker(self.name(parts, Path::At(0))) {
            return self.address(parts, at);
        }
        None
    }

    /// The literal of a worker, if workers are chosen.
    fn worker(&self, parts: &Siblings<'_>, at: Path) -> Option<u32>
        ensures { spec.worker_at self.now.text.now self.now.tokens.now (at_in self.now.ids.now) self.now.chosen self.now.marks.now (seen self.now parts.now.entries.now) at ≡ result }
    {
        if self.chosen.workers {
            return self.worker_by(parts, at);
        }
        None
    }

    fn plain_address(&self, here: Place, parts: &Siblings<'_>, at: Path) -> Option<u32>
        ensures { spec.address_at self.now.text.now self.now.tokens.now (at_in self.now.ids.now) self.now.chosen self.now.marks.now here (seen self.now parts.now.entries.now) at ≡ result }
    {
        match here {
            Place::Plain => {
                if self.chosen.addresses {
                    return self.address_by(parts, Some(at));
                }
                None
            }
            Place::Worker => None,
        }
    }

    /// Where a part stands.
    fn led(&self, here: Place, parts: &Siblings<'_>, way: Way) -> Option<Place>
        ensures { result ≡ leads self.now.text.now self.now.tokens.now (at_in self.now.ids.now) self.now.chosen self.now.marks.now here (seen self.now parts.now.entries.now) way }
    {
        match way {
            Way::Inner => Some(Place::Plain),
            Way::Same => Some(here),
            Way::Made(at) => Some(place_by(self.worker(parts, at))),
        }
    }
}

fn place_by(worker: Option<u32>) -> Place
    ensures { result ≡ spec.place_by worker }
{
    match worker {
        Some(_) => Place::Worker,
        None => Place::Plain,
    }
}

// ---- sites
impl Finding<'_> {
    fn add_made(
        &self,
        out: &mut Items<Site>,
        here: Place,
        parts: &Siblings<'_>,
        at: Path,
    ) -> Result<(), AllocError>
        ensures { OnOk result (out.new ≡ out.old ++ acts self.now.text.now self.now.tokens.now (at_in self.now.ids.now) self.now.chosen self.now.marks.now here (seen self.now parts.now.entries.now) (Act.New at)) }
    {
        match self.worker(parts, at) {
            Some(literal) => self.add(out, DependencyKind::Worker, false, Some(literal)),
            None => {
                let literal = self.plain_address(here, parts, at);
                self.add(out, DependencyKind::Address, false, literal)
            }
        }
    }

    fn add_required(&self, out: &mut Items<Site>, parts: &Siblings<'_>) -> Result<(), AllocError>
        ensures { OnOk result (out.new ≡ out.old ++ spec.required_at self.now.text.now self.now.tokens.now (at_in self.now.ids.now) self.now.chosen self.now.marks.now (seen self.now parts.now.entries.now)) }
    {
        if self.chosen.commonjs && self.is_require(self.name(parts, Path::At(0))) {
            self.add(
                out,
                DependencyKind::Require,
                false,
                self.argument(parts, Path::At(1)),
            )?;
            self.add(
                out,
                DependencyKind::RequireResolve,
                false,
                self.resolved(parts),
            )?;
        }
        Ok(())
    }

    fn add_located(&self, out: &mut Items<Site>, parts: &Siblings<'_>) -> Result<(), AllocError>
        ensures { OnOk result (out.new ≡ out.old ++ spec.located_at self.now.text.now self.now.tokens.now (at_in self.now.ids.now) self.now.chosen self.now.marks.now (seen self.now parts.now.entries.now)) }
    {
        if self.chosen.addresses && self.is_meta(parts, Path::At(0)) {
            self.add(out, DependencyKind::Address, false, self.resolved(parts))?;
        }
        Ok(())
    }

    fn add_call(&self, out: &mut Items<Site>, parts: &Siblings<'_>) -> Result<(), AllocError>
        ensures { OnOk result (out.new ≡ out.old ++ (spec.required_at self.now.text.now self.now.tokens.now (at_in self.now.ids.now) self.now.chosen self.now.marks.now (seen self.now parts.now.entries.now) ++ spec.located_at self.now.text.now self.now.tokens.now (at_in self.now.ids.now) self.now.chosen self.now.marks.now (seen self.now parts.now.entries.now))) }
    {
        self.add_required(out, parts)?;
        self.add_located(out, parts)
    }

    fn add_type(&self, out: &mut Items<Site>, parts: &Siblings<'_>) -> Result<(), AllocError>
        ensures { OnOk result (out.new ≡ out.old ++ spec.typed_at self.now.text.now self.now.tokens.now (at_in self.now.ids.now) self.now.chosen self.now.marks.now (seen self.now parts.now.entries.now)) }
    {
        if self.chosen.type_imports {
            self.add(
                out,
                DependencyKind::TypeImport,
                true,
                self.number(parts, Path::At(0)),
            )?;
        }
        Ok(())
    }

    /// Adds what an act meets.
    fn meet(
        &self,
        out: &mut Items<Site>,
        here: Place,
        parts: &Siblings<'_>,
        act: Act,
    ) -> Result<(), AllocError>
        ensures { OnOk result (out.new ≡ out.old ++ acts self.now.text.now self.now.tokens.now (at_in self.now.ids.now) self.now.chosen self.now.marks.now here (seen self.now parts.now.entries.now) act) }
    {
        match act {
            Act::Call => self.add_call(out, parts),
            Act::New(at) => self.add_made(out, here, parts, at),
            Act::Type => self.add_type(out, parts),
        }
    }
}
