//! What a node is: listed, or gone at run time, and whether what it holds is passed over.

ghost use Rattle.std.specs.Prelude.{◌≡◌, ◌-◌};
ghost use Rattle.es_syntax.specs.Trees.{trees};
ghost use Rattle.es_mentions.specs.Nodes.{node_now};
ghost use Rattle.es_mentions.specs.Kinds as spec;

use crate::listed::{Event, Mention, Reason};
use crate::nodes::NodeAt;
use crate::source::Source;
use base::Range;
use es_grammar::NodeKind;
use es_syntax::Siblings;
use es_token::TokenKind;
use es_walk::{Path, has_parts, node_at, number_at};

fn is_str(label: NodeKind) -> bool
    ensures { result ≡ spec.is_str label }
{
    matches!(label, NodeKind::Str)
}

fn is_meta(label: NodeKind) -> bool
    ensures { result ≡ spec.is_meta label }
{
    matches!(label, NodeKind::ImportMeta)
}

/// Whether the part at a place is a string literal alone.
fn has_str(parts: &Siblings<'_>, path: Path) -> bool
    ensures { result ≡ spec.seen_so spec.is_str (spec.node_in (trees parts.now.entries.now) path) }
{
    match node_at(parts, path) {
        Some((label, _)) => is_str(label),
        None => false,
    }
}

/// Whether the part at a place is `import.meta`.
fn has_meta(parts: &Siblings<'_>, path: Path) -> bool
    ensures { result ≡ spec.seen_so spec.is_meta (spec.node_in (trees parts.now.entries.now) path) }
{
    match node_at(parts, path) {
        Some((label, _)) => is_meta(label),
        None => false,
    }
}

/// Whether the part at a place is a node, but not a chain.
fn has_node(parts: &Siblings<'_>, path: Path) -> bool
    ensures { result ≡ spec.is_seen (spec.node_in (trees parts.now.entries.now) path) }
{
    match node_at(parts, path) {
        Some(_) => true,
        None => false,
    }
}

fn import_reason(parts: &Siblings<'_>) -> Option<Reason>
    ensures { result ≡ spec.import_reason (trees parts.now.entries.now) }
{
    if has_str(parts, Path::At(0)) {
        return None;
    }
    Some(Reason::Import)
}

// ---- `new URL("a", import.meta.url)`
impl Source<'_> {
    fn is_name_by(&self, word: &str, label: NodeKind, parts: &Siblings<'_>) -> bool
        ensures { result ≡ spec.is_name_by self.now.text.now self.now.tokens.now word.now label (trees parts.now.entries.now) }
    {
        match label {
            NodeKind::Name => self.is_spelled(word, number_at(parts, Path::At(0))),
            _ => false,
        }
    }

    fn is_member_by(&self, word: &str, label: NodeKind, parts: &Siblings<'_>) -> bool
        ensures { result ≡ spec.is_member_by self.now.text.now self.now.tokens.now word.now label (trees parts.now.entries.now) }
    {
        match label {
            NodeKind::MemberPost => self.is_spelled(word, number_at(parts, Path::At(0))),
            _ => false,
        }
    }

    fn has_name(&self, word: &str, parts: &Siblings<'_>, path: Path) -> bool
        ensures { result ≡ spec.is_name self.now.text.now self.now.tokens.now word.now (spec.node_in (trees parts.now.entries.now) path) }
    {
        match node_at(parts, path) {
            Some((label, parts)) => self.is_name_by(word, label, &parts),
            None => false,
        }
    }

    fn has_member(&self, word: &str, parts: &Siblings<'_>, path: Path) -> bool
        ensures { result ≡ spec.is_member self.now.text.now self.now.tokens.now word.now (spec.node_in (trees parts.now.entries.now) path) }
    {
        match node_at(parts, path) {
            Some((label, parts)) => self.is_member_by(word, label, &parts),
            None => false,
        }
    }

    /// `import.meta.url`
    fn is_own_url_by(&self, label: NodeKind, parts: &Siblings<'_>) -> bool
        ensures { result ≡ spec.is_own_url_by self.now.text.now self.now.tokens.now label (trees parts.now.entries.now) }
    {
        match label {
            NodeKind::Chain => {
                has_meta(parts, Path::At(0))
                    && self.has_member("url", parts, Path::At(1))
                    && !has_parts(parts, Path::At(2))
            }
            _ => false,
        }
    }

    fn has_own_url(&self, parts: &Siblings<'_>, path: Path) -> bool
        ensures { result ≡ spec.is_own_url self.now.text.now self.now.tokens.now (spec.node_in (trees parts.now.entries.now) path) }
    {
        match node_at(parts, path) {
            Some((label, parts)) => self.is_own_url_by(label, &parts),
            None => false,
        }
    }

    /// `("a", import.meta.url)`
    fn are_located_by(&self, label: NodeKind, parts: &Siblings<'_>) -> bool
        ensures { result ≡ spec.are_located_by self.now.text.now self.now.tokens.now label (trees parts.now.entries.now) }
    {
        match label {
            NodeKind::Arguments => {
                has_str(parts, Path::Deep(0, 0, 1))
                    && self.has_own_url(parts, Path::Deep(0, 1, 1))
                    && !has_parts(parts, Path::In(0, 2))
            }
            _ => false,
        }
    }

    fn are_located(&self, parts: &Siblings<'_>, path: Path) -> bool
        ensures { result ≡ spec.are_located self.now.text.now self.now.tokens.now (spec.node_in (trees parts.now.entries.now) path) }
    {
        match node_at(parts, path) {
            Some((label, parts)) => self.are_located_by(label, &parts),
            None => false,
        }
    }

    /// `new URL("a", import.meta.url)`
    fn is_address(&self, node: &NodeAt<'_>) -> bool
        ensures { result ≡ spec.is_address_by self.now.text.now self.now.tokens.now node.now.label (trees node.now.parts.entries.now) }
    {
        match node.label {
            NodeKind::New => {
                self.has_name("URL", &node.parts, Path::At(0))
                    && self.are_located(&node.parts, Path::In(1, 0))
            }
            NodeKind::TypedNew => {
                self.has_name("URL", &node.parts, Path::At(0))
                    && self.are_located(&node.parts, Path::In(2, 0))
            }
            _ => false,
        }
    }
}

// ---- what is gone at run time
/// Whether the node says something of types alone, or exports names.
fn is_gone(node: &NodeAt<'_>) -> bool
    ensures { result ≡ spec.is_gone (node_now node.now) }
{
    match node.label {
        NodeKind::EntityOfType
        | NodeKind::AssertsResult
        | NodeKind::PredicateResult
        | NodeKind::InterfaceDeclaration
        | NodeKind::AliasDeclaration
        | NodeKind::Declared
        | NodeKind::DeclaredVariables
        | NodeKind::ModuleDeclaration
        | NodeKind::GlobalDeclaration
        | NodeKind::ExportNames => true,
        NodeKind::TypedFunction | NodeKind::TypedAsyncFunction => {
            !has_node(&node.parts, Path::In(3, 0))
        }
        NodeKind::FromImport
        | NodeKind::ImportedName
        | NodeKind::RenamedImport
        | NodeKind::RequireImport
        | NodeKind::EntityImport
        | NodeKind::ExportedRequireImport
        | NodeKind::ExportedEntityImport => has_parts(&node.parts, Path::At(0)),
        _ => false,
    }
}

fn first_name_by(label: NodeKind, parts: &Siblings<'_>) -> Option<u32>
    ensures { result ≡ spec.first_name_by label (trees parts.now.entries.now) }
{
    match label {
        NodeKind::Entity => number_at(parts, Path::At(0)),
        _ => None,
    }
}

fn first_name(parts: &Siblings<'_>, path: Path) -> Option<u32>
    ensures { result ≡ spec.first_name (spec.node_in (trees parts.now.entries.now) path) }
{
    match node_at(parts, path) {
        Some((label, parts)) => first_name_by(label, &parts),
        None => None,
    }
}

/// The name of a namespace, of which nothing may be left at run time.
fn namespace_name(node: &NodeAt<'_>) -> Option<u32>
    ensures { result ≡ spec.namespace_by node.now.label (trees node.now.parts.entries.now) }
{
    match node.label {
        NodeKind::NamespaceDeclaration => first_name(&node.parts, Path::At(1)),
        _ => None,
    }
}

fn last_before(to: u32) -> u32
    ensures { result ≡ to - 1 }
{
    if to == 0 {
        return 0;
    }
    to - 1
}

fn gone(node: &NodeAt<'_>) -> Option<(u32, u32)>
    ensures { result ≡ spec.gone_of (node_now node.now) }
{
    if is_gone(node) {
        return Some((node.from, last_before(node.to)));
    }
    match namespace_name(node) {
        Some(at) => Some((at, at)),
        None => None,
    }
}

// ---- what is listed if more is asked
impl Source<'_> {
    fn member_reason(&self, at: Option<u32>) -> Option<Reason>
        ensures { result ≡ spec.member_reason self.now.text.now self.now.tokens.now at }
    {
        if self.is_risky(at) {
            return Some(Reason::Member);
        }
        None
    }

    fn this_reason(&self, at: Option<u32>) -> Option<Reason>
        ensures { result ≡ spec.this_reason self.now.text.now self.now.tokens.now self.now.script at }
    {
        if self.script && self.is_kind(TokenKind::ThisWord, at) {
            return Some(Reason::This);
        }
        None
    }

    /// Of the key of a computed member.
    fn key_by(&self, label: NodeKind, parts: &Siblings<'_>) -> Option<Reason>
        ensures { result ≡ spec.key_by self.now.text.now self.now.tokens.now label (trees parts.now.entries.now) }
    {
        match label {
            NodeKind::Str => self.member_reason(number_at(parts, Path::At(0))),
            NodeKind::Number => None,
            _ => Some(Reason::Key),
        }
    }

    fn key_reason(&self, parts: &Siblings<'_>, path: Path) -> Option<Reason>
        ensures { result ≡ spec.key_reason self.now.text.now self.now.tokens.now (spec.node_in (trees parts.now.entries.now) path) }
    {
        match node_at(parts, path) {
            Some((label, parts)) => self.key_by(label, &parts),
            None => Some(Reason::Key),
        }
    }

    /// Of the key of a pattern.
    fn pattern_by(&self, label: NodeKind, parts: &Siblings<'_>) -> Option<Reason>
        ensures { result ≡ spec.pattern_by self.now.text.now self.now.tokens.now label (trees parts.now.entries.now) }
    {
        match label {
            NodeKind::WordKey | NodeKind::StrKey => self.member_reason(number_at(
                parts,
                Path::At(0),
            )),
            NodeKind::ComputedKey => self.key_reason(parts, Path::At(0)),
            _ => None,
        }
    }

    fn pattern_reason(&self, parts: &Siblings<'_>, path: Path) -> Option<Reason>
        ensures { result ≡ spec.pattern_reason self.now.text.now self.now.tokens.now (spec.node_in (trees parts.now.entries.now) path) }
    {
        match node_at(parts, path) {
            Some((label, parts)) => self.pattern_by(label, &parts),
            None => None,
        }
    }

    /// Of `?.a`, `?.[a]` or `?.(a)`.
    fn optional_reason(&self, parts: &Siblings<'_>) -> Option<Reason>
        ensures { result ≡ spec.optional_reason self.now.text.now self.now.tokens.now (trees parts.now.entries.now) }
    {
        if has_parts(parts, Path::In(0, 0)) {
            return self.member_reason(number_at(parts, Path::Deep(0, 0, 0)));
        }
        self.key_reason(parts, Path::In(0, 0))
    }

    fn strict_reason(&self, node: &NodeAt<'_>) -> Option<Reason>
        ensures { result ≡ spec.strict_by self.now.text.now self.now.tokens.now self.now.script node.now.label (trees node.now.parts.entries.now) }
    {
        match node.label {
            NodeKind::MemberPost | NodeKind::NameProperty => {
                self.member_reason(number_at(&node.parts, Path::At(0)))
            }
            NodeKind::IndexPost => self.key_reason(&node.parts, Path::At(0)),
            NodeKind::OptionalPost | NodeKind::TypedOptionalPost => self.optional_reason(
                &node.parts,
            ),
            NodeKind::KeyPattern => self.pattern_reason(&node.parts, Path::At(0)),
            NodeKind::Word => self.this_reason(number_at(&node.parts, Path::At(0))),
            _ => None,
        }
    }
}

/// Why a node is listed, whether more is asked or not.
fn usual_reason(node: &NodeAt<'_>) -> Option<Reason>
    ensures { result ≡ spec.usual_by node.now.label (trees node.now.parts.entries.now) }
{
    match node.label {
        NodeKind::ImportCall | NodeKind::SourceCall | NodeKind::DeferCall => {
            import_reason(&node.parts)
        }
        NodeKind::ImportMeta => Some(Reason::Meta),
        NodeKind::WithStatement => Some(Reason::With),
        _ => None,
    }
}

// ---- what a node is
impl Source<'_> {
    fn more_reason(&self, node: &NodeAt<'_>) -> Option<Reason>
        ensures { result ≡ spec.more_by self.now.text.now self.now.tokens.now self.now.script self.now.strict node.now.label (trees node.now.parts.entries.now) }
    {
        if self.strict {
            return self.strict_reason(node);
        }
        None
    }

    /// Why a node is listed.
    fn reason(&self, node: &NodeAt<'_>) -> Option<Reason>
        ensures { result ≡ spec.reason_by self.now.text.now self.now.tokens.now self.now.script self.now.strict node.now.label (trees node.now.parts.entries.now) }
    {
        match usual_reason(node) {
            Some(why) => Some(why),
            None => self.more_reason(node),
        }
    }

    /// The node, or of `with` its word.
    fn range_by(&self, reason: Reason, node: &NodeAt<'_>) -> Range
        ensures { result ≡ spec.range_by self.now.text.now self.now.tokens.now self.now.script self.now.strict reason (node_now node.now) }
    {
        match reason {
            Reason::With => self.range_at(node.from),
            _ => self.range(node.from, node.to),
        }
    }

    fn listed(&self, node: &NodeAt<'_>) -> Option<Event>
        ensures { result ≡ spec.listed_as self.now.text.now self.now.tokens.now self.now.script self.now.strict (node_now node.now) (spec.reason_by self.now.text.now self.now.tokens.now self.now.script self.now.strict node.now.label (trees node.now.parts.entries.now)) }
    {
        match self.reason(node) {
            Some(reason) => Some(Event::Listed(Mention {
                reason,
                range: self.range_by(reason, node),
            })),
            None => None,
        }
    }

    pub fn event(&self, node: &NodeAt<'_>) -> Option<Event>
        ensures { result ≡ spec.event_of self.now.text.now self.now.tokens.now self.now.script self.now.strict (node_now node.now) }
    {
        match gone(node) {
            Some((from, last)) => Some(Event::Gone(from, last)),
            None => self.listed(node),
        }
    }

    /// Whether what the node holds is passed over.
    pub fn is_closed(&self, node: &NodeAt<'_>) -> bool
        ensures { result ≡ spec.is_closed self.now.text.now self.now.tokens.now (node_now node.now) }
    {
        is_gone(node) || self.is_address(node)
    }
}
