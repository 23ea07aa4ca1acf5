//! The lists of a node.

ghost use Rattle.std.specs.Prelude.{◌≡◌, None, Some, IfOk, OnOk};
ghost use Rattle.es_lexer.specs.Reads.{ReadsTokens};
ghost use Rattle.es_lowering.specs.Value.{as_group, part};
ghost use Rattle.es_syntax.specs.Held.{held, valued};
ghost use Rattle.dts_rules.specs.Ranges.{has_range, implements, same_name};
ghost use Rattle.dts_overloads.specs.Among.{◌∪◌};
ghost use Rattle.dts_overloads.specs.Names.{name_of};
ghost use Rattle.dts_overloads.specs.Heads.{head_of, heads_of, if_there, HeadsIn, heads_in, Added};
ghost use Rattle.dts_overloads.specs.Own.{act_of, told_of, cases_told};
ghost use Rattle.dts_overloads.specs.Left.{Gives};

use crate::heads::{Head, Kind, head_in};
use crate::names::Name;
use base::{Items, Range};
use es_grammar::NodeKind;
use es_syntax::{Item, Siblings};
use es_token::Token;
use std::alloc::{AllocError, Global};

/// Where the lists of a node are, among its parts; places count from 0.
#[derive(Clone, Copy)]
pub enum Act {
    /// Statements.
    Stmts(usize),
    /// Items.
    Items(usize),
    /// Items, in the second part.
    Inner,
    /// Members of a class.
    Members(usize),
    /// The statements of each clause of `switch`.
    Cases,
}

/// The lists of the nodes of an alternative.
pub fn act_of(label: NodeKind) -> Option<Act>
    ensures { result ≡ act_of label }
{
    match label {
        NodeKind::Module => Some(Act::Items(1)),
        NodeKind::Script => Some(Act::Stmts(1)),
        NodeKind::Block => Some(Act::Stmts(0)),
        NodeKind::SwitchStatement => Some(Act::Cases),
        NodeKind::Class => Some(Act::Members(2)),
        NodeKind::TypedClass => Some(Act::Members(4)),
        NodeKind::AbstractClass => Some(Act::Members(4)),
        NodeKind::NamespaceDeclaration => Some(Act::Items(2)),
        NodeKind::ModuleDeclaration => Some(Act::Inner),
        NodeKind::GlobalDeclaration => Some(Act::Items(0)),
        _ => None,
    }
}

/// Whether two names are the same.
#[tactic(auto, using(crate::proofs::ListLemmas::same_path_is))]
fn same_name(left: &Name, right: &Name) -> bool
    ensures { same_name (name_of left.now) (name_of right.now) ≡ result }
{
    match left {
        Name::Unnamed => match right {
            Name::Unnamed => true,
            _ => false,
        },
        Name::Text(a) => match right {
            Name::Text(b) => *a == *b,
            _ => false,
        },
        Name::Private(a) => match right {
            Name::Private(b) => *a == *b,
            _ => false,
        },
        Name::Number(a) => match right {
            Name::Number(b) => *a == *b,
            _ => false,
        },
        Name::Path(a) => match right {
            Name::Path(b) => *a == *b,
            _ => false,
        },
    }
}

/// Whether a function or a method implements the one before it.
#[tactic(auto, using(crate::proofs::ListLemmas::follows_body, crate::proofs::ListLemmas::follows_name, crate::proofs::ListLemmas::follows_none))]
fn follows(before: &Head, it: &Head) -> bool
    ensures { implements (Some (head_of before.now)) (Some (head_of it.now)) ≡ if_there result it.now.span }
{
    if before.has_body {
        return false;
    }
    if it.has_body {
        return same_name(&before.name, &it.name);
    }
    false
}

/// Adds the range of a function or a method that implements the one directly before it.
#[tactic(auto, using(crate::proofs::ListLemmas::added_one, crate::proofs::ListLemmas::added_none))]
fn add_body(found: &mut Items<Range>, before: &Head, it: &Head) -> Result<(), AllocError>
    ensures { OnOk result (has_range found.new ≡ has_range found.old ∪ has_range (implements (Some (head_of before.now)) (Some (head_of it.now)))) }
{
    if follows(before, it) {
        found.push(it.span)?;
        return Ok(());
    }
    Ok(())
}

/// Adds the range of an item that implements what is directly before it.
#[tactic(auto, using(crate::proofs::ListLemmas::added_no_first, crate::proofs::ListLemmas::added_no_second))]
fn add_if(
    found: &mut Items<Range>,
    before: &Option<Head>,
    it: &Option<Head>,
) -> Result<(), AllocError>
    ensures { OnOk result (has_range found.new ≡ has_range found.old ∪ has_range (implements (heads_of before.now) (heads_of it.now))) }
{
    match before {
        Some(first) => match it {
            Some(second) => {
                add_body(found, first, second)?;
                Ok(())
            }
            None => Ok(()),
        },
        None => Ok(()),
    }
}

/// What is in a turn of a list of this kind.
fn turn_head(
    alloc: Global,
    text: &str,
    tokens: &[Token],
    kind: Kind,
    turn: &Item<'_>,
) -> Result<Option<Head>, AllocError>
    requires { ReadsTokens text.now tokens.now }
    ensures { IfOk result (λ head. HeadsIn head (heads_in kind (part (as_group (valued text.now tokens.now turn.now)) 0))) }
{
    match turn.group().part(0) {
        Some(it) => head_in(alloc, text, tokens, kind, &it),
        None => Err(AllocError),
    }
}

/// Adds the bodies of overloads in a list of this kind.
#[tactic(auto, using(crate::proofs::ListLemmas::bodies_all, crate::proofs::ListLemmas::bodies_next, crate::proofs::ListLemmas::bodies_done))]
fn add_list(
    alloc: Global,
    found: &mut Items<Range>,
    text: &str,
    tokens: &[Token],
    kind: Kind,
    list: &Siblings<'_>,
) -> Result<(), AllocError>
    requires { ReadsTokens text.now tokens.now }
    ensures { OnOk result (Added kind None (held text.now tokens.now list.now.entries.now) found.old found.new) }
{
    let mut before: Option<Head> = None;
    let mut row = *list;
    while let Some((turn, rest)) = row.split() {
        let it = turn_head(alloc, text, tokens, kind, &turn)?;
        add_if(found, &before, &it)?;
        before = it;
        row = rest;
    }
    Ok(())
}

/// Adds the bodies of overloads in each clause of `switch`.
#[tactic(auto, using(crate::proofs::ListLemmas::cases_all, crate::proofs::ListLemmas::cases_next, crate::proofs::ListLemmas::cases_done))]
fn add_cases(
    alloc: Global,
    found: &mut Items<Range>,
    text: &str,
    tokens: &[Token],
    cases: &Siblings<'_>,
) -> Result<(), AllocError>
    requires { ReadsTokens text.now tokens.now }
    ensures { OnOk result (Gives (cases_told (held text.now tokens.now cases.now.entries.now)) found.old found.new) }
{
    let mut row = *cases;
    while let Some((turn, rest)) = row.split() {
        let list = turn.group().group_at(1);
        add_list(alloc, found, text, tokens, Kind::Stmts, &list)?;
        row = rest;
    }
    Ok(())
}

/// Adds the bodies of overloads in the lists of a node with these parts.
#[tactic(auto, using(crate::proofs::ListLemmas::gives_stmts, crate::proofs::ListLemmas::gives_items, crate::proofs::ListLemmas::gives_inner, crate::proofs::ListLemmas::gives_members, crate::proofs::ListLemmas::gives_cases))]
pub fn add_own(
    alloc: Global,
    found: &mut Items<Range>,
    text: &str,
    tokens: &[Token],
    act: Act,
    parts: &Siblings<'_>,
) -> Result<(), AllocError>
    requires { ReadsTokens text.now tokens.now }
    ensures { OnOk result (Gives (told_of act (held text.now tokens.now parts.now.entries.now)) found.old found.new) }
{
    match act {
        Act::Stmts(at) => {
            let list = parts.group_at(at);
            add_list(alloc, found, text, tokens, Kind::Stmts, &list)?;
            Ok(())
        }
        Act::Items(at) => {
            let list = parts.group_at(at);
            add_list(alloc, found, text, tokens, Kind::Items, &list)?;
            Ok(())
        }
        Act::Inner => {
            let inner = parts.group_at(1);
            let list = inner.group_at(0);
            add_list(alloc, found, text, tokens, Kind::Items, &list)?;
            Ok(())
        }
        Act::Members(at) => {
            let list = parts.group_at(at);
            add_list(alloc, found, text, tokens, Kind::Members, &list)?;
            Ok(())
        }
        Act::Cases => {
            let cases = parts.group_at(1);
            add_cases(alloc, found, text, tokens, &cases)?;
            Ok(())
        }
    }
}
