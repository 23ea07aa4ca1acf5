//! What a program mentions.

ghost use Rattle.std.specs.Prelude.{◌≡◌, IfOk};
ghost use Rattle.es_lexer.specs.Reads.{ReadsTokens};
ghost use Rattle.es_syntax.specs.Trees.{first_tree, trees};
ghost use Rattle.es_mentions.specs.Kinds as kinds;
ghost use Rattle.es_mentions.specs.Mentions as spec;

use crate::free::free_names;
use crate::listed::Mention;
use crate::merge::{listed_nodes, merged};
use crate::nodes::events;
use crate::source::Source;
use base::{Items, Text};
use es_grammar::NodeKind;
use es_syntax::Siblings;
use es_token::Token;
use es_walk::{Path, node_at};
use std::alloc::{AllocError, Global};

fn is_script_label(label: NodeKind) -> bool
    ensures { result ≡ kinds.is_script label }
{
    matches!(label, NodeKind::Script)
}

#[tactic(auto, using(crate::proofs::NodeLemmas::first_node))]
fn is_script(row: &Siblings<'_>) -> bool
    ensures { result ≡ spec.is_script_tree (first_tree (trees row.now.entries.now)) }
{
    match node_at(row, Path::At(0)) {
        Some((label, _)) => is_script_label(label),
        None => false,
    }
}

#[tactic(auto, unfolding(crate::specs::Mentions::mentions, crate::specs::Mentions::names, crate::specs::Mentions::others, crate::specs::Left::events_in))]
fn listed(
    source: &Source<'_>,
    alloc: Global,
    row: &Siblings<'_>,
) -> Result<Items<Mention>, AllocError>
    requires reads { ReadsTokens source.now.text.now source.now.tokens.now }
    requires script { source.now.script ≡ spec.is_script_tree (first_tree (trees row.now.entries.now)) }
    ensures { IfOk result (λ found. found ≡ spec.mentions source.now.text.now source.now.tokens.now source.now.allowed.now source.now.strict (first_tree (trees row.now.entries.now))) }
{
    let found = events(source, alloc, row)?;
    let names = free_names(source, alloc, row, found.as_slice())?;
    let others = listed_nodes(alloc, found.as_slice())?;
    merged(alloc, names.as_slice(), others.as_slice())
}

/// What the program that is first in a row mentions, in the order of the text, over the tokens of a text.
pub fn mentions(
    alloc: Global,
    text: &str,
    tokens: &[Token],
    row: &Siblings<'_>,
    allowed: &[Text],
    strict: bool,
) -> Result<Items<Mention>, AllocError>
    requires { ReadsTokens text.now tokens.now }
    ensures { IfOk result (λ found. found ≡ spec.mentions text.now tokens.now allowed.now strict (first_tree (trees row.now.entries.now))) }
{
    let source = Source {
        text,
        tokens,
        allowed,
        strict,
        script: is_script(row),
    };
    listed(&source, alloc, row)
}
