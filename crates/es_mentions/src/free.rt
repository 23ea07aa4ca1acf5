//! The names that no scope declares, and that aren't allowed.

ghost use Rattle.std.specs.Prelude.{◌≡◌, ◌++◌, filter_map, option_to_list, IfOk, OnOk};
ghost use Rattle.es_lexer.specs.Reads.{ReadsTokens};
ghost use Rattle.es_syntax.specs.Trees.{first_tree, trees};
ghost use Rattle.es_scopes.specs.Marks.{body_marks};
ghost use Rattle.es_mentions.specs.Mentions as spec;

use crate::gone::{gone_tokens, living};
use crate::listed::{Event, Mention, Reason};
use crate::source::Source;
use base::Items;
use es_scopes::body_marks;
use es_syntax::Siblings;
use es_variables::scope_numbers::scope_ids;
use std::alloc::{AllocError, Global};

fn name_mention(source: &Source<'_>, id: (u32, u32)) -> Option<Mention>
    ensures { result ≡ spec.name_mention source.now.text.now source.now.tokens.now source.now.allowed.now source.now.script id }
{
    if id.1 == 0 && !source.is_allowed(id.0) {
        return Some(Mention {
            reason: Reason::Name,
            range: source.range_at(id.0),
        });
    }
    None
}

fn add_name(source: &Source<'_>, out: &mut Items<Mention>, id: (u32, u32)) -> Result<(), AllocError>
    ensures { OnOk result (out.new ≡ out.old ++ option_to_list (spec.name_mention source.now.text.now source.now.tokens.now source.now.allowed.now source.now.script id)) }
{
    match name_mention(source, id) {
        Some(mention) => out.push(mention),
        None => Ok(()),
    }
}

#[tactic(auto, using(crate::proofs::ListLemmas::row_more, crate::proofs::ListLemmas::row_end))]
fn listed_names(
    source: &Source<'_>,
    alloc: Global,
    ids: &[(u32, u32)],
) -> Result<Items<Mention>, AllocError>
    ensures { IfOk result (λ found. found ≡ filter_map (spec.name_mention source.now.text.now source.now.tokens.now source.now.allowed.now source.now.script) ids.now) }
{
    let mut out = Items::new(alloc);
    let mut row = ids;
    while let Some((id, rest)) = row.split_first() {
        add_name(source, &mut out, *id)?;
        row = rest;
    }
    Ok(out)
}

/// The names that are left at run time, that no scope declares, and that aren't allowed.
#[tactic(auto, using(crate::proofs::GoneLemmas::living_by))]
pub fn free_names(
    source: &Source<'_>,
    alloc: Global,
    row: &Siblings<'_>,
    events: &[Event],
) -> Result<Items<Mention>, AllocError>
    requires { ReadsTokens source.now.text.now source.now.tokens.now }
    ensures { IfOk result (λ found. found ≡ spec.names_in source.now.text.now source.now.tokens.now source.now.allowed.now source.now.script events.now (body_marks source.now.tokens.now (first_tree (trees row.now.entries.now)))) }
{
    let marks = body_marks(alloc, source.tokens, row)?;
    let bits = gone_tokens(alloc, events)?;
    let left = living(alloc, bits.as_slice(), marks.as_slice())?;
    let ids = scope_ids(alloc, source.text, source.tokens, left.as_slice())?;
    listed_names(source, alloc, ids.as_slice())
}
