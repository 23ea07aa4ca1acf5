//! The graph of what was reached.
ghost use Rattle.std.specs.Prelude.{◌≡◌, map, bytes_eq, IfOk, OnOk};
ghost use Rattle.std.specs.List.{IsDistinct};
ghost use Rattle.graph_entry.specs.Referrer.{referred_by};
ghost use Rattle.graph_builder.specs.Rules.{rules_by};
ghost use Rattle.graph_builder.specs.ByText.{keys_at};
ghost use Rattle.graph_builder.specs.Inside.{HaveEntries};
ghost use Rattle.graph_builder.specs.Settling.{AreSettled};

use crate::graph::ModuleGraph;
use crate::reached::Reached;
use crate::settle::settle_by;
use crate::ways::Ways;
use base::Items;
use graph_entry::ReferrerImports;
use std::alloc::{AllocError, Global};
use std::mem;
use url::Url;

/// The graph of these roots, of what places outside import, and of what was reached, which is taken out.
pub fn finish<W: Ways>(
    alloc: Global,
    ways: &W,
    roots: &[Url],
    outside: &[ReferrerImports],
    reached: &mut Reached,
) -> Result<ModuleGraph, AllocError>
    requires { HaveEntries reached.old }
    ensures roots { IfOk result (λ g. g.roots ≡ roots.now) }
    ensures imports { IfOk result (λ g. g.imports ≡ map (referred_by (W.resolves ways.now)) outside.now) }
    ensures entries { IfOk result (λ g. AreSettled (rules_by (W.means ways.now) (W.follows ways.now)) reached.old g) }
    ensures once { OnOk result (IsDistinct bytes_eq (keys_at reached.old)) }
{
    let roots = copies(alloc, roots)?;
    let imports = ways.referred(alloc, outside)?;
    // The proof learns from it that no specifier has two numbers.
    let _count = reached.count();
    let taken = mem::replace(reached, Reached::new(alloc));
    let (firsts, links) = taken.into_parts();
    let entries = settle_by(alloc, ways, firsts, &links)?;
    let order = entries.by_bytes(alloc)?;
    Ok(ModuleGraph::new(roots, imports, entries, links, order))
}

fn copies(alloc: Global, urls: &[Url]) -> Result<Items<Url>, AllocError>
    ensures { IfOk result (λ copy. copy ≡ urls.now) }
{
    let mut copy = Items::new(alloc);
    for url in urls {
        copy.push(url.clone()?)?;
    }
    Ok(copy)
}
