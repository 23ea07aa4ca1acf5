//! The groups of a graph's modules, as lines of text.
ghost use Rattle.std.specs.Prelude.{◌≡◌, IfOk, OnOk, string_bytes};
ghost use Rattle.std.specs.List.{flat_map};
ghost use Rattle.graph_report.specs.Adds.{Adds};
ghost use Rattle.joravelsu_run.specs.Groups.{IsGroupsText, group_line, member_word};

use base::Items;
use deno_graph::ModuleGraph;
use graph_groups::groups;
use std::alloc::{AllocError, Global};
use url::Url;

/// A line for each group of modules that import each other, in their order. Each line ends by a line feed.
pub fn group_lines(alloc: Global, graph: &ModuleGraph) -> Result<String, AllocError>
    ensures { IfOk result (λ text. IsGroupsText graph.now (string_bytes text)) }
{
    let found = groups(alloc, graph)?;
    let mut out = String::new(alloc);
    add_groups(&mut out, found.as_slice())?;
    Ok(out)
}

fn add_groups(out: &mut String, groups: &[Items<Url>]) -> Result<(), AllocError>
    ensures { OnOk result (Adds out.old out.new (flat_map group_line groups.now)) }
{
    for group in groups {
        add_group(out, group.as_slice())?;
    }
    Ok(())
}

#[tactic(auto, unfolding(crate::specs::Groups::group_line))]
fn add_group(out: &mut String, members: &[Url]) -> Result<(), AllocError>
    ensures { OnOk result (Adds out.old out.new (group_line members.now)) }
{
    out.push_str("group")?;
    add_members(out, members)?;
    out.push_str("\n")
}

fn add_members(out: &mut String, members: &[Url]) -> Result<(), AllocError>
    ensures { OnOk result (Adds out.old out.new (flat_map member_word members.now)) }
{
    for url in members {
        add_member(out, url)?;
    }
    Ok(())
}

#[tactic(auto, unfolding(crate::specs::Groups::member_word, graph_entry::specs::Specifier::text_of))]
fn add_member(out: &mut String, url: &Url) -> Result<(), AllocError>
    ensures { OnOk result (Adds out.old out.new (member_word url.now)) }
{
    out.push_str(" ")?;
    out.push_str(url.as_str())
}
