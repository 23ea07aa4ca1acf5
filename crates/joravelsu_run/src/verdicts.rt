//! What rules say of a graph, as a line.
ghost use Rattle.std.specs.Prelude.{◌≡◌, IfOk, OnOk, string_bytes};
ghost use Rattle.graph_check.specs.Check.{look_of, thing_of};
ghost use Rattle.graph_report.specs.Adds.{Adds};
ghost use Rattle.graph_run.specs.Steps.{IsVerdict};
ghost use Rattle.joravelsu_run.specs.Verdicts.{breach_words, look_line, look_status, thing_words, verdict_line, verdict_status};

use deno_graph::ModuleGraph;
use graph_check::{Thing, Verdict, check};
use graph_policy::{Breach, Policy};
use graph_report::{add_edge_words, add_number, add_state};
use graph_run::{Due, Status};
use std::alloc::{AllocError, Global};

/// What the rules say of a graph, and how that ends.
pub fn verdict_due(alloc: Global, policy: &Policy, graph: &ModuleGraph) -> Result<Due, AllocError>
    ensures status { IfOk result (λ due. due.status ≡ verdict_status policy.now graph.now) }
    ensures text { IfOk result (λ due. string_bytes due.text ≡ verdict_line policy.now graph.now) }
    ensures verdict { IfOk result (λ due. IsVerdict due.status) }
{
    let verdict = check(alloc, policy, graph)?;
    Ok(Due {
        status: status_of(verdict),
        text: line_of(alloc, verdict)?,
    })
}

fn status_of(verdict: Verdict<'_>) -> Status
    ensures status { result ≡ look_status (look_of verdict.entry) }
    ensures verdict { IsVerdict result }
{
    match verdict {
        Verdict::Kept(_) => Status::Done,
        Verdict::Broken(_) => Status::BuildRefused,
    }
}

#[tactic(auto, unfolding(crate::specs::Verdicts::look_line))]
fn line_of(alloc: Global, verdict: Verdict<'_>) -> Result<String, AllocError>
    ensures { IfOk result (λ text. string_bytes text ≡ look_line (look_of verdict.entry)) }
{
    match verdict {
        Verdict::Kept(count) => {
            let mut out = String::from_str(alloc, "policy kept ")?;
            add_number(&mut out, count)?;
            out.push_str("\n")?;
            Ok(out)
        }
        Verdict::Broken(found) => {
            let mut out = String::from_str(alloc, "policy ")?;
            add_breach(&mut out, found.breach)?;
            out.push_str(" ")?;
            add_thing(alloc, &mut out, found.thing)?;
            out.push_str("\n")?;
            Ok(out)
        }
    }
}

#[tactic(auto, unfolding(crate::specs::Verdicts::breach_words))]
fn add_breach(out: &mut String, breach: Breach) -> Result<(), AllocError>
    ensures { OnOk result (Adds out.old out.new (breach_words breach)) }
{
    match breach {
        Breach::Forbidden(rule) => {
            out.push_str("forbidden ")?;
            add_number(out, rule)
        }
        Breach::NotAllowed => out.push_str("not-allowed"),
        Breach::Lacking(rule) => {
            out.push_str("lacking ")?;
            add_number(out, rule)
        }
    }
}

#[tactic(auto, unfolding(crate::specs::Verdicts::thing_words, graph_entry::specs::Specifier::text_of))]
fn add_thing(alloc: Global, out: &mut String, thing: Thing<'_>) -> Result<(), AllocError>
    ensures { OnOk result (Adds out.old out.new (thing_words (thing_of thing.entry))) }
{
    match thing {
        Thing::Entry(specifier, entry) => {
            out.push_str(specifier.as_str())?;
            out.push_str(" ")?;
            add_state(alloc, out, entry)
        }
        Thing::Edge(from, dependency) => {
            out.push_str(from.as_str())?;
            out.push_str(" ")?;
            add_edge_words(alloc, out, dependency)
        }
    }
}
