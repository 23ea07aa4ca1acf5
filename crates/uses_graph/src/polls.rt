//! The loop over a builder's polls.
ghost use Rattle.std.specs.Prelude.{IfOk};
ghost use Rattle.graph_builder.specs.Reach.{answer_to};
ghost use Rattle.graph_builder.specs.Graph.{IsGraph};
ghost use Rattle.graph_builder.specs.Builder.{graph_rules, starts};

use deno_graph::{BuildError, GraphBuild, Loader, ModuleGraph};

/// Polls until there is another answer than `NotYet`, at most so many times. A program with other work to do goes on with
/// it after a `NotYet`, and polls again later.
pub fn poll_for<L: Loader + Drop>(
    build: &mut GraphBuild<L>,
    polls: u32,
) -> Result<ModuleGraph, BuildError>
    // The graph is that of the roots and of what the loader has answered.
    ensures { IfOk result (λ graph.
        IsGraph (graph_rules build.old.inner) (starts build.old.inner) (answer_to build.new.inner.log) graph.entries) }
{
    for _ in 0..polls {
        match build.poll() {
            Err(BuildError::NotYet) => {}
            answer => return answer,
        }
    }
    Err(BuildError::NotYet)
}
