//! The calls of a graph's handle.
ghost use Rattle.std.specs.Prelude.{◌≡◌, ◌↔◌, IsTrue, IsSome, Some, None, MatchOption, IfOk, IfErr, option_map};
ghost use Rattle.graph_c.specs.Graph.{News, IsRefusal, WritesLine, IsTaken, AtPoll, AtWanted, AtAnswer, AtEntry, AtPlace};
ghost use Rattle.graph_session.specs.Calls.{IsNewBy, IsRefused};

use crate::handle::Handle;
use crate::held::Held;
use crate::room::put;
use deno_graph::ParserModuleAnalyzer;
use graph_bundle::BundleFault;
use graph_run::due_for_fault;
use graph_session::{
    EdgeRecord, EntryRecord, PlaceRecord, Wanted, answer_call, entry_call, new_by_settings,
    no_entry, place_call, poll_call, wanted_call,
};
use std::alloc::Global;
use std::mem;

const BAD_BUNDLE: u32 = 2;

const NO_MEMORY: u32 = 5;

const NO_GRAPH: u32 = 18;

const HAS_GRAPH: u32 = 26;

/// A handle, and whether it points to something. A zeroed one points to nothing.
#[repr(C)]
#[derive(Drop)]
pub struct Graph {
    pub live: bool,
    pub handle: Handle,
    ghost agrees: { IsTrue live ↔ IsSome handle.value },
}

/// A handle that points to nothing.
pub fn nothing() -> Graph
    ensures { result.handle.value ≡ None }
{
    Graph {
        live: false,
        handle: Handle::none(),
    }
}

fn holding(held: Box<Held>) -> Graph
    ensures { result.handle.value ≡ Some held.value }
{
    Graph {
        live: true,
        handle: Handle::of(held),
    }
}

// Takes what the handle points to; it points to nothing then.
fn taken(alloc: Global, graph: &mut Graph) -> Option<Box<Held>>
    ensures value { IsTaken graph.old.handle.value result }
    ensures left { graph.new.handle.value ≡ None }
{
    if !graph.live {
        return None;
    }
    let Graph { live: _, handle } = mem::replace(graph, nothing());
    Some(handle.into_box(alloc))
}

/// Begins a graph in a handle that has none.
pub fn begin(
    alloc: Global,
    settings: &[u8],
    graph: &mut Graph,
    line: &mut [u8],
    needed: &mut usize,
) -> u32
    ensures { News settings.now graph.old.handle.value graph.new.handle.value line.old line.new needed.new result }
{
    *needed = 0;
    if graph.live {
        return HAS_GRAPH;
    }
    match held_by(alloc, settings) {
        Ok(held) => {
            *graph = holding(held);
            0
        }
        Err(fault) => refuse(alloc, fault, line, needed),
    }
}

fn held_by(alloc: Global, settings: &[u8]) -> Result<Box<Held>, BundleFault>
    ensures new { IfOk result (λ b. IsNewBy settings.now (record {}) b.value.session) }
    ensures refused { IfErr result (IsRefused settings.now) }
{
    let session = new_by_settings(alloc, settings, ParserModuleAnalyzer)?;
    match Box::new(alloc, Held { session }) {
        Ok(held) => Ok(held),
        Err(_) => Err(BundleFault::OutOfMemory),
    }
}

// Writes why there is no graph.
fn refuse(alloc: Global, fault: BundleFault, line: &mut [u8], needed: &mut usize) -> u32
    ensures { IsRefusal fault line.old line.new needed.old needed.new result }
{
    let Ok(due) = due_for_fault(alloc, fault) else {
        return NO_MEMORY;
    };
    write_line(due.text.as_bytes(), line, needed);
    BAD_BUNDLE
}

fn write_line(text: &[u8], line: &mut [u8], needed: &mut usize)
    ensures { WritesLine text.now line.old line.new needed.new }
{
    *needed = text.len();
    if text.len() <= line.len() {
        put(line, text);
    }
}

/// Polls the graph's builder.
pub fn poll(alloc: Global, graph: &mut Graph, seen: &mut usize) -> u32
    ensures { AtPoll graph.old.handle.value graph.new.handle.value seen.new result }
{
    let Some(mut held) = taken(alloc, graph) else {
        *seen = 0;
        return NO_GRAPH;
    };
    let status = poll_call(&mut held.session, seen);
    *graph = holding(held);
    status
}

/// Reports a request that has no answer yet.
pub fn report_wanted(
    alloc: Global,
    graph: &mut Graph,
    from: usize,
    room: &mut [u8],
    wanted: &mut Wanted,
) -> u32
    ensures { AtWanted graph.old.handle.value graph.new.handle.value from room.old room.new wanted.new result }
{
    let Some(held) = taken(alloc, graph) else {
        *wanted = Wanted {
            number: usize::MAX,
            needed: 0,
        };
        return NO_GRAPH;
    };
    let status = wanted_call(&held.session, from, room, wanted);
    *graph = holding(held);
    status
}

/// Answers a request.
pub fn answer(
    alloc: Global,
    graph: &mut Graph,
    number: usize,
    kind: u32,
    bytes: &[u8],
    content_type: &[u8],
) -> u32
    ensures { AtAnswer graph.old.handle.value graph.new.handle.value number kind bytes.now content_type.now result }
{
    let Some(mut held) = taken(alloc, graph) else {
        return NO_GRAPH;
    };
    let status = answer_call(alloc, &mut held.session, number, kind, bytes, content_type);
    *graph = holding(held);
    status
}

/// Reports an entry of the graph, its edges and its texts.
pub fn report_entry(
    alloc: Global,
    graph: &mut Graph,
    number: usize,
    edges: &mut [EdgeRecord],
    texts: &mut [u8],
    entry: &mut EntryRecord,
) -> u32
    ensures { AtEntry graph.old.handle.value graph.new.handle.value number edges.old edges.new texts.old texts.new entry.new result }
{
    let Some(held) = taken(alloc, graph) else {
        *entry = no_entry();
        return NO_GRAPH;
    };
    let status = entry_call(alloc, &held.session, number, edges, texts, entry);
    *graph = holding(held);
    status
}

/// Reports line and column of a place in the text of an entry's module.
pub fn report_place(
    alloc: Global,
    graph: &mut Graph,
    number: usize,
    place: usize,
    shown: &mut PlaceRecord,
) -> u32
    ensures { AtPlace graph.old.handle.value graph.new.handle.value number place shown.new result }
{
    let Some(held) = taken(alloc, graph) else {
        *shown = PlaceRecord { line: 0, column: 0 };
        return NO_GRAPH;
    };
    let status = place_call(alloc, &held.session, number, place, shown);
    *graph = holding(held);
    status
}

/// Gives back what the handle points to, if it points to something.
pub fn free(alloc: Global, graph: &mut Graph)
    ensures { graph.new.handle.value ≡ None }
{
    drop(taken(alloc, graph));
}
