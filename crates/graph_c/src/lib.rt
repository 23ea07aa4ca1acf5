//! The calls of the C library (`include/joravelsu.h` declares them for C).
//!
//! - `joravelsu_build(bundle)`: the report of a bundle's graph, or the line of a refusal (`Builds`, `specs/Build.antt`).
//! - `joravelsu_sites(text, media_type)`: where a source names other modules, or why it has no sites (`AnswersSites`,
//!   `specs/Answer.antt`).
//! - `joravelsu_unread(text)`: which calls may load a module and have no edge (`AnswersCalls`, `specs/Calls.antt`).
//! - `joravelsu_rewrite(text, media_type, changes, values)`: a source with other specifiers at some of its sites, or which
//!   change can't be made, or why it has no sites (`AnswersRewrite`, `specs/Rewrite.antt`).
//! - `joravelsu_exports(text, media_type, common_js)`: the names that a source exports, and the modules whose names it exports
//!   again, or why it isn't read (`AnswersExports`, `specs/Exports.antt`).
//! - `joravelsu_mentions(text, media_type, allowed, strict)`: what a source mentions that a graph of its modules doesn't show, or
//!   why it isn't read (`AnswersMentions`, `specs/Mentions.antt`).
//! - `joravelsu_declarations(text, media_type, comments)`: the declarations of a source, and what couldn't be determined, or why
//!   it isn't read (`AnswersDeclarations`, `specs/Declarations.antt`).
//! - `joravelsu_graph_new`, `_poll`, `_wanted`, `_answer`, `_entry`, `_place`, `_free`: a graph whose loads the caller does,
//!   behind a handle (`specs/Graph.antt`).
//! - `joravelsu_version()`: the version of the library.
//!
//! The first seven write into buffers of the caller's, all or nothing, and tell what they must hold. They keep no state. A
//! call fails besides only where memory runs out.
//! Not promised: the place of a syntax error, and when memory runs out.
#![tactic(auto)]

ghost use Rattle.std.specs.Prelude.{◌≡◌, nat_eq, not};
ghost use Rattle.graph_c.specs.Build.{Builds};
ghost use Rattle.graph_c.specs.Answer.{AnswersSites};
ghost use Rattle.graph_c.specs.Calls.{AnswersCalls};
ghost use Rattle.graph_c.specs.Rewrite.{AnswersRewrite};
ghost use Rattle.graph_c.specs.Exports.{AnswersExports};
ghost use Rattle.graph_c.specs.Mentions.{AnswersMentions};
ghost use Rattle.graph_c.specs.Declarations.{AnswersDeclarations};
ghost use Rattle.graph_c.specs.Graph.{News, AtPoll, AtWanted, AtAnswer, AtEntry, AtPlace};
ghost use Rattle.std.specs.Prelude.{None};

mod answer;
mod build;
mod calls;
mod declarations;
mod declaring;
mod exporting;
mod exports;
mod finding;
mod graph;
mod handle;
mod held;
mod media_types;
mod mentioning;
mod mentions;
mod rewrite;
mod room;
mod text;
mod told;

use crate::answer::{Answer, SourceSite, answer_sites};
use crate::build::build_report;
use crate::calls::{CallsAnswer, SourceCall, answer_calls};
use crate::declarations::{DeclarationsAnswer, SourceDiagnostic, answer_declarations};
use crate::exports::{ExportsAnswer, SourceName, answer_exports};
use crate::graph::Graph;
use crate::mentions::{MentionsAnswer, SourceMention, answer_mentions};
use crate::rewrite::{RewriteAnswer, answer_rewrite};
use graph_session::{EdgeRecord, EntryRecord, PlaceRecord, Wanted};
use specifier_edits::records::SourceChange;
use std::alloc::Global;

/// The version, as 10,000 times its first number, 100 times its second, and its third: 100 is 0.1.0.
const VERSION: u32 = 100;

/// The version of the library.
#[unsafe(no_mangle)]
pub extern "C" fn joravelsu_version() -> u32
    ensures { result ≡ 100 }
{
    VERSION
}

/// Builds the graph of a bundle, and writes its report into the buffer.
#[unsafe(no_mangle)]
pub extern "C" fn joravelsu_build(
    alloc: Global,
    bundle: &[u8],
    room: &mut [u8],
    needed: &mut usize,
) -> u32
    ensures { Builds bundle.now room.old room.new needed.new result }
{
    build_report(alloc, bundle, room, needed)
}

/// Finds the sites of a source, and writes a record for each, and their values and attributes into the second buffer.
#[unsafe(no_mangle)]
pub extern "C" fn joravelsu_sites(
    alloc: Global,
    text: &[u8],
    media_type: u32,
    sites: &mut [SourceSite],
    values: &mut [u8],
    answer: &mut Answer,
) -> u32
    ensures { AnswersSites media_type text.now sites.old sites.new values.old values.new answer.new result }
{
    answer_sites(alloc, text, media_type, sites, values, answer)
}

/// Finds the calls of a source that may load a module and that no edge stands for, and writes a record for each.
#[unsafe(no_mangle)]
pub extern "C" fn joravelsu_unread(
    alloc: Global,
    text: &[u8],
    calls: &mut [SourceCall],
    answer: &mut CallsAnswer,
) -> u32
    ensures { AnswersCalls text.now calls.old calls.new answer.new result }
{
    answer_calls(alloc, text, calls, answer)
}

/// Writes a source with other specifiers at some of its sites into the buffer.
#[unsafe(no_mangle)]
pub extern "C" fn joravelsu_rewrite(
    alloc: Global,
    text: &[u8],
    media_type: u32,
    changes: &[SourceChange],
    values: &[u8],
    room: &mut [u8],
    answer: &mut RewriteAnswer,
) -> u32
    ensures { AnswersRewrite media_type text.now changes.now values.now room.old room.new answer.new result }
{
    answer_rewrite(alloc, text, media_type, changes, values, room, answer)
}

/// Finds what a source mentions that a graph of its modules doesn't show, by the names that are allowed, a line each, and
/// writes a record for each; more where `strict` isn't 0.
#[unsafe(no_mangle)]
pub extern "C" fn joravelsu_mentions(
    alloc: Global,
    text: &[u8],
    media_type: u32,
    allowed: &[u8],
    strict: u32,
    mentions: &mut [SourceMention],
    answer: &mut MentionsAnswer,
) -> u32
    ensures { AnswersMentions allowed.now (not (nat_eq strict 0)) media_type text.now mentions.old mentions.new answer.new result }
{
    answer_mentions(
        alloc,
        text,
        media_type,
        allowed,
        strict != 0,
        mentions,
        answer,
    )
}

/// Finds the names that a source exports, and the modules whose names it exports again, and writes a record for each, and
/// their texts into the second buffer: as a module of CommonJS where `common_js` isn't 0, else at run time.
#[unsafe(no_mangle)]
pub extern "C" fn joravelsu_exports(
    alloc: Global,
    text: &[u8],
    media_type: u32,
    common_js: u32,
    names: &mut [SourceName],
    values: &mut [u8],
    answer: &mut ExportsAnswer,
) -> u32
    ensures { AnswersExports (not (nat_eq common_js 0)) media_type text.now names.old names.new values.old values.new answer.new result }
{
    answer_exports(
        alloc,
        text,
        media_type,
        common_js != 0,
        names,
        values,
        answer,
    )
}

/// Finds the declarations of a source, and writes their text into the second buffer, with the comments before their items where
/// `comments` isn't 0, and a record for each type that couldn't be determined into the first.
#[unsafe(no_mangle)]
pub extern "C" fn joravelsu_declarations(
    alloc: Global,
    text: &[u8],
    media_type: u32,
    comments: u32,
    diagnostics: &mut [SourceDiagnostic],
    room: &mut [u8],
    answer: &mut DeclarationsAnswer,
) -> u32
    ensures { AnswersDeclarations (not (nat_eq comments 0)) media_type text.now diagnostics.old diagnostics.new room.old room.new answer.new result }
{
    answer_declarations(
        alloc,
        text,
        media_type,
        comments != 0,
        diagnostics,
        room,
        answer,
    )
}

/// Begins a graph of a bundle's roots and settings, whose loads the caller does, in a handle that has none.
#[unsafe(no_mangle)]
pub extern "C" fn joravelsu_graph_new(
    alloc: Global,
    settings: &[u8],
    graph: &mut Graph,
    line: &mut [u8],
    needed: &mut usize,
) -> u32
    ensures { News settings.now graph.old.handle.value graph.new.handle.value line.old line.new needed.new result }
{
    graph::begin(alloc, settings, graph, line, needed)
}

/// Asks for all that is reached, and takes the answers so far.
#[unsafe(no_mangle)]
pub extern "C" fn joravelsu_graph_poll(alloc: Global, graph: &mut Graph, seen: &mut usize) -> u32
    ensures { AtPoll graph.old.handle.value graph.new.handle.value seen.new result }
{
    graph::poll(alloc, graph, seen)
}

/// Reports the first request from a number on that has no answer yet.
#[unsafe(no_mangle)]
pub extern "C" fn joravelsu_graph_wanted(
    alloc: Global,
    graph: &mut Graph,
    from: usize,
    room: &mut [u8],
    wanted: &mut Wanted,
) -> u32
    ensures { AtWanted graph.old.handle.value graph.new.handle.value from room.old room.new wanted.new result }
{
    graph::report_wanted(alloc, graph, from, room, wanted)
}

/// Answers a request.
#[unsafe(no_mangle)]
pub extern "C" fn joravelsu_graph_answer(
    alloc: Global,
    graph: &mut Graph,
    number: usize,
    kind: u32,
    bytes: &[u8],
    content_type: &[u8],
) -> u32
    ensures { AtAnswer graph.old.handle.value graph.new.handle.value number kind bytes.now content_type.now result }
{
    graph::answer(alloc, graph, number, kind, bytes, content_type)
}

/// Reports the entry with a number, its edges and its texts.
#[unsafe(no_mangle)]
pub extern "C" fn joravelsu_graph_entry(
    alloc: Global,
    graph: &mut Graph,
    number: usize,
    edges: &mut [EdgeRecord],
    texts: &mut [u8],
    entry: &mut EntryRecord,
) -> u32
    ensures { AtEntry graph.old.handle.value graph.new.handle.value number edges.old edges.new texts.old texts.new entry.new result }
{
    graph::report_entry(alloc, graph, number, edges, texts, entry)
}

/// Reports line and column of a place in the text of an entry's module.
#[unsafe(no_mangle)]
pub extern "C" fn joravelsu_graph_place(
    alloc: Global,
    graph: &mut Graph,
    number: usize,
    place: usize,
    shown: &mut PlaceRecord,
) -> u32
    ensures { AtPlace graph.old.handle.value graph.new.handle.value number place shown.new result }
{
    graph::report_place(alloc, graph, number, place, shown)
}

/// Gives back all that a handle has.
#[unsafe(no_mangle)]
pub extern "C" fn joravelsu_graph_free(alloc: Global, graph: &mut Graph)
    ensures { graph.new.handle.value ≡ None }
{
    graph::free(alloc, graph)
}
