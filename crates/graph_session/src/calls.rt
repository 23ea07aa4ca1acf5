//! The calls of a session by numbers and buffers of the caller's.
ghost use Rattle.std.specs.Prelude.{◌≡◌, ◌≤◌, ◌++◌, IfOk, IfErr, None, length, drop};
ghost use Rattle.std.specs.Option.{option_copied};
ghost use Rattle.url.specs.Parser.{parse_url};
ghost use Rattle.graph_session.specs.Calls as spec;

use crate::loader::Given;
use crate::records::{EdgeRecord, EntryRecord, LaidEntry, NO_MEDIA_TYPE, NONE, lay_entry};
use crate::session::Session;
use base::SharedBytes;
use graph_builder::{BuildError, ModuleGraph};
use graph_bundle::{Bundle, BundleFault, ChosenBundle, read_chosen};
use graph_entry::{Entry, Headers, LoadAnswer, Module, ModuleAnalyzer};
use source_text::{LineAndColumnDisplay, SourceText, SourceTextInfo};
use std::alloc::{AllocError, Global};
use std::str;
use url::{ParseError, Url};

const DONE: u32 = 0;

const TOO_MANY_MODULES: u32 = 1;

const NO_ROOM: u32 = 4;

const NO_MEMORY: u32 = 5;

const NO_UTF8: u32 = 7;

const NOT_YET: u32 = 16;

const ENDED: u32 = 17;

const NONE_WANTED: u32 = 19;

const NOT_ASKED: u32 = 20;

const ANSWERED: u32 = 21;

const NO_ANSWER: u32 = 22;

const NO_URL: u32 = 23;

const NO_ENTRY: u32 = 24;

const NO_TEXT: u32 = 25;

/// A request that has no answer yet.
#[repr(C)]
#[derive(Clone, Copy)]
pub struct Wanted {
    pub number: usize,
    /// How many bytes its specifier has.
    pub needed: usize,
}

/// A place as people count it, both from 1.
#[repr(C)]
#[derive(Clone, Copy)]
pub struct PlaceRecord {
    pub line: usize,
    pub column: usize,
}

/// A session of the roots, options, choice and import map of a bundle with choices; its modules are left to whoever answers.
pub fn new_by_settings<M: ModuleAnalyzer + Drop>(
    alloc: Global,
    settings: &[u8],
    analyzer: M,
) -> Result<Session<M>, BundleFault>
    ensures new { IfOk result (spec.IsNewBy settings.now analyzer) }
    ensures refused { IfErr result (spec.IsRefused settings.now) }
{
    let ChosenBundle {
        bundle,
        json_without_attribute,
    } = read_chosen(alloc, settings)?;
    let Bundle {
        roots,
        options,
        modules: _,
        arrival: _,
        import_map,
    } = bundle;
    let begun = Session::new(
        alloc,
        roots,
        options,
        json_without_attribute,
        import_map,
        analyzer,
    );
    match begun {
        Ok(session) => Ok(session),
        Err(_) => Err(BundleFault::OutOfMemory),
    }
}

/// Polls. The status is how that ended; where too much is reached, how much was seen.
pub fn poll_call<M: ModuleAnalyzer + Drop>(session: &mut Session<M>, seen: &mut usize) -> u32
    ensures { spec.PollsBy M.reads session.old session.new seen.new result }
{
    let polled = session.poll();
    *seen = seen_of(&polled);
    poll_status(&polled)
}

fn poll_status(polled: &Result<(), BuildError>) -> u32
    ensures { result ≡ spec.poll_status polled.now }
{
    match polled {
        Ok(_) => DONE,
        Err(BuildError::TooManyModules { .. }) => TOO_MANY_MODULES,
        Err(BuildError::NotYet) => NOT_YET,
        Err(BuildError::Finished) => ENDED,
        Err(BuildError::UnaskedAnswer(_)) => NOT_ASKED,
        Err(BuildError::OutOfMemory) => NO_MEMORY,
    }
}

fn seen_of(polled: &Result<(), BuildError>) -> usize
    ensures { result ≡ spec.seen_of polled.now }
{
    match polled {
        Err(BuildError::TooManyModules { seen }) => *seen,
        _ => 0,
    }
}

/// Writes the specifier of the first request from a number on that has no answer yet.
#[tactic(auto, unfolding(graph_entry::specs::Specifier::text_of))]
pub fn wanted_call<M: ModuleAnalyzer + Drop>(
    session: &Session<M>,
    from: usize,
    room: &mut [u8],
    wanted: &mut Wanted,
) -> u32
    ensures { spec.ReportsWanted session.now.build.loader from room.old room.new wanted.new result }
{
    let Some(number) = session.wanted(from) else {
        *wanted = Wanted {
            number: NONE,
            needed: 0,
        };
        return NONE_WANTED;
    };
    let Some(specifier) = session.request(number) else {
        unreachable!()
    };
    let text = specifier.as_str().as_bytes();
    *wanted = Wanted {
        number,
        needed: text.len(),
    };
    put_text(text, room)
}

fn put_text(text: &[u8], room: &mut [u8]) -> u32
    ensures { spec.PutsText text.now room.old room.new result }
{
    if text.len() <= room.len() {
        put(room, text);
        DONE
    } else {
        NO_ROOM
    }
}

/// Answers a request.
pub fn answer_call<M: ModuleAnalyzer + Drop>(
    alloc: Global,
    session: &mut Session<M>,
    number: usize,
    kind: u32,
    bytes: &[u8],
    content_type: &[u8],
) -> u32
    ensures { spec.AnswersBy number kind bytes.now content_type.now session.old session.new result }
{
    match answer_of(alloc, kind, bytes, content_type) {
        Ok(Ok(answer)) => given_status(session.answer(number, answer)),
        Ok(Err(status)) => status,
        Err(_) => NO_MEMORY,
    }
}

fn given_status(given: Result<Given, AllocError>) -> u32
    ensures { result ≡ spec.given_status given }
{
    match given {
        Ok(Given::Taken) => DONE,
        Ok(Given::NotAsked) => NOT_ASKED,
        Ok(Given::Answered) => ANSWERED,
        Err(_) => NO_MEMORY,
    }
}

// The answer of this kind, or the status that says why there is none.
fn answer_of(
    alloc: Global,
    kind: u32,
    bytes: &[u8],
    content_type: &[u8],
) -> Result<Result<LoadAnswer, u32>, AllocError>
    ensures { IfOk result (spec.IsAnswer kind bytes.now content_type.now) }
{
    match kind {
        0 => content(alloc, bytes, content_type),
        1 => redirect(alloc, bytes),
        2 => Ok(Ok(LoadAnswer::External)),
        3 => Ok(Ok(LoadAnswer::Absent)),
        4 => Ok(Ok(LoadAnswer::Failed)),
        _ => Ok(Err(NO_ANSWER)),
    }
}

fn content(
    alloc: Global,
    bytes: &[u8],
    content_type: &[u8],
) -> Result<Result<LoadAnswer, u32>, AllocError>
    ensures { IfOk result (spec.IsContent bytes.now content_type.now) }
{
    let Ok(value) = str::from_utf8(content_type) else {
        return Ok(Err(NO_UTF8));
    };
    let headers = headers_with(alloc, value)?;
    Ok(Ok(LoadAnswer::Content {
        headers,
        bytes: SharedBytes::from_slice(alloc, bytes)?,
    }))
}

// The header `content-type`, where it isn't empty.
fn headers_with(alloc: Global, content_type: &str) -> Result<Headers, AllocError>
    ensures { IfOk result (λ headers. headers ≡ spec.headers_with content_type.now) }
{
    let mut headers = Headers::new(alloc);
    if !content_type.is_empty() {
        let value = String::from_str(alloc, content_type)?;
        headers.insert(alloc, "content-type", value)?;
    }
    Ok(headers)
}

fn redirect(alloc: Global, bytes: &[u8]) -> Result<Result<LoadAnswer, u32>, AllocError>
    ensures { IfOk result (spec.IsRedirect bytes.now) }
{
    let Ok(text) = str::from_utf8(bytes) else {
        return Ok(Err(NO_UTF8));
    };
    redirect_to(alloc, text)
}

fn redirect_to(alloc: Global, text: &str) -> Result<Result<LoadAnswer, u32>, AllocError>
    ensures { IfOk result (λ answer. answer ≡ spec.redirect_to (parse_url None text.now)) }
{
    match Url::parse(alloc, text) {
        Ok(target) => Ok(Ok(LoadAnswer::Redirect(target))),
        Err(ParseError::OutOfMemory | ParseError::Overflow) => Err(AllocError),
        Err(_) => Ok(Err(NO_URL)),
    }
}

// ---- the graph

/// Writes the entry with this number, its edges and its texts.
pub fn entry_call<M: ModuleAnalyzer + Drop>(
    alloc: Global,
    session: &Session<M>,
    number: usize,
    edges: &mut [EdgeRecord],
    texts: &mut [u8],
    entry: &mut EntryRecord,
) -> u32
    ensures { spec.ReportsEntry session.now.graph number edges.old edges.new texts.old texts.new entry.new result }
{
    *entry = no_entry();
    let Some(graph) = &session.graph else {
        return NOT_YET;
    };
    match laid_at(alloc, graph, number) {
        Ok(Some(laid)) => put_laid(&laid, edges, texts, entry),
        Ok(None) => NO_ENTRY,
        Err(_) => NO_MEMORY,
    }
}

/// Where no entry is reported.
pub fn no_entry() -> EntryRecord
    ensures { result ≡ spec.no_entry }
{
    EntryRecord {
        state: 0,
        media_type: NO_MEDIA_TYPE,
        fault: 0,
        place: 0,
        size: 0,
        specifier_end: 0,
        target_end: 0,
        target: NONE,
        edges: 0,
        text_bytes: 0,
    }
}

fn laid_at(
    alloc: Global,
    graph: &ModuleGraph,
    number: usize,
) -> Result<Option<LaidEntry>, AllocError>
    ensures { IfOk result (spec.IsLaidAt graph.now number) }
{
    let Some(specifier) = graph.numbered(number) else {
        return Ok(None);
    };
    let Some(entry) = graph.entry(specifier) else {
        return Ok(None);
    };
    Ok(Some(lay_entry(alloc, graph, specifier, entry)?))
}

fn put_laid(
    laid: &LaidEntry,
    edges: &mut [EdgeRecord],
    texts: &mut [u8],
    entry: &mut EntryRecord,
) -> u32
    ensures { spec.PutsLaid laid.now edges.old edges.new texts.old texts.new entry.new result }
{
    *entry = laid.entry;
    if laid.edges.len() <= edges.len() && laid.texts.len() <= texts.len() {
        put(edges, laid.edges.as_slice());
        put(texts, laid.texts.as_slice());
        DONE
    } else {
        NO_ROOM
    }
}

// Puts the items into the front of the buffer.
fn put<T: Copy>(room: &mut [T], items: &[T])
    requires { length items.now ≤ length room.old }
    ensures { room.new ≡ items.now ++ drop (length items.now) room.old }
{
    room[..items.len()].copy_from_slice(items);
}

/// Line and column of a place in the text of an entry's module.
pub fn place_call<M: ModuleAnalyzer + Drop>(
    alloc: Global,
    session: &Session<M>,
    number: usize,
    place: usize,
    shown: &mut PlaceRecord,
) -> u32
    ensures { spec.ReportsPlace session.now.graph number place shown.new result }
{
    *shown = PlaceRecord { line: 0, column: 0 };
    let Some(graph) = &session.graph else {
        return NOT_YET;
    };
    let Some(text) = text_at(graph, number) else {
        return NO_TEXT;
    };
    match display_in(alloc, text, place) {
        Ok(Some(display)) => {
            *shown = PlaceRecord {
                line: display.line_number,
                column: display.column_number,
            };
            DONE
        }
        Ok(None) => NO_TEXT,
        Err(_) => NO_MEMORY,
    }
}

// The text of the module with this number.
fn text_at(graph: &ModuleGraph, number: usize) -> Option<&SourceText>
    ensures { option_copied result ≡ spec.text_at graph.now number }
{
    match graph.entry(graph.numbered(number)?)? {
        Entry::Module(Module::Js(module)) => Some(&module.text),
        Entry::Module(Module::Json(module)) => Some(&module.text),
        _ => None,
    }
}

// Line and column of a place between two characters of the text.
fn display_in(
    alloc: Global,
    text: &SourceText,
    place: usize,
) -> Result<Option<LineAndColumnDisplay>, AllocError>
    ensures { IfOk result (spec.IsDisplayIn text.now place) }
{
    if !text.as_str().is_char_boundary(place) {
        return Ok(None);
    }
    let info = SourceTextInfo::new(alloc, text.copy()?)?;
    Ok(Some(info.line_and_column_display(place)))
}
