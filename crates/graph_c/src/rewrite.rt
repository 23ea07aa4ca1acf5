//! The text of a source with other specifiers, in a buffer of the caller's.
ghost use Rattle.std.specs.Prelude.{◌≡◌, IfOk};
ghost use Rattle.graph_c.specs.Finding.{IsFinding};
ghost use Rattle.graph_c.specs.Rewrite.{AnswersRewrite, IsRewriting, TellsRewriting, HoldsText, fault_number};

use crate::finding::{Finding, finding_of};
use crate::room::put;
use crate::text::text_of;
use crate::told::{NO_MEMORY, fault_of, place_of, status_of};
use es_site::Site;
use specifier_edits::ChangeFault;
use specifier_edits::records::{Rewritten, SourceChange, rewrite_by_records};
use std::alloc::{AllocError, Global};

/// What a call reports beside its buffer.
#[repr(C)]
#[derive(Clone, Copy)]
pub struct RewriteAnswer {
    /// How many bytes the new text has.
    pub needed: usize,
    /// The first change that can't be made, by its place among them, from 0.
    pub change: usize,
    /// The kind of the lexical fault, or 0, and the byte of the text where a fault is.
    pub fault: u32,
    pub place: usize,
}

/// What there is to tell.
#[derive(Drop)]
pub enum Rewriting {
    /// What the changes make of the text.
    Done(Rewritten),
    /// Why the source has no sites.
    Unread(Finding),
}

/// Writes the new text into the buffer, and answers how that ended.
pub fn answer_rewrite(
    alloc: Global,
    text: &[u8],
    media_type: u32,
    changes: &[SourceChange],
    values: &[u8],
    room: &mut [u8],
    answer: &mut RewriteAnswer,
) -> u32
    ensures { AnswersRewrite media_type text.now changes.now values.now room.old room.new answer.new result }
{
    let Ok(rewriting) = rewriting_of(alloc, media_type, text, changes, values) else {
        *answer = refused(0, 0, 0);
        return NO_MEMORY;
    };
    tell_rewriting(&rewriting, room, answer)
}

fn refused(change: usize, fault: u32, place: usize) -> RewriteAnswer
    ensures { result ≡ record { needed = 0; change = change; fault = fault; place = place } }
{
    RewriteAnswer {
        needed: 0,
        change,
        fault,
        place,
    }
}

fn rewriting_of(
    alloc: Global,
    media_type: u32,
    bytes: &[u8],
    changes: &[SourceChange],
    values: &[u8],
) -> Result<Rewriting, AllocError>
    ensures { IfOk result (IsRewriting media_type bytes.now changes.now values.now) }
{
    match finding_of(alloc, media_type, bytes)? {
        Finding::Found(sites) => rewritten(
            alloc,
            media_type,
            bytes,
            sites.as_slice(),
            changes,
            values,
        ),
        finding => Ok(Rewriting::Unread(finding)),
    }
}

fn rewritten(
    alloc: Global,
    media_type: u32,
    bytes: &[u8],
    sites: &[Site],
    changes: &[SourceChange],
    values: &[u8],
) -> Result<Rewriting, AllocError>
    requires { IsFinding media_type bytes.now (Finding.Found sites.now) }
    ensures { IfOk result (IsRewriting media_type bytes.now changes.now values.now) }
{
    match text_of(bytes) {
        Ok(text) => Ok(Rewriting::Done(rewrite_by_records(alloc, text, sites, changes, values)?)),
        // A source that has sites is a text.
        Err(_) => unreachable!(),
    }
}

fn tell_rewriting(rewriting: &Rewriting, room: &mut [u8], answer: &mut RewriteAnswer) -> u32
    ensures { TellsRewriting rewriting.now room.old room.new answer.new result }
{
    match rewriting {
        Rewriting::Done(Rewritten::Made(text)) => tell_text(text.as_str().as_bytes(), room, answer),
        Rewriting::Done(Rewritten::NoValue(at)) => {
            *answer = refused(*at, 0, 0);
            12
        }
        Rewriting::Done(Rewritten::Faulty(at, fault)) => {
            *answer = refused(*at, 0, 0);
            fault_number(*fault)
        }
        Rewriting::Unread(finding) => {
            *answer = refused(0, fault_of(finding), place_of(finding));
            status_of(finding, true)
        }
    }
}

fn tell_text(text: &[u8], room: &mut [u8], answer: &mut RewriteAnswer) -> u32
    ensures { HoldsText text.now room.old room.new answer.new result }
{
    let needed = text.len();
    *answer = RewriteAnswer {
        needed,
        change: 0,
        fault: 0,
        place: 0,
    };
    if needed <= room.len() {
        put(room, text);
        0
    } else {
        4
    }
}

fn fault_number(fault: ChangeFault) -> u32
    ensures { result ≡ fault_number fault }
{
    match fault {
        ChangeFault::NoSite => 13,
        ChangeFault::NoLiteral => 14,
        ChangeFault::NoOrder => 15,
    }
}
