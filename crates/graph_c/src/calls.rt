//! The calls of a source that no edge stands for, in a buffer of the caller's.
ghost use Rattle.std.specs.Prelude.{◌≡◌, nat_le, length, map, vec_len, IfOk, OnErr};
ghost use Rattle.graph_c.specs.Calls.{AnswersCalls, TellsCalls, found_calls, call_number, call_record};

use crate::finding::{Finding, calls_in};
use crate::room::put;
use crate::told::{NO_MEMORY, fault_of, place_of, status_of};
use std::alloc::{AllocError, Global};
use unread_calls::{Loader, UnreadCall};

/// A call that may load a module. Offsets are in bytes from 0, and an end is exclusive.
#[repr(C)]
#[derive(Clone, Copy)]
pub struct SourceCall {
    pub kind: u32,
    /// From the word through the closing bracket.
    pub start: usize,
    pub end: usize,
}

/// What a call reports beside its buffer.
#[repr(C)]
#[derive(Clone, Copy)]
pub struct CallsAnswer {
    /// How many calls the source has.
    pub calls: usize,
    /// The kind of the lexical fault, or 0, and the byte of the text where a fault is.
    pub fault: u32,
    pub place: usize,
}

/// Writes the calls of the source into the buffer, and answers how that ended.
pub fn answer_calls(
    alloc: Global,
    text: &[u8],
    calls: &mut [SourceCall],
    answer: &mut CallsAnswer,
) -> u32
    ensures { AnswersCalls text.now calls.old calls.new answer.new result }
{
    let Ok(finding) = calls_in(alloc, text) else {
        return no_memory(answer);
    };
    match tell_calls(alloc, &finding, calls, answer) {
        Ok(status) => status,
        Err(_) => no_memory(answer),
    }
}

fn no_memory(answer: &mut CallsAnswer) -> u32
    ensures status { result ≡ 5 }
    ensures told { answer.new ≡ record { calls = 0; fault = 0; place = 0 } }
{
    *answer = CallsAnswer {
        calls: 0,
        fault: 0,
        place: 0,
    };
    NO_MEMORY
}

fn tell_calls(
    alloc: Global,
    finding: &Finding,
    calls: &mut [SourceCall],
    answer: &mut CallsAnswer,
) -> Result<u32, AllocError>
    ensures told { IfOk result (TellsCalls finding.now calls.old calls.new answer.new) }
    ensures kept { OnErr result (calls.new ≡ calls.old) }
{
    let records = records_of(alloc, found_calls(finding))?;
    let needed = records.len();
    let fit = needed <= calls.len();
    *answer = CallsAnswer {
        calls: needed,
        fault: fault_of(finding),
        place: place_of(finding),
    };
    if fit {
        put(calls, records.as_slice());
    }
    Ok(status_of(finding, fit))
}

fn found_calls(finding: &Finding) -> &[UnreadCall]
    ensures { result.now ≡ found_calls finding.now }
{
    match finding {
        Finding::Calls(calls) => calls.as_slice(),
        _ => &[],
    }
}

fn records_of(alloc: Global, calls: &[UnreadCall]) -> Result<Vec<SourceCall>, AllocError>
    ensures records { IfOk result (λ records. records.items ≡ map call_record calls.now) }
    ensures counted { IfOk result (λ records. vec_len records ≡ length calls.now) }
{
    calls.iter().map(call_record).collect(alloc)
}

fn call_record(call: &UnreadCall) -> SourceCall
    ensures { result ≡ call_record call.now }
{
    SourceCall {
        kind: call_number(call.loader),
        start: call.range.start,
        end: call.range.end,
    }
}

fn call_number(loader: Loader) -> u32
    ensures { result ≡ call_number loader }
{
    match loader {
        Loader::Import => 0,
        Loader::Require => 1,
    }
}
