//! What a source mentions, in a buffer of the caller's.
ghost use Rattle.std.specs.Prelude.{◌≡◌, nat_le, length, map, vec_len, IfOk, OnErr};
ghost use Rattle.graph_c.specs.Mentions.{AnswersMentions, TellsMentions, found_mentions, reason_number, mention_record};

use crate::finding::Finding;
use crate::mentioning::{allowed_names, mentions_found};
use crate::room::put;
use crate::told::{NO_MEMORY, fault_of, place_of, status_of};
use source_mentions::{Mention, Reason};
use std::alloc::{AllocError, Global};

/// Something that a source mentions. Offsets are in bytes from 0, and an end is exclusive.
#[repr(C)]
#[derive(Clone, Copy)]
pub struct SourceMention {
    pub reason: u32,
    pub start: usize,
    pub end: usize,
}

/// What a call reports beside its buffer.
#[repr(C)]
#[derive(Clone, Copy)]
pub struct MentionsAnswer {
    /// How many mentions the source has.
    pub mentions: usize,
    /// The kind of the lexical fault, or 0, and the byte of the text where a fault is.
    pub fault: u32,
    pub place: usize,
}

/// Writes what the source mentions into the buffer, and answers how that ended.
pub fn answer_mentions(
    alloc: Global,
    text: &[u8],
    media_type: u32,
    allowed: &[u8],
    strict: bool,
    mentions: &mut [SourceMention],
    answer: &mut MentionsAnswer,
) -> u32
    ensures { AnswersMentions allowed.now strict media_type text.now mentions.old mentions.new answer.new result }
{
    let Ok(names) = allowed_names(alloc, allowed) else {
        return no_memory(answer);
    };
    let Ok(finding) = mentions_found(alloc, names.as_slice(), strict, media_type, text) else {
        return no_memory(answer);
    };
    match tell_mentions(alloc, &finding, mentions, answer) {
        Ok(status) => status,
        Err(_) => no_memory(answer),
    }
}

fn no_memory(answer: &mut MentionsAnswer) -> u32
    ensures status { result ≡ 5 }
    ensures told { answer.new ≡ record { mentions = 0; fault = 0; place = 0 } }
{
    *answer = MentionsAnswer {
        mentions: 0,
        fault: 0,
        place: 0,
    };
    NO_MEMORY
}

fn tell_mentions(
    alloc: Global,
    finding: &Finding,
    mentions: &mut [SourceMention],
    answer: &mut MentionsAnswer,
) -> Result<u32, AllocError>
    ensures told { IfOk result (TellsMentions finding.now mentions.old mentions.new answer.new) }
    ensures kept { OnErr result (mentions.new ≡ mentions.old) }
{
    let records = records_of(alloc, found_mentions(finding))?;
    let needed = records.len();
    let fit = needed <= mentions.len();
    *answer = MentionsAnswer {
        mentions: needed,
        fault: fault_of(finding),
        place: place_of(finding),
    };
    if fit {
        put(mentions, records.as_slice());
    }
    Ok(status_of(finding, fit))
}

fn found_mentions(finding: &Finding) -> &[Mention]
    ensures { result.now ≡ found_mentions finding.now }
{
    match finding {
        Finding::Mentions(found) => found.as_slice(),
        _ => &[],
    }
}

fn records_of(alloc: Global, found: &[Mention]) -> Result<Vec<SourceMention>, AllocError>
    ensures records { IfOk result (λ records. records.items ≡ map mention_record found.now) }
    ensures counted { IfOk result (λ records. vec_len records ≡ length found.now) }
{
    found.iter().map(mention_record).collect(alloc)
}

fn mention_record(mention: &Mention) -> SourceMention
    ensures { result ≡ mention_record mention.now }
{
    SourceMention {
        reason: reason_number(mention.reason),
        start: mention.range.start,
        end: mention.range.end,
    }
}

fn reason_number(reason: Reason) -> u32
    ensures { result ≡ reason_number reason }
{
    match reason {
        Reason::Name => 0,
        Reason::Import => 1,
        Reason::Meta => 2,
        Reason::With => 3,
        Reason::Member => 4,
        Reason::Key => 5,
        Reason::This => 6,
    }
}
