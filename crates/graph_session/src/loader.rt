//! A loader whose answers come by calls.
ghost use Rattle.std.specs.Prelude.{◌≡◌, ◌<◌, ◌+◌, true, false, Some, IfSome, IfOk, OnErr, length, slice_get};
ghost use Rattle.std.specs.Option.{option_copied};
ghost use Rattle.graph_entry.specs.Specifier.{text_of};
ghost use Rattle.graph_builder.specs.Loader.{HasStarted, HasPolled};
ghost use Rattle.graph_session.specs.Asking.{data_of, new_asking, first_open_from, told_by, log_by, IsStarted, IsPolled, IsGiven, IsKeptAsking};

use graph_builder::{Loader, LoaderPoll};
use graph_entry::LoadAnswer;
use graph_tables::ghost_log::GhostLog;
use std::alloc::{AllocError, Global};
use std::collections::VecDeque;
use std::marker::Model;
use url::Url;

/// A loader that keeps what it is asked for until it is answered.
#[derive(Drop)]
pub struct AskedLoader {
    // What it was asked for, in the order of asking.
    asked: Vec<Url>,
    // Which of these have no answer yet.
    marks: Vec<bool>,
    // The answers that no poll has taken yet, the oldest first.
    ready: VecDeque<(Url, LoadAnswer)>,
    // The rest is known to contracts alone. All answers.
    given: GhostLog<Url, LoadAnswer>,
    // What happened: a request has no answer beside it.
    noted: GhostLog<Url, Option<LoadAnswer>>,
    // What had happened when nothing had come for the last time.
    stood: GhostLog<Url, Option<LoadAnswer>>,
    // The times when nothing had come, and those before the last answer was given.
    waits: GhostLog<(), ()>,
    since: GhostLog<(), ()>,
}

impl Model for AskedLoader {
    ghost use Rattle.std.specs.Prelude.{length};
    ghost use Rattle.graph_session.specs.Asking.{Asking, IsKeptAsking};

    ghost Value = { Asking };

    ghost view = { λ l. record {
      asked = l.asked.items;
      open_ones = l.marks.items;
      given = l.given.items;
      ready = l.ready.items;
      noted = l.noted.items;
      stood = l.stood.items;
      waits = length l.waits.items;
      since = length l.since.items;
    } };

    ghost invariant = { λ l. IsKeptAsking (record {
      asked = l.asked.items;
      open_ones = l.marks.items;
      given = l.given.items;
      ready = l.ready.items;
      noted = l.noted.items;
      stood = l.stood.items;
      waits = length l.waits.items;
      since = length l.since.items;
    }) };
}

/// What became of an answer.
#[derive(Clone, Copy, Debug, PartialEq, Eq)]
pub enum Given {
    /// The next polls give it.
    Taken,
    /// No request has this number.
    NotAsked,
    /// The request has an answer.
    Answered,
}

impl AskedLoader {
    /// One that was asked nothing.
    #[tactic(auto, using(crate::proofs::AskingLemmas::kept_new))]
    pub fn new(alloc: Global) -> AskedLoader
        ensures { result ≡ new_asking }
    {
        AskedLoader {
            asked: Vec::new(alloc),
            marks: Vec::new(alloc),
            ready: VecDeque::new(alloc),
            given: GhostLog::new(),
            noted: GhostLog::new(),
            stood: GhostLog::new(),
            waits: GhostLog::new(),
            since: GhostLog::new(),
        }
    }

    // A proof learns from it what holds at all times.
    pub(crate) fn know(&self)
        ensures { IsKeptAsking self.now }
    {
        let _asked = self.asked.len();
    }

    /// The first request from a number on that has no answer yet: its number.
    pub fn wanted(&self, from: usize) -> Option<usize>
        ensures first { result ≡ first_open_from from self.now.open_ones }
        ensures within { IfSome result (λ n. n < length self.now.asked) }
    {
        // The proof learns from it that each request has a mark.
        let _asked = self.asked.len();
        first_open(self.marks.as_slice(), from)
    }

    /// The specifier of the request with this number.
    pub fn request(&self, number: usize) -> Option<&Url>
        ensures { option_copied result ≡ slice_get self.now.asked number }
    {
        self.asked.get(number)
    }

    /// Answers the request with this number. Where it isn't taken, nothing changes.
    pub fn give(&mut self, number: usize, answer: LoadAnswer) -> Result<Given, AllocError>
        ensures given { IfOk result (IsGiven number answer self.old self.new) }
        ensures kept { OnErr result (self.new ≡ self.old) }
        ensures seen { data_of self.new ≡ record (data_of self.old) { told = told_by (log_by self.new.given) self.new.since } }
    {
        match self.marks.get(number) {
            None => Ok(Given::NotAsked),
            Some(false) => Ok(Given::Answered),
            Some(true) => {
                let Some(url) = self.asked.get(number) else {
                    unreachable!()
                };
                let url = url.clone()?;
                let given = self.given.and(&url, &answer);
                match self.ready.push_back((url, answer)) {
                    Ok(()) => {}
                    Err(_) => return Err(AllocError),
                }
                self.given = given;
                self.since = self.waits.again();
                self.marks[number] = false;
                Ok(Given::Taken)
            }
        }
    }
}

impl Loader for AskedLoader {
    ghost seen = { data_of };

    fn start(&mut self, specifier: &Url) -> Result<(), AllocError>
        ensures exact { IsStarted specifier.now self.old self.new result }
        ensures started { HasStarted (text_of specifier.now) (data_of self.old) (data_of self.new) result }
    {
        let request = specifier.clone()?;
        self.asked.reserve(1)?;
        self.marks.reserve(1)?;
        self.asked.push(request)?;
        self.marks.push(true)?;
        self.noted = self.noted.and(specifier, &None);
        Ok(())
    }

    fn poll(&mut self) -> Result<LoaderPoll, AllocError>
        ensures exact { IsPolled self.old self.new result }
        ensures polled { HasPolled (data_of self.old) (data_of self.new) result }
    {
        let Some((url, answer)) = self.ready.pop_front() else {
            self.stood = self.noted.again();
            self.waits = self.waits.and(&(), &());
            return Ok(LoaderPoll::Pending);
        };
        let given = Some(answer);
        self.noted = self.noted.and(&url, &given);
        let Some(answer) = given else { unreachable!() };
        Ok(LoaderPoll::Answer(url, answer))
    }
}

// The first place from `from` on that has `true`.
#[tactic(auto, using(crate::proofs::AskingLemmas::from_end))]
fn first_open(marks: &[bool], from: usize) -> Option<usize>
    ensures first { result ≡ first_open_from from marks.now }
    ensures within { IfSome result (λ n. n < length marks.now) }
{
    let mut at = from;
    while at < marks.len() {
        if is_open(marks, at) {
            return Some(at);
        }
        at += 1;
    }
    None
}

// Whether the place has `true`.
fn is_open(marks: &[bool], at: usize) -> bool
    requires { at < length marks.now }
    ensures here { result ≡ true → first_open_from at marks.now ≡ Some at }
    ensures next { result ≡ false → first_open_from at marks.now ≡ first_open_from (at + 1) marks.now }
{
    marks[at]
}
