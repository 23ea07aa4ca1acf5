//! All requests, marks of the open ones, and a map to the first open one for each URL.
ghost use Rattle.std.specs.Prelude.{◌≡◌, true, false, ◌≤◌, ◌<◌, ◌+◌, ℕ, List, [], ◌∷◌, ◌++◌, length, drop, cond, Option, Some, None, IsSome, IfOk, OnOk, OnErr, IfSome, slice_get};
ghost use Rattle.std.specs.Option.{option_copied, option_map};
ghost use Rattle.url.specs.Parts.{Parts, serialize};
ghost use Rattle.graph_tables.specs.pending_requests.Requests.{waits_for, settled, oldest};
ghost use Rattle.graph_tables.specs.pending_requests.Inside.{is_same, found, found_from, at_url, IsPassed, IsNext};

use indexmap::IndexMap;
use std::alloc::{AllocError, Global};
use std::marker::Model;
use url::Url;

/// The first open request for a URL.
#[derive(Clone, Copy)]
struct First {
    at: usize,
    /// There may be another one.
    more: bool,
}

/// Requests in the order in which they came, each open until an answer settles it.
#[derive(Drop)]
pub struct Requests {
    all: Vec<Url>,
    marks: Vec<bool>,
    // How many at the front are settled.
    passed: usize,
    firsts: IndexMap<Url, First>,
}

impl Model for Requests {
    ghost use Rattle.graph_tables.specs.pending_requests.Requests.{Asked};
    ghost use Rattle.graph_tables.specs.pending_requests.Inside.{marked, IsKept};

    ghost Value = { Asked };

    ghost view = { λ r. record { all = r.all.items; waiting = marked r.marks.items r.all.items } };

    ghost invariant = { λ r. IsKept r.all.items r.marks.items r.passed r.firsts.entries };
}

impl Requests {
    /// No requests.
    pub fn new(alloc: Global) -> Requests
        ensures all { result.all ≡ [] }
        ensures waiting { result.waiting ≡ [] }
    {
        Requests {
            all: Vec::new(alloc),
            marks: Vec::new(alloc),
            passed: 0,
            firsts: IndexMap::new(alloc),
        }
    }

    /// All requests.
    pub fn all(&self) -> &[Url]
        ensures { result.now ≡ self.now.all }
    {
        self.all.as_slice()
    }

    /// Asks for a URL.
    pub fn ask(&mut self, url: &Url) -> Result<(), AllocError>
        ensures all { OnOk result (self.new.all ≡ self.old.all ++ url.now ∷ []) }
        ensures waiting { OnOk result (self.new.waiting ≡ self.old.waiting ++ url.now ∷ []) }
        ensures err { OnErr result (self.new ≡ self.old) }
    {
        let number = self.all.as_slice().len();
        let first = with_one_more(&self.firsts, url, number);
        let request = url.clone()?;
        let key = url.clone()?;
        self.all.reserve(1)?;
        self.marks.reserve(1)?;
        let _ = self.firsts.insert(key, first)?;
        self.all.push(request)?;
        self.marks.push(true)?;
        Ok(())
    }

    /// Whether a request for the URL is open.
    pub fn waits_for(&self, url: &Url) -> bool
        ensures { result ≡ waits_for serialize self.now.waiting url.now }
    {
        self.firsts.contains_key(url)
    }

    /// The oldest open request.
    pub fn oldest(&self) -> Option<&Url>
        ensures { option_copied result ≡ oldest self.now.waiting }
    {
        request_at(self.all.as_slice(), self.passed)
    }

    /// Settles the oldest open request for the URL, if there is one.
    pub fn settle(&mut self, url: &Url)
        ensures all { self.new.all ≡ self.old.all }
        ensures waiting { self.new.waiting ≡ settled serialize self.old.waiting url.now }
    {
        let Some(first) = self.firsts.get(url).copied() else {
            return;
        };
        let later = later_one(self.all.as_slice(), self.marks.as_slice(), first, url);
        self.marks[first.at] = false;
        put_later(&mut self.firsts, url, later);
        self.passed = next_open(self.marks.as_slice(), self.passed);
    }
}

fn request_at(all: &[Url], place: usize) -> Option<&Url>
    ensures { option_copied result ≡ slice_get all.now place }
{
    all.get(place)
}

// The first open request for a URL once there is one more, with this number.
fn with_one_more(firsts: &IndexMap<Url, First>, url: &Url, number: usize) -> First
    ensures known { IfSome (at_url firsts.now.entries url.now) (λ f. (result.at ≡ f.at) × (result.more ≡ true)) }
    ensures new { at_url firsts.now.entries url.now ≡ None → (result.at ≡ number) × (result.more ≡ false) }
{
    match firsts.get(url) {
        Some(first) => First {
            at: first.at,
            more: true,
        },
        None => First {
            at: number,
            more: false,
        },
    }
}

// The number of the open request for the URL after the first one.
fn later_one(all: &[Url], marks: &[bool], first: First, url: &Url) -> Option<usize>
    requires even { length marks.now ≡ length all.now }
    requires within { first.at < length marks.now }
    requires alone { first.more ≡ false → found (drop (first.at + 1) marks.now) (drop (first.at + 1) all.now) url.now ≡ None }
    ensures { result ≡ found_from (first.at + 1) marks.now all.now url.now }
{
    if first.more {
        open_from(all, marks, first.at + 1, url)
    } else {
        None
    }
}

// The number of the first open request for the URL from a place on.
fn open_from(all: &[Url], marks: &[bool], from: usize, url: &Url) -> Option<usize>
    requires even { length marks.now ≡ length all.now }
    requires within { from ≤ length marks.now }
    ensures { result ≡ found_from from marks.now all.now url.now }
{
    let mut at = from;
    while at < marks.len() {
        if is_open_for(all, marks, at, url) {
            return Some(at);
        }
        at += 1;
    }
    None
}

// Whether the request at a place is open, and for the URL.
fn is_open_for(all: &[Url], marks: &[bool], at: usize, url: &Url) -> bool
    requires even { length marks.now ≡ length all.now }
    requires within { at < length marks.now }
    ensures here { result ≡ true → found_from at marks.now all.now url.now ≡ Some at }
    ensures next { result ≡ false → found_from at marks.now all.now url.now ≡ found_from (at + 1) marks.now all.now url.now }
{
    if !marks[at] {
        return false;
    }
    all[at] == *url
}

// The first open request for the URL is now the later one, if there is one.
fn put_later(firsts: &mut IndexMap<Url, First>, url: &Url, later: Option<usize>)
    requires { IsSome (at_url firsts.old.entries url.now) }
    ensures { (q : Parts) → at_url firsts.new.entries q
        ≡ cond (is_same url.now q) (option_map (λ n. record { at = n; more = true }) later) (at_url firsts.old.entries q) }
{
    let Some(at) = later else {
        let _ = firsts.swap_remove(url);
        return;
    };
    if let Some(first) = firsts.get_mut(url) {
        *first = First { at, more: true };
    }
}

// The place of the next open request from a place on, or the end.
fn next_open(marks: &[bool], from: usize) -> usize
    requires within { from ≤ length marks.now }
    requires passed { IsPassed from marks.now }
    ensures within { result ≤ length marks.now }
    ensures passed { IsPassed result marks.now }
    ensures next { IsNext (drop result marks.now) }
{
    let mut at = from;
    while at < marks.len() {
        if marks[at] {
            return at;
        }
        at += 1;
    }
    at
}
