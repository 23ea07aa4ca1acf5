//! A loader in memory that keeps no log.
ghost use Rattle.std.specs.Prelude.{◌≡◌, IfOk, OnOk, drop, option_map};
ghost use Rattle.std.specs.Option.{option_copied};
ghost use Rattle.graph_entry.specs.Specifier.{text_of};
ghost use Rattle.graph_builder.specs.Loader.{HasStarted, HasPolled};
ghost use Rattle.graph_builder.specs.Memory.{new_memory, module_answer, data_of, settled, next_answered, is_dropped, named, IsTaken, IsStarted, IsPolled, HasFirsts, GainsFirst};

use crate::by_number::{add, find, number};
use crate::loader::{Loader, LoaderPoll};
use crate::memory_loader::Arrival;
use base::Items;
use graph_entry::LoadAnswer;
use graph_tables::ghost_log::GhostLog;
use graph_tables::pending_requests::Requests;
use graph_tables::specifier_table::Numbered;
use std::alloc::{AllocError, Global};
use std::marker::Model;
use url::Url;

/// How many requests are kept though all are answered.
const KEPT_REQUESTS: usize = 1_024;

/// A loader that has its modules in memory, and answers in the order of an arrival list. After the list it answers
/// the oldest outstanding request. What it was asked and what it answered is known to contracts alone: it keeps no log.
#[derive(Drop)]
pub struct UnloggedLoader {
    // The first module with each specifier.
    firsts: Numbered<LoadAnswer>,
    // All modules.
    given: GhostLog<Url, LoadAnswer>,
    arrival: Items<Arrival>,
    // How many items of the arrival list are used up.
    next: usize,
    requests: Requests,
    // Which came first: `true` for each request, `false` for each answer.
    order: GhostLog<bool, ()>,
    asked: GhostLog<Url, ()>,
    log: GhostLog<Url, LoadAnswer>,
    pending: u64,
    // What was asked and answered when nothing had come for the last time.
    stood_asked: GhostLog<Url, ()>,
    stood_log: GhostLog<Url, LoadAnswer>,
}

impl Model for UnloggedLoader {
    ghost use Rattle.std.specs.Prelude.{drop, length};
    ghost use Rattle.std.specs.List.{list_any};
    ghost use Rattle.graph_builder.specs.Memory.{Memory, IsKeptMemory, is_forced, noted};

    ghost Value = { Memory };

    ghost view = { λ m. record {
      modules = m.given.items;
      arrival = drop m.next m.arrival;
      order = noted m.order.items;
      asked = noted m.asked.items;
      log = m.log.items;
      waiting = m.requests.waiting;
      pending = m.pending;
      standing = (length (noted m.stood_asked.items), length m.stood_log.items);
      forced = list_any is_forced m.arrival;
    } };

    ghost invariant = { λ m. IsKeptMemory m.given.items m.firsts m.arrival (noted m.order.items)
        (noted m.asked.items) m.log.items m.requests.waiting };
}

impl UnloggedLoader {
    /// A loader with these modules and this arrival list. Of modules with one specifier the first counts;
    /// a specifier without module is answered `Absent`.
    pub fn new(
        alloc: Global,
        modules: Items<(Url, LoadAnswer)>,
        arrival: Items<Arrival>,
    ) -> Result<UnloggedLoader, AllocError>
        ensures { IfOk result (λ l. l ≡ new_memory modules arrival) }
    {
        let (firsts, given) = firsts_of(alloc, modules)?;
        Ok(started(alloc, firsts, given, arrival))
    }

    /// The same of modules that are numbered, so that no two have one specifier. It allocates nothing.
    pub fn numbered(
        alloc: Global,
        modules: Numbered<LoadAnswer>,
        arrival: Items<Arrival>,
    ) -> UnloggedLoader
        ensures { result ≡ new_memory modules arrival }
    {
        let given = all_of(&modules);
        started(alloc, modules, given, arrival)
    }

    /// A copy of what it answers next.
    pub fn next_answer(&self) -> Result<Option<(Url, LoadAnswer)>, AllocError>
        ensures { IfOk result (λ next. next ≡ option_map (λ url. (url, module_answer self.now.modules (text_of url)))
            (next_answered self.now.waiting self.now.arrival).0) }
    {
        match turn(self.arrival.as_slice(), self.next, &self.requests).0 {
            Some(url) => Ok(Some((url.clone()?, answer_for(&self.firsts, url)?))),
            None => Ok(None),
        }
    }
}

impl Loader for UnloggedLoader {
    ghost seen = { data_of };

    fn start(&mut self, specifier: &Url) -> Result<(), AllocError>
        ensures exact { IsStarted self.old specifier.now result self.new }
        ensures started { HasStarted (text_of specifier.now) (data_of self.old) (data_of self.new) result }
    {
        self.requests.ask(specifier)?;
        self.order = self.order.and(&true, &());
        self.asked = self.asked.and(specifier, &());
        Ok(())
    }

    fn poll(&mut self) -> Result<LoaderPoll, AllocError>
        ensures exact { IsPolled self.old result self.new }
        ensures polled { HasPolled (data_of self.old) (data_of self.new) result }
    {
        let (answered, after) = turn(self.arrival.as_slice(), self.next, &self.requests);
        let Some(url) = answered else {
            self.stood_asked = self.asked.again();
            self.stood_log = self.log.again();
            self.next = after;
            self.pending = self.pending.saturating_add(1);
            return Ok(LoaderPoll::Pending);
        };
        let url = url.clone()?;
        let answer = answer_for(&self.firsts, &url)?;
        self.order = self.order.and(&false, &());
        self.log = self.log.and(&url, &answer);
        settle(&mut self.requests, self.arrival.allocator(), &url);
        self.next = after;
        Ok(LoaderPoll::Answer(url, answer))
    }
}

// The first module with each specifier, and all of them.
fn firsts_of(
    alloc: Global,
    modules: Items<(Url, LoadAnswer)>,
) -> Result<(Numbered<LoadAnswer>, GhostLog<Url, LoadAnswer>), AllocError>
    ensures { IfOk result (λ m. HasFirsts m.1.items m.0 × (m.1.items ≡ modules)) }
{
    let mut firsts = Numbered::new(alloc);
    let mut given = GhostLog::new();
    for (url, answer) in modules.into_vec() {
        given = given.and(&url, &answer);
        add_first(&mut firsts, url, answer)?;
    }
    Ok((firsts, given))
}

// Adds the module, unless there is one with its specifier.
fn add_first(
    firsts: &mut Numbered<LoadAnswer>,
    url: Url,
    answer: LoadAnswer,
) -> Result<(), AllocError>
    ensures { OnOk result (GainsFirst firsts.old firsts.new url answer) }
{
    match number(firsts, &url) {
        Some(_number) => Ok(()),
        None => {
            add(firsts, url, answer)?;
            Ok(())
        }
    }
}

// The modules, as contracts see them.
fn all_of(modules: &Numbered<LoadAnswer>) -> GhostLog<Url, LoadAnswer>
    ensures { result.items ≡ modules.now }
{
    let mut all = GhostLog::new();
    for number in 0..modules.len() {
        let Some(url) = modules.numbered(number) else {
            unreachable!()
        };
        let Some(answer) = modules.value(number) else {
            unreachable!()
        };
        all = all.and(url, answer);
    }
    all
}

// A loader that was asked nothing.
fn started(
    alloc: Global,
    firsts: Numbered<LoadAnswer>,
    given: GhostLog<Url, LoadAnswer>,
    arrival: Items<Arrival>,
) -> UnloggedLoader
    requires { HasFirsts given.items firsts }
    ensures { result ≡ new_memory given.items arrival }
{
    UnloggedLoader {
        firsts,
        given,
        arrival,
        next: 0,
        requests: Requests::new(alloc),
        order: GhostLog::new(),
        asked: GhostLog::new(),
        log: GhostLog::new(),
        pending: 0,
        stood_asked: GhostLog::new(),
        stood_log: GhostLog::new(),
    }
}

// A copy of the module's answer.
fn answer_for(firsts: &Numbered<LoadAnswer>, url: &Url) -> Result<LoadAnswer, AllocError>
    ensures { IfOk result (λ answer. answer ≡ module_answer firsts.now (text_of url.now)) }
{
    match find(firsts, url) {
        Some(answer) => answer.copy(),
        None => Ok(LoadAnswer::Absent),
    }
}

// The specifier that is answered next, and how many arrival items are used up then.
fn turn<'a>(arrival: &'a [Arrival], from: usize, requests: &'a Requests) -> (Option<&'a Url>, usize)
    ensures answered { option_copied result.0 ≡ (next_answered requests.now.waiting (drop from arrival.now)).0 }
    ensures rest { drop result.1 arrival.now ≡ (next_answered requests.now.waiting (drop from arrival.now)).1 }
{
    let at = undropped(arrival, from, requests);
    if at < arrival.len() {
        return (named(&arrival[at]), at + 1);
    }
    (requests.oldest(), at)
}

// The place of the first arrival item from `from` on that isn't dropped, or the list's end.
fn undropped(arrival: &[Arrival], from: usize, requests: &Requests) -> usize
    ensures same { next_answered requests.now.waiting (drop from arrival.now)
        ≡ next_answered requests.now.waiting (drop result arrival.now) }
    ensures takes { IsTaken requests.now.waiting (drop result arrival.now) }
{
    let mut at = from;
    while at < arrival.len() {
        if !is_dropped(&arrival[at], requests) {
            return at;
        }
        at += 1;
    }
    at
}

#[tactic(auto, unfolding(graph_entry::specs::Specifier::text_of))]
fn is_dropped(item: &Arrival, requests: &Requests) -> bool
    ensures { result ≡ is_dropped requests.now.waiting item.now }
{
    match item {
        Arrival::Answer(url) => !requests.waits_for(url),
        Arrival::Pending | Arrival::Force(_) => false,
    }
}

fn named(item: &Arrival) -> Option<&Url>
    ensures { option_copied result ≡ named item.now }
{
    match item {
        Arrival::Answer(url) | Arrival::Force(url) => Some(url),
        Arrival::Pending => None,
    }
}

// Takes the oldest request for the specifier away, if there is one.
#[tactic(auto, unfolding(graph_entry::specs::Specifier::text_of))]
fn settle(requests: &mut Requests, alloc: Global, url: &Url)
    ensures { requests.new.waiting ≡ settled requests.old.waiting url.now }
{
    requests.settle(url);
    forget_settled(requests, alloc);
}

// Forgets the requests once they are many and none is outstanding.
#[tactic(auto, using(crate::proofs::MemoryLemmas::none_waiting))]
fn forget_settled(requests: &mut Requests, alloc: Global)
    ensures { requests.new.waiting ≡ requests.old.waiting }
{
    if requests.all().len() < KEPT_REQUESTS || requests.oldest().is_some() {
        return;
    }
    *requests = Requests::new(alloc);
}
