//! The scopes that are open.

ghost use Rattle.std.specs.Prelude.{◌≡◌, ◌+◌, [], ◌∷◌, OnOk};
ghost use Rattle.es_scopes.specs.Numbers.{closed, innermost, home_by};

use es_scopes::Place;
use std::alloc::{AllocError, Global};
use std::marker::Model;

/// A scope that is open: its number, whether `var` declares in it, and the nearest scope in which it does.
#[derive(Clone, Copy)]
pub struct OpenScope {
    pub number: u32,
    pub hoists: bool,
    pub nearest: Option<u32>,
}

/// The scopes that are open, and the number of the next one.
#[derive(Drop)]
pub struct Opened {
    stack: Vec<OpenScope>,
    next: u32,
}

impl Model for Opened {
    ghost use Rattle.std.specs.Prelude.{map, reverse};
    ghost use Rattle.es_variables.specs.scope_numbers.Stacks.{Opened, scope_of, AreNearest};

    ghost Value = { Opened };

    ghost view = { λ it. record { around = map scope_of (reverse it.stack.items); next = it.next } };

    ghost invariant = { λ it. AreNearest (reverse it.stack.items) };
}

impl Opened {
    /// None is open; the first has the number 1.
    pub fn new(alloc: Global) -> Opened
        ensures around { result.around ≡ [] }
        ensures next { result.next ≡ 1 }
    {
        Opened {
            stack: Vec::new(alloc),
            next: 1,
        }
    }

    /// The number of the next scope.
    pub fn next(&self) -> u32
        ensures { result ≡ self.now.next }
    {
        self.next
    }

    /// The nearest of the open scopes in which `var` declares.
    #[tactic(auto, using(crate::proofs::scope_numbers_lemmas::OpenedLemmas::hoisting_is, crate::proofs::scope_numbers_lemmas::OpenedLemmas::none_around))]
    fn nearest(&self) -> Option<u32>
        ensures { result ≡ home_by Place.Hoists self.now.around }
    {
        match self.stack.as_slice().split_last() {
            Some((scope, _)) => scope.nearest,
            None => None,
        }
    }

    /// The number of the innermost scope.
    #[tactic(auto, using(crate::proofs::scope_numbers_lemmas::OpenedLemmas::innermost_is, crate::proofs::scope_numbers_lemmas::OpenedLemmas::none_around))]
    pub fn innermost(&self) -> Option<u32>
        ensures { result ≡ innermost self.now.around }
    {
        match self.stack.as_slice().split_last() {
            Some((scope, _)) => Some(scope.number),
            None => None,
        }
    }

    /// One more scope, inside the others.
    #[tactic(auto, using(crate::proofs::scope_numbers_lemmas::OpenedLemmas::opened_more, crate::proofs::scope_numbers_lemmas::OpenedLemmas::nearest_more))]
    pub fn open(&mut self, hoists: bool) -> Result<(), AllocError>
        ensures around { OnOk result (self.new.around ≡ record { number = self.old.next; hoists = hoists } ∷ self.old.around) }
        ensures next { OnOk result (self.new.next ≡ self.old.next + 1) }
    {
        let number = self.next;
        let next = match number.checked_add(1) {
            Some(next) => next,
            None => return Err(AllocError),
        };
        let nearest = if hoists { Some(number) } else { self.nearest() };
        self.stack.push(OpenScope {
            number,
            hoists,
            nearest,
        })?;
        self.next = next;
        Ok(())
    }

    /// The innermost scope ends.
    #[tactic(auto, using(crate::proofs::scope_numbers_lemmas::OpenedLemmas::closed_less, crate::proofs::scope_numbers_lemmas::OpenedLemmas::closed_none, crate::proofs::scope_numbers_lemmas::OpenedLemmas::nearest_less, crate::proofs::scope_numbers_lemmas::OpenedLemmas::nearest_none))]
    pub fn close(&mut self)
        ensures around { self.new.around ≡ closed self.old.around }
        ensures next { self.new.next ≡ self.old.next }
    {
        match self.stack.pop() {
            Some(_) => {}
            None => {}
        }
    }

    /// The scope in which a name is declared that is meant so.
    pub fn home(&self, place: Place) -> Option<u32>
        ensures { result ≡ home_by place self.now.around }
    {
        match place {
            Place::Uses => None,
            Place::Binds => self.innermost(),
            Place::Hoists => self.nearest(),
            Place::Body => None,
        }
    }
}
