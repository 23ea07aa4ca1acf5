//! Values by specifiers, which are numbered in the order in which they came.
ghost use Rattle.std.specs.Prelude.{◌≡◌, ◌<◌, ◌^◌, None, Some, [], ◌∷◌, ◌++◌, length, map, cond, bytes_eq, slice_get, option_map, IfSome, IfOk, OnOk, OnErr};
ghost use Rattle.std.specs.Option.{option_copied};
ghost use Rattle.std.specs.List.{zip};
ghost use Rattle.url.specs.Parts.{serialize};
ghost use Rattle.graph_tables.specs.specifier_table.Numbers.{Specifier, specifiers, number_of, value_at, with_value, IsNumbering, IsByBytes};

use crate::specifier_table::order::numbers_by_bytes;
use base::Items;
use indexmap::IndexSet;
use std::alloc::{AllocError, Global};
use std::marker::Model;
use url::Url;

/// Values by specifiers. A specifier's number is its place among those that came.
#[derive(Drop)]
pub struct Numbered<V: Drop> {
    numbers: IndexSet<Url>,
    values: Items<V>,
}

impl<V: Drop> Model for Numbered<V> {
    ghost use Rattle.std.specs.Prelude.{◌≡◌, length, List};
    ghost use Rattle.std.specs.List.{zip};
    ghost use Rattle.url.specs.Parts.{Parts};
    ghost use Rattle.graph_tables.specs.specifier_table.Numbers.{IsNumbering};

    ghost Value = { List (Parts × V) };

    ghost view = { λ m. zip m.numbers.keys m.values };

    ghost invariant = { λ m. (length m.numbers.keys ≡ length m.values) × IsNumbering (zip m.numbers.keys m.values) };
}

impl<V: Drop> Numbered<V> {
    /// Nothing has a number.
    pub fn new(alloc: Global) -> Numbered<V>
        ensures { result ≡ [] }
    {
        Numbered {
            numbers: IndexSet::new(alloc),
            values: Items::new(alloc),
        }
    }

    /// How many specifiers have a number: the numbers are those below it.
    pub fn len(&self) -> usize
        ensures len { result ≡ length self.now }
        ensures small { result < 2 ^ 63 }
        ensures once { IsNumbering self.now }
    {
        self.numbers.len()
    }

    /// The number of a specifier.
    pub fn number(&self, specifier: &Url) -> Option<usize>
        ensures value { result ≡ number_of self.now (serialize specifier.now) }
        ensures within { IfSome result (λ n. n < length self.now) }
    {
        self.numbers.get_index_of(specifier)
    }

    /// The specifier with this number.
    pub fn numbered(&self, number: usize) -> Option<&Url>
        ensures { option_copied result ≡ option_map (λ e. e.0) (slice_get self.now number) }
    {
        self.numbers.get_index(number)
    }

    /// The value of the specifier with this number.
    pub fn value(&self, number: usize) -> Option<&V>
        ensures { option_copied result ≡ option_map (λ e. e.1) (slice_get self.now number) }
    {
        self.values.get(number)
    }

    /// Gives the next number to a specifier that has none. Where memory runs out nothing changes.
    pub fn push(&mut self, specifier: Url, value: V) -> Result<(), AllocError>
        requires new { number_of self.old (serialize specifier) ≡ None }
        ensures ok { OnOk result (self.new ≡ self.old ++ (specifier, value) ∷ []) }
        ensures err { OnErr result (self.new ≡ self.old) }
    {
        self.values.push(value)?;
        match self.numbers.insert(specifier) {
            Ok(_) => return Ok(()),
            Err(_) => {
                drop(self.values.pop());
                return Err(AllocError);
            }
        }
    }

    /// Replaces the value of the specifier with this number.
    pub fn set(&mut self, number: usize, value: V)
        requires { number < length self.old }
        ensures with { self.new ≡ with_value self.old number value }
        // It has the value, and the others theirs.
        ensures at { (s t : Specifier) → slice_get (specifiers self.old) number ≡ Some s
            → value_at self.new t ≡ cond (bytes_eq t s) (Some value) (value_at self.old t) }
    {
        self.values.set(number, value);
    }

    /// The values, by their numbers.
    pub fn values(&self) -> &[V]
        ensures { result.now ≡ map (λ e. e.1) self.now }
    {
        self.values.as_slice()
    }

    /// The numbers in the order of their specifiers' bytes.
    pub fn by_bytes(&self, alloc: Global) -> Result<Items<usize>, AllocError>
        ensures { IfOk result (λ order. IsByBytes self.now order) }
    {
        numbers_by_bytes(alloc, self)
    }

    /// The specifiers, by their numbers, and the values.
    pub fn into_parts(self) -> (IndexSet<Url>, Items<V>)
        ensures entries { zip result.0.keys result.1 ≡ self }
        ensures even { length result.0.keys ≡ length result.1 }
    {
        let Numbered { numbers, values } = self;
        (numbers, values)
    }

    /// A value for each of these specifiers.
    pub fn from_parts(numbers: IndexSet<Url>, values: Items<V>) -> Numbered<V>
        requires { length numbers.keys ≡ length values }
        ensures { result ≡ zip numbers.keys values }
    {
        // The proof learns from it that no specifier has two numbers.
        let _count = numbers.len();
        Numbered { numbers, values }
    }
}
