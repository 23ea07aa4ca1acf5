//! A function for each combinator.

ghost use Rattle.std.specs.Prelude.{◌≡◌};

use crate::repeats::count::{Many0Count, SeparatedCount};
use crate::repeats::fold::{ManyTillFold, SeparatedFold};
use crate::repeats::repeat::{Many0, Many1, ManyTill, SeparatedList};
use std::alloc::Global;
use std::marker::PhantomData;

/// The values of `item`, until `until` is read or no item follows.
pub fn many_till<'a, A, B>(alloc: Global, item: A, until: B) -> ManyTill<'a, A, B>
    ensures item { result.item ≡ item }
    ensures until { result.until ≡ until }
{
    ManyTill {
        alloc,
        item,
        until,
        of: PhantomData,
    }
}

/// The values of `item`, until no item follows.
pub fn many0<'a, A>(alloc: Global, item: A) -> Many0<'a, A>
    ensures { result.item ≡ item }
{
    Many0 {
        alloc,
        item,
        of: PhantomData,
    }
}

/// As `many0`, and a backtrack where there is no value.
pub fn many1<'a, A>(alloc: Global, item: A) -> Many1<'a, A>
    ensures { result.item ≡ item }
{
    Many1 {
        alloc,
        item,
        of: PhantomData,
    }
}

/// The values of `item`, with a `separator` read after each.
pub fn separated_list<'a, A, B>(alloc: Global, item: A, separator: B) -> SeparatedList<'a, A, B>
    ensures item { result.item ≡ item }
    ensures separator { result.separator ≡ separator }
{
    SeparatedList {
        alloc,
        item,
        separator,
        of: PhantomData,
    }
}

/// What `fold` makes of the values of `many_till`, from `init`.
pub fn many_till_fold<A, B, S, F>(item: A, until: B, init: S, fold: F) -> ManyTillFold<A, B, S, F>
    ensures { result ≡ record { item = item; until = until; init = init; fold = fold } }
{
    ManyTillFold {
        item,
        until,
        init,
        fold,
    }
}

/// What `fold` makes of the values of `separated_list`, from `init`.
pub fn separated_fold<A, B, S, F>(
    item: A,
    separator: B,
    init: S,
    fold: F,
) -> SeparatedFold<A, B, S, F>
    ensures { result ≡ record { item = item; separator = separator; init = init; fold = fold } }
{
    SeparatedFold {
        item,
        separator,
        init,
        fold,
    }
}

/// How many values `many0` gives. It allocates nothing of its own.
pub fn many0_count<'a, A>(item: A) -> Many0Count<'a, A>
    ensures { result.item ≡ item }
{
    Many0Count {
        item,
        of: PhantomData,
    }
}

/// How many values `separated_list` gives. It allocates nothing of its own.
pub fn separated_count<'a, A, B>(item: A, separator: B) -> SeparatedCount<'a, A, B>
    ensures item { result.item ≡ item }
    ensures separator { result.separator ≡ separator }
{
    SeparatedCount {
        item,
        separator,
        of: PhantomData,
    }
}
