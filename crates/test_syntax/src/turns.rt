//! Turns of a list.

use es_syntax::Siblings;

/// How many turns there are.
pub fn count_of(turns: Siblings<'_>) -> usize {
    let mut rest = turns;
    let mut count: usize = 0;
    while let Some((_, others)) = rest.split() {
        count = count.saturating_add(1);
        rest = others;
    }
    count
}
