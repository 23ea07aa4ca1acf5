//! Which fronts of a text a search may pass over: between a front and the key before it in the table no key is a front.
ghost use Rattle.std.specs.Prelude.{◌≤◌, length};
ghost use Rattle.import_map.specs.Order.{IsInOrder};
ghost use Rattle.import_map.specs.Fronts.{AreFrontsWithin, IsCut, IsCommon};

use crate::table::compare;
use base::Text;
use std::cmp::Ordering;

/// How many bytes the keys have at most that are fronts of a text, of those that have no more than `end`.
pub fn longest_front<V>(table: &[(Text, V)], text: &[u8], end: usize) -> usize
    requires in_order { IsInOrder table.now }
    requires within { end ≤ length text.now }
    ensures within { result ≤ end }
    ensures fronts { AreFrontsWithin text.now end result table.now }
{
    let front = &text[..end];
    let count = upto(table, front);
    if count == 0 {
        return 0;
    }
    common(table[count - 1].0.as_str().as_bytes(), front)
}

// How many keys aren't greater.
fn upto<V>(table: &[(Text, V)], sought: &[u8]) -> usize
    requires { IsInOrder table.now }
    ensures { IsCut table.now sought.now result result }
{
    let mut low = 0;
    let mut high = table.len();
    while low < high {
        let middle = low + (high - low) / 2;
        match compare(&table[middle].0, sought) {
            Ordering::Greater => high = middle,
            Ordering::Less => low = middle + 1,
            Ordering::Equal => low = middle + 1,
        }
    }
    low
}

// How many bytes at their fronts are the same.
fn common(one: &[u8], other: &[u8]) -> usize
    ensures within { result ≤ length other.now }
    ensures common { IsCommon one.now other.now result }
{
    let end = one.len().min(other.len());
    let mut at = 0;
    while at < end {
        if one[at] != other[at] {
            return at;
        }
        at += 1;
    }
    end
}
