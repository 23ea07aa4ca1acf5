//! What each call answers, as a text.

use crate::failures::of_failure;
use crate::packages::package;
use crate::parsers::{alternative, condition, front, pair_of, part};
use crate::repetitions::{counted, folded, listed};
use crate::shown::shown;
use monch_examples::read_record;
use std::alloc::{AllocError, Global};
use test_rows::Row;

/// What the call of a row answers: of a parser what is left and the value, or why there is none.
pub fn answer(alloc: Global, row: &Row) -> Result<String, AllocError> {
    let (name, text) = (row.at(1), row.at(2));
    match row.call() {
        "part" => part(alloc, name, text),
        "front" => front(alloc, name, text),
        "pair" => pair_of(alloc, name, text),
        "condition" => condition(alloc, name, text),
        "alternative" => alternative(alloc, name, text),
        "list" => listed(alloc, name, text),
        "count" => counted(alloc, name, text),
        "fold" => folded(alloc, name, text),
        "failure" => of_failure(alloc, name, text),
        "record" => shown(alloc, read_record(alloc, name)),
        "package" => package(alloc, name),
        _ => String::from_str(alloc, "no such call"),
    }
}
