//! Whether two answers of a loader are the same.
ghost use Rattle.std.specs.Prelude.{◌≡◌, ◌↔◌, IsTrue};

use crate::same_url::are_same_urls;
use graph_entry::{Headers, LoadAnswer};

/// Whether two answers are the same.
pub fn is_same(answer: &LoadAnswer, other: &LoadAnswer) -> bool
    ensures { IsTrue result ↔ (answer.now ≡ other.now) }
{
    match (answer, other) {
        (
            LoadAnswer::Content { headers, bytes },
            LoadAnswer::Content {
                headers: other_headers,
                bytes: other_bytes,
            },
        ) => {
            are_same_headers(headers, other_headers) && bytes.as_slice() == other_bytes.as_slice()
        }
        (LoadAnswer::Redirect(target), LoadAnswer::Redirect(other)) => are_same_urls(target, other),
        (LoadAnswer::External, LoadAnswer::External)
        | (LoadAnswer::Absent, LoadAnswer::Absent)
        | (LoadAnswer::Failed, LoadAnswer::Failed) => true,
        (
            LoadAnswer::Content { .. }
            | LoadAnswer::Redirect(_)
            | LoadAnswer::External
            | LoadAnswer::Absent
            | LoadAnswer::Failed,
            _,
        ) => false,
    }
}

fn are_same_headers(headers: &Headers, other: &Headers) -> bool
    ensures { IsTrue result ↔ (headers.now ≡ other.now) }
{
    headers.as_map() == other.as_map()
}
