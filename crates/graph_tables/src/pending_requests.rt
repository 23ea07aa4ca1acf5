//! Requests for URLs, and which of them are open.
//!
//! - `Requests`: all requests in the order in which they came. An answer settles the oldest open one for its URL, which is found
//!   without looking through the others (`specs/pending_requests/Requests.antt`).

mod requests;

pub use requests::Requests;
