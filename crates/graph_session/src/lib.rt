//! The builder of a graph whose loads are done by somebody else: it says what it wants, and takes the answers as they come.
//!
//! - `AskedLoader`: a loader that keeps what it is asked for until it is answered (`Asking`, `specs/Asking.antt`).
//! - `Session::new`: a builder of roots, options and an import map, over such a loader, with nothing asked yet.
//! - `Session::{poll, wanted, answer}`: asks and builds; what has no answer yet; and an answer (`specs/Session.antt`).
//! - `lay_entry`: an entry of the graph, as records and texts (`specs/Records.antt`).
//! - `new_by_settings`, `poll_call`, `wanted_call`, `answer_call`, `entry_call`, `place_call`: the same by numbers and
//!   buffers, as a library for C has them (`specs/Calls.antt`).
//!
//! Running out of memory is the one answer without a cause.
#![tactic(auto)]

mod calls;
mod loader;
mod records;
mod resolver;
mod session;

pub use calls::{
    PlaceRecord, Wanted, answer_call, entry_call, new_by_settings, no_entry, place_call, poll_call,
    wanted_call,
};
pub use loader::{AskedLoader, Given};
pub use records::{EdgeRecord, EntryRecord, LaidEntry, lay_entry};
pub use resolver::MapResolver;
pub use session::{AskedBuild, Session};
