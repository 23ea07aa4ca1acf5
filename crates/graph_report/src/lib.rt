//! What is reported of a graph, as lines of text.
//!
//! - `report`: its entries and edges (`report_of`, `specs/Report.antt`).
//! - `summary`: how many entries, edges and faults it has (`summary_of`, `specs/Summary.antt`).
//! - `order_lines`: the order of its modules, or a cycle of them (`IsOrderText`, `specs/Orders.antt`).
//! - `add_quoted`: a text as a JSON string, after another text.
//! - `edges`, `kind_name`, `add_state`, `add_edge_words`, `add_number`: an entry's edges, and the words of its lines, for other
//!   reports.
//!
//! Running out of memory is the one answer without a cause.
#![tactic(auto)]

mod counts;
mod orders;
mod quoted;
mod reports;

pub use counts::summary;
pub use orders::order_lines;
pub use quoted::add_quoted;
pub use reports::{add_edge_words, add_number, add_state, edges, kind_name, report};
