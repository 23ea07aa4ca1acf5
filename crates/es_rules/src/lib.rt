//! The reader of the grammar's tables: from tokens to a row of entries (`es_syntax`), which is the tree that is kept of a
//! plain tree. One engine serves the table of programs and that of types.
//!
//! - `Rows`: what reads the rows of a table, which are named by a type, `R`; `Grammar`: a text, and the rows.
//! - `ReadsRhs` and `ReadsProduction`: what reads a form, and a rule, of a table. Each way to write one is a struct
//!   (`Punct`, `Opt`, `Many`, .., `Make`, `Choose`, `Wrap`), so that a row of the table is written in the code as it
//!   is there. Each appends what the reader of the table answers (`specs/Bounded.antt`) to what was written before,
//!   and answers the most nodes on a path of it; or that nothing can be read, or that memory ran out.
//! - `ReadsBehind`: what reads turns after an operand that was read already (`Turns`, `Both`), whatever rule read it.
//! - `IsOfKinds`, `Sees`, `Holds`, `Tells`: tests of tokens by a value; each table has its own.
//! - `Input::keeps`: whether entries are kept. Where none are, nothing is written, nothing is allocated, and each error says
//!   that nothing is read: so a predicate finds out how far a part reaches.
//!
//! Not promised: which token `Syntax` names, and when memory runs out.
#![tactic(auto)]

mod behind;
mod cursor;
mod forms;
mod predict;
mod rules;
mod table;
mod wraps;

pub use behind::{Both, ReadsBehind, Turns};
pub use cursor::{Cursor, Input, Place};
pub use es_lookahead::Tokens;
pub use forms::{Alt, Done, Many, OfRow, Opt, Punct, ReadsRhs, Tok, When, Where};
pub use predict::{ByLookahead, ByPredicate, Greedy, Holds, IsOfKinds, LeafKind, Sees, Tells};
pub use rules::{As, Choose, Make, MakeBy, Pick, ReadsProduction, Refuse, Wrap};
pub use table::{Grammar, Rows};
