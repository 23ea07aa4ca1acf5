//! What each call answers, as a text.

use crate::files::files;
use crate::systems::{real_path, turns};
use crate::writes::{law, six_tries, temporary, write};
use base::Text;
use std::alloc::{AllocError, Global};
use sys_traits::{SysError, SysErrorKind};
use test_rows::Row;

/// What the call of a row answers of its texts.
pub fn answer(alloc: Global, row: &Row) -> Result<String, AllocError> {
    match row.call() {
        "turns" => turns(alloc, row.at(1) == "1 and 3 fail", row.at(2)),
        "real" => real_path(alloc, row.at(1), row.number(2) as u64),
        "temporary" => temporary(alloc, row.at(1)),
        "write" => write(alloc, row.at(1), row.number(2) as u64),
        "law" => law(alloc, row.at(1), row.number(2) as u64, row.number(3) as u64),
        "six tries" => six_tries(alloc),
        "files" => files(alloc, row),
        "no memory" => {
            let copy = SysError::out_of_memory(alloc).copy()?;
            format!(in alloc; "{copy}")
        }
        "message" => {
            let error = SysError {
                kind: SysErrorKind::Failed,
                message: Text::from_str(alloc, row.at(1))?,
            };
            format!(in alloc; "{error}")
        }
        _ => String::from_str(alloc, "no such call"),
    }
}
