//! Messages that name a path.
ghost use Rattle.std.specs.Prelude.{◌≡◌, ◌++◌, IfOk, string_bytes};
ghost use Rattle.deno_path_util.specs.Steps.{IsNamed};
ghost use Rattle.deno_path_util.specs.Course.{naming};

use base::Text;
use std::alloc::{AllocError, Global};
use sys_traits::{SysError, SysErrorKind};

/// The error, with ` (for 'PATH')` and this end after its message.
pub fn named(alloc: Global, error: SysError, path: &str, end: &str) -> SysError
    ensures { IsNamed (naming path.now ++ end.now) error.kind error.message result.kind result.message }
{
    if error.kind == SysErrorKind::OutOfMemory {
        return error;
    }
    match with_path(alloc, error.message.as_str(), path, end) {
        Ok(message) => SysError {
            kind: error.kind,
            message: Text::from_string(message),
        },
        Err(_) => SysError::out_of_memory(alloc),
    }
}

fn with_path(alloc: Global, message: &str, path: &str, end: &str) -> Result<String, AllocError>
    ensures { IfOk result (λ s. string_bytes s ≡ message.now ++ (naming path.now ++ end.now)) }
{
    let mut text = String::from_str(alloc, message)?;
    text.push_str(" (for '")?;
    text.push_str(path)?;
    text.push_str("')")?;
    text.push_str(end)?;
    Ok(text)
}
