//! The parts of a text between separators.
ghost use Rattle.std.specs.Prelude.{◌≡◌, ◌<◌, IfOk};
ghost use Rattle.lexical_path.specs.Paths.{texts};
ghost use Rattle.lexical_path.specs.Paths as spec;

use std::alloc::{AllocError, Global};

/// The parts of the text between its separators, each an ASCII character.
pub fn parts(alloc: Global, text: &str, separator: char) -> Result<Vec<&str>, AllocError>
    requires { separator < 128 }
    ensures { IfOk result (λ v. texts v.items ≡ spec.parts_at separator text.now) }
{
    text.split(separator).collect(alloc)
}

/// Whether a part between slashes is `.` or `..`.
pub fn has_dots(path: &str) -> bool
    ensures { result ≡ spec.has_dots path.now }
{
    path.split('/').any(|part| part == "." || part == "..")
}
