ghost use Rattle.std.specs.Prelude.{◌≡◌, IfOk};

use base::Text;
use std::alloc::AllocError;

/// The registry that a package is of.
#[derive(Clone, Copy, Debug, PartialEq, Eq, PartialOrd, Ord, Hash)]
pub enum PackageKind {
    Npm,
    Jsr,
}

/// A package of a registry, as a URL names it.
#[derive(Debug, Drop, PartialEq, Eq, PartialOrd, Ord, Hash)]
pub struct PackageRef {
    pub kind: PackageKind,
    /// `chalk` or, with its scope, `@std/path`.
    pub name: Text,
    /// What follows the name's `@`, such as `^1.2`. It isn't read as a version.
    pub requirement: Option<Text>,
    /// What follows the `/`, if it isn't empty.
    pub sub_path: Option<Text>,
}

impl PackageRef {
    pub fn copy(&self) -> Result<PackageRef, AllocError>
        ensures { IfOk result (λ r. r ≡ self.now) }
    {
        Ok(PackageRef {
            kind: self.kind,
            name: self.name.copy()?,
            requirement: copy_option(&self.requirement)?,
            sub_path: copy_option(&self.sub_path)?,
        })
    }
}

fn copy_option(text: &Option<Text>) -> Result<Option<Text>, AllocError>
    ensures { IfOk result (λ t. t ≡ text.now) }
{
    match text {
        Some(text) => Ok(Some(text.copy()?)),
        None => Ok(None),
    }
}
