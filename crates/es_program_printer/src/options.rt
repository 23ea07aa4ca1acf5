//! How a program is printed, and what comes of it.
ghost use Rattle.std.specs.Prelude.{◌≡◌, IfOk};

use base::Text;
use std::alloc::AllocError;

/// Which source map is made: none.
#[derive(Clone, Copy, Debug, Default, PartialEq, Eq, Hash)]
pub enum SourceMapOption {
    #[default]
    None,
}

/// How a program is printed. By default comments are kept.
#[derive(Clone, Copy, Debug, Default, PartialEq, Eq, Hash)]
pub struct EmitOptions {
    pub source_map: SourceMapOption,
    /// Whether the comments before the items are left out.
    pub remove_comments: bool,
}

/// A printed program.
#[derive(Debug, Drop, PartialEq, Eq, PartialOrd, Ord, Hash)]
pub struct EmittedSourceText {
    pub text: Text,
    /// Always none.
    pub source_map: Option<Text>,
}

impl EmittedSourceText {
    pub fn copy(&self) -> Result<EmittedSourceText, AllocError>
        ensures { IfOk result (λ copy. copy ≡ self.now) }
    {
        Ok(EmittedSourceText {
            text: self.text.copy()?,
            source_map: copy_map(&self.source_map)?,
        })
    }
}

fn copy_map(map: &Option<Text>) -> Result<Option<Text>, AllocError>
    ensures { IfOk result (λ copy. copy ≡ map.now) }
{
    match map {
        Some(map) => Ok(Some(map.copy()?)),
        None => Ok(None),
    }
}
