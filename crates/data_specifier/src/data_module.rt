ghost use Rattle.std.specs.Prelude.{◌≡◌, IfOk};

use base::{Items, Text};
use std::alloc::AllocError;

/// What a `data:` URL holds.
#[derive(Debug, Drop)]
pub struct DataModule {
    /// The media type without its parameters, in lower case.
    pub mime: Text,
    /// The bytes, with all escapes read.
    pub body: Items<u8>,
}

impl DataModule {
    pub fn copy(&self) -> Result<DataModule, AllocError>
        ensures { IfOk result (λ m. m ≡ self.now) }
    {
        Ok(DataModule {
            mime: self.mime.copy()?,
            body: self.body.copy()?,
        })
    }
}
