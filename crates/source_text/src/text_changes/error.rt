ghost use Rattle.std.specs.Prelude.{◌≡◌};
ghost use Rattle.source_text.specs.declared.text_changes.error.TextChangeError.TheVariants.{OutOfMemory};

use std::alloc::AllocError;
use thiserror::Error;

/// Why changes can't be applied. A number counts the changes from 0, in the order in which they are applied.
#[derive(Clone, Copy, Debug, PartialEq, Eq, PartialOrd, Ord, Hash, Error)]
pub enum TextChangeError {
    /// This change ends before it starts.
    #[error("Reversed")]
    Reversed(usize),
    /// This change starts before the end of the one before it.
    #[error("Overlapping")]
    Overlapping(usize),
    /// This change starts or ends inside a character.
    #[error("MidCharacter")]
    MidCharacter(usize),
    #[error("out of memory")]
    OutOfMemory,
}

impl From<AllocError> for TextChangeError {
    ghost from_gives = { λ _ e. e ≡ OutOfMemory };

    fn from(_e: AllocError) -> TextChangeError {
        TextChangeError::OutOfMemory
    }
}
