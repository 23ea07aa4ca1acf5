//! How the type of an expression is asked for.

/// How the type of an expression is asked for.
#[derive(Clone, Copy)]
pub struct Ask {
    /// Literals have their own types.
    pub literal: bool,
    /// Arrays and properties are `readonly`.
    pub readonly: bool,
    /// The value is frozen by `Object.freeze`: the type that is asked for is that of the frozen value.
    pub frozen: bool,
}
