//! Which forms are chosen.

ghost use Rattle.std.specs.Prelude.{◌≡◌};
ghost use Rattle.es_forms.specs.Chosen.{is_any};

/// The forms of naming another module that are chosen, beside those that every program has.
#[derive(Clone, Copy, Debug, PartialEq, Eq)]
pub struct Forms {
    /// `require("a")` and `require.resolve("a")`.
    pub commonjs: bool,
    /// The type `import("a")`.
    pub type_imports: bool,
    /// `new Worker(new URL("a", import.meta.url))`.
    pub workers: bool,
    /// `new URL("a", import.meta.url)` and `import.meta.resolve("a")`.
    pub addresses: bool,
}

impl Forms {
    /// Whether one of them is chosen.
    pub fn is_any(self) -> bool
        ensures { result ≡ is_any self }
    {
        self.commonjs || self.type_imports || self.workers || self.addresses
    }
}
