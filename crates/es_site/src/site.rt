ghost use Rattle.std.specs.Prelude.{◌≡◌, IfOk};

use base::{Range, Text};
use std::alloc::AllocError;

/// How a module is named by another.
#[derive(Clone, Copy, Debug, PartialEq, Eq, PartialOrd, Ord, Hash)]
pub enum DependencyKind {
    /// `import .. from "a"`, or `import "a"`.
    Import,
    /// `import source a from "a"`.
    ImportSource,
    /// `import defer * as a from "a"`.
    ImportDefer,
    /// `export .. from "a"`.
    Export,
    /// `import a = require("a")`.
    ImportEquals,
    /// `import("a")`.
    Dynamic,
    /// `import.source("a")`.
    DynamicSource,
    /// `import.defer("a")`.
    DynamicDefer,
    /// `/// <reference path="a" />`.
    ReferencePath,
    /// `/// <reference types="a" />`.
    ReferenceTypes,
    /// An import of a WebAssembly module.
    Wasm,
    /// An import that the caller gave for the referrer, which is in no text.
    Referrer,
    /// `require("a")`, where such calls are asked for.
    Require,
    /// `require.resolve("a")`, where such calls are asked for.
    RequireResolve,
    /// The type `import("a")`, where such types are asked for.
    TypeImport,
    /// `new Worker(new URL("a", import.meta.url))`, where workers are asked for.
    Worker,
    /// `new URL("a", import.meta.url)` or `import.meta.resolve("a")`, where addresses are asked for.
    Address,
}

/// The `type` among the import attributes of a site (ECMA-262, "WithClause").
#[derive(Debug, PartialEq, Eq, Drop)]
pub enum Attribute {
    /// None is written.
    Absent,
    /// The text of the last one that is written.
    Named(Text),
    /// What is written doesn't tell.
    Unknown,
}

impl Attribute {
    pub fn copy(&self) -> Result<Attribute, AllocError>
        ensures { IfOk result (λ a. a ≡ self.now) }
    {
        match self {
            Attribute::Absent => Ok(Attribute::Absent),
            Attribute::Named(text) => Ok(Attribute::Named(text.copy()?)),
            Attribute::Unknown => Ok(Attribute::Unknown),
        }
    }
}

/// A place where a program names another module.
#[derive(Debug, PartialEq, Eq, Drop)]
pub struct Site {
    pub kind: DependencyKind,
    /// Whether `type`, as a modifier, follows `import` or `export`, so that nothing is loaded when the program runs.
    pub type_only: bool,
    /// The string literal in the text, with its quotes.
    pub range: Range,
    /// The literal's value.
    pub value: Text,
    pub attribute: Attribute,
}
