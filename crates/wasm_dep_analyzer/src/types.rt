ghost use Rattle.std.specs.Prelude.{◌≡◌, IfOk};

use base::Items;
use std::alloc::AllocError;

/// A value type, as far as it is distinguished (WebAssembly Core, "Value Types").
#[derive(Clone, Copy, Debug, PartialEq, Eq)]
pub enum ValueType {
    I32,
    I64,
    F32,
    F64,
    /// Any other byte.
    Unknown,
}

/// How large a table or a memory is at first and at most.
#[derive(Clone, Copy, Debug, PartialEq, Eq)]
pub struct Limits {
    pub initial: u32,
    pub maximum: Option<u32>,
}

/// A table, whose elements are functions.
#[derive(Clone, Copy, Debug, PartialEq, Eq)]
pub struct TableType {
    pub element_type: u8,
    pub limits: Limits,
}

/// A memory, counted in pages.
#[derive(Clone, Copy, Debug, PartialEq, Eq)]
pub struct MemoryType {
    pub limits: Limits,
}

/// A global, and whether it may be written.
#[derive(Clone, Copy, Debug, PartialEq, Eq)]
pub struct GlobalType {
    pub value_type: ValueType,
    pub mutability: bool,
}

/// A tag, whose type is a function type of the module.
#[derive(Clone, Copy, Debug, PartialEq, Eq)]
pub struct TagType {
    pub kind: u8,
    pub type_index: u32,
}

/// What is imported. A function and a tag name their type by its number in the module's types.
#[derive(Clone, Copy, Debug, PartialEq, Eq)]
pub enum ImportType {
    Function(u32),
    Table(TableType),
    Memory(MemoryType),
    Global(GlobalType),
    Tag(TagType),
}

/// The parameters and the results of a function.
#[derive(Debug, Drop, PartialEq, Eq)]
pub struct FunctionSignature {
    pub params: Items<ValueType>,
    pub returns: Items<ValueType>,
}

impl FunctionSignature {
    /// An equal signature in memory of its own.
    pub fn copy(&self) -> Result<FunctionSignature, AllocError>
        ensures { IfOk result (λ signature. signature ≡ self.now) }
    {
        Ok(FunctionSignature {
            params: self.params.copy()?,
            returns: self.returns.copy()?,
        })
    }
}
