//! The analysis of a program.

ghost use Rattle.std.specs.Prelude.{◌≡◌, IfOk};
ghost use Rattle.es_exports.specs.Exports.{exports_of, reexports_of};

use crate::exports::module_exports;
use crate::reexports::module_reexports;
use base::{Items, Text};
use es_program::{Form, Program};
use std::alloc::{AllocError, Global};

/// What a module exports: names in the order of its items, as they are spelled or as their strings say.
#[derive(Debug, PartialEq, Eq, Drop)]
pub struct ModuleExportsAndReExports {
    pub exports: Items<Text>,
    /// The specifiers of the modules whose names are exported again by `export *`.
    pub reexports: Items<Text>,
}

impl ModuleExportsAndReExports {
    /// A copy of both lists.
    pub fn copy(&self) -> Result<ModuleExportsAndReExports, AllocError>
        ensures { IfOk result (λ copy. copy ≡ self.now) }
    {
        Ok(ModuleExportsAndReExports {
            exports: copy_names(self.exports.allocator(), self.exports.as_slice())?,
            reexports: copy_names(self.reexports.allocator(), self.reexports.as_slice())?,
        })
    }
}

fn copy_names(alloc: Global, names: &[Text]) -> Result<Items<Text>, AllocError>
    ensures { IfOk result (λ copy. copy ≡ names.now) }
{
    let mut copy = Items::new(alloc);
    for name in names {
        copy.push(name.copy()?)?;
    }
    Ok(copy)
}

/// The names that a program exports at run time; a script has none.
#[tactic(auto, unfolding(crate::specs::Exports::exports_of, crate::specs::Exports::reexports_of))]
pub fn analyze_es_runtime_exports(
    alloc: Global,
    program: &Program,
) -> Result<ModuleExportsAndReExports, AllocError>
    ensures exports { IfOk result (λ it. it.exports ≡ exports_of program.now.typed) }
    ensures reexports { IfOk result (λ it. it.reexports ≡ reexports_of program.now.typed) }
{
    match program.form() {
        Form::Module(module) => Ok(ModuleExportsAndReExports {
            exports: module_exports(alloc, module)?,
            reexports: module_reexports(alloc, module)?,
        }),
        Form::Script(_) => Ok(ModuleExportsAndReExports {
            exports: Items::new(alloc),
            reexports: Items::new(alloc),
        }),
    }
}
