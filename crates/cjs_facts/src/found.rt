//! What is found by now.

ghost use Rattle.std.specs.Prelude.{◌≡◌, [], OnOk, IfOk};
ghost use Rattle.cjs_facts.specs.Exports.{with_var, with_export, with_reexport, with_unsafe, with_one_reexport};

use base::{Items, Text};
use std::alloc::{AllocError, Global};

/// A name that is bound to what a module exports: `var a = require("b")`.
#[derive(Debug, Drop)]
pub struct Var {
    pub name: Text,
    pub module_name: Text,
}

/// Names in the order in which they are found, and more than once.
#[derive(Debug, Drop)]
pub struct Found {
    pub vars: Items<Var>,
    pub exports: Items<Text>,
    pub reexports: Items<Text>,
    /// Names of getters that may do something.
    pub unsafe_getters: Items<Text>,
}

impl Found {
    /// Nothing yet.
    pub fn new(alloc: Global) -> Found
        ensures vars { result.vars ≡ [] }
        ensures exports { result.exports ≡ [] }
        ensures reexports { result.reexports ≡ [] }
        ensures unsafe_getters { result.unsafe_getters ≡ [] }
    {
        Found {
            vars: Items::new(alloc),
            exports: Items::new(alloc),
            reexports: Items::new(alloc),
            unsafe_getters: Items::new(alloc),
        }
    }

    /// Where names take their memory from. There is only one such allocator.
    pub fn allocator(&self) -> Global
        ensures { (any : Global) → result ≡ any }
    {
        self.exports.allocator()
    }

    pub fn add_var(&mut self, name: Text, module_name: Text) -> Result<(), AllocError>
        ensures { OnOk result (self.new ≡ with_var name module_name self.old) }
    {
        self.vars.push(Var { name, module_name })
    }

    pub fn add_export(&mut self, name: Text) -> Result<(), AllocError>
        ensures { OnOk result (self.new ≡ with_export name self.old) }
    {
        self.exports.push(name)
    }

    pub fn add_reexport(&mut self, name: Text) -> Result<(), AllocError>
        ensures { OnOk result (self.new ≡ with_reexport name self.old) }
    {
        self.reexports.push(name)
    }

    pub fn add_unsafe_getter(&mut self, name: Text) -> Result<(), AllocError>
        ensures { OnOk result (self.new ≡ with_unsafe name self.old) }
    {
        self.unsafe_getters.push(name)
    }

    /// Puts this in the place of all that was exported again.
    pub fn set_reexport(&mut self, name: Text) -> Result<(), AllocError>
        ensures { OnOk result (self.new ≡ with_one_reexport name self.old) }
    {
        self.reexports = Items::new(self.exports.allocator());
        self.reexports.push(name)
    }
}
