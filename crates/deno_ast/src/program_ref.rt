//! A program that is lent, and its items.
ghost use Rattle.std.specs.Prelude.{◌≡◌, None, Some, IfOk, MatchOption};
ghost use Rattle.std.specs.Option.{option_map};
ghost use Rattle.std.specs.List.{slice_get};
ghost use Rattle.es_lexer.specs.Reads.{ReadsTokens};
ghost use Rattle.es_program.specs.Typed.{program_at};
ghost use Rattle.es_program.specs.Owned.{of_module, of_script};
ghost use Rattle.es_program.specs.items.Lent.{lent_item, items_left};
ghost use Rattle.deno_ast.specs.Refs as spec;
ghost use Rattle.deno_ast.specs.Refs.{tree_of, IsModule, IsScript};

use base::Range;
use es_program::items::{Body, ModuleItemRef, first_item, module_body, script_body, tells_script};
use es_program::{Form, Module, Program, Script};
use es_syntax::Siblings;
use es_token::Token;
use std::alloc::AllocError;
use std::fmt;

/// A program that is lent.
#[derive(Clone, Copy)]
pub enum ProgramRef<'a> {
    Module(&'a Module),
    Script(&'a Script),
}

impl<'a> ProgramRef<'a> {
    pub fn of(program: &'a Program) -> ProgramRef<'a>
        ensures { tree_of result ≡ program.now }
    {
        match program.form() {
            Form::Module(module) => ProgramRef::Module(module),
            Form::Script(script) => ProgramRef::Script(script),
        }
    }

    /// Whether the program is a script, or a module whose first item that decides is `import a = ..` or `export = a`.
    /// Any other import or export means that it is none; `export as namespace a` decides nothing.
    pub fn compute_is_script(self) -> bool
        ensures { result ≡ spec.is_script_by_items (tree_of self.entry).typed }
    {
        match self {
            ProgramRef::Module(module) => tells_script(&module_body(module)),
            ProgramRef::Script(_) => true,
        }
    }

    pub fn unwrap_module(self) -> &'a Module
        requires { IsModule (tree_of self).typed }
        ensures { of_module result.now ≡ tree_of self.entry }
    {
        match self {
            ProgramRef::Module(module) => module,
            ProgramRef::Script(_) => unreachable!(),
        }
    }

    pub fn unwrap_script(self) -> &'a Script
        requires { IsScript (tree_of self).typed }
        ensures { of_script result.now ≡ tree_of self.entry }
    {
        match self {
            ProgramRef::Module(_) => unreachable!(),
            ProgramRef::Script(script) => script,
        }
    }

    /// The text after `#!`.
    pub fn shebang(self) -> Option<&'a str>
        ensures { MatchOption result (spec.shebang_of (tree_of self.entry).typed ≡ None)
            (λ text. spec.shebang_of (tree_of self.entry).typed ≡ Some text.now) }
    {
        match self {
            ProgramRef::Module(module) => module.shebang(),
            ProgramRef::Script(script) => script.shebang(),
        }
    }

    /// The first item, where there is one.
    pub fn first_item(self) -> Option<ModuleItemRef<'a>>
        ensures { option_map lent_item result ≡ slice_get (spec.items_of (tree_of self.entry).typed) 0 }
    {
        match first_item(&self.body()) {
            Some((item, _)) => Some(item),
            None => None,
        }
    }

    /// Its text, its tokens and its row of entries.
    pub fn parts(self) -> (&'a str, &'a [Token], Siblings<'a>)
        ensures reads { ReadsTokens result.0.now result.1.now }
        ensures text { result.0.now ≡ (tree_of self.entry).text }
        ensures tokens { result.1.now ≡ (tree_of self.entry).tokens }
        ensures entries { result.2.entries.now ≡ (tree_of self.entry).entries }
        ensures typed { program_at result.0.now result.1.now result.2.entries.now ≡ Some (tree_of self.entry).typed }
    {
        match self {
            ProgramRef::Module(module) => module.parts(),
            ProgramRef::Script(script) => script.parts(),
        }
    }

    /// The items, one by one.
    pub fn body(self) -> Body<'a>
        ensures { items_left result ≡ spec.items_of (tree_of self.entry).typed }
    {
        match self {
            ProgramRef::Module(module) => module_body(module),
            ProgramRef::Script(script) => script_body(script),
        }
    }

    /// The same program: what is owned is shared with it.
    pub fn to_owned(self) -> Result<Program, AllocError>
        ensures { IfOk result (λ program. program ≡ tree_of self.entry) }
    {
        match self {
            ProgramRef::Module(module) => Ok(Program::from_form(Form::Module(module.copy()?))),
            ProgramRef::Script(script) => Ok(Program::from_form(Form::Script(script.copy()?))),
        }
    }

    pub fn span(self) -> Range
        ensures { result ≡ spec.span_of (tree_of self.entry).typed }
    {
        match self {
            ProgramRef::Module(module) => module.span(),
            ProgramRef::Script(script) => script.span(),
        }
    }
}

impl<'a> From<&'a Program> for ProgramRef<'a> {
    ghost from_gives = { λ program r. tree_of r ≡ program.now };

    fn from(program: &'a Program) -> ProgramRef<'a> {
        ProgramRef::of(program)
    }
}

impl fmt::Debug for ProgramRef<'_> {
    fn fmt<W: fmt::Write>(&self, f: &mut fmt::Formatter<W>) -> fmt::Result {
        f.write_str(match self {
            ProgramRef::Module(_) => "Module",
            ProgramRef::Script(_) => "Script",
        })
    }
}
