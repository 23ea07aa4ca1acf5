//! Programs.
ghost use Rattle.std.specs.Prelude.{◌≡◌, None, Some, not, IfOk, MatchOption};
ghost use Rattle.std.specs.Arc.{arc_value};
ghost use Rattle.es_ast.specs.declared.ast.Program.{Program as Typed};
ghost use Rattle.es_lexer.specs.Reads.{ReadsTokens};
ghost use Rattle.es_site.specs.Sites.{sites_of};
ghost use Rattle.es_program.specs.Typed.{program_at, HoldsSome, tells_module, span_in, shebang_in};
ghost use Rattle.es_program.specs.Sources.{typed_of, Keeps};
ghost use Rattle.es_program.specs.Forms.{program_of};

use crate::form::Form;
use crate::module::Module;
use crate::script::Script;
use crate::source::ProgramSource;
use crate::tokens::SharedTokens;
use base::{Items, Range};
use es_site::Site;
use es_syntax::{Entry, Siblings};
use es_token::Token;
use source_text::SourceText;
use std::alloc::{AllocError, Global};
use std::marker::Model;
use std::sync::Arc;

/// A program: its text, its tokens, its entries, and its sites. Its copies share all of it.
#[derive(Drop)]
pub struct Program {
    form: Form,
}

impl Model for Program {
    ghost use Rattle.std.specs.Coded.{codes};
    ghost use Rattle.es_ast.specs.declared.ast.Program.{Program as Typed};
    ghost use Rattle.es_ast.specs.contracts.ast.ModuleItem as module_item;
    ghost use Rattle.es_ast.specs.contracts.ast.Stmt as stmt;
    ghost use Rattle.es_syntax.specs.contracts.entry.Entry as entry;
    ghost use Rattle.es_program.specs.Owned.{Owned};
    ghost use Rattle.es_program.specs.Forms.{program_of};

    ghost Value = { Owned Typed };

    ghost coded = { Prim.hlevel (codes, module_item.the_row.coded, stmt.the_row.coded, entry.the_row.coded) };

    ghost view = { λ it. program_of it.form };
}

impl Program {
    /// Of a row of entries that is a program over the tokens of the text, and of its sites.
    pub fn new(
        alloc: Global,
        text: SourceText,
        tokens: SharedTokens,
        row: Vec<Entry>,
        sites: Items<Site>,
    ) -> Result<Program, AllocError>
        requires { HoldsSome text tokens row.items sites }
        ensures text { IfOk result (λ it. it.text ≡ text) }
        ensures tokens { IfOk result (λ it. it.tokens ≡ tokens) }
        ensures entries { IfOk result (λ it. it.entries ≡ row.items) }
        ensures typed { IfOk result (λ it. program_at text tokens row.items ≡ Some it.typed) }
    {
        let source = ProgramSource {
            text,
            tokens,
            row,
            sites,
        };
        let is_module = source.is_module();
        let source = Arc::new(alloc, source)?;
        Ok(Program {
            form: form_of(is_module, source),
        })
    }

    pub fn from_form(form: Form) -> Program
        ensures { result ≡ program_of form }
    {
        Program { form }
    }

    /// The program as a module or a script.
    pub fn form(&self) -> &Form
        ensures { program_of result.now ≡ self.now }
    {
        &self.form
    }

    /// Hands out the module or the script that it is.
    pub fn into_form(self) -> Form
        ensures { program_of result ≡ self }
    {
        let Program { form } = self;
        form
    }

    pub fn is_script(&self) -> bool
        ensures { result ≡ not (tells_module self.now.typed) }
    {
        match &self.form {
            Form::Module(_) => false,
            Form::Script(_) => true,
        }
    }

    /// Its text, its tokens and its row of entries.
    pub fn parts(&self) -> (&str, &[Token], Siblings<'_>)
        ensures reads { ReadsTokens result.0.now result.1.now }
        ensures text { result.0.now ≡ self.now.text }
        ensures tokens { result.1.now ≡ self.now.tokens }
        ensures entries { result.2.entries.now ≡ self.now.entries }
        ensures typed { program_at result.0.now result.1.now result.2.entries.now ≡ Some self.now.typed }
    {
        match &self.form {
            Form::Module(module) => module.parts(),
            Form::Script(script) => script.parts(),
        }
    }

    /// The places where it names other modules, in the order of the text.
    pub fn sites(&self) -> &[Site]
        ensures { result.now ≡ sites_of self.now.typed }
    {
        match &self.form {
            Form::Module(module) => module.sites(),
            Form::Script(script) => script.sites(),
        }
    }

    pub fn span(&self) -> Range
        ensures { result ≡ span_in self.now.typed }
    {
        match &self.form {
            Form::Module(module) => module.span(),
            Form::Script(script) => script.span(),
        }
    }

    /// What follows `#!` in its shebang.
    pub fn shebang(&self) -> Option<&str>
        ensures { MatchOption result (shebang_in self.now.typed ≡ None) (λ line. shebang_in self.now.typed ≡ Some line.now) }
    {
        match &self.form {
            Form::Module(module) => module.shebang(),
            Form::Script(script) => script.shebang(),
        }
    }

    /// One more reference to the same program.
    pub fn copy(&self) -> Result<Program, AllocError>
        ensures { IfOk result (λ copy. copy ≡ self.now) }
    {
        let form = match &self.form {
            Form::Module(module) => Form::Module(module.copy()?),
            Form::Script(script) => Form::Script(script.copy()?),
        };
        Ok(Program { form })
    }
}

fn form_of(is_module: bool, source: Arc<ProgramSource>) -> Form
    requires { (p : Typed) × Keeps (arc_value source) p × (tells_module p ≡ is_module) }
    ensures text { (program_of result).text ≡ (arc_value source).text }
    ensures tokens { (program_of result).tokens ≡ (arc_value source).tokens }
    ensures entries { (program_of result).entries ≡ (arc_value source).row.items }
    ensures typed { typed_of (arc_value source) ≡ Some (program_of result).typed }
{
    if is_module {
        Form::Module(Module::new(source))
    } else {
        Form::Script(Script::new(source))
    }
}
