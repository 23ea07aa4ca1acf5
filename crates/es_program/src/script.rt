//! Scripts.
ghost use Rattle.std.specs.Prelude.{◌≡◌, None, Some, IfOk, MatchOption};
ghost use Rattle.es_ast.specs.declared.ast.Program.TheVariants as program;
ghost use Rattle.es_lexer.specs.Reads.{ReadsTokens};
ghost use Rattle.es_site.specs.Sites.{sites_of};
ghost use Rattle.std.specs.Arc.{arc_value};
ghost use Rattle.es_ast.specs.declared.ast.Script.{Script as Typed};
ghost use Rattle.es_program.specs.Typed.{program_at, HasBody};
ghost use Rattle.es_program.specs.Sources.{typed_of, Keeps};

use crate::source::ProgramSource;
use base::Range;
use es_site::Site;
use es_syntax::Siblings;
use es_token::Token;
use std::alloc::{AllocError, Global};
use std::marker::Model;
use std::sync::Arc;

/// A script: its text, its tokens, its entries, and its sites. Its copies share all of it.
#[derive(Drop)]
pub struct Script {
    source: Arc<ProgramSource>,
}

impl Model for Script {
    ghost use Rattle.std.specs.Arc.{arc_value};
    ghost use Rattle.std.specs.Coded.{codes};
    ghost use Rattle.es_ast.specs.declared.ast.Script.{Script as Typed};
    ghost use Rattle.es_ast.specs.declared.ast.Program.TheVariants as program;
    ghost use Rattle.es_ast.specs.contracts.ast.Stmt as items;
    ghost use Rattle.es_syntax.specs.contracts.entry.Entry as entry;
    ghost use Rattle.es_program.specs.Owned.{Owned};
    ghost use Rattle.es_program.specs.Sources.{script_by, Keeps};

    ghost Value = { Owned Typed };

    ghost coded = { Prim.hlevel (codes, items.the_row.coded, entry.the_row.coded) };

    ghost view = { λ it. script_by (arc_value it.source) };

    ghost invariant = { λ it. Keeps (arc_value it.source) (program.Script (script_by (arc_value it.source)).typed) };
}

impl Script {
    /// Of what holds a script.
    #[tactic(auto, using(crate::proofs::Owners::script_keeps))]
    pub fn new(source: Arc<ProgramSource>) -> Script
        requires { (it : Typed) × Keeps (arc_value source) (program.Script it) }
        ensures text { result.text ≡ (arc_value source).text }
        ensures tokens { result.tokens ≡ (arc_value source).tokens }
        ensures entries { result.entries ≡ (arc_value source).row.items }
        ensures typed { typed_of (arc_value source) ≡ Some (program.Script result.typed) }
    {
        Script { source }
    }

    fn source(&self) -> &ProgramSource
        ensures text { result.now.text ≡ self.now.text }
        ensures tokens { result.now.tokens ≡ self.now.tokens }
        ensures entries { result.now.row.items ≡ self.now.entries }
        ensures keeps { Keeps result.now (program.Script self.now.typed) }
    {
        &self.source
    }

    /// Its text, its tokens and its row of entries.
    pub fn parts(&self) -> (&str, &[Token], Siblings<'_>)
        ensures reads { ReadsTokens result.0.now result.1.now }
        ensures text { result.0.now ≡ self.now.text }
        ensures tokens { result.1.now ≡ self.now.tokens }
        ensures entries { result.2.entries.now ≡ self.now.entries }
        ensures typed { program_at result.0.now result.1.now result.2.entries.now ≡ Some (program.Script self.now.typed) }
    {
        let source = self.source();
        (source.text.as_str(), source.tokens.as_slice(), source.row())
    }

    /// The places where it names other modules, in the order of the text.
    pub fn sites(&self) -> &[Site]
        ensures { result.now ≡ sites_of (program.Script self.now.typed) }
    {
        self.source().sites.as_slice()
    }

    pub fn span(&self) -> Range
        ensures { result ≡ self.now.typed.span }
    {
        self.source().span()
    }

    /// What follows `#!` in its shebang.
    pub fn shebang(&self) -> Option<&str>
        ensures { MatchOption result (self.now.typed.shebang ≡ None) (λ line. self.now.typed.shebang ≡ Some line.now) }
    {
        self.source().shebang()
    }

    /// Its text, its tokens, and its statements as turns.
    pub fn body(&self) -> (&str, &[Token], Siblings<'_>)
        ensures { HasBody result.0.now result.1.now (program.Script self.now.typed) result.2.entries.now }
    {
        let source = self.source();
        (
            source.text.as_str(),
            source.tokens.as_slice(),
            source.body(),
        )
    }

    /// One more reference to the same script.
    pub fn copy(&self) -> Result<Script, AllocError>
        ensures { IfOk result (λ copy. copy ≡ self.now) }
    {
        Ok(Script {
            source: self.source.clone()?,
        })
    }
}
