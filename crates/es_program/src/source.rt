//! What a program owns.
ghost use Rattle.std.specs.Prelude.{◌≡◌, Some};
ghost use Rattle.es_ast.specs.declared.ast.Program.{Program as Typed};
ghost use Rattle.es_lexer.specs.Reads.{ReadsTokens};
ghost use Rattle.es_lowering.specs.Value.{given};
ghost use Rattle.es_lowering.specs.Texts.{shebang_of};
ghost use Rattle.es_syntax.specs.Held.{there, token_there};
ghost use Rattle.es_syntax.specs.Roles.{program_in};
ghost use Rattle.es_program.specs.Typed.{is_module_node, tells_module, span_in, shebang_in, LentAs, HasBody};
ghost use Rattle.es_program.specs.Sources.{typed_of};

use crate::leaf::{shebang_at, span_at};
use crate::tokens::SharedTokens;
use base::{Items, Range};
use es_grammar::NodeKind;
use es_site::Site;
use es_syntax::{Entry, Item, Siblings, What};
use source_text::SourceText;

/// What a program owns: what its copies share.
#[derive(Drop)]
pub struct ProgramSource {
    pub text: SourceText,
    pub tokens: SharedTokens,
    pub row: Vec<Entry>,
    pub sites: Items<Site>,
}

impl ProgramSource {
    pub fn row(&self) -> Siblings<'_>
        ensures { result.entries.now ≡ self.now.row.items }
    {
        Siblings {
            entries: self.row.as_slice(),
        }
    }

    /// The node of the program.
    #[tactic(auto, unfolding(crate::specs::Typed::program_at))]
    fn node(&self) -> Option<Item<'_>>
        ensures { typed_of self.now ≡ program_in (there self.now.text self.now.tokens result) }
    {
        self.row().part(0)
    }

    /// Whether the program is a module.
    #[tactic(auto, using(crate::proofs::Programs::module_told))]
    pub fn is_module(&self) -> bool
        ensures { (p : Typed) → typed_of self.now ≡ Some p → tells_module p ≡ result }
    {
        match self.node() {
            Some(node) => is_module_node(node.what),
            None => false,
        }
    }

    /// The range of the program.
    #[tactic(auto, using(crate::proofs::Programs::span_told))]
    pub fn span(&self) -> Range
        ensures { (p : Typed) → typed_of self.now ≡ Some p → span_in p ≡ result }
    {
        match self.node() {
            Some(node) => span_at(self.tokens.as_slice(), node.from as usize, node.to as usize),
            None => Range { start: 0, end: 0 },
        }
    }

    /// What follows `#!`.
    #[tactic(auto, using(crate::proofs::Programs::line_told))]
    pub fn shebang(&self) -> Option<&str>
        requires { ReadsTokens self.now.text self.now.tokens }
        ensures { (p : Typed) → typed_of self.now ≡ Some p → LentAs result (shebang_in p) }
    {
        match self.node() {
            Some(node) => self.line_at(node.parts.group_at(0).token_at(0)),
            None => None,
        }
    }

    /// What follows `#!` in a token that is a shebang.
    fn line_at(&self, at: Option<u32>) -> Option<&str>
        requires { ReadsTokens self.now.text self.now.tokens }
        ensures { LentAs result (given (token_there self.now.tokens at) (shebang_of self.now.text)) }
    {
        match at {
            Some(at) => shebang_at(self.text.as_str(), self.tokens.as_slice(), at as usize),
            None => None,
        }
    }

    /// The items of a module, or the statements of a script, as turns.
    #[tactic(auto, using(crate::proofs::Programs::body_told))]
    pub fn body(&self) -> Siblings<'_>
        ensures { (p : Typed) → typed_of self.now ≡ Some p
            → HasBody self.now.text self.now.tokens p result.entries.now }
    {
        match self.node() {
            Some(node) => node.parts.group_at(1),
            None => Siblings { entries: &[] },
        }
    }
}

fn is_module_node(what: What) -> bool
    ensures { result ≡ is_module_node what }
{
    match what {
        What::Node(label) => label == NodeKind::Module,
        What::Leaf => false,
        What::Role(_) => false,
        What::Parts => false,
        What::Lean(_) => false,
    }
}
