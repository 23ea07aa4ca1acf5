//! Programs.

ghost use Rattle.std.specs.Prelude.{◌≡◌, ℕ, List, IfSome, IfNone};
ghost use Rattle.base.specs.declared.range.Range.{Range};
ghost use Rattle.es_token.specs.declared.token.Token.{Token as Tok};
ghost use Rattle.es_lowering.specs.Modules.{module_, script};
ghost use Rattle.es_lowering.specs.Texts.{span_of};
ghost use Rattle.es_syntax.specs.Held.{held, valued};
ghost use Rattle.es_syntax.specs.Roles.{program_in};
ghost use Rattle.es_syntax.specs.Views.{IsNone};
ghost use Rattle.es_view_modules.specs.items.Program.{programs, the_program, IsBelow};

use es_grammar::NodeKind;
use es_syntax::{Item, Siblings, What};

/// A program, with its parts as cursors.
#[derive(Clone, Copy)]
pub enum Program<'a> {
    /// A module: a `#!` line or none, and its items as turns.
    Module {
        shebang: Siblings<'a>,
        body: Siblings<'a>,
    },
    /// A script: a `#!` line or none, and its statements as turns.
    Script {
        shebang: Siblings<'a>,
        body: Siblings<'a>,
    },
    /// A part is not there.
    Broken,
}

/// A module: a `#!` line or none, and its items as turns.
#[tactic(auto, unfolding(es_lowering::specs::Modules::module_, crate::specs::items::Program::module_of))]
fn module<'a>(parts: &Siblings<'a>) -> Program<'a>
    ensures form { (x : List ℕ) (ts : List Tok) (r : Range) → module_ x ts r (held x ts parts.now.entries.now) ≡ the_program x ts r result }
    ensures below { IsBelow parts.now result }
{
    Program::Module {
        shebang: parts.group_at(0),
        body: parts.group_at(1),
    }
}

/// A script: a `#!` line or none, and its statements as turns.
#[tactic(auto, unfolding(es_lowering::specs::Modules::script, crate::specs::items::Program::script_of))]
fn script<'a>(parts: &Siblings<'a>) -> Program<'a>
    ensures form { (x : List ℕ) (ts : List Tok) (r : Range) → script x ts r (held x ts parts.now.entries.now) ≡ the_program x ts r result }
    ensures below { IsBelow parts.now result }
{
    Program::Script {
        shebang: parts.group_at(0),
        body: parts.group_at(1),
    }
}

/// What a node is as a program; none where it is of another alternative.
#[tactic(auto, unfolding(es_lowering::specs::Lowering::build, es_lowering::specs::Lowering::program_of))]
pub fn program_at<'a>(node: &Item<'a>) -> Option<Program<'a>>
    ensures form { (x : List ℕ) (ts : List Tok) → IfSome result (λ view. program_in (valued x ts node.now) ≡ the_program x ts (span_of ts node.now.from node.now.to) view) }
    ensures other { IfNone result (IsNone programs node.now.what) }
    ensures below { IfSome result (λ view. IsBelow node.now.parts view) }
{
    match node.what {
        What::Node(label) => match label {
            NodeKind::Module => Some(module(&node.parts)),
            NodeKind::Script => Some(script(&node.parts)),
            _ => None,
        },
        What::Leaf => None,
        What::Role(_) => None,
        What::Parts => None,
        What::Lean(_) => None,
    }
}
