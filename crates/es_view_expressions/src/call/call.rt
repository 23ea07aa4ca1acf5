//! Chains of calls and members, `new`, `super`, `import`.

ghost use Rattle.std.specs.Prelude.{◌≡◌, ℕ, List, IfSome, IfNone};
ghost use Rattle.base.specs.declared.range.Range.{Range};
ghost use Rattle.es_token.specs.declared.token.Token.{Token as Tok};
ghost use Rattle.es_lowering.specs.Expressions.{import_call, new_, chain};
ghost use Rattle.es_lowering.specs.TypedExpressions.{typed_new};
ghost use Rattle.es_lowering.specs.Texts.{span_of};
ghost use Rattle.es_syntax.specs.Held.{held, valued};
ghost use Rattle.es_syntax.specs.Roles.{expr_in};
ghost use Rattle.es_syntax.specs.Views.{IsNone};
ghost use Rattle.es_view_expressions.specs.call.Call.{calls, the_call, IsBelow};

use es_ast::ImportPhase;
use es_grammar::NodeKind;
use es_syntax::{Item, Siblings, What};

/// What occurs along a chain. Numbers are those of tokens.
#[derive(Clone, Copy)]
pub enum Call<'a> {
    /// `super`
    Super,
    /// `import.meta`
    ImportMeta,
    /// `new.target`
    NewTarget,
    /// `import(a, b)`, `import.source(a, b)` or `import.defer(a, b)`: the second one may be absent.
    Import {
        phase: ImportPhase,
        first: Item<'a>,
        second: Siblings<'a>,
    },
    /// `new a(b)`: the arguments may be absent.
    New {
        callee: Item<'a>,
        args: Siblings<'a>,
    },
    /// `a.b(c)[d]`: its base, the first part after it, and turns of the parts after that.
    Chain {
        base: Item<'a>,
        first: Item<'a>,
        others: Siblings<'a>,
    },
    /// `new a<b>(c)`
    TypedNew {
        callee: Item<'a>,
        type_args: Siblings<'a>,
        args: Siblings<'a>,
    },
    /// A part is not there.
    Broken,
}

/// `import(a, b)` in a phase: the second one may be absent.
#[tactic(auto, unfolding(es_lowering::specs::Expressions::import_call, crate::specs::call::Call::imported))]
fn import_call<'a>(phase: ImportPhase, parts: &Siblings<'a>) -> Call<'a>
    ensures form { (x : List ℕ) (ts : List Tok) (r : Range) → import_call phase r (held x ts parts.now.entries.now) ≡ the_call x ts r result }
    ensures below { IsBelow parts.now result }
{
    match parts.part(0) {
        Some(first) => Call::Import {
            phase,
            first,
            second: parts.group_at(1),
        },
        None => Call::Broken,
    }
}

/// `new a(b)`: the arguments may be absent.
#[tactic(auto, unfolding(es_lowering::specs::Expressions::new_, crate::specs::call::Call::newed))]
fn new_<'a>(parts: &Siblings<'a>) -> Call<'a>
    ensures form { (x : List ℕ) (ts : List Tok) (r : Range) → new_ r (held x ts parts.now.entries.now) ≡ the_call x ts r result }
    ensures below { IsBelow parts.now result }
{
    match parts.part(0) {
        Some(callee) => Call::New {
            callee,
            args: parts.group_at(1),
        },
        None => Call::Broken,
    }
}

/// `a.b(c)[d]`: its base, the first part after it, and turns of the parts after that.
#[tactic(auto, unfolding(es_lowering::specs::Expressions::chain, crate::specs::call::Call::chained_of))]
fn chain<'a>(parts: &Siblings<'a>) -> Call<'a>
    ensures form { (x : List ℕ) (ts : List Tok) (r : Range) → chain r (held x ts parts.now.entries.now) ≡ the_call x ts r result }
    ensures below { IsBelow parts.now result }
{
    match parts.part(0) {
        Some(base) => match parts.part(1) {
            Some(first) => Call::Chain {
                base,
                first,
                others: parts.group_at(2),
            },
            None => Call::Broken,
        },
        None => Call::Broken,
    }
}

/// `new a<b>(c)`
#[tactic(auto, unfolding(es_lowering::specs::TypedExpressions::typed_new, crate::specs::call::Call::typed_newed))]
fn typed_new<'a>(parts: &Siblings<'a>) -> Call<'a>
    ensures form { (x : List ℕ) (ts : List Tok) (r : Range) → typed_new r (held x ts parts.now.entries.now) ≡ the_call x ts r result }
    ensures below { IsBelow parts.now result }
{
    match parts.part(0) {
        Some(callee) => Call::TypedNew {
            callee,
            type_args: parts.group_at(1),
            args: parts.group_at(2),
        },
        None => Call::Broken,
    }
}

/// What a node is as a chain of calls and members; none where it is of another alternative.
#[tactic(auto, unfolding(es_lowering::specs::Lowering::build, es_lowering::specs::Lowering::expr_of))]
pub fn call_at<'a>(node: &Item<'a>) -> Option<Call<'a>>
    ensures form { (x : List ℕ) (ts : List Tok) → IfSome result (λ view. expr_in (valued x ts node.now) ≡ the_call x ts (span_of ts node.now.from node.now.to) view) }
    ensures other { IfNone result (IsNone calls node.now.what) }
    ensures below { IfSome result (λ view. IsBelow node.now.parts view) }
{
    match node.what {
        What::Node(label) => match label {
            NodeKind::Super => Some(Call::Super),
            NodeKind::ImportMeta => Some(Call::ImportMeta),
            NodeKind::NewTarget => Some(Call::NewTarget),
            NodeKind::ImportCall => Some(import_call(ImportPhase::Evaluation, &node.parts)),
            NodeKind::SourceCall => Some(import_call(ImportPhase::Source, &node.parts)),
            NodeKind::DeferCall => Some(import_call(ImportPhase::Defer, &node.parts)),
            NodeKind::New => Some(new_(&node.parts)),
            NodeKind::Chain => Some(chain(&node.parts)),
            NodeKind::TypedNew => Some(typed_new(&node.parts)),
            _ => None,
        },
        What::Leaf => None,
        What::Role(_) => None,
        What::Parts => None,
        What::Lean(_) => None,
    }
}
