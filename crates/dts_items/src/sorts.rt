//! What declarations are by the rules.

ghost use Rattle.std.specs.Prelude.{◌≡◌, Bool, ℕ, List};
ghost use Rattle.base.specs.declared.range.Range.{Range};
ghost use Rattle.es_token.specs.declared.token.Token.{Token as Tok};
ghost use Rattle.es_ast.specs.declared.ast.Decl.TheVariants as vDecl;
ghost use Rattle.es_lowering.specs.Texts.{span_of};
ghost use Rattle.es_syntax.specs.Held.{valued};
ghost use Rattle.es_syntax.specs.Roles.{decl_in, declarable_in, variables_in};
ghost use Rattle.es_view_statements.specs.decl.Decl.{the_decl};
ghost use Rattle.es_view_statements.specs.decl.Declarable.{the_declarable};
ghost use Rattle.dts_draft.specs.Written.{IfThere};
ghost use Rattle.dts_items.specs.Sorts.{Sorted};

use crate::labels::is_using;
use es_syntax::Item;
use es_view_statements::decl::{Decl, Declarable, decl_at, declarable_at};

/// What a declaration is by the rules.
#[derive(Clone, Copy)]
pub(crate) enum Sort {
    /// A function: it is dropped where it is the body of overloads.
    Function,
    /// An interface or an alias: it stays as it is.
    Type,
    /// `using`: it stays where it is a statement.
    Using,
    Other,
}

/// Of variables.
fn variables_sort(it: &Item<'_>) -> Sort
    ensures { (x : List ℕ) (ts : List Tok) (declare : Bool) (r : Range) → IfThere (λ v. Sorted result r (vDecl.Var declare v.0 v.1 r)) (variables_in (valued x ts it.now)) }
{
    if is_using(it) {
        return Sort::Using;
    }
    Sort::Other
}

/// Of what may follow `declare`, by its view.
#[tactic(auto, using(crate::proofs::SortLemmas::function_view, crate::proofs::SortLemmas::class_view, crate::proofs::SortLemmas::interface_view, crate::proofs::SortLemmas::alias_view, crate::proofs::SortLemmas::enum_view, crate::proofs::SortLemmas::namespace_view, crate::proofs::SortLemmas::module_view, crate::proofs::SortLemmas::global_view, crate::proofs::SortLemmas::nothing_view))]
fn declarable_view_sort(view: &Declarable<'_>) -> Sort
    ensures { (x : List ℕ) (ts : List Tok) (declare : Bool) (r span : Range) → IfThere (λ d. Sorted result r (d declare r)) (the_declarable x ts span view.now) }
{
    match view {
        Declarable::Function { .. } => Sort::Function,
        Declarable::Class { .. } => Sort::Other,
        Declarable::Interface { .. } => Sort::Type,
        Declarable::Alias { .. } => Sort::Type,
        Declarable::Enum { .. } => Sort::Other,
        Declarable::Namespace { .. } => Sort::Other,
        Declarable::Module { .. } => Sort::Other,
        Declarable::Global(_) => Sort::Other,
        Declarable::Broken => Sort::Other,
    }
}

/// Of what may follow `declare`.
fn declarable_sort(it: &Item<'_>) -> Sort
    ensures { (x : List ℕ) (ts : List Tok) (declare : Bool) (r : Range) → IfThere (λ d. Sorted result r (d declare r)) (declarable_in (valued x ts it.now)) }
{
    match declarable_at(it) {
        Some(view) => declarable_view_sort(&view),
        None => Sort::Other,
    }
}

/// Of a declaration, by its view.
#[tactic(auto, using(crate::proofs::SortLemmas::plain_function, crate::proofs::SortLemmas::plain_class, crate::proofs::SortLemmas::var_view, crate::proofs::SortLemmas::using_view, crate::proofs::SortLemmas::no_decl))]
fn decl_view_sort(view: &Decl<'_>) -> Sort
    ensures { (x : List ℕ) (ts : List Tok) (r : Range) → IfThere (Sorted result r) (the_decl x ts r view.now) }
{
    match view {
        Decl::Function { .. } => Sort::Function,
        Decl::Class(_) => Sort::Other,
        Decl::Variables(variables) => variables_sort(variables),
        Decl::Var { .. } => Sort::Other,
        Decl::Using { .. } => Sort::Using,
        Decl::Declared(inner) => declarable_sort(inner),
        Decl::DeclaredVariables(variables) => variables_sort(variables),
        Decl::Declarable(node) => declarable_sort(node),
        Decl::Broken => Sort::Other,
    }
}

/// Of a declaration.
pub(crate) fn sort_of(it: &Item<'_>) -> Sort
    ensures { (x : List ℕ) (ts : List Tok) → IfThere (Sorted result (span_of ts it.now.from it.now.to)) (decl_in (valued x ts it.now)) }
{
    match decl_at(it) {
        Some(view) => decl_view_sort(&view),
        None => Sort::Other,
    }
}
