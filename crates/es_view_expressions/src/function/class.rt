//! The parts of a class.

ghost use Rattle.std.specs.Prelude.{◌≡◌, ℕ, List};
ghost use Rattle.base.specs.declared.range.Range.{Range};
ghost use Rattle.es_token.specs.declared.token.Token.{Token as Tok};
ghost use Rattle.es_lowering.specs.Classes.{class_};
ghost use Rattle.es_lowering.specs.TypedFunctions.{typed_class};
ghost use Rattle.es_syntax.specs.Held.{held};
ghost use Rattle.es_view_expressions.specs.function.Class.{the_class, IsBelow};

use es_syntax::{Item, Siblings};

/// The parts of a class, in place. Members are turns.
#[derive(Clone, Copy)]
pub enum ClassHead<'a> {
    /// A name or none, what it extends or none, its members.
    Plain {
        name: Option<Item<'a>>,
        super_class: Siblings<'a>,
        members: Siblings<'a>,
    },
    /// The same of TypeScript: a name or none, type parameters or none, what it extends with type arguments or none, what it implements, its members.
    Typed {
        is_abstract: bool,
        name: Option<Item<'a>>,
        type_params: Siblings<'a>,
        extends: Siblings<'a>,
        implements: Siblings<'a>,
        members: Siblings<'a>,
    },
    /// A part is not there.
    Broken,
}

/// A name or none, what it extends or none, its members.
#[tactic(auto, unfolding(es_lowering::specs::Classes::class_, crate::specs::function::Class::plain_class))]
pub fn plain_class<'a>(parts: &Siblings<'a>) -> ClassHead<'a>
    ensures form { (x : List ℕ) (ts : List Tok) (r : Range) → class_ x ts r (held x ts parts.now.entries.now) ≡ the_class x ts r result }
    ensures below { IsBelow parts.now result }
{
    ClassHead::Plain {
        name: parts.part(0),
        super_class: parts.group_at(1),
        members: parts.group_at(2),
    }
}

/// The same of TypeScript: a name or none, type parameters or none, what it extends with type arguments or none, what it implements, its members.
#[tactic(auto, unfolding(es_lowering::specs::TypedFunctions::typed_class, crate::specs::function::Class::typed_class))]
pub fn typed_class<'a>(is_abstract: bool, parts: &Siblings<'a>) -> ClassHead<'a>
    ensures form { (x : List ℕ) (ts : List Tok) (r : Range) → typed_class x ts is_abstract r (held x ts parts.now.entries.now) ≡ the_class x ts r result }
    ensures below { IsBelow parts.now result }
{
    ClassHead::Typed {
        is_abstract,
        name: parts.part(0),
        type_params: parts.group_at(1),
        extends: parts.group_at(2),
        implements: parts.group_at(3),
        members: parts.group_at(4),
    }
}
