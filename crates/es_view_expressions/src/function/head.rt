//! The parts of a function.

ghost use Rattle.std.specs.Prelude.{◌≡◌, ℕ, List};
ghost use Rattle.base.specs.declared.range.Range.{Range};
ghost use Rattle.es_token.specs.declared.token.Token.{Token as Tok};
ghost use Rattle.es_lowering.specs.Functions.{function};
ghost use Rattle.es_lowering.specs.TypedFunctions.{typed_function};
ghost use Rattle.es_syntax.specs.Held.{held};
ghost use Rattle.es_view_expressions.specs.function.Head.{the_head, IsBelow};

use es_syntax::{Item, Siblings};

/// The parts of a function, in place.
#[derive(Clone, Copy)]
pub enum FunctionHead<'a> {
    /// A star or none, a name or none, the parameters, the body.
    Plain {
        is_async: bool,
        is_generator: bool,
        name: Option<Item<'a>>,
        params: Item<'a>,
        body: Item<'a>,
    },
    /// The same of TypeScript: its signature, and a body or none.
    Typed {
        is_async: bool,
        is_generator: bool,
        name: Option<Item<'a>>,
        signature: Item<'a>,
        body: Siblings<'a>,
    },
    /// A part is not there.
    Broken,
}

/// A star or none, a name or none, the parameters, the body.
#[tactic(auto, unfolding(es_lowering::specs::Functions::function, crate::specs::function::Head::plain_function))]
pub fn plain_function<'a>(is_async: bool, parts: &Siblings<'a>) -> FunctionHead<'a>
    ensures form { (x : List ℕ) (ts : List Tok) (r : Range) → function x ts is_async r (held x ts parts.now.entries.now) ≡ the_head x ts r result }
    ensures below { IsBelow parts.now result }
{
    match parts.part(2) {
        Some(params) => match parts.part(3) {
            Some(body) => FunctionHead::Plain {
                is_async,
                is_generator: parts.has(0),
                name: parts.part(1),
                params,
                body,
            },
            None => FunctionHead::Broken,
        },
        None => FunctionHead::Broken,
    }
}

/// The same of TypeScript: its signature, and a body or none.
#[tactic(auto, unfolding(es_lowering::specs::TypedFunctions::typed_function, crate::specs::function::Head::typed_function))]
pub fn typed_function<'a>(is_async: bool, parts: &Siblings<'a>) -> FunctionHead<'a>
    ensures form { (x : List ℕ) (ts : List Tok) (r : Range) → typed_function x ts is_async r (held x ts parts.now.entries.now) ≡ the_head x ts r result }
    ensures below { IsBelow parts.now result }
{
    match parts.part(2) {
        Some(signature) => FunctionHead::Typed {
            is_async,
            is_generator: parts.has(0),
            name: parts.part(1),
            signature,
            body: parts.group_at(3),
        },
        None => FunctionHead::Broken,
    }
}
